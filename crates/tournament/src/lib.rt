//! Cups: every brain plays every other, on every world, once with each colour.
//!
//! In a gauntlet only the first brain's games are played. Each game may be played with several [`Seeds`].
//!
//! Players and worlds are numbered from 0. On each world, in rising order, each pair of players i below j plays twice:
//! i as red against j, and then j as red against i. The side with the greater score wins a game and gets 2 points;
//! equal scores are a draw, which gives 1 point to each side (the task's game play). The standing has a line for each
//! player, in order of falling points, and for equal points in order of rising player numbers.
//!
//! A [`Referee`] returns the score of a game, so this crate knows no brain and no world. [`play_all`] plays all games
//! with several workers: it cuts the list of games into contiguous pieces and plays each piece in its own thread.
//! [`play_all_by`] takes the function that plays the games, such as [`play_games`] or [`play_games_alone`], which needs
//! no threads. [`play_and_print`] takes such a function too, plays world by world, and pushes the lines of a world's
//! games after playing them, as a [`Format`] says. The standing is always that of the referee's scores.
//! [`push_standing`] prints it with the players' [`Names`]. Pieces, texts and names are this project's own. The crate
//! depends on `cell_world` for the score and on `ant_base` for texts, and on no rule of the game.
#![tactic(auto)]

mod existence;
mod fork;
mod format;
mod games;
mod games_printed;
mod laws;
mod names;
mod pieces;
mod play;
mod referee;
mod standing;
mod tally;
mod text;

pub use ant_base::PushFault;
pub use existence::has_standing;
pub use format::{Format, Seeds};
pub use games::{Pairing, Played};
pub use games_printed::{play_and_print, push_games};
pub use hex_geometry::OutOfMemory;
pub use laws::{games_add_up, one_standing, points_add_up, wins_are_losses};
pub use names::{Added, Names};
pub use play::{play_all, play_all_by, play_games, play_games_alone, play_worlds};
pub use referee::Referee;
pub use standing::{Line, Standing};
pub use tally::standing_of;
pub use text::{push_standing, push_standing_with};
