//! Windows of turns, settled in order from looks that were made ahead.
//!
//! A window is a run of turns of one round. Its looks are made on the world at its start. Then they are settled one
//! after another: a valid look is used, and any other turn is executed again. Whichever worker made a look, and
//! whenever, the result of the window is that of its turns one after another. The number of looks that are used depends
//! only on the turns and the window. All of this is this project's own.
#![tactic(auto)]

mod alone;
mod book;
mod counts;
mod crew;
mod field;
mod laws;
mod led;
mod one_turn;
mod passes;
mod solo;
mod verdict;
mod workspace;

pub use alone::play_window;
pub use book::{Book, lemma_valid};
pub use counts::Counts;
pub use crew::Crew;
pub use field::Field;
pub use laws::{
    books_are_reached, causes_refute, counts_add_up, every_interleaving, put_turns_settle,
    single_turns_are_taken, standing_books_settle, taken_where_it_holds,
};
pub use led::Led;
pub use one_turn::advance;
pub use solo::SoloCrew;
pub use verdict::{Cause, Verdict};
