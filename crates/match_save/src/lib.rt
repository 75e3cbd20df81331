//! Checkpoints of games: the text of a save is read, judged and written, and the game can be continued.
#![tactic(auto)]

mod ant_puts;
mod ants;
mod draft;
mod fault;
mod fields;
mod floor;
mod foods;
mod going_on;
mod head;
mod judge;
mod laws;
mod number;
mod programs;
mod read;
mod row_cell;
mod rows;
mod save_lines;
mod saved;
mod saves;
mod soil;
mod write;

pub use fault::{AlreadyAt, SaveFault};
pub use going_on::{advance, resume, resume_alone};
pub use laws::{
    advanced_saves_go_on, every_text_has_one_verdict, games_are_advanced, games_are_saved,
    saves_are_advanced, saves_are_short, saves_go_on,
};
pub use read::read_saved;
pub use saved::Saved;
pub use saves::save_of;
pub use write::write_saved;
