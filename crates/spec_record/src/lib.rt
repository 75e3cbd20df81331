//! Looks: turns computed ahead, on the world at the start of a window of turns.
//!
//! A look records what the turn of an ant reads and what it would write, by parts of cells. So it can be settled later,
//! on a world that other turns have changed meanwhile: if everything that it read is unchanged, the turn does what the
//! look says. All of this is this project's own, unless an item names a section of the task.
#![tactic(auto)]

mod guess;
mod look_laws;
mod moves;
mod own_look;
mod record;
mod sightings;
mod stays;
mod trail;

pub use guess::{at_flip, guess_at, guesses};
pub use look_laws::{
    looks_agree, looks_are_merged, looks_settle, looks_tell, places_count_flips, turns_are_local,
    turns_are_local_alone, turns_are_patches, turns_are_small, turns_draw_at_flips,
    turns_write_alone,
};
pub use own_look::{look, look_by, look_into};
pub use record::{Look, Sighting};
pub use trail::Trail;
