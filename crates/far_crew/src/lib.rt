//! A crew whose workers stay ready over all windows of a game, and get jobs and send answers by channels.
//!
//! Nothing is assumed about what a channel delivers. A job owns what it needs, an answer carries its input, and each
//! look of an answer is checked against the field before it is used: a look that agrees is the field's own. So the
//! result of a window is that of its turns one after another, whatever answers arrive, in any order, or not at all. All
//! of this is this project's own.
#![tactic(auto)]

mod agreement;
mod caller;
mod channels;
mod crew;
mod deal;
mod far;
mod found;
mod guesses;
mod job;
mod kept;
mod own_brains;
mod pick;
mod same_cells;
mod settle;

pub use agreement::agrees;
pub use crew::FarCrew;
pub use far::{Errand, with_far};
pub use found::Found;
pub use job::Job;
pub use own_brains::OwnBrains;
