//! The exact text of dumps, scores and counts.
//!
//! Each text is a value that pushes itself to a sink. Each public call pushes exactly the text that its clause names,
//! or a prefix of it if the sink failed. No call builds its text in memory. The layout is this project's own. This
//! crate depends on `ant_base` and `cell_world`.
#![tactic(auto)]

mod content;
mod lines;
mod pushes;
mod totals;

pub use content::ColourWord;
pub use lines::CellWords;
pub use pushes::{SeedWords, push_cells, push_dump, push_score, push_seed, push_stats};
pub use totals::Totals;
