//! Texts that are refused: why, the words for it, and the one way in which each shell opens a text.
//!
//! A shell gets a world, a brain, a labelled program or a save as bytes, and this crate opens it. The result is the
//! text's value, or the one fault for which the text is refused. Being too long is such a fault. The result may also be
//! out of memory, which is not a fault of the text. The shells add where the text is from: a file's name, or the text's
//! number in a call. All of it is this project's own. It depends on the four readers.
#![tactic(auto)]

mod fault;
mod laws;
mod open;
mod stop;

pub use fault::TextFault;
pub use laws::every_text_has_one_verdict;
pub use open::{open_brain, open_program, open_save, open_source, open_world};
pub use stop::TextStop;
