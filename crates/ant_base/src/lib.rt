//! The outside of the simulator: where input comes from, where output goes, what workers announce, and texts as values.
//!
//! The crates above rely on five promises. A push that returns Ok appended the whole piece. A fetch that returns Ok
//! returned the content. A fault is returned only if a count of faults rose, and a fetch of a name of which the shelf
//! is sure never returns `Failed`. A gate changes nothing. A value that is a `Layout` is pushed as one exact text.
//! Lines, separators and numbers of the contest's files are read here, once for all readers.
//!
//! In this repository it depends only on lemmas. It prints numbers by `itoa`.
//!
//! Whatever names no section of the contest's task is this project's own.
#![tactic(auto)]

mod calls;
mod file_shelf;
mod files;
mod gate;
mod layout;
mod lines;
mod mem_shelf;
mod mem_sink;
mod memory;
mod number;
mod numbered_texts;
mod push_fault;
mod shelf;
mod shown;
mod sink;
mod stream_sink;
mod system;
mod system_log;
mod writer;

pub use calls::Calls;
pub use file_shelf::FileShelf;
pub use files::Files;
pub use gate::{Gate, NoGate};
pub use layout::Layout;
pub use lines::{Lines, after_separators, cut_line, is_blank, is_separator, trim_line};
pub use mem_shelf::MemShelf;
pub use mem_sink::MemSink;
pub use memory::OutOfMemory;
pub use number::{push_number, read_number, read_number_within, read_u32_within};
pub use numbered_texts::{Each, NumberedTexts};
pub use push_fault::PushFault;
pub use shelf::{FetchFault, LONGEST, Shelf};
pub use shown::{AtLine, show};
pub use sink::{Failed, Sink};
pub use stream_sink::{ErrSink, OutSink, StreamSink};
pub use system::{SureReader, System};
pub use writer::Writer;
