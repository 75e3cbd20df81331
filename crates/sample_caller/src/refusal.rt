// Files that are refused, and the text about them.
use ant_base::{Failed, FetchFault, Layout, Sink, layout};
use text_fault::TextStop;

/// What is wrong with a file.
#[derive(Clone, Copy, Debug, PartialEq, Eq)]
pub enum FileFault {
    /// It was not fetched.
    Fetch(FetchFault),
    /// Its bytes were not opened.
    Text(TextStop),
}

/// A file that was refused: its name, and what is wrong with it. Its text is the name, a colon, and the fault's own
/// words.
#[derive(Clone, Copy, Debug)]
pub struct Refusal<'n> {
    /// The name of the file.
    pub name: &'n str,
    /// What is wrong with it.
    pub fault: FileFault,
}

impl Layout for FileFault {
    ghost use Rattle.sample_caller.specs.Files.{file_fault_text};

    ghost text = { file_fault_text };

    fn push_to<K: Sink>(&self, sink: &mut K) -> Result<(), Failed> {
        match *self {
            FileFault::Fetch(fault) => fault.push_to(sink),
            FileFault::Text(stop) => stop.push_to(sink),
        }
    }
}

impl Layout for Refusal<'_> {
    ghost use Rattle.sample_caller.specs.Files.{refusal_text};

    ghost text = { λ refusal. refusal_text refusal.name.now refusal.fault };

    fn push_to<K: Sink>(&self, sink: &mut K) -> Result<(), Failed> {
        layout!(self.name, ": ", self.fault).push_to(sink)
    }
}
