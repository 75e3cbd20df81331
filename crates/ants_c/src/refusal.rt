// Why texts were not read.
use ant_base::{Failed, Layout, Sink};
use ant_commands::FileFault;
use world_gen::GenFault;

/// What is wrong with a text, or with a world to be generated.
#[derive(Clone, Copy)]
pub enum CallFault {
    /// A text is refused.
    File(FileFault),
    /// This element has no room.
    NoRoom(u32),
}

impl Layout for CallFault {
    ghost use Rattle.ants_c.specs.Words.{fault_words};

    ghost text = { fault_words };

    fn push_to<K: Sink>(&self, sink: &mut K) -> Result<(), Failed> {
        match *self {
            CallFault::File(fault) => fault.push_to(sink),
            CallFault::NoRoom(element) => GenFault::NoRoom { element }.push_to(sink),
        }
    }
}

/// What is wrong with a text, and the number of the text among those that were passed, counted from 1. If the number is
/// 0, no text is at fault.
#[derive(Clone, Copy)]
pub struct Refusal {
    pub text: u32,
    pub fault: CallFault,
}

/// Why texts were not read.
#[derive(Clone, Copy)]
pub enum Stop {
    /// Memory ran out.
    OutOfMemory,
    /// A text was refused.
    Refused(Refusal),
}
