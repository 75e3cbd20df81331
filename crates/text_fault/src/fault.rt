// Why texts are refused.
use ant_asm::AsmFault;
use ant_base::{Failed, FetchFault, Layout, Sink};
use brain_read::BrainFault;
use match_save::{AlreadyAt, SaveFault};
use world_read::WorldFault;

/// What is wrong with a text, by the kind of text that it should be. It is never a reader's `OutOfMemory`.
#[derive(Clone, Copy, Debug, PartialEq, Eq)]
pub enum TextFault {
    /// It has more than 4,194,304 bytes.
    TooLong,
    /// It is not a world.
    World(WorldFault),
    /// It is not a brain.
    Brain(BrainFault),
    /// It is not a labelled program.
    Labelled(AsmFault),
    /// It is not a save.
    Save(SaveFault),
    /// It is a save with this many rounds done, more than are requested in total.
    AlreadyAt(u32),
}

impl Layout for TextFault {
    ghost use Rattle.text_fault.specs.FaultText.{text_fault_text};

    ghost text = { text_fault_text };

    fn push_to<K: Sink>(&self, sink: &mut K) -> Result<(), Failed> {
        match *self {
            TextFault::TooLong => FetchFault::TooLong.push_to(sink),
            TextFault::World(fault) => fault.push_to(sink),
            TextFault::Brain(fault) => fault.push_to(sink),
            TextFault::Labelled(fault) => fault.push_to(sink),
            TextFault::Save(fault) => fault.push_to(sink),
            TextFault::AlreadyAt(round) => AlreadyAt(round).push_to(sink),
        }
    }
}
