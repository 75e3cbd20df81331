// How a run ended, why a command stopped, and the line that says so.
ghost use Rattle.std.specs.Prelude.{◌≡◌};
ghost use Rattle.ant_commands.specs.FaultLines.{file_fault_text, ending_by, ending_status, plain_ending, reason_of, reason_text, fault_line, status_of};
ghost use Rattle.ant_commands.specs.Inner.Plans.{play_ending};
ghost use Rattle.ant_commands.specs.Inner.Reading.{ending_of, push_ending};

use crate::status::Status;
use ant_base::{Failed, FetchFault, Layout, Sink, layout};
use break_view::BreakFault;
use cell_world::Score;
use match_run::{OutOfMemory, PlayFault};
use std::alloc::AllocFailed;
use text_fault::TextFault;
use world_gen::GenFault;

/// Why a file was refused.
#[derive(Clone, Copy)]
pub enum FileFault {
    /// Its text is refused.
    Text(TextFault),
    /// It is not a list of breaks.
    Breaks(BreakFault),
}

/// Why a command stopped before its whole text was written.
#[derive(Clone, Copy)]
pub enum CommandStop<'w> {
    /// The file with this name was not read.
    Read(&'w str),
    /// The output failed.
    Write,
    /// The file with this name was refused.
    Input(&'w str, FileFault),
    /// This element of a world to be generated, counted from 0, has no room.
    NoRoom(u32),
    /// Memory ran out.
    Memory,
}

/// The result of a command that pushed its text last.
pub fn after_push<'w>(pushed: Result<(), Failed>) -> Result<(), CommandStop<'w>>
    ensures { ending_of result ≡ push_ending pushed }
{
    pushed?;
    Ok(())
}

/// The result of a command that played a game last.
pub fn after_play<'w>(played: Result<Score, PlayFault>) -> Result<(), CommandStop<'w>>
    ensures { ending_of result ≡ play_ending played }
{
    played?;
    Ok(())
}

/// The result of a command that pushed the games of a cup last.
pub fn after_cup<'w>(told: Result<(), PlayFault>) -> Result<(), CommandStop<'w>>
    ensures { ending_of result ≡ play_ending told }
{
    told?;
    Ok(())
}

/// How a run of the program ended.
#[derive(Clone, Copy)]
pub enum Ended<'w> {
    /// The whole text was written.
    Done,
    /// The words are not a command, and this word, counted from 1, is the refused one.
    RefusedWord(usize),
    /// The words are a command, which stopped.
    Stopped(CommandStop<'w>),
}

impl<'w> Ended<'w> {
    /// The ending of a command with this result.
    pub fn after(answer: Result<(), CommandStop<'w>>) -> Self
        ensures { plain_ending result ≡ ending_by (ending_of answer.entry) }
    {
        match answer {
            Ok(()) => Ended::Done,
            Err(stop) => Ended::Stopped(stop),
        }
    }

    /// The status of a run with this ending.
    pub fn status(&self) -> Status
        ensures { result ≡ ending_status (plain_ending self.now) }
    {
        match self {
            Ended::Done => Status::Done,
            Ended::RefusedWord(_) => Status::Words,
            Ended::Stopped(stop) => stop.status(),
        }
    }
}

impl From<Failed> for CommandStop<'_> {
    ghost use Rattle.ant_commands.specs.declared.stop.CommandStop.TheVariants.{Write};

    ghost from_gives = { λ _ stop. stop ≡ Write };

    fn from(_: Failed) -> Self {
        CommandStop::Write
    }
}

impl From<OutOfMemory> for CommandStop<'_> {
    ghost use Rattle.ant_commands.specs.declared.stop.CommandStop.TheVariants.{Memory};

    ghost from_gives = { λ _ stop. stop ≡ Memory };

    fn from(_: OutOfMemory) -> Self {
        CommandStop::Memory
    }
}

impl<T: Drop> From<AllocFailed<T>> for CommandStop<'_> {
    ghost use Rattle.ant_commands.specs.declared.stop.CommandStop.TheVariants.{Memory};

    ghost from_gives = { λ _ stop. stop ≡ Memory };

    fn from(_: AllocFailed<T>) -> Self {
        CommandStop::Memory
    }
}

impl From<PlayFault> for CommandStop<'_> {
    ghost use Rattle.ant_commands.specs.Inner.Plans.{stop_of};

    ghost from_gives = { λ fault stop. stop ≡ stop_of fault };

    fn from(fault: PlayFault) -> Self {
        match fault {
            PlayFault::WriteFault => CommandStop::Write,
            PlayFault::OutOfMemory => CommandStop::Memory,
        }
    }
}

impl Layout for FileFault {
    ghost text = { file_fault_text };

    fn push_to<K: Sink>(&self, sink: &mut K) -> Result<(), Failed> {
        match *self {
            FileFault::Text(fault) => fault.push_to(sink),
            FileFault::Breaks(fault) => fault.push_to(sink),
        }
    }
}

// The text of a stop, without the program's name.
#[derive(Clone, Copy)]
struct StopWords<'s>(CommandStop<'s>);

impl Layout for StopWords<'_> {
    ghost text = { λ words. reason_text (reason_of words.0) };

    fn push_to<K: Sink>(&self, sink: &mut K) -> Result<(), Failed> {
        match self.0 {
            CommandStop::Read(name) => layout!(name, ": ", FetchFault::Failed).push_to(sink),
            CommandStop::Write => Failed.push_to(sink),
            CommandStop::Input(name, fault) => layout!(name, ": ", fault).push_to(sink),
            CommandStop::NoRoom(element) => GenFault::NoRoom { element }.push_to(sink),
            CommandStop::Memory => OutOfMemory.push_to(sink),
        }
    }
}

impl Layout for CommandStop<'_> {
    ghost text = { λ stop. fault_line (reason_of stop) };

    #[tactic(auto, unfolding(crate::specs::FaultLines::fault_line))]
    fn push_to<K: Sink>(&self, sink: &mut K) -> Result<(), Failed> {
        layout!("ants: ", StopWords(*self), "\n").push_to(sink)
    }
}

impl CommandStop<'_> {
    /// The status of a command with this stop.
    pub fn status(&self) -> Status
        ensures { result ≡ status_of (reason_of self.now) }
    {
        match self {
            CommandStop::Read(_) => Status::Read,
            CommandStop::Write => Status::Write,
            CommandStop::Input(_, _) | CommandStop::NoRoom(_) => Status::Input,
            CommandStop::Memory => Status::Memory,
        }
    }
}
