// The files of a command, fetched and read one after another.
ghost use Rattle.std.specs.Prelude.{◌≡◌, ◌≤◌, [], ◌∷◌, length, map};
ghost use Rattle.ant_base.specs.Shelf.{longest};
ghost use Rattle.command_words.specs.Words.{texts};
ghost use Rattle.ant_commands.specs.Files.{FileContent, FileKind};
ghost use Rattle.ant_commands.specs.Inner.Cups.{files_named};
ghost use Rattle.ant_commands.specs.Inner.Reading.{FetchesFile, IsNamed, ReadsFiles, ReadsText, break_reason, fetch_reason, outcome_of};
ghost use Rattle.ant_commands.specs.FaultLines.{reason_of};

use crate::stop::{CommandStop, FileFault};
use ant_asm::{Assembled, Source};
use ant_base::{FetchFault, Shelf};
use brain_read::Brain;
use break_view::{BreakFault, Breaks, read_breaks};
use cell_world::World;
use std::alloc::Global;
use text_fault::{TextFault, TextStop, open_brain, open_program, open_source, open_world};

/// A content that the bytes of a file can be read as.
pub trait FileText: Sized {
    /// The kind of such a file.
    ghost kind: { FileKind };

    /// What was read from it.
    ghost content: { Self → FileContent };

    /// Reads the bytes of the file with this name.
    fn read<'w>(alloc: Global, name: &'w str, bytes: &[u8]) -> Result<Self, CommandStop<'w>>
        requires { length bytes.now ≤ longest }
        ensures { ReadsText content kind bytes.now name.now result };
}

impl FileText for World {
    ghost use Rattle.ant_commands.specs.Files.FileKind.{WorldFile};
    ghost use Rattle.ant_commands.specs.Files.FileContent.{WorldContent};

    ghost kind = { WorldFile };

    ghost content = { WorldContent };

    #[tactic(auto, using(crate::proofs::Texts::text_read))]
    fn read<'w>(alloc: Global, name: &'w str, bytes: &[u8]) -> Result<World, CommandStop<'w>> {
        named(name, open_world(alloc, bytes))
    }
}

impl FileText for Brain {
    ghost use Rattle.ant_commands.specs.Files.FileKind.{BrainFile};
    ghost use Rattle.ant_commands.specs.Files.FileContent.{BrainContent};

    ghost kind = { BrainFile };

    ghost content = { BrainContent };

    #[tactic(auto, using(crate::proofs::Texts::text_read))]
    fn read<'w>(alloc: Global, name: &'w str, bytes: &[u8]) -> Result<Brain, CommandStop<'w>> {
        named(name, open_brain(alloc, bytes))
    }
}

impl FileText for Breaks {
    ghost use Rattle.ant_commands.specs.Files.FileKind.{BreakFile};
    ghost use Rattle.ant_commands.specs.Files.FileContent.{BreakContent};

    ghost kind = { BreakFile };

    ghost content = { BreakContent };

    #[tactic(auto, using(crate::proofs::Texts::break_stops))]
    fn read<'w>(alloc: Global, name: &'w str, bytes: &[u8]) -> Result<Breaks, CommandStop<'w>> {
        match read_breaks(alloc, bytes) {
            Ok(breaks) => Ok(breaks),
            Err(fault) => Err(break_stop(name, fault)),
        }
    }
}

impl FileText for Assembled {
    ghost use Rattle.std.specs.Prelude.{false};
    ghost use Rattle.ant_commands.specs.Files.FileKind.{LabelledFile};
    ghost use Rattle.ant_commands.specs.Files.FileContent.{LabelledContent};

    ghost kind = { LabelledFile false };

    ghost content = { λ made. LabelledContent made.brain made.places };

    #[tactic(auto, using(crate::proofs::Texts::text_read))]
    fn read<'w>(alloc: Global, name: &'w str, bytes: &[u8]) -> Result<Assembled, CommandStop<'w>> {
        named(name, open_program(alloc, bytes))
    }
}

impl FileText for Source {
    ghost use Rattle.std.specs.Prelude.{true};
    ghost use Rattle.ant_commands.specs.Files.FileKind.{LabelledFile};
    ghost use Rattle.ant_commands.specs.Files.FileContent.{SourceContent};

    ghost kind = { LabelledFile true };

    ghost content = { SourceContent };

    #[tactic(auto, using(crate::proofs::Texts::text_read))]
    fn read<'w>(alloc: Global, name: &'w str, bytes: &[u8]) -> Result<Source, CommandStop<'w>> {
        named(name, open_source(alloc, bytes))
    }
}

/// Fetches a file: its bytes, which are at most 4,194,304.
pub fn fetch_file<'w, S: Shelf>(
    alloc: Global,
    shelf: &mut S,
    name: &'w str,
) -> Result<Vec<u8>, CommandStop<'w>>
    ensures { FetchesFile (S.state shelf.old) (S.state shelf.new) name.now result }
{
    match shelf.fetch(alloc, name) {
        Ok(bytes) => Ok(bytes),
        Err(fault) => Err(fetch_stop(name, fault)),
    }
}

/// Fetches a file, and reads its bytes.
pub fn read_file<'w, T: FileText, S: Shelf>(
    alloc: Global,
    shelf: &mut S,
    name: &'w str,
) -> Result<T, CommandStop<'w>>
    ensures { ReadsFiles (S.state shelf.old) (S.state shelf.new) (record { name = name.now; kind = T.kind } ∷ [])
        (outcome_of (λ value. T.content value ∷ []) result) }
{
    let bytes = fetch_file(alloc, shelf, name)?;
    T::read(alloc, name, &bytes)
}

/// Fetches the files with these names, and reads each before it fetches the next.
pub fn read_files<'w, T: FileText + Drop, S: Shelf>(
    alloc: Global,
    shelf: &mut S,
    names: &'w [String],
) -> Result<Vec<T>, CommandStop<'w>>
    ensures { ReadsFiles (S.state shelf.old) (S.state shelf.new) (files_named T.kind (texts names.now)) (outcome_of (λ values. map T.content values.items) result) }
{
    let mut values = Vec::new(alloc);
    for name in names {
        let value = read_file(alloc, shelf, name.as_str())?;
        values.push(value)?;
    }
    Ok(values)
}

// Why a command stops at a fetch.
fn fetch_stop<'w>(name: &'w str, fault: FetchFault) -> CommandStop<'w>
    ensures { reason_of result ≡ fetch_reason name.now fault }
{
    match fault {
        FetchFault::Failed => CommandStop::Read(name),
        FetchFault::TooLong => CommandStop::Input(name, FileFault::Text(TextFault::TooLong)),
        FetchFault::OutOfMemory => CommandStop::Memory,
    }
}

/// The content of the opened text of the file with this name, or why a command stops at it.
pub fn named<'w, T>(name: &'w str, opened: Result<T, TextStop>) -> Result<T, CommandStop<'w>>
    ensures { IsNamed name.now opened result }
{
    match opened {
        Ok(value) => Ok(value),
        Err(TextStop::OutOfMemory) => Err(CommandStop::Memory),
        Err(TextStop::Refused(fault)) => Err(CommandStop::Input(name, FileFault::Text(fault))),
    }
}

// Why a command stops at the text of breaks.
fn break_stop<'w>(name: &'w str, fault: BreakFault) -> CommandStop<'w>
    ensures { reason_of result ≡ break_reason name.now fault }
{
    match fault {
        BreakFault::OutOfMemory => CommandStop::Memory,
        other => CommandStop::Input(name, FileFault::Breaks(other)),
    }
}
