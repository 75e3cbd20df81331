// The command `asm`.
ghost use Rattle.std.specs.Prelude.{◌||◌, ◌≡◌, false, true};
ghost use Rattle.ant_base.specs.Sink.{Pushed};
ghost use Rattle.ant_commands.specs.Jobs.{asm_job};
ghost use Rattle.ant_commands.specs.Inner.Reading.{CarriesOut, ending_of};
ghost use Rattle.ant_commands.specs.Outputs.{source_text};

use crate::files::read_file;
use crate::stop::{CommandStop, after_push};
use ant_asm::{Assembled, Labels, Source, StateLines};
use ant_base::{Failed, Layout, Shelf, Sink, layout};
use brain_read::write_brain;
use std::alloc::Global;

/// Writes the canonical text of the brain of a labelled program. If the labels or the states are requested, it writes a
/// line for each of them instead, the labels first.
pub fn asm<'w, S: Shelf, K: Sink>(
    alloc: Global,
    name: &'w str,
    labels: bool,
    lines: bool,
    shelf: &mut S,
    out: &mut K,
) -> Result<(), CommandStop<'w>>
    ensures { CarriesOut (asm_job name.now labels lines) (S.state shelf.old) (S.state shelf.new) (K.state out.old) (K.state out.new) (ending_of result) }
{
    if labels || lines {
        return asm_source(alloc, name, labels, lines, shelf, out);
    }
    asm_brain(alloc, name, shelf, out)
}

// Writes the brain.
fn asm_brain<'w, S: Shelf, K: Sink>(
    alloc: Global,
    name: &'w str,
    shelf: &mut S,
    out: &mut K,
) -> Result<(), CommandStop<'w>>
    ensures { CarriesOut (asm_job name.now false false) (S.state shelf.old) (S.state shelf.new) (K.state out.old) (K.state out.new) (ending_of result) }
{
    let made: Assembled = read_file(alloc, shelf, name)?;
    after_push(write_brain(&made.brain, out))
}

// Writes the labels, the lines of the states, or both.
fn asm_source<'w, S: Shelf, K: Sink>(
    alloc: Global,
    name: &'w str,
    labels: bool,
    lines: bool,
    shelf: &mut S,
    out: &mut K,
) -> Result<(), CommandStop<'w>>
    requires { (labels || lines) ≡ true }
    ensures { CarriesOut (asm_job name.now labels lines) (S.state shelf.old) (S.state shelf.new) (K.state out.old) (K.state out.new) (ending_of result) }
{
    let source: Source = read_file(alloc, shelf, name)?;
    after_push(push_source(&source, labels, lines, out))
}

// Pushes the labels if they are requested, and then the lines if they are requested.
fn push_source<K: Sink>(
    source: &Source,
    labels: bool,
    lines: bool,
    out: &mut K,
) -> Result<(), Failed>
    ensures { Pushed (K.state out.old) (K.state out.new) (source_text labels lines source.now) result }
{
    let labels = labels.then_some(Labels(source));
    let lines = lines.then_some(StateLines(source));
    layout!(labels, lines).push_to(out)
}
