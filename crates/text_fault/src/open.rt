// Texts that are opened.
ghost use Rattle.std.specs.Prelude.{◌≡◌, ◌<◌, ◌≤◌, IfErr, IfOk, length};
ghost use Rattle.ant_asm.specs.Source.{IsSourceOf};
ghost use Rattle.ant_base.specs.Shelf.{longest};
ghost use Rattle.brain_read.specs.Grammar.{IsBrainText};
ghost use Rattle.world_read.specs.Opened.{IsOpeningWorld, OpensAs};
ghost use Rattle.text_fault.specs.Opens.{IsProgramOf, IsSaveWithin, Opens};
ghost use Rattle.text_fault.specs.Refusals.{IsNoBrain, IsNoProgram, IsNoSave, IsNoWorld};
ghost use Rattle.text_fault.specs.declared.fault.TextFault.TheVariants.{TooLong};
ghost use Rattle.text_fault.specs.declared.stop.TextStop.TheVariants.{Refused};

use crate::fault::TextFault;
use crate::stop::TextStop;
use ant_asm::{AsmFault, Assembled, Source, assemble, read_source};
use ant_base::LONGEST;
use brain_read::{Brain, BrainFault, read_brain};
use cell_world::World;
use match_save::{SaveFault, Saved, read_saved};
use std::alloc::Global;
use world_read::{WorldFault, read_world};

// Ok if a text isn't too long.
fn check_length(text: &[u8]) -> Result<(), TextStop>
    ensures short { IfOk result (λ _. length text.now ≤ longest) }
    ensures long { IfErr result (λ stop. (longest < length text.now) × (stop ≡ Refused TooLong)) }
{
    if text.len() > LONGEST {
        return Err(TextStop::Refused(TextFault::TooLong));
    }
    Ok(())
}

/// The opening world of a text (the task's world files), or the text's fault, or `OutOfMemory`. Rows and columns of a
/// fault are counted from 0.
pub fn open_world(alloc: Global, text: &[u8]) -> Result<World, TextStop>
    ensures opening { IfOk result IsOpeningWorld }
    ensures opens { Opens OpensAs IsNoWorld text.now result }
{
    check_length(text)?;
    match read_world(alloc, text) {
        Ok(world) => Ok(world),
        Err(WorldFault::OutOfMemory) => Err(TextStop::OutOfMemory),
        Err(fault) => Err(TextStop::Refused(TextFault::World(fault))),
    }
}

/// The brain of a text (the task's neurology), or the text's fault, or `OutOfMemory`. Lines of a fault are counted from
/// 1.
pub fn open_brain(alloc: Global, text: &[u8]) -> Result<Brain, TextStop>
    ensures { Opens IsBrainText IsNoBrain text.now result }
{
    check_length(text)?;
    match read_brain(alloc, text) {
        Ok(brain) => Ok(brain),
        Err(BrainFault::OutOfMemory) => Err(TextStop::OutOfMemory),
        Err(fault) => Err(TextStop::Refused(TextFault::Brain(fault))),
    }
}

/// The brain of a labelled program, with the address of each of its instructions, or the text's fault, or
/// `OutOfMemory`. Lines of a fault are counted from 1.
pub fn open_program(alloc: Global, text: &[u8]) -> Result<Assembled, TextStop>
    ensures { Opens IsProgramOf IsNoProgram text.now result }
{
    check_length(text)?;
    match assemble(alloc, text) {
        Ok(made) => Ok(made),
        Err(AsmFault::OutOfMemory) => Err(TextStop::OutOfMemory),
        Err(fault) => Err(TextStop::Refused(TextFault::Labelled(fault))),
    }
}

/// The labels and the states of a labelled program; it has the faults of `open_program`.
pub fn open_source(alloc: Global, text: &[u8]) -> Result<Source, TextStop>
    ensures { Opens IsSourceOf IsNoProgram text.now result }
{
    check_length(text)?;
    match read_source(alloc, text) {
        Ok(source) => Ok(source),
        Err(AsmFault::OutOfMemory) => Err(TextStop::OutOfMemory),
        Err(fault) => Err(TextStop::Refused(TextFault::Labelled(fault))),
    }
}

/// The save of a text, with at most this number of rounds done, or the text's fault, or `OutOfMemory`. Lines of a fault
/// are counted from 1. The fault of a save with more rounds done is `AlreadyAt` with their number.
pub fn open_save(alloc: Global, text: &[u8], rounds: u32) -> Result<Saved, TextStop>
    ensures { Opens (IsSaveWithin rounds) (IsNoSave rounds) text.now result }
{
    check_length(text)?;
    match read_saved(alloc, text) {
        Ok(saved) if saved.round() <= rounds => Ok(saved),
        Ok(saved) => Err(TextStop::Refused(TextFault::AlreadyAt(saved.round()))),
        Err(SaveFault::OutOfMemory) => Err(TextStop::OutOfMemory),
        Err(fault) => Err(TextStop::Refused(TextFault::Save(fault))),
    }
}
