// The labels and states of a program's text.
ghost use Rattle.std.specs.Prelude.{◌≤◌, length, IfOk, IfErr};
ghost use Rattle.ant_base.specs.Answers.{AnswersFault, AnswersValue, IsFaultOr};
ghost use Rattle.ant_base.specs.Shelf.{longest};
ghost use Rattle.ant_asm.specs.Source.{IsSourceOf, ReadSource};
ghost use Rattle.ant_asm.specs.Text.{IsAsmFault};
ghost use Rattle.ant_asm.specs.declared.fault.AsmFault.TheVariants.{OutOfMemory};

use crate::fault::AsmFault;
use crate::named::NamedBody;
use crate::outline::read_outlines;
use crate::program::read_bodies;
use std::alloc::Global;
use std::marker::Model;

/// The labels and the states of a labelled program (this project's own). Each label has the state to which it leads,
/// and each state has the line of its instruction. Both have the uses on the way to their body. Contracts see the two
/// lists in order. Only the names in the text's lines are kept, however many labels, states and uses there are.
#[derive(Drop)]
pub struct Source {
    pub(crate) bodies: Vec<NamedBody>,
}

impl Model for Source {
    ghost use Rattle.ant_asm.specs.Source.{ReadSource};
    ghost use Rattle.ant_asm.specs.Inner.Outlines.{AreListed, source_seen};

    ghost Value = { ReadSource };

    ghost view = { λ source. source_seen source.bodies.items };

    ghost invariant = { λ source. AreListed source.bodies.items };
}

/// The labels and the states of a labelled program of at most 4,194,304 bytes, or the text's fault. The fault is the
/// one that `assemble` returns. `OutOfMemory` may be returned for any text; every other result follows from the text
/// alone.
pub fn read_source(alloc: Global, text: &[u8]) -> Result<Source, AsmFault>
    requires { length text.now ≤ longest }
    ensures source { IfOk result (IsSourceOf text.now) }
    ensures fault { IfErr result (IsFaultOr OutOfMemory (IsAsmFault text.now)) }
    ensures every_source { (source : ReadSource) → IsSourceOf text.now source → AnswersValue OutOfMemory result source }
    ensures every_fault { (fault : AsmFault) → IsAsmFault text.now fault → AnswersFault OutOfMemory result fault }
{
    let _program = read_bodies(alloc, text)?;
    let bodies = read_outlines(alloc, text)?;
    Ok(Source { bodies })
}
