// A text that is assembled: its brain, and the places of the brain's instructions.
ghost use Rattle.std.specs.Prelude.{◌≡◌, ◌≤◌, ℕ, List, length, IfOk, IfErr, ◌<◌};
ghost use Rattle.brain_read.specs.Soundness.{IsBrain};
ghost use Rattle.ant_base.specs.Answers.{AnswersFault, IsFaultOr};
ghost use Rattle.ant_base.specs.Shelf.{longest};
ghost use Rattle.ant_asm.specs.declared.body.Body.{Body};
ghost use Rattle.ant_asm.specs.declared.fault.AsmFault.{AsmFault};
ghost use Rattle.ant_asm.specs.declared.fault.AsmFault.TheVariants as fault_kinds;
ghost use Rattle.ant_asm.specs.Program.{Items};
ghost use Rattle.ant_asm.specs.Text.{IsAsmFault, IsAsmText};
ghost use Rattle.ant_asm.specs.Answers.{AnswersProgram, IsAssembledText, PlaysText};
ghost use Rattle.ant_asm.specs.Places.{places};
ghost use Rattle.ant_asm.specs.Inner.Emission.{emitted, main_numbers};
ghost use Rattle.ant_asm.specs.Inner.Flat.{tree_at};
ghost use Rattle.ant_asm.specs.Inner.ProgramView.{AreBodiesOf, last_of};

use crate::body::Body;
use crate::expand::{Expansion, expand};
use crate::fault::AsmFault;
use crate::places::Places;
use crate::program::read_bodies;
use brain_read::Brain;
use hex_geometry::OutOfMemory;
use std::alloc::Global;

/// A labelled program's brain, and its places: the address of each of the brain's instructions, by state.
#[derive(Drop)]
pub struct Assembled {
    pub brain: Brain,
    pub places: Places,
}

/// The brain of a labelled program of at most 4,194,304 bytes, with the address of each of its instructions, or the
/// text's fault. `OutOfMemory` may be returned for any text; every other result follows from the text alone, since
/// every text has one program or one fault. The places are the addresses of all instructions of main's expansion, in
/// order. The brain's instruction `i` is the one at place `i`; for each label it has the number of the place to which
/// the label leads.
///
/// For `go:\nMove go next\nTurn Left go\n` it returns the brain `Move 0 1`, `Turn Left 0`. For `Move go go\n` it
/// returns `NoLabel { line: 1 }`, and for `go:\n` `Empty`.
pub fn assemble(alloc: Global, text: &[u8]) -> Result<Assembled, AsmFault>
    requires { length text.now ≤ longest }
    ensures program { IfOk result (λ made. IsAssembledText text.now made.brain made.places) }
    ensures fault { IfErr result (IsFaultOr fault_kinds.OutOfMemory (IsAsmFault text.now)) }
    ensures every_program { (main : Items) → IsAsmText text.now main → AnswersProgram result main }
    ensures every_fault { (fault : AsmFault) → IsAsmFault text.now fault → AnswersFault fault_kinds.OutOfMemory result fault }
    ensures plays { PlaysText text.now result }
{
    let bodies = read_bodies(alloc, text)?;
    let made = expand_main(alloc, &bodies)?;
    Ok(with_brain(made))
}

// The instructions of main, which is the last body, and their addresses.
fn expand_main(alloc: Global, bodies: &[Body]) -> Result<Expansion, OutOfMemory>
    requires { (text : List ℕ) × AreBodiesOf text bodies.now }
    ensures list { IfOk result (λ made. made.list.items ≡ emitted (tree_at bodies.now (last_of bodies.now)) (tree_at bodies.now (last_of bodies.now)) main_numbers 0) }
    ensures places { IfOk result (λ made. made.places.items ≡ places (tree_at bodies.now (last_of bodies.now))) }
{
    let mut out = Expansion {
        list: Vec::new(alloc),
        places: Vec::new(alloc),
    };
    expand(alloc, bodies, bodies.len() - 1, &mut out)?;
    Ok(out)
}

// The brain of the expanded program.
fn with_brain(made: Expansion) -> Assembled
    requires { IsBrain made.list.items }
    ensures brain { result.brain ≡ made.list.items }
    ensures places { result.places ≡ made.places.items }
{
    Assembled {
        brain: Brain::from_list(made.list),
        places: Places::of(made.places),
    }
}
