// The states of a program, and the lines of their instructions.
ghost use Rattle.std.specs.Prelude.{[]};
ghost use Rattle.ant_base.specs.Sink.{Pushed};
ghost use Rattle.ant_asm.specs.StateLines.{state_lines_text};
ghost use Rattle.ant_asm.specs.Inner.Outlines.{AreListed, main_of, outline_at, told_lines};
ghost use Rattle.ant_asm.specs.Inner.Walks.{met_lines};
ghost use Rattle.ant_asm.specs.Inner.Ways.{steps_of};

use crate::level::Level;
use crate::named::NamedBody;
use crate::source::Source;
use crate::walk::{Met, Walk};
use crate::way::Uses;
use ant_base::{Failed, Layout, Sink, layout};

/// The line of the instruction of each state of a source.
#[derive(Clone, Copy)]
pub struct StateLines<'s>(pub &'s Source);

/// A line for each state, in order: the state, counted from 0, and the line of its instruction, counted from 1, such as
/// `3 12`. If the instruction is in a block that is used, a space and the uses on the way follow, from main on, with
/// `/` between them. Each use is the name of its block, `@` and its line, such as `10 5 out_to_1@77/step@23`. Lines are
/// pushed one by one, and it takes no memory.
impl Layout for StateLines<'_> {
    ghost use Rattle.ant_asm.specs.StateLines.{state_lines_text};

    ghost text = { λ lines. state_lines_text lines.0.now.lines };

    fn push_to<K: Sink>(&self, sink: &mut K) -> Result<(), Failed> {
        let source = self.0;
        push_lines(&source.bodies, sink)
    }
}

// Pushes the lines of the states of main, which is the last of the bodies, and those of all bodies that it uses.
fn push_lines<K: Sink>(bodies: &[NamedBody], sink: &mut K) -> Result<(), Failed>
    requires { AreListed bodies.now }
    ensures { Pushed (K.state sink.old) (K.state sink.new) (state_lines_text (told_lines (outline_at bodies.now (main_of bodies.now)) 0 [])) result }
{
    let mut walk = Walk::new(bodies);
    while let Some(met) = walk.step() {
        push_met(met, walk.outer.as_slice(), sink)?;
    }
    Ok(())
}

// Pushes the line of the state of an instruction that was met.
fn push_met<K: Sink>(met: Met, way: &[Level], sink: &mut K) -> Result<(), Failed>
    ensures { Pushed (K.state sink.old) (K.state sink.new) (state_lines_text (met_lines met (steps_of way.now))) result }
{
    match met {
        Met::Nothing => Ok(()),
        Met::Instruction { at, line } => { layout!(at, " ", line, Uses(way), "\n").push_to(sink) }
        Met::Body(_) => Ok(()),
    }
}
