// The texts about a minimised brain and the new numbers of its states, pushed to a sink.
ghost use Rattle.std.specs.Prelude.{length};
ghost use Rattle.ant_base.specs.Sink.{Pushed};
ghost use Rattle.brain_minimise.specs.Text.{became_text, minimised_text, state_line, states_text};

use crate::merge::Minimised;
use crate::state_map::StateMap;
use ant_base::{Each, Failed, Layout, NumberedTexts, Sink, layout};
use brain_read::{Brain, write_brain};

/// Pushes how many states there were and how many were kept, in a comment line, and then the canonical text of the
/// minimised brain. At `Failed` a prefix of it was appended, and the sink's count of faults rose. It takes no memory.
pub fn push_minimised<K: Sink>(
    brain: &Brain,
    minimised: &Minimised,
    sink: &mut K,
) -> Result<(), Failed>
    ensures { Pushed (K.state sink.old) (K.state sink.new) (minimised_text brain.now minimised.now.brain) result }
{
    let states = brain.len();
    let kept = minimised.brain.len();
    layout!("; ", states, " states, ", kept, " kept\n").push_to(sink)?;
    write_brain(&minimised.brain, sink)
}

/// A line for each old state, in order: its number and the new one, such as `7 3`, or `9 dropped` if state 0 doesn't
/// lead to it (this project's own). New state `3` is in line 5 of the text that [`push_minimised`] pushes. At `Failed`
/// a prefix of the lines was appended, and the sink's count of faults rose. It takes no memory.
impl Layout for StateMap {
    ghost text = { states_text };

    #[tactic(auto, unfolding(crate::specs::Text::states_text))]
    fn push_to<K: Sink>(&self, sink: &mut K) -> Result<(), Failed> {
        Each(StateLines(&*self)).push_to(sink)
    }
}

// The lines of the states of a map.
#[derive(Clone, Copy)]
struct StateLines<'m>(&'m StateMap);

impl NumberedTexts for StateLines<'_> {
    ghost count = { λ lines. length lines.0.now };

    ghost part = { λ lines state. state_line lines.0.now state };

    fn count(&self) -> usize {
        self.0.len()
    }

    fn push_part<K: Sink>(&self, at: usize, sink: &mut K) -> Result<(), Failed> {
        layout!(at, " ", Became(self.0.item(at)), "\n").push_to(sink)
    }
}

// The new number of a state, or `dropped`.
#[derive(Clone, Copy)]
struct Became(Option<u16>);

impl Layout for Became {
    ghost text = { λ became. became_text became.0 };

    fn push_to<K: Sink>(&self, sink: &mut K) -> Result<(), Failed> {
        match self.0 {
            Some(number) => number.push_to(sink),
            None => "dropped".push_to(sink),
        }
    }
}
