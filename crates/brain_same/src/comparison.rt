// The result of comparing two brains, and its text.
ghost use Rattle.ant_base.specs.Sink.{Pushed};
ghost use Rattle.brain_same.specs.declared.comparison.Comparison.TheVariants.{Different};
ghost use Rattle.brain_same.specs.Text.{comparison_text, found_text};

use ant_base::{Failed, Layout, Sink, layout};
use brain_read::Instr;

/// A state of a brain, from 0, and its instruction (the task's neurology).
#[derive(Clone, Copy)]
pub struct Found {
    /// The state.
    pub state: u16,
    /// Its instruction.
    pub instruction: Instr,
}

/// Whether two brains are the same except for the numbers of their states, and if not, where they first differ.
#[derive(Clone, Copy)]
pub enum Comparison {
    /// They are the same.
    Same,
    /// After this number of answers, and no fewer, the two brains are in states whose instructions differ in more than
    /// the states that they name.
    Different {
        answers: u32,
        first: Found,
        second: Found,
    },
}

/// The text is `same`; or three lines: after how many answers the brains differ, and for each brain its state at that
/// point and the state's instruction. Each line ends in LF.
impl Layout for Comparison {
    ghost text = { comparison_text };

    #[tactic(auto, unfolding(crate::specs::Text::comparison_text))]
    fn push_to<K: Sink>(&self, sink: &mut K) -> Result<(), Failed> {
        match *self {
            Comparison::Same => "same\n".push_to(sink),
            Comparison::Different {
                answers,
                first,
                second,
            } => push_difference(answers, first, second, sink),
        }
    }
}

// The three lines of a difference.
#[tactic(auto, unfolding(crate::specs::Text::comparison_text))]
fn push_difference<K: Sink>(
    answers: u32,
    first: Found,
    second: Found,
    sink: &mut K,
) -> Result<(), Failed>
    ensures { Pushed (K.state sink.old) (K.state sink.new) (comparison_text (Different answers first second)) result }
{
    layout!(
        "different after ",
        answers,
        " answers\nfirst ",
        first,
        "second ",
        second
    )
    .push_to(sink)
}

/// The state, a colon and the canonical line of its instruction.
impl Layout for Found {
    ghost text = { found_text };

    #[tactic(auto, unfolding(crate::specs::Text::found_text))]
    fn push_to<K: Sink>(&self, sink: &mut K) -> Result<(), Failed> {
        layout!(self.state, ": ", self.instruction).push_to(sink)
    }
}
