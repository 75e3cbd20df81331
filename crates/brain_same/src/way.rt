// The way to the first difference of two brains, and its text.
ghost use Rattle.std.specs.Prelude.{length, slice_index_or};
ghost use Rattle.ant_base.specs.Sink.{Pushed};
ghost use Rattle.brain_same.specs.declared.comparison.Comparison.TheVariants.{Different};
ghost use Rattle.brain_same.specs.Inner.Blank.{blank};
ghost use Rattle.brain_same.specs.Text.{answer_text, found_words, step_text, way_text};

use crate::comparison::{Comparison, Found};
use ant_base::{Each, Failed, Layout, NumberedTexts, Sink, layout};
use brain_read::{Draft, InstructionWords};

/// An answer on the way to a difference, which both brains give, and the states before it (the task's neurology).
#[derive(Clone, Copy)]
pub struct Step {
    /// The state of the first brain before the answer, and its instruction.
    pub first: Found,
    /// That of the second brain.
    pub second: Found,
    /// Whether the answer is met. It is met for an instruction with one answer.
    pub met: bool,
}

/// The result of comparing two brains, and the way there.
#[derive(Drop)]
pub struct Way {
    /// The result.
    pub comparison: Comparison,
    /// A step for each answer that leads to the difference, in order; none if the brains are the same.
    pub steps: Vec<Step>,
}

/// The text is `same`; or the number of answers after which the brains differ, a line for each of these answers, and
/// for each brain its state at that point, with its instruction. The line of an answer has the states before it, such
/// as `first 0: Move 1 2, second 3: Move 4 5: unmet`. Each line ends in LF.
impl Layout for Way {
    ghost text = { λ way. way_text way.comparison way.steps.items };

    #[tactic(auto, unfolding(crate::specs::Text::way_text))]
    fn push_to<K: Sink>(&self, sink: &mut K) -> Result<(), Failed> {
        match self.comparison {
            Comparison::Same => "same\n".push_to(sink),
            Comparison::Different {
                answers,
                first,
                second,
            } => push_difference(answers, &self.steps, first, second, sink),
        }
    }
}

// The lines of a difference, with those of the way.
#[tactic(auto, unfolding(crate::specs::Text::way_text))]
fn push_difference<K: Sink>(
    answers: u32,
    steps: &[Step],
    first: Found,
    second: Found,
    sink: &mut K,
) -> Result<(), Failed>
    ensures { Pushed (K.state sink.old) (K.state sink.new) (way_text (Different answers first second) steps.now) result }
{
    layout!(
        "different after ",
        answers,
        " answers\n",
        Each(StepLines(steps)),
        "first ",
        first,
        "second ",
        second
    )
    .push_to(sink)
}

// The lines of the steps of a way.
#[derive(Clone, Copy)]
struct StepLines<'s>(&'s [Step]);

impl NumberedTexts for StepLines<'_> {
    ghost count = { λ lines. length lines.0.now };

    ghost part = { λ lines at. step_text (slice_index_or lines.0.now at blank) };

    fn count(&self) -> usize {
        self.0.len()
    }

    fn push_part<K: Sink>(&self, at: usize, sink: &mut K) -> Result<(), Failed> {
        self.0[at].push_to(sink)
    }
}

/// The states before the answer with their instructions, and the answer, such as `first 0: Move 1 2, second 3: Move 4
/// 5: unmet`, with LF at the end.
impl Layout for Step {
    ghost text = { step_text };

    #[tactic(auto, unfolding(crate::specs::Text::step_text))]
    fn push_to<K: Sink>(&self, sink: &mut K) -> Result<(), Failed> {
        let first = FoundWords(self.first);
        let second = FoundWords(self.second);
        let answer = Answer(self.met);
        layout!("first ", first, ", second ", second, ": ", answer, "\n").push_to(sink)
    }
}

// A state and its instruction within a line.
#[derive(Clone, Copy)]
struct FoundWords(Found);

impl Layout for FoundWords {
    ghost text = { λ words. found_words words.0 };

    #[tactic(auto, unfolding(crate::specs::Text::found_words))]
    fn push_to<K: Sink>(&self, sink: &mut K) -> Result<(), Failed> {
        let words = InstructionWords(Draft::of(self.0.instruction));
        layout!(self.0.state, ": ", words).push_to(sink)
    }
}

// An answer as a word.
#[derive(Clone, Copy)]
struct Answer(bool);

impl Layout for Answer {
    ghost text = { λ answer. answer_text answer.0 };

    #[tactic(auto, unfolding(crate::specs::Text::answer_text))]
    fn push_to<K: Sink>(&self, sink: &mut K) -> Result<(), Failed> {
        if self.0 {
            "met".push_to(sink)
        } else {
            "unmet".push_to(sink)
        }
    }
}
