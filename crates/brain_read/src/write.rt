// The canonical text of a brain, pushed to a sink.
ghost use Rattle.std.specs.Prelude.{◌≡◌, [], ◌∷◌, OnOk};
ghost use Rattle.std.specs.List.{AllByRecursion};
ghost use Rattle.ant_base.specs.Sink.{Pushed};
ghost use Rattle.brain_read.specs.Forms.{word_of_form, word_of_sight, word_of_side, word_of_condition, fields_of_condition, HasBound};
ghost use Rattle.line_tokens.specs.Fields.LineField.{Word, Number};
ghost use Rattle.brain_read.specs.declared.instr.Cond.TheVariants.{Marker};
ghost use Rattle.brain_read.specs.declared.instr.Instr.TheVariants.{Sense, Drop, Turn, Flip};
ghost use Rattle.brain_read.specs.Inner.Places.{place_of_form, place_of_sight, place_of_side, place_of_condition};
ghost use Rattle.brain_read.specs.Drafts.{drafted};
ghost use Rattle.brain_read.specs.Grammar.{IsBrainText};
ghost use Rattle.brain_read.specs.Canonical.{instruction_text, instruction_words, words_text, further_words, brain_text};

use crate::brain::Brain;
use crate::draft::Draft;
use crate::form::{ConditionWord, Form, condition_table, form_table, side_table, sight_table};
use crate::instr::{Cond, Instr};
use ant_base::{Failed, Layout, Sink, layout};
use hex_geometry::{Side, Sight};

/// Pushes the canonical text of a brain. Each instruction is one line: its words as the tables spell them and its
/// numbers without leading zeros, one space between tokens, and LF at the end. At `Failed` a prefix of it was appended,
/// and the sink's count of faults rose. It takes no memory.
pub fn write_brain<K: Sink>(brain: &Brain, sink: &mut K) -> Result<(), Failed>
    ensures pushed { Pushed (K.state sink.old) (K.state sink.new) (brain_text brain.now) result }
    ensures again { OnOk result (IsBrainText (brain_text brain.now) brain.now) }
{
    push_lines(brain.instructions(), sink)
}

#[tactic(auto, unfolding(crate::specs::Canonical::brain_text))]
fn push_lines<K: Sink>(list: &[Instr], sink: &mut K) -> Result<(), Failed>
    ensures pushed { Pushed (K.state sink.old) (K.state sink.new) (brain_text list.now) result }
    ensures bounds { OnOk result (AllByRecursion HasBound list.now) }
{
    for instruction in list {
        push_line(*instruction, sink)?;
    }
    Ok(())
}

// The line of an instruction.
fn push_line<K: Sink>(instruction: Instr, sink: &mut K) -> Result<(), Failed>
    ensures pushed { Pushed (K.state sink.old) (K.state sink.new) (instruction_text instruction) result }
    ensures bound { HasBound instruction }
{
    instruction.push_to(sink)
}

/// Its canonical line: its words as the tables spell them and its numbers without leading zeros, one space between
/// tokens, and LF at the end.
impl Layout for Instr {
    ghost text = { instruction_text };

    fn push_to<K: Sink>(&self, sink: &mut K) -> Result<(), Failed> {
        Draft::of(*self).push_to(sink)
    }
}

/// The canonical line of its instruction; its states may be of any size.
impl Layout for Draft {
    ghost text = { λ draft. instruction_text (drafted draft) };

    #[tactic(auto, using(crate::proofs::CanonicalLemmas::line_of_words))]
    fn push_to<K: Sink>(&self, sink: &mut K) -> Result<(), Failed> {
        layout!(InstructionWords(*self), "\n").push_to(sink)
    }
}

/// The words of an instruction, whose states may be of any size: its canonical line without the LF, such as `Turn Left
/// 5`. Another text can have them within a line.
#[derive(Clone, Copy, Debug, PartialEq, Eq)]
pub struct InstructionWords(pub Draft);

impl Layout for InstructionWords {
    ghost text = { λ words. instruction_words (drafted words.0) };

    #[tactic(auto, unfolding(crate::specs::Canonical::instruction_words))]
    fn push_to<K: Sink>(&self, sink: &mut K) -> Result<(), Failed> {
        match self.0 {
            Draft::Sense {
                sight,
                yes,
                no,
                cond,
            } => push_sense(sight, yes, no, cond, sink),
            Draft::Mark { mark, next } => push_numbers(Form::Mark, u64::from(mark), next, sink),
            Draft::Unmark { mark, next } => push_numbers(Form::Unmark, u64::from(mark), next, sink),
            Draft::PickUp { yes, no } => push_numbers(Form::PickUp, yes, no, sink),
            Draft::Drop { next } => push_drop(next, sink),
            Draft::Turn { side, next } => push_turn(side, next, sink),
            Draft::Move { yes, no } => push_numbers(Form::Move, yes, no, sink),
            Draft::Flip { bound, yes, no } => push_flip(bound, yes, no, sink),
        }
    }
}

#[tactic(auto, unfolding(crate::specs::Canonical::instruction_words))]
fn push_sense<K: Sink>(
    sight: Sight,
    yes: u64,
    no: u64,
    cond: Cond,
    sink: &mut K,
) -> Result<(), Failed>
    ensures { Pushed (K.state sink.old) (K.state sink.new)
        (instruction_words (Sense sight yes no cond)) result }
{
    let word = FormText(Form::Sense);
    let sight = SightText(sight);
    layout!(word, " ", sight, " ", yes, " ", no, ConditionEnd(cond)).push_to(sink)
}

// A word and two numbers.
fn push_numbers<K: Sink>(form: Form, first: u64, second: u64, sink: &mut K) -> Result<(), Failed>
    ensures { Pushed (K.state sink.old) (K.state sink.new)
        (words_text (Word (word_of_form form) ∷ Number first ∷ Number second ∷ [])) result }
{
    layout!(FormText(form), " ", first, " ", second).push_to(sink)
}

#[tactic(auto, unfolding(crate::specs::Canonical::instruction_words))]
fn push_drop<K: Sink>(next: u64, sink: &mut K) -> Result<(), Failed>
    ensures { Pushed (K.state sink.old) (K.state sink.new) (instruction_words (Drop next)) result }
{
    layout!(FormText(Form::Drop), " ", next).push_to(sink)
}

#[tactic(auto, unfolding(crate::specs::Canonical::instruction_words))]
fn push_turn<K: Sink>(side: Side, next: u64, sink: &mut K) -> Result<(), Failed>
    ensures { Pushed (K.state sink.old) (K.state sink.new) (instruction_words (Turn side next)) result }
{
    layout!(FormText(Form::Turn), " ", SideText(side), " ", next).push_to(sink)
}

#[tactic(auto, unfolding(crate::specs::Canonical::instruction_words))]
fn push_flip<K: Sink>(bound: u32, yes: u64, no: u64, sink: &mut K) -> Result<(), Failed>
    ensures { Pushed (K.state sink.old) (K.state sink.new) (instruction_words (Flip bound yes no)) result }
{
    let word = FormText(Form::Flip);
    layout!(word, " ", bound, " ", yes, " ", no).push_to(sink)
}

// The condition at the end of a line.
#[derive(Clone, Copy)]
struct ConditionEnd(Cond);

impl Layout for ConditionEnd {
    ghost text = { λ end. further_words (fields_of_condition end.0) };

    fn push_to<K: Sink>(&self, sink: &mut K) -> Result<(), Failed> {
        match self.0 {
            Cond::Friend => push_condition(ConditionWord::Friend, sink),
            Cond::Foe => push_condition(ConditionWord::Foe, sink),
            Cond::FriendWithFood => push_condition(ConditionWord::FriendWithFood, sink),
            Cond::FoeWithFood => push_condition(ConditionWord::FoeWithFood, sink),
            Cond::Food => push_condition(ConditionWord::Food, sink),
            Cond::Rock => push_condition(ConditionWord::Rock, sink),
            Cond::Marker(mark) => push_marker(mark, sink),
            Cond::FoeMarker => push_condition(ConditionWord::FoeMarker, sink),
            Cond::Home => push_condition(ConditionWord::Home, sink),
            Cond::FoeHome => push_condition(ConditionWord::FoeHome, sink),
        }
    }
}

// A condition of one word.
fn push_condition<K: Sink>(word: ConditionWord, sink: &mut K) -> Result<(), Failed>
    ensures { Pushed (K.state sink.old) (K.state sink.new)
        (further_words (Word (word_of_condition word) ∷ [])) result }
{
    layout!(" ", ConditionText(word)).push_to(sink)
}

// The condition of a marker.
fn push_marker<K: Sink>(mark: u8, sink: &mut K) -> Result<(), Failed>
    ensures { Pushed (K.state sink.old) (K.state sink.new)
        (further_words (fields_of_condition (Marker mark))) result }
{
    layout!(" ", ConditionText(ConditionWord::Marker), " ", mark).push_to(sink)
}

#[derive(Clone, Copy)]
struct FormText(Form);

impl Layout for FormText {
    ghost text = { λ form. word_of_form form.0 };

    #[tactic(auto, using(crate::proofs::FormsLemmas::form_stands))]
    fn push_to<K: Sink>(&self, sink: &mut K) -> Result<(), Failed> {
        form_table().word(form_place(self.0)).push_to(sink)
    }
}

fn form_place(form: Form) -> usize
    ensures { result ≡ place_of_form form }
{
    form as usize
}

#[derive(Clone, Copy)]
struct SightText(Sight);

impl Layout for SightText {
    ghost text = { λ sight. word_of_sight sight.0 };

    #[tactic(auto, using(crate::proofs::FormsLemmas::sight_stands))]
    fn push_to<K: Sink>(&self, sink: &mut K) -> Result<(), Failed> {
        sight_table().word(sight_place(self.0)).push_to(sink)
    }
}

fn sight_place(sight: Sight) -> usize
    ensures { result ≡ place_of_sight sight }
{
    sight as usize
}

#[derive(Clone, Copy)]
struct SideText(Side);

impl Layout for SideText {
    ghost text = { λ side. word_of_side side.0 };

    #[tactic(auto, using(crate::proofs::FormsLemmas::side_stands))]
    fn push_to<K: Sink>(&self, sink: &mut K) -> Result<(), Failed> {
        side_table().word(side_place(self.0)).push_to(sink)
    }
}

fn side_place(side: Side) -> usize
    ensures { result ≡ place_of_side side }
{
    side as usize
}

// The word that begins a condition.
#[derive(Clone, Copy)]
struct ConditionText(ConditionWord);

impl Layout for ConditionText {
    ghost text = { λ word. word_of_condition word.0 };

    #[tactic(auto, using(crate::proofs::FormsLemmas::condition_stands))]
    fn push_to<K: Sink>(&self, sink: &mut K) -> Result<(), Failed> {
        condition_table()
            .word(condition_place(self.0))
            .push_to(sink)
    }
}

fn condition_place(word: ConditionWord) -> usize
    ensures { result ≡ place_of_condition word }
{
    word as usize
}
