// A text read line by line.
ghost use Rattle.std.specs.Prelude.{◌≡◌, ℕ, List, ◌+◌, ◌<◌, ◌≤◌, ◌∷◌, length, map, vec_len, OnOk, IfOk, IfErr};
ghost use Rattle.ant_base.specs.Answers.{AnswersFault, AnswersValue, IsFaultOr};
ghost use Rattle.ant_base.specs.Shelf.{longest};
ghost use Rattle.brain_read.specs.Soundness.{most_states};
ghost use Rattle.line_tokens.specs.TokenLines.{lines_with_tokens};
ghost use Rattle.brain_read.specs.Grammar.{IsBrainText};
ghost use Rattle.brain_read.specs.Faulty.{IsBrainFault};
ghost use Rattle.brain_read.specs.declared.fault.BrainFault.{BrainFault};
ghost use Rattle.brain_read.specs.declared.fault.BrainFault.TheVariants.{OutOfMemory};
ghost use Rattle.brain_read.specs.declared.instr.Instr.{Instr};
ghost use Rattle.line_tokens.specs.Inner.LineByLine.{judged_line, read_lines, reading_from};
ghost use Rattle.brain_read.specs.Inner.Verdict.{brain_reader, settle_all, settle, read_text};
ghost use Rattle.brain_read.specs.Inner.Answered.{placed_of, FailsAs, Gives, as_judged};

use crate::brain::{Brain, MOST_STATES};
use crate::draft::Draft;
use crate::fault::BrainFault;
use crate::instr::Instr;
use crate::line::read_instruction;
use ant_base::Lines;
use line_tokens::Tokens;
use std::alloc::Global;

/// An instruction as it was read, and the number of its line.
#[derive(Clone, Copy)]
pub struct DraftLine {
    pub line: u32,
    pub draft: Draft,
}

/// The brain of a text of at most 4,194,304 bytes, or the text's fault (the task's neurology; the faults and their
/// order are this project's own). `OutOfMemory` may be returned for any text; every other result follows from the text
/// alone, since every text has one brain or one fault.
///
/// For `Move 0 1\nTurn Left 0\n` it returns the brain in which state 0 moves and state 1 turns. For `Move 0 1\n` it
/// returns `NoSuchState { line: 1, state: 1 }`, and for an empty text `Empty`.
pub fn read_brain(alloc: Global, text: &[u8]) -> Result<Brain, BrainFault>
    requires { length text.now ≤ longest }
    ensures brain { IfOk result (λ brain. IsBrainText text.now brain) }
    ensures fault { IfErr result (IsFaultOr OutOfMemory (IsBrainFault text.now)) }
    ensures every_brain { (brain : List Instr) → IsBrainText text.now brain → AnswersValue OutOfMemory result brain }
    ensures every_fault { (fault : BrainFault) → IsBrainFault text.now fault → AnswersFault OutOfMemory result fault }
{
    let list = read_instructions(alloc, text)?;
    Ok(Brain::from_list(list))
}

#[tactic(auto, unfolding(crate::specs::Inner::Verdict::read_text))]
fn read_instructions(alloc: Global, text: &[u8]) -> Result<Vec<Instr>, BrainFault>
    requires { length text.now ≤ longest }
    ensures { Gives (λ list. list.items) result (read_text text.now) }
{
    let drafts = read_drafts(alloc, text)?;
    settle(alloc, &drafts)
}

// The instructions of the lines, in order.
fn read_drafts(alloc: Global, text: &[u8]) -> Result<Vec<DraftLine>, BrainFault>
    requires { length text.now ≤ longest }
    ensures lines { Gives (λ drafts. map placed_of drafts.items) result
        (read_lines brain_reader 0 (lines_with_tokens text.now)) }
    ensures few { IfOk result (λ drafts. vec_len drafts ≤ most_states) }
{
    let mut drafts = Vec::new(alloc);
    let mut number = 1;
    for line in Lines::new(text) {
        read_line(line, number, &mut drafts)?;
        number += 1;
    }
    Ok(drafts)
}

// Reads the line with this number, and adds its instruction if it has a token.
fn read_line(line: &[u8], number: u32, drafts: &mut Vec<DraftLine>) -> Result<(), BrainFault>
    requires few { vec_len drafts.old ≤ most_states }
    ensures few { OnOk result (vec_len drafts.new ≤ most_states) }
    ensures on { (lines : List (List ℕ)) → OnOk result
        (reading_from brain_reader (map placed_of drafts.new.items) (number + 1) lines
        ≡ reading_from brain_reader (map placed_of drafts.old.items) number (line.now ∷ lines)) }
    ensures fault { (lines : List (List ℕ)) → IfErr result (λ fault.
        FailsAs fault (reading_from brain_reader (map placed_of drafts.old.items) number (line.now ∷ lines))) }
{
    let mut tokens = Tokens::new(line);
    if !tokens.has_next() {
        return Ok(());
    }
    let draft = draft_of(&mut tokens, number, drafts.len())?;
    drafts.push(DraftLine {
        line: number,
        draft,
    })?;
    Ok(())
}

// The instruction of a line after this many instructions.
#[tactic(auto, unfolding(line_tokens::specs::Inner::LineByLine::judged_line))]
fn draft_of(tokens: &mut Tokens, line: u32, before: usize) -> Result<Draft, BrainFault>
    ensures read { judged_line brain_reader before line tokens.old ≡ as_judged result }
    ensures few { IfOk result (λ draft. before < most_states) }
{
    if before >= MOST_STATES {
        return Err(BrainFault::TooMany { line });
    }
    match read_instruction(tokens) {
        Ok(draft) => Ok(draft),
        Err(refusal) => Err(BrainFault::of_line(line, refusal)),
    }
}

// The instructions, if there are some and all their states are below their number.
fn settle(alloc: Global, drafts: &[DraftLine]) -> Result<Vec<Instr>, BrainFault>
    requires { length drafts.now ≤ most_states }
    ensures { Gives (λ list. list.items) result (settle (map placed_of drafts.now)) }
{
    if drafts.is_empty() {
        return Err(BrainFault::Empty);
    }
    settle_all(alloc, drafts)
}

fn settle_all(alloc: Global, drafts: &[DraftLine]) -> Result<Vec<Instr>, BrainFault>
    requires { length drafts.now ≤ most_states }
    ensures { Gives (λ list. list.items) result (settle_all (length drafts.now) (map placed_of drafts.now)) }
{
    let states = drafts.len() as u64;
    let mut list = Vec::with_capacity(alloc, drafts.len())?;
    for each in drafts {
        match each.draft.settle(states) {
            Ok(instruction) => list.push(instruction)?,
            Err(state) => {
                return Err(BrainFault::NoSuchState {
                    line: each.line,
                    state,
                });
            }
        }
    }
    Ok(list)
}
