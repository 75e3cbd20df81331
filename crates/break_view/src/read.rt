// A text of breaks, read line by line.
ghost use Rattle.std.specs.Prelude.{◌≡◌, ℕ, List, ◌+◌, ◌<◌, ◌≤◌, ◌∷◌, length, vec_len, OnOk, IfOk, IfErr};
ghost use Rattle.ant_base.specs.Answers.{AnswersFault, AnswersValue, IsFaultOr};
ghost use Rattle.ant_base.specs.Shelf.{longest};
ghost use Rattle.break_view.specs.declared.breaks.Break.{Break};
ghost use Rattle.break_view.specs.declared.fault.BreakFault.{BreakFault};
ghost use Rattle.break_view.specs.declared.fault.BreakFault.TheVariants.{OutOfMemory};
ghost use Rattle.break_view.specs.Grammar.{most_breaks, IsBreakText};
ghost use Rattle.break_view.specs.Faulty.{IsBreakFault};
ghost use Rattle.line_tokens.specs.Inner.LineByLine.{judged_line, reading_from};
ghost use Rattle.break_view.specs.Inner.Verdict.{break_reader, read_text};
ghost use Rattle.break_view.specs.Inner.Answered.{FailsAs, Gives};

use crate::breaks::{Break, Breaks};
use crate::fault::{BreakFault, fault_at};
use crate::line::break_of;
use ant_base::Lines;
use line_tokens::Tokens;
use std::alloc::Global;

const MOST_BREAKS: usize = 256;

/// The breaks of a text of at most 4,194,304 bytes, or the text's fault, with its line from 1. `OutOfMemory` may be
/// returned for any text. Every other result follows from the text alone, since every text has one list of breaks or
/// one fault.
pub fn read_breaks(alloc: Global, text: &[u8]) -> Result<Breaks, BreakFault>
    requires { length text.now ≤ longest }
    ensures breaks { IfOk result (λ list. IsBreakText text.now list) }
    ensures fault { IfErr result (IsFaultOr OutOfMemory (IsBreakFault text.now)) }
    ensures every_list { (list : List Break) → IsBreakText text.now list → AnswersValue OutOfMemory result list }
    ensures every_fault { (fault : BreakFault) → IsBreakFault text.now fault → AnswersFault OutOfMemory result fault }
{
    let list = read_list(alloc, text)?;
    Ok(Breaks::from_list(list))
}

// The breaks of the lines, in order.
fn read_list(alloc: Global, text: &[u8]) -> Result<Vec<Break>, BreakFault>
    requires { length text.now ≤ longest }
    ensures lines { IfOk result (λ list. Gives (Ok list.items) (read_text text.now)) }
    ensures fault { IfErr result (λ fault. FailsAs fault (read_text text.now)) }
    ensures few { IfOk result (λ list. vec_len list ≤ most_breaks) }
{
    let mut list = Vec::new(alloc);
    let mut number = 1;
    for line in Lines::new(text) {
        read_line(line, number, &mut list)?;
        number += 1;
    }
    Ok(list)
}

// Reads the line with this number, and adds its break, if it has a token.
fn read_line(line: &[u8], number: u32, list: &mut Vec<Break>) -> Result<(), BreakFault>
    requires few { vec_len list.old ≤ most_breaks }
    ensures few { OnOk result (vec_len list.new ≤ most_breaks) }
    ensures on { (lines : List (List ℕ)) → OnOk result
        (reading_from break_reader list.new.items (number + 1) lines ≡ reading_from break_reader list.old.items number (line.now ∷ lines)) }
    ensures fault { (lines : List (List ℕ)) → IfErr result (λ fault.
        FailsAs fault (reading_from break_reader list.old.items number (line.now ∷ lines))) }
{
    let mut tokens = Tokens::new(line);
    if !tokens.has_next() {
        return Ok(());
    }
    let item = item_of(&mut tokens, number, list.len())?;
    list.push(item)?;
    Ok(())
}

// The break of a line that this number of breaks precede.
#[tactic(auto, unfolding(line_tokens::specs::Inner::LineByLine::judged_line))]
fn item_of(tokens: &mut Tokens, line: u32, before: usize) -> Result<Break, BreakFault>
    ensures read { judged_line break_reader before line tokens.old ≡ result }
    ensures few { IfOk result (λ item. before < most_breaks) }
{
    if before >= MOST_BREAKS {
        return Err(BreakFault::TooMany { line });
    }
    match break_of(tokens) {
        Ok(item) => Ok(item),
        Err(refusal) => Err(fault_at(line, refusal.fault)),
    }
}
