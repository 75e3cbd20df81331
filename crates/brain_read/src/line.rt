// One instruction from the tokens of a line.
ghost use Rattle.std.specs.Prelude.{◌≡◌, ℕ, [], ◌∷◌, Some, Ok, OnOk, IfOk, IfErr};
ghost use Rattle.brain_read.specs.declared.instr.Instr.{Instr};
ghost use Rattle.brain_read.specs.Forms.{InstrLine};
ghost use Rattle.brain_read.specs.Judgement.{first_fault};
ghost use Rattle.brain_read.specs.Judgement.Position.{FormToken};
ghost use Rattle.brain_read.specs.Refusals.{refusal_at};
ghost use Rattle.brain_read.specs.Reading as reading;
ghost use Rattle.brain_read.specs.Drafts.{drafted, as_read};
ghost use Rattle.brain_read.specs.declared.instr.Instr.TheVariants.{Mark, Unmark, PickUp, Move};

use crate::draft::Draft;
use crate::form::{Form, form_at, form_table};
use crate::positions::{bound, condition, marker, side, sight, state};
use line_tokens::{Refusal, Tokens};

/// The instruction of a line, from all its tokens: the words of its form in any ASCII case, states of 1 to 10 digits,
/// markers from 0 to 5 and bounds from 1 to 4,294,967,295 (the task's neurology). Otherwise it returns why the line is
/// refused: what is wrong with its first position at fault, and whether the token there has a bad byte. After an
/// instruction no token is left. It takes no memory.
pub fn read_instruction(tokens: &mut Tokens) -> Result<Draft, Refusal>
    ensures spelled { IfOk result (λ draft. InstrLine tokens.old (drafted draft)) }
    ensures every_instruction { (i : Instr) → InstrLine tokens.old i → as_read result ≡ Ok i }
    ensures refused { (line : ℕ) → IfErr result (λ refusal. first_fault line tokens.old (FormToken ∷ []) ≡ Some (refusal_at line refusal)) }
    ensures step { reading.read_line tokens.old ≡ as_read result }
    ensures ended { OnOk result (tokens.new ≡ []) }
{
    instruction(tokens)
}

#[tactic(auto, unfolding(crate::specs::Reading::read_line))]
fn instruction(tokens: &mut Tokens) -> Result<Draft, Refusal>
    ensures step { reading.read_line tokens.old ≡ as_read result }
    ensures ended { OnOk result (tokens.new ≡ []) }
{
    let place = tokens.word(&form_table())?;
    match form_at(place) {
        Form::Sense => sense(tokens),
        Form::Mark => mark(tokens),
        Form::Unmark => unmark(tokens),
        Form::PickUp => pick_up(tokens),
        Form::Drop => drop_food(tokens),
        Form::Turn => turn(tokens),
        Form::Move => step(tokens),
        Form::Flip => flip(tokens),
    }
}

#[tactic(auto, unfolding(crate::specs::Reading::read_sense))]
fn sense(tokens: &mut Tokens) -> Result<Draft, Refusal>
    ensures step { reading.read_sense tokens.old ≡ as_read result }
    ensures ended { OnOk result (tokens.new ≡ []) }
{
    let sight = sight(tokens)?;
    let yes = state(tokens)?;
    let no = state(tokens)?;
    let cond = condition(tokens)?;
    tokens.end()?;
    Ok(Draft::Sense {
        sight,
        yes,
        no,
        cond,
    })
}

#[tactic(auto, unfolding(crate::specs::Reading::read_marked))]
fn mark(tokens: &mut Tokens) -> Result<Draft, Refusal>
    ensures step { reading.read_marked Mark tokens.old ≡ as_read result }
    ensures ended { OnOk result (tokens.new ≡ []) }
{
    let mark = marker(tokens)?;
    let next = state(tokens)?;
    tokens.end()?;
    Ok(Draft::Mark { mark, next })
}

#[tactic(auto, unfolding(crate::specs::Reading::read_marked))]
fn unmark(tokens: &mut Tokens) -> Result<Draft, Refusal>
    ensures step { reading.read_marked Unmark tokens.old ≡ as_read result }
    ensures ended { OnOk result (tokens.new ≡ []) }
{
    let mark = marker(tokens)?;
    let next = state(tokens)?;
    tokens.end()?;
    Ok(Draft::Unmark { mark, next })
}

#[tactic(auto, unfolding(crate::specs::Reading::read_branches))]
fn pick_up(tokens: &mut Tokens) -> Result<Draft, Refusal>
    ensures step { reading.read_branches PickUp tokens.old ≡ as_read result }
    ensures ended { OnOk result (tokens.new ≡ []) }
{
    let yes = state(tokens)?;
    let no = state(tokens)?;
    tokens.end()?;
    Ok(Draft::PickUp { yes, no })
}

#[tactic(auto, unfolding(crate::specs::Reading::read_drop))]
fn drop_food(tokens: &mut Tokens) -> Result<Draft, Refusal>
    ensures step { reading.read_drop tokens.old ≡ as_read result }
    ensures ended { OnOk result (tokens.new ≡ []) }
{
    let next = state(tokens)?;
    tokens.end()?;
    Ok(Draft::Drop { next })
}

#[tactic(auto, unfolding(crate::specs::Reading::read_turn))]
fn turn(tokens: &mut Tokens) -> Result<Draft, Refusal>
    ensures step { reading.read_turn tokens.old ≡ as_read result }
    ensures ended { OnOk result (tokens.new ≡ []) }
{
    let side = side(tokens)?;
    let next = state(tokens)?;
    tokens.end()?;
    Ok(Draft::Turn { side, next })
}

// What follows the word Move.
#[tactic(auto, unfolding(crate::specs::Reading::read_branches))]
fn step(tokens: &mut Tokens) -> Result<Draft, Refusal>
    ensures step { reading.read_branches Move tokens.old ≡ as_read result }
    ensures ended { OnOk result (tokens.new ≡ []) }
{
    let yes = state(tokens)?;
    let no = state(tokens)?;
    tokens.end()?;
    Ok(Draft::Move { yes, no })
}

#[tactic(auto, unfolding(crate::specs::Reading::read_flip))]
fn flip(tokens: &mut Tokens) -> Result<Draft, Refusal>
    ensures step { reading.read_flip tokens.old ≡ as_read result }
    ensures ended { OnOk result (tokens.new ≡ []) }
{
    let bound = bound(tokens)?;
    let yes = state(tokens)?;
    let no = state(tokens)?;
    tokens.end()?;
    Ok(Draft::Flip { bound, yes, no })
}
