//! The positions of an instruction's line (the task's neurology). Each call takes the next token and returns its
//! meaning or a refusal: `MissingToken` if no token is left, `UnknownWord` or `BadNumber` if the token doesn't fit the
//! position. A refused token is consumed; those after it remain.
ghost use Rattle.std.specs.Prelude.{◌≡◌, drop, length};
ghost use Rattle.brain_read.specs.Judgement.{positions_of_condition};
ghost use Rattle.line_tokens.specs.Steps.{with_rest};
ghost use Rattle.brain_read.specs.Steps.{condition_tokens};
ghost use Rattle.brain_read.specs.Steps as steps;
ghost use Rattle.brain_read.specs.Places as places;

use crate::form::{ConditionWord, condition_table, side_table, sight_table};
use crate::instr::Cond;
use hex_geometry::{Side, Sight};
use line_tokens::{Refusal, Tokens};
use word_table::word_arms;

/// The next token, which should be the word of a sight, in any ASCII case (the task's geometry).
#[tactic(auto, unfolding(crate::specs::Steps::take_sight))]
pub fn sight(tokens: &mut Tokens) -> Result<Sight, Refusal>
    ensures step { steps.take_sight tokens.old ≡ with_rest tokens.new result }
    ensures passed { tokens.new ≡ drop 1 tokens.old }
{
    let place = tokens.word(&sight_table())?;
    Ok(sight_at(place))
}

fn sight_at(place: usize) -> Sight
    ensures { result ≡ places.sight_at place }
{
    word_arms!(place; Sight::Here, Sight::Ahead, Sight::LeftAhead, Sight::RightAhead)
}

/// The next token, which should be the word of a side, in any ASCII case (the task's geometry).
#[tactic(auto, unfolding(crate::specs::Steps::take_side))]
pub fn side(tokens: &mut Tokens) -> Result<Side, Refusal>
    ensures step { steps.take_side tokens.old ≡ with_rest tokens.new result }
    ensures passed { tokens.new ≡ drop 1 tokens.old }
{
    let place = tokens.word(&side_table())?;
    Ok(side_at(place))
}

fn side_at(place: usize) -> Side
    ensures { result ≡ places.side_at place }
{
    word_arms!(place; Side::Left, Side::Right)
}

/// The next token, which should be a state: any number of 1 to 10 digits, from 0 to 9,999,999,999 (the task's
/// neurology).
#[tactic(auto, unfolding(crate::specs::Steps::take_state))]
pub fn state(tokens: &mut Tokens) -> Result<u64, Refusal>
    ensures step { steps.take_state tokens.old ≡ with_rest tokens.new result }
    ensures passed { tokens.new ≡ drop 1 tokens.old }
{
    tokens.number(0, 9_999_999_999)
}

/// The next token, which should be a marker, from 0 to 5 (the task's chemistry).
#[tactic(auto, unfolding(crate::specs::Steps::take_marker))]
pub fn marker(tokens: &mut Tokens) -> Result<u8, Refusal>
    ensures step { steps.take_marker tokens.old ≡ with_rest tokens.new result }
    ensures passed { tokens.new ≡ drop 1 tokens.old }
{
    let number = tokens.number(0, 5)?;
    Ok(number as u8)
}

/// The next token, which should be a bound, from 1 to 4,294,967,295 (the task's neurology; the largest bound is this
/// project's own).
#[tactic(auto, unfolding(crate::specs::Steps::take_bound))]
pub fn bound(tokens: &mut Tokens) -> Result<u32, Refusal>
    ensures step { steps.take_bound tokens.old ≡ with_rest tokens.new result }
    ensures passed { tokens.new ≡ drop 1 tokens.old }
{
    let number = tokens.number(1, 4_294_967_295)?;
    Ok(number as u32)
}

/// The next token, which should be the word of a condition, in any ASCII case. After `Marker` it also takes the next
/// one, which should be the marker, from 0 to 5 (the task's phenomenology).
#[tactic(auto, unfolding(crate::specs::Steps::take_condition))]
pub fn condition(tokens: &mut Tokens) -> Result<Cond, Refusal>
    ensures step { steps.take_condition tokens.old ≡ with_rest tokens.new result }
    ensures passed { tokens.new ≡ drop (condition_tokens tokens.old) tokens.old }
{
    let place = tokens.word(&condition_table())?;
    condition_from(condition_word_at(place), tokens)
}

fn condition_word_at(place: usize) -> ConditionWord
    ensures { result ≡ places.condition_word_at place }
{
    word_arms!(
        place;
        ConditionWord::Friend, ConditionWord::Foe, ConditionWord::FriendWithFood, ConditionWord::FoeWithFood,
        ConditionWord::Food, ConditionWord::Rock, ConditionWord::Marker, ConditionWord::FoeMarker,
        ConditionWord::Home, ConditionWord::FoeHome
    )
}

fn condition_from(word: ConditionWord, tokens: &mut Tokens) -> Result<Cond, Refusal>
    ensures step { steps.condition_from word tokens.old ≡ with_rest tokens.new result }
    ensures passed { tokens.new ≡ drop (length (positions_of_condition word)) tokens.old }
{
    match word {
        ConditionWord::Friend => Ok(Cond::Friend),
        ConditionWord::Foe => Ok(Cond::Foe),
        ConditionWord::FriendWithFood => Ok(Cond::FriendWithFood),
        ConditionWord::FoeWithFood => Ok(Cond::FoeWithFood),
        ConditionWord::Food => Ok(Cond::Food),
        ConditionWord::Rock => Ok(Cond::Rock),
        ConditionWord::Marker => {
            let mark = marker(tokens)?;
            Ok(Cond::Marker(mark))
        }
        ConditionWord::FoeMarker => Ok(Cond::FoeMarker),
        ConditionWord::Home => Ok(Cond::Home),
        ConditionWord::FoeHome => Ok(Cond::FoeHome),
    }
}
