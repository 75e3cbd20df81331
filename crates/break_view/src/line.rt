// One break from the tokens of a line.
ghost use Rattle.std.specs.Prelude.{◌≡◌};
ghost use Rattle.line_tokens.specs.Steps.{with_rest};
ghost use Rattle.break_view.specs.Inner.Reading as reading;
ghost use Rattle.break_view.specs.Inner.Steps as steps;
ghost use Rattle.break_view.specs.declared.breaks.Break.TheVariants.{Round, State, Killed, Score};

use crate::breaks::Break;
use crate::words::{BreakWord, break_at, break_table, colour_at, colour_table};
use cell_world::Colour;
use line_tokens::{Refusal, Tokens};

// The break of a line.
#[tactic(auto, unfolding(crate::specs::Inner::Reading::read_line))]
pub(crate) fn break_of(tokens: &mut Tokens) -> Result<Break, Refusal>
    ensures { reading.read_line tokens.old ≡ result }
{
    let place = tokens.word(&break_table())?;
    match break_at(place) {
        BreakWord::Round => round(tokens),
        BreakWord::State => state(tokens),
        BreakWord::Stand => stand(tokens),
        BreakWord::Food => food(tokens),
        BreakWord::Killed => killed_break(tokens),
        BreakWord::Score => score(tokens),
    }
}

// The next token, which has to be the word of a colour.
#[tactic(auto, unfolding(crate::specs::Inner::Steps::take_colour))]
fn colour(tokens: &mut Tokens) -> Result<Colour, Refusal>
    ensures { steps.take_colour tokens.old ≡ with_rest tokens.new result }
{
    let place = tokens.word(&colour_table())?;
    Ok(colour_at(place))
}

// The next token, which has to be a number.
#[tactic(auto, unfolding(crate::specs::Inner::Steps::take_any))]
fn number(tokens: &mut Tokens) -> Result<u32, Refusal>
    ensures { steps.take_any tokens.old ≡ with_rest tokens.new result }
{
    let number = tokens.number(0, 4_294_967_295)?;
    Ok(number as u32)
}

#[tactic(auto, unfolding(crate::specs::Inner::Reading::read_number))]
fn round(tokens: &mut Tokens) -> Result<Break, Refusal>
    ensures { reading.read_number Round tokens.old ≡ result }
{
    let round = number(tokens)?;
    tokens.end()?;
    Ok(Break::Round(round))
}

#[tactic(auto, unfolding(crate::specs::Inner::Reading::read_coloured))]
fn state(tokens: &mut Tokens) -> Result<Break, Refusal>
    ensures { reading.read_coloured State tokens.old ≡ result }
{
    let colour = colour(tokens)?;
    let state = number(tokens)?;
    tokens.end()?;
    Ok(Break::State { colour, state })
}

#[tactic(auto, unfolding(crate::specs::Inner::Reading::read_stand))]
fn stand(tokens: &mut Tokens) -> Result<Break, Refusal>
    ensures { reading.read_stand tokens.old ≡ result }
{
    let colour = colour(tokens)?;
    let x = number(tokens)?;
    let y = number(tokens)?;
    tokens.end()?;
    Ok(Break::Stand { colour, x, y })
}

#[tactic(auto, unfolding(crate::specs::Inner::Reading::read_food))]
fn food(tokens: &mut Tokens) -> Result<Break, Refusal>
    ensures { reading.read_food tokens.old ≡ result }
{
    let x = number(tokens)?;
    let y = number(tokens)?;
    let least = number(tokens)?;
    tokens.end()?;
    Ok(Break::Food { x, y, least })
}

#[tactic(auto, unfolding(crate::specs::Inner::Reading::read_number))]
fn killed_break(tokens: &mut Tokens) -> Result<Break, Refusal>
    ensures { reading.read_number Killed tokens.old ≡ result }
{
    let id = number(tokens)?;
    tokens.end()?;
    Ok(Break::Killed { id })
}

#[tactic(auto, unfolding(crate::specs::Inner::Reading::read_coloured))]
fn score(tokens: &mut Tokens) -> Result<Break, Refusal>
    ensures { reading.read_coloured Score tokens.old ≡ result }
{
    let colour = colour(tokens)?;
    let least = number(tokens)?;
    tokens.end()?;
    Ok(Break::Score { colour, least })
}
