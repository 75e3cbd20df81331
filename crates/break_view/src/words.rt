// The words of breaks, and what they mean.
ghost use Rattle.std.specs.Prelude.{◌≡◌};
ghost use Rattle.break_view.specs.Inner.Places as places;

use cell_world::Colour;
use word_table::{WordTable, word_arms};

/// The word that a break begins with, in the order of their table.
#[derive(Clone, Copy)]
pub enum BreakWord {
    Round,
    State,
    Stand,
    Food,
    Killed,
    Score,
}

// The words that begin a break.
#[tactic(auto, unfolding(crate::specs::Inner::Places::break_words))]
pub(crate) fn break_table() -> WordTable<6>
    ensures { result ≡ places.break_words }
{
    WordTable::new(["Round", "State", "Stand", "Food", "Killed", "Score"])
}

#[tactic(auto, unfolding(crate::specs::Inner::Places::colour_words))]
pub(crate) fn colour_table() -> WordTable<2>
    ensures { result ≡ places.colour_words }
{
    WordTable::new(["Red", "Black"])
}

pub(crate) fn break_at(place: usize) -> BreakWord
    ensures { result ≡ places.break_at place }
{
    word_arms!(
        place;
        BreakWord::Round, BreakWord::State, BreakWord::Stand,
        BreakWord::Food, BreakWord::Killed, BreakWord::Score
    )
}

pub(crate) fn colour_at(place: usize) -> Colour
    ensures { result ≡ places.colour_at place }
{
    word_arms!(place; Colour::Red, Colour::Black)
}
