// The words of the language and their meanings.
ghost use Rattle.std.specs.Prelude.{◌≡◌};
ghost use Rattle.brain_read.specs.Forms.{form_words, sight_words, side_words, condition_words};
ghost use Rattle.brain_read.specs.Places as places;

use word_table::{WordTable, word_arms};

/// The form of an instruction: its first word, in the order of [`form_table`] (the task's neurology).
#[derive(Clone, Copy, Debug, PartialEq, Eq)]
pub enum Form {
    Sense,
    Mark,
    Unmark,
    PickUp,
    Drop,
    Turn,
    Move,
    Flip,
}

/// The first word of a condition, in the order of [`condition_table`] (the task's phenomenology).
#[derive(Clone, Copy, Debug, PartialEq, Eq)]
pub enum ConditionWord {
    Friend,
    Foe,
    FriendWithFood,
    FoeWithFood,
    Food,
    Rock,
    Marker,
    FoeMarker,
    Home,
    FoeHome,
}

/// The words that begin an instruction, in the order of [`Form`], spelled as the canonical text has them (the task's
/// neurology).
#[tactic(auto, unfolding(crate::specs::Forms::form_words))]
pub fn form_table() -> WordTable<8>
    ensures { result ≡ form_words }
{
    WordTable::new([
        "Sense", "Mark", "Unmark", "PickUp", "Drop", "Turn", "Move", "Flip",
    ])
}

/// The form whose word is at this place of [`form_table`], from 0 to 7; any higher place is `Flip` too (the task's
/// neurology).
pub fn form_at(place: usize) -> Form
    ensures { result ≡ places.form_at place }
{
    word_arms!(
        place;
        Form::Sense, Form::Mark, Form::Unmark, Form::PickUp,
        Form::Drop, Form::Turn, Form::Move, Form::Flip
    )
}

/// The words of the sights, in the order of [`Sight`](hex_geometry::Sight), spelled as the canonical text has them (the
/// task's geometry).
#[tactic(auto, unfolding(crate::specs::Forms::sight_words))]
pub fn sight_table() -> WordTable<4>
    ensures { result ≡ sight_words }
{
    WordTable::new(["Here", "Ahead", "LeftAhead", "RightAhead"])
}

/// The words of the sides, in the order of [`Side`](hex_geometry::Side), spelled as the canonical text has them (the
/// task's geometry).
#[tactic(auto, unfolding(crate::specs::Forms::side_words))]
pub fn side_table() -> WordTable<2>
    ensures { result ≡ side_words }
{
    WordTable::new(["Left", "Right"])
}

/// The words that begin a condition, in the order of [`ConditionWord`], spelled as the canonical text has them (the
/// task's phenomenology).
#[tactic(auto, unfolding(crate::specs::Forms::condition_words))]
pub fn condition_table() -> WordTable<10>
    ensures { result ≡ condition_words }
{
    WordTable::new([
        "Friend",
        "Foe",
        "FriendWithFood",
        "FoeWithFood",
        "Food",
        "Rock",
        "Marker",
        "FoeMarker",
        "Home",
        "FoeHome",
    ])
}
