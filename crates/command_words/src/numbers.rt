// The numbers of a list of rounds.
ghost use Rattle.std.specs.Prelude.{◌≡◌, is_some};
ghost use Rattle.std.specs.Iterator.{YieldsFirst, item_count};
ghost use Rattle.command_words.specs.Slots.{pieces_of, numbers_of};

use crate::NumberKind;
use crate::pieces::Pieces;
use std::marker::Model;

/// The remaining numbers of a list, each from 0 to 1,000,000, in the order of the list. Contracts see it as the list of
/// these numbers. It takes no memory and never fails: the whole list was checked when it was made.
#[derive(Drop)]
pub struct Numbers<'w> {
    pieces: Pieces<'w>,
}

impl<'w> Model for Numbers<'w> {
    ghost use Rattle.std.specs.Prelude.{List, ℕ, [], IsSome, unwrap_or};
    ghost use Rattle.command_words.specs.Slots.{numbers_of};

    ghost Value = { List ℕ };

    ghost view = { λ numbers. unwrap_or (numbers_of numbers.pieces) [] };

    ghost invariant = { λ numbers. IsSome (numbers_of numbers.pieces) };
}

impl<'w> Numbers<'w> {
    // The numbers of a list with one comma between them; `None` if the word isn't such a list.
    pub(crate) fn new(word: &'w [u8]) -> Option<Self>
        ensures { result ≡ numbers_of (pieces_of word.now) }
    {
        if !are_numbers(word) {
            return None;
        }
        Some(Numbers {
            pieces: Pieces::new(word),
        })
    }
}

impl<'w> Iterator for Numbers<'w> {
    type Item = u32;

    ghost next_gives = { YieldsFirst (λ numbers. numbers) };

    ghost remaining = { item_count (λ numbers. numbers) };

    fn next(&mut self) -> Option<u32> {
        let piece = self.pieces.next()?;
        NumberKind::RoundCount.read(piece)
    }
}

// Whether each piece is a number from 0 to 1,000,000.
fn are_numbers(word: &[u8]) -> bool
    ensures { result ≡ is_some (numbers_of (pieces_of word.now)) }
{
    for piece in Pieces::new(word) {
        if NumberKind::RoundCount.read(piece).is_none() {
            return false;
        }
    }
    true
}
