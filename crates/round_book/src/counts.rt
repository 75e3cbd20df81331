// The counts of a window.
ghost use Rattle.std.specs.Prelude.{◌≡◌, ◌-◌};
ghost use Rattle.round_book.specs.Book.{IsPlayed, StandsOn, window_of};
ghost use Rattle.round_book.specs.Counts.{counts_of};

use crate::book::Book;
use crate::field::Field;
use std::marker::Model;

/// How many looks of a window were used, and how many of its turns were executed again. Only a field's `finish` makes
/// one, and it can't be copied.
#[derive(Drop)]
pub struct Counts {
    taken: u32,
    redone: u32,
}

impl Model for Counts {
    ghost use Rattle.round_book.specs.Counts.{Counted};

    ghost Value = { Counted };

    ghost view = { λ counts. record { taken = counts.taken; redone = counts.redone } };
}

impl Counts {
    /// How many looks were valid and used.
    #[inline]
    pub fn taken(&self) -> u32
        ensures { result ≡ self.now.taken }
    {
        self.taken
    }

    /// How many turns were executed again because their look wasn't valid.
    #[inline]
    pub fn redone(&self) -> u32
        ensures { result ≡ self.now.redone }
    {
        self.redone
    }
}

impl Field<'_> {
    /// Ends a window. The field is whole again, with the world and the place after the window's turns. The result
    /// counts the looks that were used and the turns that were executed again. The field is lent for the window of the
    /// book, the book stands on it, and all its turns are settled.
    #[inline(always)]
    pub fn finish(&mut self, book: Book) -> Counts
        requires stands { StandsOn self.old book }
        requires done { book.next ≡ book.to }
        ensures played { IsPlayed self.old book.from book.to self.new }
        ensures counts { result ≡ counts_of (window_of self.old book.from book.to) }
    {
        let turns = book.turns();
        let taken = book.taken();
        let (work, place) = book.close();
        self.take_back(work, place);
        Counts {
            taken,
            redone: turns - taken,
        }
    }
}
