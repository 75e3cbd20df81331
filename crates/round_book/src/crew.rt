// Crews, which play windows.
ghost use Rattle.std.specs.Prelude.{◌≡◌, ℕ, ◌+◌, ◌-◌, ◌^◌, ⊤, min, IfOk, OnOk, OnErr};
ghost use Rattle.round_book.specs.Book.{CanBegin, IsPlayed, window_of};
ghost use Rattle.round_book.specs.Counts.{counts_of};

use crate::counts::Counts;
use crate::field::Field;
use hex_geometry::OutOfMemory;
use std::alloc::Global;

/// A crew plays the windows of a game, alone or with workers. Whichever it is, a window leads to the same world and
/// place as its turns one after another, with the same counts.
pub trait Crew {
    /// How many turns it has played.
    ghost played: { Self → ℕ };

    /// What must hold for it to play.
    ghost ready: { Self → Type 0 } = { λ _. ⊤ };

    /// How many turns the crew has played, from 0; it stays at the largest `u64`, 2^64 - 1.
    fn turns(&self) -> u64
        ensures { result ≡ played self.now };

    /// Plays the turns of the ids from `from` up to, but not including, `to`. The field is whole, `from` is at most
    /// `to`, `to` is at most the number of ids, and the place plus the number of turns is below 2^63. Afterwards the
    /// field is whole, and its world and place are those after the turns in order. The result counts the looks that
    /// were used and the turns that were executed again. It fails only if memory runs out; the field and the count of
    /// turns are then unchanged.
    fn window(
        &mut self,
        alloc: Global,
        field: &mut Field<'_>,
        from: u32,
        to: u32,
    ) -> Result<Counts, OutOfMemory>
        requires ready { ready self.old }
        requires window { CanBegin field.old from to }
        ensures ready { ready self.new }
        ensures played { OnOk result (IsPlayed field.old from to field.new) }
        ensures counts { IfOk result (λ counts. counts ≡ counts_of (window_of field.old from to)) }
        ensures turns { OnOk result (played self.new ≡ min (played self.old + (to - from)) (2 ^ 64 - 1)) }
        ensures unchanged { OnErr result (field.new ≡ field.old) }
        ensures as_before { OnErr result (played self.new ≡ played self.old) };
}
