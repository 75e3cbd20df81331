// A crew that is a function.
ghost use Rattle.std.specs.Prelude.{◌≡◌, ◌+◌, ◌-◌, ◌^◌, min, IfOk, OnOk, OnErr};
ghost use Rattle.round_book.specs.Book.{CanBegin, IsPlayed, window_of};
ghost use Rattle.round_book.specs.Counts.{counts_of};
ghost use Rattle.round_book.specs.Led.{CanPlay, Played, PlaysWindows};

use crate::counts::Counts;
use crate::crew::Crew;
use crate::field::Field;
use hex_geometry::OutOfMemory;
use std::alloc::Global;
use std::marker::Model;

/// A crew that plays each window by a function, which counts its own looks by `finish`. So a crew of workers that a
/// function starts can be used as any other crew.
#[derive(Drop)]
pub struct Led<F: Drop> {
    play: F,
    turns: u64,
}

impl<F: Drop> Model for Led<F> {
    ghost use Rattle.round_book.specs.Crews.{LedValue};

    ghost Value = { LedValue F };

    ghost view = { λ crew. record { play = crew.play; turns = crew.turns } };
}

impl<F: FnMut(&mut Field<'_>, u32, u32) -> Result<Counts, OutOfMemory> + Drop> Led<F> {
    /// A crew that plays by this function, and has played no turn yet.
    pub fn by(play: F) -> Led<F>
        ensures { result ≡ record { play = play; turns = 0 } }
    {
        Led { play, turns: 0 }
    }
}

impl<F: FnMut(&mut Field<'_>, u32, u32) -> Result<Counts, OutOfMemory> + Drop> Crew for Led<F> {
    ghost played = { λ crew. crew.turns };

    ghost ready = { λ _. CanPlay F.FnMut × PlaysWindows F.FnMut };

    fn turns(&self) -> u64 {
        self.turns
    }

    // A call of the function plays the window. Field and function are afterwards as the call left them.
    fn window(
        &mut self,
        _alloc: Global,
        field: &mut Field<'_>,
        from: u32,
        to: u32,
    ) -> Result<Counts, OutOfMemory>
        requires ready { CanPlay F.FnMut × PlaysWindows F.FnMut }
        requires window { CanBegin field.old from to }
        ensures ready { CanPlay F.FnMut × PlaysWindows F.FnMut }
        ensures played { OnOk result (IsPlayed field.old from to field.new) }
        ensures counts { IfOk result (λ counts. counts ≡ counts_of (window_of field.old from to)) }
        ensures turns { OnOk result (self.new.turns ≡ min (self.old.turns + (to - from)) (2 ^ 64 - 1)) }
        ensures unchanged { OnErr result (field.new ≡ field.old) }
        ensures as_before { OnErr result (self.new.turns ≡ self.old.turns) }
        ensures called { OnOk result (Played F.FnMut self.old.play field.old from to result self.new.play field.new) }
    {
        let counts = (self.play)(field, from, to)?;
        self.turns = self.turns.saturating_add(u64::from(to - from));
        Ok(counts)
    }
}
