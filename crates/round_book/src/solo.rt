// A crew of one.
ghost use Rattle.std.specs.Prelude.{◌≡◌, ◌-◌};

use crate::alone::play_window;
use crate::counts::Counts;
use crate::crew::Crew;
use crate::field::Field;
use ant_base::NoGate;
use hex_geometry::OutOfMemory;
use std::alloc::Global;
use std::marker::Model;

/// A crew that looks and settles on the caller's thread, one turn after another.
#[derive(Drop)]
pub struct SoloCrew {
    turns: u64,
}

impl Model for SoloCrew {
    ghost use Rattle.round_book.specs.Crews.{SoloValue};

    ghost Value = { SoloValue };

    ghost view = { λ crew. record { turns = crew.turns } };
}

impl SoloCrew {
    /// A crew that has played no turn yet.
    pub fn new() -> SoloCrew
        ensures { result ≡ record { turns = 0 } }
    {
        SoloCrew { turns: 0 }
    }
}

impl Crew for SoloCrew {
    ghost played = { λ crew. crew.turns };

    fn turns(&self) -> u64 {
        self.turns
    }

    fn window(
        &mut self,
        alloc: Global,
        field: &mut Field<'_>,
        from: u32,
        to: u32,
    ) -> Result<Counts, OutOfMemory> {
        let counts = play_window(&NoGate, alloc, field, from, to)?;
        self.turns = self.turns.saturating_add(u64::from(to - from));
        Ok(counts)
    }
}
