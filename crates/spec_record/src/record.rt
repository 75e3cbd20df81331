// A look at a turn.
ghost use Rattle.std.specs.Prelude.{◌≡◌};
ghost use Rattle.spec_record.specs.Claims.{EachOnce, seen_positions};

use arrayvec::ArrayVec;
use cell_world::{Cell, Parts};
use hex_geometry::Pos;
use std::marker::Model;

mod fill;

/// A position that a turn reads or writes, the parts of its cell that it reads or writes, and the cell: the base's if
/// it is read, the one after the turn if it is written.
pub type Sighting = (Pos, Parts, Cell);

/// A look at the turn of one ant.
#[derive(Drop)]
pub struct Look {
    turn: u32,
    guess: u64,
    drew: bool,
    reads: ArrayVec<Sighting, 19>,
    writes: ArrayVec<Sighting, 7>,
    killed: ArrayVec<u32, 7>,
}

impl Model for Look {
    ghost use Rattle.spec_record.specs.Look.{IsListedOnce, LookValue};

    ghost Value = { LookValue };

    ghost view = { λ look. record {
      turn = look.turn;
      guess = look.guess;
      drew = look.drew;
      reads = look.reads.items;
      writes = look.writes.items;
      killed = look.killed.items;
    } };

    ghost invariant = { λ look. IsListedOnce look.reads.items look.writes.items };
}

impl Look {
    /// The id whose turn it is.
    #[inline]
    pub fn turn(&self) -> u32
        ensures { result ≡ self.now.turn }
    {
        self.turn
    }

    /// The place at which the look guesses the random number, if the turn draws one.
    #[inline]
    pub fn guess(&self) -> u64
        ensures { result ≡ self.now.guess }
    {
        self.guess
    }

    /// Whether the turn draws a random number.
    #[inline]
    pub fn drew(&self) -> bool
        ensures { result ≡ self.now.drew }
    {
        self.drew
    }

    /// The positions that the turn reads, each once, with the parts that it reads there and the cell of the base.
    #[inline]
    pub fn reads(&self) -> &ArrayVec<Sighting, 19>
        ensures reads { result.now.items ≡ self.now.reads }
        ensures once { EachOnce (seen_positions self.now.reads) }
    {
        &self.reads
    }

    /// The positions that the turn writes, each once, with the parts that it writes there and the cell after the turn.
    #[inline]
    pub fn writes(&self) -> &ArrayVec<Sighting, 7>
        ensures writes { result.now.items ≡ self.now.writes }
        ensures once { EachOnce (seen_positions self.now.writes) }
    {
        &self.writes
    }

    /// The ids of the ants that the turn kills, in the order of the checks.
    #[inline]
    pub fn killed(&self) -> &ArrayVec<u32, 7>
        ensures { result.now.items ≡ self.now.killed }
    {
        &self.killed
    }
}
