// Which rounds are dumped, and their dumps.
ghost use Rattle.std.specs.Prelude.{◌≡◌, ◌+◌, ◌≤◌, [], ◌∷◌, ◌++◌, ℕ, ◌-◌, ◌<◌, IsPermutation, IsTrue, OnOk, OnErr, length, slice_index};
ghost use Rattle.std.specs.List.Sorted.{IsNonDecreasing};
ghost use Rattle.ant_base.specs.Sink.{Pushed};
ghost use Rattle.cell_world.specs.Grid.{world_of};
ghost use Rattle.match_run.specs.Dumps.{chooses, has_round};
ghost use Rattle.match_run.specs.Run.{chosen_dump};

use ant_base::{Failed, Sink};
use cell_world::World;
use dump_print::push_dump;
use hex_geometry::OutOfMemory;
use std::alloc::Global;
use std::marker::Model;

/// A list of rounds, each counted from 0 for the start of the game. Contracts see their numbers, and how many more can
/// be added before the list is full. Order and repeats make no difference to a run. A round is looked up by binary
/// search if the list is in rising order, and otherwise number by number: `sort` puts the list into rising order.
#[derive(Drop)]
pub struct Rounds {
    list: Vec<u32>,
    rises: bool,
}

impl Model for Rounds {
    ghost use Rattle.std.specs.Prelude.{◌≡◌, ◌-◌, true, vec_len, vec_capacity};
    ghost use Rattle.std.specs.List.Sorted.{IsNonDecreasing};
    ghost use Rattle.ant_base.specs.NumberList.{NumberList};

    ghost Value = { NumberList };

    ghost view = { λ rounds. record { numbers = rounds.list.items; spare = vec_capacity rounds.list - vec_len rounds.list } };

    ghost invariant = { λ rounds. rounds.rises ≡ true → IsNonDecreasing rounds.list.items };
}

impl Rounds {
    /// The empty list. It takes no memory.
    pub fn new(alloc: Global) -> Rounds
        ensures { result ≡ record { numbers = []; spare = 0 } }
    {
        Rounds {
            list: Vec::new(alloc),
            rises: true,
        }
    }

    /// Adds a round at the end, even if it is in the list already. It fails only if the list is full and there is no
    /// memory for more; the list is then unchanged. An add uses at most one free place.
    pub fn add(&mut self, round: u32) -> Result<(), OutOfMemory>
        ensures added { OnOk result (self.new.numbers ≡ self.old.numbers ++ round ∷ []) }
        ensures unchanged { OnErr result (self.new ≡ self.old) }
        ensures full { OnErr result (self.old.spare ≡ 0) }
        ensures spare { self.old.spare ≤ self.new.spare + 1 }
    {
        self.list.reserve(1)?;
        let rises = self.rises && no_later(&self.list, round);
        self.list.push(round)?;
        self.rises = rises;
        Ok(())
    }

    /// Puts the rounds into rising order, so that each of them is found by binary search from then on. The list has the
    /// same numbers as before, each as often, and so selects the same rounds; it has as many free places. It takes no
    /// memory.
    pub fn sort(&mut self)
        ensures permutation { IsPermutation self.old.numbers self.new.numbers }
        ensures rising { IsNonDecreasing self.new.numbers }
        ensures same { (round : ℕ) → has_round self.new.numbers round ≡ has_round self.old.numbers round }
        ensures spare { self.new.spare ≡ self.old.spare }
    {
        self.list.sort_unstable();
        self.rises = true;
    }

    // Whether the round is in the list.
    fn has(&self, round: u32) -> bool
        ensures { result ≡ has_round self.now.numbers round }
    {
        if self.rises {
            self.list.binary_search(&round).is_ok()
        } else {
            self.list.contains(&round)
        }
    }
}

// Whether the last of these numbers is at most this round, or there is none.
fn no_later(list: &[u32], round: u32) -> bool
    ensures { IsTrue result → 0 < length list.now → slice_index list.now (length list.now - 1) ≤ round }
{
    match list.last() {
        Some(last) => *last <= round,
        None => true,
    }
}

/// After which rounds of a run the world is dumped.
#[derive(Drop)]
pub enum Dumps {
    /// No round.
    Nothing,
    /// Every round, from 0, which is the start, to the last.
    All,
    /// The rounds of the list. A round that is repeated, or above the last one of the run, adds nothing.
    Chosen(Rounds),
}

impl Dumps {
    /// Whether the world after this round, counted from 0 for the start, is dumped: the value is `All`, or `Chosen`
    /// with that number among its rounds. It takes no memory.
    pub fn chooses(&self, round: u32) -> bool
        ensures { result ≡ chooses self.now round }
    {
        match self {
            Dumps::Nothing => false,
            Dumps::All => true,
            Dumps::Chosen(rounds) => rounds.has(round),
        }
    }
}

// Pushes the dump of the world after a round, if that round is chosen.
pub(crate) fn push_chosen<K: Sink>(
    world: &World,
    dumps: &Dumps,
    round: u32,
    sink: &mut K,
) -> Result<(), Failed>
    ensures { Pushed (K.state sink.old) (K.state sink.new) (chosen_dump (chooses dumps.now) (world_of world.now) round) result }
{
    if dumps.chooses(round) {
        push_dump(world, round, sink)
    } else {
        Ok(())
    }
}
