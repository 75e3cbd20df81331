// Brains that a job owns.
ghost use Rattle.std.specs.Prelude.{◌≡◌, ◌↔◌, true, IfOk};
ghost use Rattle.ant_turn.specs.Minds.{minds_of};
ghost use Rattle.ant_turn.specs.Sheet.{sheet_of};

use ant_turn::{Brains, Sheet};
use brain_read::{Brain, are_same};
use hex_geometry::OutOfMemory;
use std::alloc::Global;
use std::marker::Model;

/// Two owned brains and a sheet, since a job outlives what a field lends.
#[derive(Drop)]
pub struct OwnBrains {
    red: Brain,
    black: Brain,
    sheet: Sheet,
}

impl Model for OwnBrains {
    ghost use Rattle.ant_turn.specs.Minds.{Minds};
    ghost use Rattle.ant_turn.specs.Sheet.{sheet_of};

    ghost Value = { Minds };

    ghost view = { λ own. record { red = own.red; black = own.black; sheet = sheet_of own.sheet } };
}

impl OwnBrains {
    /// Copies of borrowed brains, with their sheet. It fails only if memory runs out.
    pub fn of(alloc: Global, brains: Brains<'_>) -> Result<OwnBrains, OutOfMemory>
        ensures { IfOk result (λ own. own ≡ minds_of brains.entry) }
    {
        let red = brains.red.copy(alloc)?;
        let black = brains.black.copy(alloc)?;
        Ok(OwnBrains {
            red,
            black,
            sheet: brains.sheet,
        })
    }

    /// Lends them. It takes no memory.
    pub fn lend(&self) -> Brains<'_>
        ensures { minds_of result ≡ self.now }
    {
        Brains {
            red: &self.red,
            black: &self.black,
            sheet: self.sheet,
        }
    }
}

// Whether the numbers of two sheets are equal.
pub(crate) fn are_sheets_same(one: Sheet, other: Sheet) -> bool
    ensures { (result ≡ true) ↔ (sheet_of one ≡ sheet_of other) }
{
    one.surround() == other.surround()
        && one.corpse() == other.corpse()
        && one.rest() == other.rest()
}

impl OwnBrains {
    // Whether these are copies of the given brains.
    pub(crate) fn is_copy_of(&self, brains: Brains<'_>) -> bool
        ensures { result ≡ true → self.now ≡ minds_of brains.entry }
    {
        are_sheets_same(self.sheet, brains.sheet)
            && is_same_brain(&self.red, brains.red)
            && is_same_brain(&self.black, brains.black)
    }
}

// Whether two brains have the same instructions.
#[tactic(auto, using(list_lemmas::proofs::Entries::same_entries))]
fn is_same_brain(one: &Brain, other: &Brain) -> bool
    ensures { result ≡ true → one.now ≡ other.now }
{
    if one.len() != other.len() {
        return false;
    }
    for state in 0..one.len() {
        if !are_same(one.at(state as u16), other.at(state as u16)) {
            return false;
        }
    }
    true
}
