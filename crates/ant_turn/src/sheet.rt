// The numbers of the rules that a game may set.
ghost use Rattle.std.specs.Prelude.{◌≤◌};

/// The numbers of the rules that a game may set (this project's own; in the task's martial arts and kinetics they are
/// 5, 3 and 14): how many foes surround an ant, from 4 to 6; how many food particles a killed ant leaves besides the
/// one that it carried, at most 9; and for how many turns an ant rests after a Move that succeeded, from 0 to 255.
#[derive(Clone, Copy)]
pub struct Sheet {
    surround: u8,
    corpse: u8,
    rest: u8,
    pub ghost enough: { 4 ≤ surround },
    pub ghost at_most_all: { surround ≤ 6 },
    pub ghost light: { corpse ≤ 9 },
}

impl Sheet {
    ghost use Rattle.std.specs.Prelude.{◌≡◌};
    ghost use Rattle.ant_turn.specs.Sheet.{contest, sheet_of};

    /// The sheet of these numbers: `surround` is from 4 to 6, `corpse` is at most 9, and `rest` is any number.
    #[inline]
    pub fn new(surround: u8, corpse: u8, rest: u8) -> Sheet
        requires enough { 4 ≤ surround }
        requires at_most_all { surround ≤ 6 }
        requires light { corpse ≤ 9 }
        ensures { sheet_of result ≡ record { surround = surround; corpse = corpse; rest = rest } }
    {
        Sheet {
            surround,
            corpse,
            rest,
        }
    }

    /// The contest's sheet: 5 foes surround an ant, a killed ant leaves 3 particles, and an ant rests for 14 turns (the
    /// task's martial arts and kinetics).
    #[inline]
    pub fn contest() -> Sheet
        ensures { sheet_of result ≡ contest }
    {
        Sheet::new(5, 3, 14)
    }

    /// How many of the six neighbours of an ant must hold foes to surround it: from 4 to 6 (the task's martial arts).
    #[inline]
    pub fn surround(&self) -> u8
        ensures { result ≡ (sheet_of self.now).surround }
    {
        self.surround
    }

    /// How many food particles a killed ant leaves, besides the one that it carried: at most 9 (the task's martial
    /// arts).
    #[inline]
    pub fn corpse(&self) -> u8
        ensures { result ≡ (sheet_of self.now).corpse }
    {
        self.corpse
    }

    /// For how many turns an ant rests after a Move that succeeded: from 0 to 255 (the task's kinetics).
    #[inline]
    pub fn rest(&self) -> u8
        ensures { result ≡ (sheet_of self.now).rest }
    {
        self.rest
    }
}
