// Laws of looks and of the turns at which they were made.
ghost use Rattle.spec_record.specs.Locality.{
  LooksAreMerged,
  LooksSettle,
  LooksTell,
  TurnsAreLocal,
  TurnsAreLocalAlone,
  TurnsArePatches,
  TurnsAreSmall,
  TurnsDrawAtFlips,
  TurnsWriteAlone,
};
ghost use Rattle.spec_record.specs.SameLooks.{LooksAgree};
ghost use Rattle.spec_record.specs.Places.{PlacesCountFlips};

/// A law: a look names each position once, with all parts that the turn reads or writes there. The call does nothing:
/// its clause is the law.
pub fn looks_are_merged()
    ensures { LooksAreMerged }
{}

/// The law of locality: a turn depends on nothing except what it reads. Take a base and a later world `now` that agree
/// in every part that the turn reads, with the random number at the same place if the turn draws one. Then the turn in
/// `now` draws and kills as on the base. In each part that it writes it leaves what it leaves there on the base, and
/// every other part of every cell of `now` stays unchanged. The brains fit both worlds, which have the same sizes,
/// number of ids, rocks and hills, and an ant that is dead in the base is dead in `now`. The call does nothing: its
/// clause is the law.
pub fn turns_are_local()
    ensures { TurnsAreLocal }
{}

/// The law of locality with the weakest premises: `now` has the sizes, rocks and hills of the base; if the ant whose
/// turn it is is dead in the base, it is dead in `now`; and it isn't on two cells. The call does nothing: its clause is
/// the law.
pub fn turns_are_local_alone()
    ensures { TurnsAreLocalAlone }
{}

/// The law of locality as one equation: the outcome of the turn in `now` is that of setting the writes of the look,
/// each the named parts of its cell, in the cells of `now`; and it draws and kills as the look says. The call does
/// nothing: its clause is the law.
pub fn turns_are_patches()
    ensures { TurnsArePatches }
{}

/// A law: a valid look determines what its turn does. If each read cell is the same in the parts that were read and, if
/// the turn draws, the random number is at the guess, the turn's outcome follows from the look alone. The call does
/// nothing: its clause is the law.
pub fn looks_tell()
    ensures { LooksTell }
{}

/// A law: the writes of a valid look may be set one after another, first those that don't raise the weight of their
/// cell and then the others, and the result is that of the turn. The call does nothing: its clause is the law.
pub fn looks_settle()
    ensures { LooksSettle }
{}

/// A law: a turn changes only the parts of cells that it writes, and no ground or hill (the task's kinetics). The call
/// does nothing: its clause is the law.
pub fn turns_write_alone()
    ensures { TurnsWriteAlone }
{}

/// A law: a turn reads at most 19 positions and writes at most 7 (the task's martial arts: the six around the cell that
/// is entered, and the six around each of them). The call does nothing: its clause is the law.
pub fn turns_are_small()
    ensures { TurnsAreSmall }
{}

/// A law: a turn draws a random number if its ant is alive, doesn't rest and is at a Flip, and in no other case (the
/// task's kinetics). The call does nothing: its clause is the law.
pub fn turns_draw_at_flips()
    ensures { TurnsDrawAtFlips }
{}

/// A law: after any turns or rounds, the place in the stream has risen by one for each Flip that was executed (the
/// task's number generation). The call does nothing: its clause is the law.
pub fn places_count_flips()
    ensures { PlacesCountFlips }
{}

/// A law: a look depends only on what its turn reads and on one instruction. On two worlds with the same whole cell at
/// each position that the turn reads, with the same rules and the same instruction for its ant, the looks are the same,
/// whatever else the worlds and the brains contain. The call does nothing: its clause is the law.
pub fn looks_agree()
    ensures { LooksAgree }
{}
