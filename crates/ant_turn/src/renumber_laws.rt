// Turns and rounds under new numbers of a side's states.
ghost use Rattle.ant_turn.specs.RenumberLaws.{RoundsRenumber, TurnsRenumber};

/// A law: a turn commutes with new numbers for one side's states (the task's kinetics). It has two premises. First, the
/// numbers turn that side's brain into another brain, which has at each new number the old state's instruction, of the
/// same kind and with the same parameters, and with its successors renumbered. Second, the state of each living ant of
/// that side has a number. Then the turn with the other brain draws and kills as before, and leaves the old turn's
/// world, renumbered; and the second premise still holds.
pub fn turns_renumber()
    ensures { TurnsRenumber }
{}

/// A law: any number of rounds commutes with new numbers for one side's states, under the premises of a turn, and ends
/// at the same place of the stream (the task's kinetics).
pub fn rounds_renumber()
    ensures { RoundsRenumber }
{}
