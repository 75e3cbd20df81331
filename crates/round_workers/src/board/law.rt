// The rule of a board, and what its steps guarantee. These types are only for proofs.
use crate::board::view::{Basis, BoardSlot, View};
use atomic_table::{Join, Play, Split, TableRule};

pub(crate) struct Law;

impl TableRule<BoardSlot, View, Basis> for Law {
    ghost use Rattle.round_workers.specs.BoardRule.{IsKept};
    ghost use Rattle.round_workers.specs.BoardView.{first_seat};

    ghost holds = { IsKept };

    ghost first = { first_seat };
}

pub(crate) struct Draws;

impl Play<BoardSlot, View> for Draws {
    ghost use Rattle.round_workers.specs.BoardPlays.{tells_draw};

    ghost then = { tells_draw };
}

pub(crate) struct Splits;

impl Split<View> for Splits {
    ghost use Rattle.round_workers.specs.BoardPlays.{made_one, newcomer};

    ghost left = { made_one };

    ghost right = { newcomer };
}

pub(crate) struct Joins;

impl Join<View> for Joins {
    ghost use Rattle.round_workers.specs.BoardPlays.{views_joined};
    ghost use Rattle.round_workers.specs.BoardView.{spent_seat};

    ghost both = { views_joined };

    ghost spent = { spent_seat };
}

pub(crate) struct Opens;

impl Play<BoardSlot, View> for Opens {
    ghost use Rattle.round_workers.specs.BoardPlays.{tells_open};

    ghost then = { tells_open };
}

pub(crate) struct Opened;

impl Play<BoardSlot, View> for Opened {
    ghost use Rattle.round_workers.specs.BoardPlays.{tells_opened};

    ghost then = { tells_opened };
}

pub(crate) struct TakesBook;

impl Play<BoardSlot, View> for TakesBook {
    ghost use Rattle.round_workers.specs.BoardPlays.{tells_take_book};

    ghost then = { tells_take_book };
}

pub(crate) struct GivesBook;

impl Play<BoardSlot, View> for GivesBook {
    ghost use Rattle.round_workers.specs.BoardPlays.{tells_give_book};

    ghost then = { tells_give_book };
}

pub(crate) struct Puts;

impl Play<BoardSlot, View> for Puts {
    ghost use Rattle.round_workers.specs.BoardPlays.{tells_put};

    ghost then = { tells_put };
}

pub(crate) struct HasPut;

impl Play<BoardSlot, View> for HasPut {
    ghost use Rattle.round_workers.specs.BoardPlays.{tells_has_put};

    ghost then = { tells_has_put };
}

pub(crate) struct TakesLook;

impl Play<BoardSlot, View> for TakesLook {
    ghost use Rattle.round_workers.specs.BoardPlays.{tells_take_look};

    ghost then = { tells_take_look };
}

pub(crate) struct HasTaken;

impl Play<BoardSlot, View> for HasTaken {
    ghost use Rattle.round_workers.specs.BoardPlays.{tells_has_taken};

    ghost then = { tells_has_taken };
}

pub(crate) struct SeesEachOnce;

impl Play<BoardSlot, View> for SeesEachOnce {
    ghost use Rattle.round_workers.specs.BoardPlays.{tells_each_once};

    ghost then = { tells_each_once };
}
