// A board and its seats.
//
// Only this module and its `steps` see the table of a board.
ghost use Rattle.std.specs.Prelude.{◌≡◌, [], ◌+◌, ◌-◌, ◌<◌, ◌≤◌, ◌^◌};
ghost use Rattle.std.specs.Vec.{vec_capacity};
ghost use Rattle.round_workers.specs.BoardView.{IsAtRest};

mod steps;

use crate::board::law::Law;
use crate::board::view::{Basis, BoardSlot, View};
use atomic_table::Table;
use spec_record::Look;
use std::alloc::Global;
pub(crate) use steps::{FULL, HOME};

// The table of a board.
type BoardTable = Table<BoardSlot, View, Basis, Law, Global>;

// A seat of the table: what it knows, and the slots that it has in hand.
pub(crate) type Hand = atomic_table::Seat<BoardSlot, View>;

/// A thread's access to a board, and what it knows.
#[derive(Drop)]
pub struct Seat {
    pub(crate) hand: atomic_table::Seat<BoardSlot, View>,
    ghost at_rest: { IsAtRest hand.me },
}

/// The tickets, the book and the looks of one window of a field, passed between threads.
#[derive(Drop)]
pub struct Board {
    table: BoardTable,
    places: Vec<BoardSlot>,
    room: Vec<Option<Look>>,
    pub(crate) from: u32,
    pub(crate) to: u32,
    ghost words: { table.shared.table_id.words ≡ to - from + 2 },
    ghost slots: { table.shared.table_id.slots ≡ to - from + 1 },
    ghost first: { table.shared.key.from ≡ from },
    ghost last: { table.shared.key.to ≡ to },
    ghost ids: { to ≤ table.shared.key.world.value.ids },
    ghost lasting: { table.shared.key.place + (to - from) < 2 ^ 63 },
    ghost forwards: { from ≤ to },
    ghost unplaced: { places.items ≡ [] },
    ghost wide: { to - from ≤ vec_capacity places },
    ghost bare: { room.items ≡ [] },
    ghost roomy: { to - from ≤ vec_capacity room },
}
