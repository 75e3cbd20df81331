// Ants and cells after a turn.
ghost use Rattle.std.specs.Prelude.{◌≡◌, ◌<◌, ◌≤◌, ◌+◌, ◌-◌, ◌||◌, ◌==◌, if◌then◌else◌, Some, true, false};
ghost use Rattle.hex_geometry.specs.Direction.{turned_by};
ghost use Rattle.cell_world.specs.Cell.{one_if};
ghost use Rattle.cell_world.specs.Limits.{most_weight};
ghost use Rattle.ant_turn.specs.Sheet.{sheet_of};
ghost use Rattle.ant_turn.specs.Turn as turn;

use crate::sheet::Sheet;
use cell_world::{Ant, Cell, Colour};
use hex_geometry::{Side, turned};

// The ant in this state.
#[inline]
pub(crate) fn in_state(ant: Ant, state: u16) -> Ant
    ensures { result ≡ turn.in_state ant state }
{
    Ant { state, ..ant }
}

// The ant after it has rested for a turn.
#[inline]
pub(crate) fn ant_after_rest(ant: Ant) -> Ant
    requires { 1 ≤ ant.resting }
    ensures { result ≡ record ant { resting = ant.resting - 1 } }
{
    Ant {
        resting: ant.resting - 1,
        ..ant
    }
}

// The ant after a Sense or a Flip: its state is one of the two.
#[inline]
pub(crate) fn ant_after_branch(ant: Ant, first: bool, met: u16, unmet: u16) -> Ant
    ensures { result ≡ turn.in_state ant (if first then met else unmet) }
{
    in_state(ant, if first { met } else { unmet })
}

// The ant after a Turn.
#[inline]
pub(crate) fn ant_after_turn(ant: Ant, side: Side, next: u16) -> Ant
    ensures { result ≡ record ant { facing = turned_by ant.facing side; state = next } }
{
    Ant {
        state: next,
        facing: turned(ant.facing, side),
        ..ant
    }
}

// The cell with this ant.
#[inline]
pub(crate) fn with_ant(cell: &Cell, ant: Ant) -> Cell
    ensures { result ≡ turn.with_ant cell.now ant }
{
    Cell {
        ant: Some(ant),
        ..*cell
    }
}

// The own cell after a Mark.
#[inline]
pub(crate) fn cell_after_mark(cell: &Cell, ant: Ant, mark: u8, next: u16) -> Cell
    requires { mark < 6 }
    ensures { result ≡ turn.with_ant (turn.marked cell.now ant.colour mark) (turn.in_state ant next) }
{
    let ant_after = in_state(ant, next);
    match ant.colour {
        Colour::Red => Cell {
            red: cell.red.with(mark),
            ant: Some(ant_after),
            ..*cell
        },
        Colour::Black => Cell {
            black: cell.black.with(mark),
            ant: Some(ant_after),
            ..*cell
        },
    }
}

// The own cell after an Unmark.
#[inline]
pub(crate) fn cell_after_unmark(cell: &Cell, ant: Ant, mark: u8, next: u16) -> Cell
    requires { mark < 6 }
    ensures { result ≡ turn.with_ant (turn.unmarked cell.now ant.colour mark) (turn.in_state ant next) }
{
    let ant_after = in_state(ant, next);
    match ant.colour {
        Colour::Red => Cell {
            red: cell.red.without(mark),
            ant: Some(ant_after),
            ..*cell
        },
        Colour::Black => Cell {
            black: cell.black.without(mark),
            ant: Some(ant_after),
            ..*cell
        },
    }
}

// The own cell after a PickUp.
#[inline]
pub(crate) fn cell_after_pick_up(cell: &Cell, ant: Ant, met: u16, unmet: u16) -> Cell
    ensures { result ≡ (if ant.laden || cell.now.food == 0
        then turn.with_ant cell.now (turn.in_state ant unmet)
        else record cell.now { food = cell.now.food - 1; ant = Some (record ant { laden = true; state = met }) }) }
{
    if ant.laden || cell.food == 0 {
        return with_ant(cell, in_state(ant, unmet));
    }
    Cell {
        food: cell.food - 1,
        ant: Some(Ant {
            state: met,
            laden: true,
            ..ant
        }),
        ..*cell
    }
}

// The own cell after a Drop.
#[inline]
#[tactic(auto, unfolding(cell_world::specs::Limits::most_weight))]
pub(crate) fn cell_after_drop(cell: &Cell, ant: Ant, next: u16) -> Cell
    requires { cell.now.food ≤ most_weight }
    ensures { result ≡ record cell.now { food = cell.now.food + one_if ant.laden; ant = Some (record ant { laden = false; state = next }) } }
{
    Cell {
        food: cell.food + u32::from(ant.laden),
        ant: Some(Ant {
            state: next,
            laden: false,
            ..ant
        }),
        ..*cell
    }
}

/// Whether no ant can move onto the cell: it is rocky or holds an ant (the task's kinetics).
#[inline]
pub fn is_blocked(cell: &Cell) -> bool
    ensures { result ≡ turn.is_blocked cell.now }
{
    cell.rocky || cell.ant.is_some()
}

// The cell without its ant.
#[inline]
pub(crate) fn cell_without_ant(cell: &Cell) -> Cell
    ensures { result ≡ turn.left_by_ant cell.now }
{
    Cell { ant: None, ..*cell }
}

// The cell after an ant has stepped onto it.
#[inline]
pub(crate) fn cell_after_arrival(sheet: Sheet, cell: &Cell, ant: Ant, next: u16) -> Cell
    ensures { result ≡ turn.with_ant cell.now (turn.arrived (sheet_of sheet) ant next) }
{
    with_ant(
        cell,
        Ant {
            state: next,
            resting: sheet.rest(),
            ..ant
        },
    )
}
