// What an ant that stays reads and writes, and whether it stays.
ghost use Rattle.std.specs.Prelude.{◌≡◌, if◌then◌else◌};
ghost use Rattle.hex_geometry.specs.Neighbourhood.{adjacent_pos};
ghost use Rattle.hex_geometry.specs.Position.{HasNeighbours, IsInner};
ghost use Rattle.cell_world.specs.Grid.{world_of};
ghost use Rattle.cell_world.specs.Parts.{only};
ghost use Rattle.ant_turn.specs.Turn.{is_blocked};
ghost use Rattle.spec_record.specs.Inner.Moves.{destination};
ghost use Rattle.spec_record.specs.Inner.Stays as standing;
ghost use Rattle.spec_record.specs.Reads.{asked, marks_part};

use crate::moves::{load_and_food, who};
use ant_turn::is_blocked;
use brain_read::{Cond, Instr};
use cell_world::{Ant, Colour, Part, Parts, World};
use hex_geometry::{Dir, Pos, adjacent, sensed};

// The cell to which the ant at `p` moves by an instruction, if it moves.
#[inline]
pub(crate) fn destination(base: &World, p: Pos, ant: &Ant, instruction: Instr) -> Option<Pos>
    requires inner { IsInner base.now.width base.now.height p }
    requires near { HasNeighbours p }
    ensures { result ≡ destination (world_of base.now).cells p ant.now instruction }
{
    match instruction {
        Instr::Move { .. } => free_ahead(base, p, ant.facing),
        _ => None,
    }
}

// The cell ahead, if an ant can move onto it.
#[inline]
fn free_ahead(base: &World, p: Pos, facing: Dir) -> Option<Pos>
    requires inner { IsInner base.now.width base.now.height p }
    requires near { HasNeighbours p }
    ensures { result ≡ (if is_blocked ((world_of base.now).cells (adjacent_pos p facing)) then None else Some (adjacent_pos p facing)) }
{
    let ahead = adjacent(p, facing);
    let cell = base.cell(ahead);
    if is_blocked(&cell) { None } else { Some(ahead) }
}

// Which cell it reads besides its identity and its state, rest and direction.
#[inline]
pub(crate) fn read_at(p: Pos, ant: &Ant, instruction: Instr) -> Pos
    requires { HasNeighbours p }
    ensures { result ≡ standing.read_at p ant.now instruction }
{
    match instruction {
        Instr::Sense { sight, .. } => sensed(p, ant.facing, sight),
        Instr::Move { .. } => adjacent(p, ant.facing),
        _ => p,
    }
}

// Which parts of that cell it reads.
#[inline]
pub(crate) fn read_parts(colour: Colour, instruction: Instr) -> Parts
    ensures { result ≡ standing.read_parts colour instruction }
{
    match instruction {
        Instr::Sense { cond, .. } => asked(cond, colour),
        Instr::Mark { .. } | Instr::Unmark { .. } => markers(colour),
        Instr::PickUp { .. } | Instr::Drop { .. } => load_and_food(),
        Instr::Turn { .. } | Instr::Flip { .. } => Parts::none(),
        Instr::Move { .. } => who(),
    }
}

// Which parts of its cell it writes besides its state, rest and direction.
#[inline]
pub(crate) fn written_besides(colour: Colour, instruction: Instr) -> Parts
    ensures { result ≡ standing.written_besides colour instruction }
{
    match instruction {
        Instr::Mark { .. } | Instr::Unmark { .. } => markers(colour),
        Instr::PickUp { .. } | Instr::Drop { .. } => load_and_food(),
        _ => Parts::none(),
    }
}

// The markers of a colour.
#[inline]
fn markers(colour: Colour) -> Parts
    ensures { result ≡ only (marks_part colour) }
{
    match colour {
        Colour::Red => Parts::none().with(Part::RedMarks),
        Colour::Black => Parts::none().with(Part::BlackMarks),
    }
}

// The parts of the sensed cell that a condition tests, for an ant of this colour.
#[inline]
fn asked(cond: Cond, colour: Colour) -> Parts
    ensures { result ≡ asked cond colour }
{
    match cond {
        Cond::Friend | Cond::Foe => who(),
        Cond::FriendWithFood | Cond::FoeWithFood => who().with(Part::Load),
        Cond::Food => Parts::none().with(Part::Food),
        Cond::Marker(_) => markers(colour),
        Cond::FoeMarker => markers(colour.foe()),
        Cond::Rock | Cond::Home | Cond::FoeHome => Parts::none(),
    }
}
