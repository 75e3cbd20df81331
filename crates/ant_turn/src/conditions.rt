// Which cells meet a condition.
ghost use Rattle.std.specs.Prelude.{◌≡◌};
ghost use Rattle.hex_geometry.specs.Position.{IsInside};
ghost use Rattle.cell_world.specs.Marks.{has_mark};
ghost use Rattle.cell_world.specs.Valid.{Valid};
ghost use Rattle.ant_turn.specs.Conditions as condition;

use brain_read::Cond;
use cell_world::{Cell, Colour, Ground, Marks};
use hex_geometry::Pos;

/// Whether the cell at `p`, which is inside, meets a condition for an ant of this colour (the task's phenomenology).
///
/// A marker of 6 or above is never set. The ground's world and room are unchanged.
pub fn matches<G: Ground>(ground: &mut G, p: Pos, cond: Cond, colour: Colour) -> bool
    requires { IsInside (G.world ground.old).width (G.world ground.old).height p }
    ensures matches { result ≡ condition.matches_at (G.world ground.old) p cond colour }
    ensures world { G.world ground.new ≡ G.world ground.old }
    ensures room { G.room ground.new ≡ G.room ground.old }
    ensures valid { Valid (G.world ground.new) }
{
    let cell = ground.cell_at(p);
    meets(&cell, cond, colour)
}

// Whether a cell meets a condition for an ant of this colour.
#[inline]
#[tactic(auto, unfolding(crate::specs::Conditions::meets))]
pub(crate) fn meets(cell: &Cell, cond: Cond, colour: Colour) -> bool
    ensures { result ≡ condition.meets cell.now cond colour }
{
    if cell.rocky {
        is_rock(cond)
    } else {
        clear_meets(cell, cond, colour)
    }
}

// Whether it is the condition Rock.
#[inline]
fn is_rock(cond: Cond) -> bool
    ensures { result ≡ condition.is_rock_condition cond }
{
    matches!(cond, Cond::Rock)
}

// Whether a clear cell meets a condition for an ant of this colour.
#[inline]
fn clear_meets(cell: &Cell, cond: Cond, colour: Colour) -> bool
    ensures { result ≡ condition.clear_meets cell.now cond colour }
{
    match cond {
        Cond::Friend => cell.has_ant_of(colour),
        Cond::Foe => cell.has_ant_of(colour.foe()),
        Cond::FriendWithFood => cell.has_ant_of(colour) && is_laden(cell),
        Cond::FoeWithFood => cell.has_ant_of(colour.foe()) && is_laden(cell),
        Cond::Food => cell.food > 0,
        Cond::Rock => false,
        Cond::Marker(mark) => is_marked(cell.marks_of(colour), mark),
        Cond::FoeMarker => cell.marks_of(colour.foe()).any(),
        Cond::Home => cell.is_hill_of(colour),
        Cond::FoeHome => cell.is_hill_of(colour.foe()),
    }
}

// Whether the marker with this number is set; false for 6 and above.
#[inline]
fn is_marked(marks: Marks, mark: u8) -> bool
    ensures { result ≡ has_mark marks mark }
{
    mark < 6 && marks.has(mark)
}

// Whether the cell holds an ant that carries food.
#[inline]
fn is_laden(cell: &Cell) -> bool
    ensures { result ≡ condition.is_laden cell.now.ant }
{
    match cell.ant {
        Some(ant) => ant.laden,
        None => false,
    }
}
