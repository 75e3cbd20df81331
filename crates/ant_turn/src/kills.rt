// Surrounded ants, and what is left of them.
ghost use Rattle.std.specs.Prelude.{◌≡◌, ◌+◌, ◌≤◌, ◌<◌, ◌++◌, nat_le};
ghost use Rattle.hex_geometry.specs.Neighbourhood.{neighbours_of};
ghost use Rattle.hex_geometry.specs.Position.{IsInside, IsInner};
ghost use Rattle.cell_world.specs.Colour.{foe_of};
ghost use Rattle.cell_world.specs.Limits.{most_weight};
ghost use Rattle.cell_world.specs.Valid.{Valid};
ghost use Rattle.cell_world.specs.World.{with_cells};
ghost use Rattle.arrayvec.specs.ArrayVec.{array_vec_len};
ghost use Rattle.ant_turn.specs.Deaths.{dead_around, dead_at, with_noted};
ghost use Rattle.ant_turn.specs.Kills as kill;
ghost use Rattle.ant_turn.specs.Sheet.{sheet_of};

use crate::kill_log::{KillLog, NoKillLog};
use crate::sheet::Sheet;
use arrayvec::ArrayVec;
use cell_world::{Ant, Cell, Ground, PlacedAnt};
use hex_geometry::{Pos, neighbours};

/// Whether an ant is at `p` and at least as many of its six neighbours hold foes of it as the sheet requires (the
/// task's martial arts).
///
/// The position is inside and not on the rim. The ground's world and room are unchanged.
pub fn surrounded<G: Ground>(ground: &mut G, sheet: Sheet, p: Pos) -> bool
    requires { IsInner (G.world ground.old).width (G.world ground.old).height p }
    ensures surrounded { result ≡ kill.is_surrounded (sheet_of sheet) (G.world ground.old).cells p }
    ensures world { G.world ground.new ≡ G.world ground.old }
    ensures room { G.room ground.new ≡ G.room ground.old }
    ensures valid { Valid (G.world ground.new) }
{
    let cell = ground.cell_at(p);
    let Some(ant) = cell.ant else {
        return false;
    };
    has_foes(ground, p, &ant, sheet.surround())
}

/// Checks `p` and then its six neighbours in the order of directions. An ant that is surrounded when its cell is
/// checked is killed, and leaves there the sheet's corpse of food and the particle that it carried (the task's martial
/// arts; the order is this project's own).
///
/// The position is inside and not on the rim, and the ground has room for 7 cells. It returns the ids of the killed
/// ants, in the order of the checks. No other cell changes.
#[inline(always)]
pub fn check_around<G: Ground>(ground: &mut G, sheet: Sheet, p: Pos) -> ArrayVec<u32, 7>
    requires inner { IsInner (G.world ground.old).width (G.world ground.old).height p }
    requires room { 7 ≤ G.room ground.old }
    ensures world { G.world ground.new ≡ with_cells (G.world ground.old) (kill.check_around_at (sheet_of sheet) (G.world ground.old).cells p) }
    ensures killed { result.items ≡ kill.killed_around (sheet_of sheet) (G.world ground.old).cells p }
    ensures room { G.room ground.old ≤ G.room ground.new + 7 }
    ensures valid { Valid (G.world ground.new) }
{
    kill_around(ground, sheet, p, &mut NoKillLog)
}

// The same checks, and each killed ant is noted with its position and as it was when its cell was checked.
#[inline(always)]
pub(crate) fn kill_around<G: Ground, N: KillLog>(
    ground: &mut G,
    sheet: Sheet,
    p: Pos,
    notes: &mut N,
) -> ArrayVec<u32, 7>
    requires inner { IsInner (G.world ground.old).width (G.world ground.old).height p }
    requires room { 7 ≤ G.room ground.old }
    requires notes { 7 ≤ N.room notes.old }
    ensures world { G.world ground.new ≡ with_cells (G.world ground.old) (kill.check_around_at (sheet_of sheet) (G.world ground.old).cells p) }
    ensures killed { result.items ≡ kill.killed_around (sheet_of sheet) (G.world ground.old).cells p }
    ensures noted { N.noted notes.new ≡ with_noted (dead_around (sheet_of sheet) (G.world ground.old).cells p) (N.noted notes.old) }
    ensures room { G.room ground.old ≤ G.room ground.new + 7 }
    ensures valid { Valid (G.world ground.new) }
{
    let mut killed = ArrayVec::new();
    check(ground, sheet, p, &mut killed, notes);
    let nearby = neighbours(p);
    for q in nearby {
        check(ground, sheet, q, &mut killed, notes);
    }
    killed
}

// The check of one cell: if its ant is surrounded, kills it and adds it to the killed. Most checked cells hold no ant,
// so this is part of the loop over rounds and ids, and only the count of foes is a call.
#[inline(always)]
fn check<G: Ground, N: KillLog>(
    ground: &mut G,
    sheet: Sheet,
    p: Pos,
    killed: &mut ArrayVec<u32, 7>,
    notes: &mut N,
)
    requires inside { IsInside (G.world ground.old).width (G.world ground.old).height p }
    requires room { 1 ≤ G.room ground.old }
    requires free { array_vec_len killed.old < 7 }
    requires notes { 1 ≤ N.room notes.old }
    ensures world { G.world ground.new ≡ with_cells (G.world ground.old) (kill.check_at (sheet_of sheet) (G.world ground.old).cells p) }
    ensures killed { killed.new.items ≡ killed.old.items ++ kill.killed_at (sheet_of sheet) (G.world ground.old).cells p }
    ensures noted { N.noted notes.new ≡ with_noted (dead_at (sheet_of sheet) (G.world ground.old).cells p) (N.noted notes.old) }
    ensures count { array_vec_len killed.new ≤ array_vec_len killed.old + 1 }
    ensures noted_room { N.room notes.old ≤ N.room notes.new + 1 }
    ensures room { G.room ground.old ≤ G.room ground.new + 1 }
    ensures valid { Valid (G.world ground.new) }
{
    let cell = ground.cell_at(p);
    let Some(ant) = cell.ant else {
        return;
    };
    if has_foes(ground, p, &ant, sheet.surround()) {
        ground.set(p, after_kill(sheet, &cell, &ant));
        killed.push(ant.id);
        notes.note(PlacedAnt { place: p, ant });
    }
}

// Whether the ant at `p` has foes on at least this number of its six neighbours.
#[inline(never)]
fn has_foes<G: Ground>(ground: &mut G, p: Pos, ant: &Ant, surround: u8) -> bool
    requires valid { Valid (G.world ground.old) }
    requires here { ((G.world ground.old).cells p).ant ≡ Some ant.now }
    requires at_most_all { surround ≤ 6 }
    ensures foes { result ≡ nat_le surround (kill.ants_among (G.world ground.old).cells (foe_of ant.now.colour) (neighbours_of p)) }
    ensures world { G.world ground.new ≡ G.world ground.old }
    ensures room { G.room ground.new ≡ G.room ground.old }
{
    let foe = ant.colour.foe();
    let around = neighbours(p);
    let mut gaps = 6 - surround;
    for q in around {
        let cell = ground.cell_at(q);
        if !cell.has_ant_of(foe) {
            if gaps == 0 {
                return false;
            }
            gaps -= 1;
        }
    }
    true
}

// The cell after its ant was killed.
#[inline]
#[tactic(auto, unfolding(cell_world::specs::Limits::most_weight))]
fn after_kill(sheet: Sheet, cell: &Cell, ant: &Ant) -> Cell
    requires here { cell.now.ant ≡ Some ant.now }
    requires light { cell.now.food ≤ most_weight }
    ensures { result ≡ kill.after_kill (sheet_of sheet) cell.now }
{
    Cell {
        food: cell.food + u32::from(sheet.corpse()) + u32::from(ant.laden),
        ant: None,
        ..*cell
    }
}
