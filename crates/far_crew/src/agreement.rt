// Looks that agree with a field.
ghost use Rattle.std.specs.Prelude.{◌≡◌, ◌↔◌, ◌<◌, true, length, slice_get, Some};
ghost use Rattle.std.specs.List.{AllByRecursion};
ghost use Rattle.ant_turn.specs.Minds.{minds_of, mind_of};
ghost use Rattle.ant_turn.specs.Turn.{instruction_at};
ghost use Rattle.cell_world.specs.Grid.{world_of};
ghost use Rattle.cell_world.specs.World.{place_in};
ghost use Rattle.spec_record.specs.Claims.{seen_place};
ghost use Rattle.spec_record.specs.Look.{look_of};
ghost use Rattle.far_crew.specs.Agreement.{AgreesWith, IsSameAnt, IsSameGame};
ghost use Rattle.far_crew.specs.Jobs.{IsLookOf};

use crate::found::Found;
use crate::own_brains::are_sheets_same;
use crate::same_cells::are_cells_same;
use ant_turn::Brains;
use brain_read::{Brain, Instr, are_same};
use cell_world::{Ant, World};
use hex_geometry::Pos;
use round_book::Field;
use spec_record::Look;

/// Whether a look of an answer agrees with a field at a guess. The seeds, the sheets, the sizes and the numbers of ids
/// are equal, and the look's guess is this one. Every position that the look reads has the same whole cell in both
/// worlds. Its ant is dead in both, or alive in both with the same instruction in both pairs of brains. Then it is the
/// look on the field at its turn and this guess. `i` is below the number of looks. It takes no memory.
pub fn agrees(field: &Field<'_>, found: &Found, i: u32, guess: u64) -> bool
    requires { i < length found.now.looks }
    ensures agrees { (look : _) → slice_get found.now.looks i ≡ Some look → ((result ≡ true) ↔ AgreesWith field.now found.now look guess) }
    ensures own { (look : _) → slice_get found.now.looks i ≡ Some look → result ≡ true
        → look ≡ look_of field.now.minds field.now.seed (world_of field.now.world) guess look.turn }
{
    is_agreeing(field, found, found.look(i as usize), guess)
}

// Whether a look of an answer is the one of this turn on the field at this guess.
pub(crate) fn is_look_for(
    field: &Field<'_>,
    found: &Found,
    look: &Look,
    guess: u64,
    id: u32,
) -> bool
    requires { IsLookOf found.now.minds found.now.seed found.now.base look.now }
    ensures { result ≡ true → look.now ≡ look_of field.now.minds field.now.seed (world_of field.now.world) guess id }
{
    if look.turn() != id {
        return false;
    }
    is_agreeing(field, found, look, guess)
}

// Whether a look of an answer agrees; then it is the field's own.
#[tactic(auto, using(crate::proofs::AgreementLemmas::agrees_test, crate::proofs::AgreementLemmas::look_known))]
fn is_agreeing(field: &Field<'_>, found: &Found, look: &Look, guess: u64) -> bool
    requires { IsLookOf found.now.minds found.now.seed found.now.base look.now }
    ensures agrees { (result ≡ true) ↔ AgreesWith field.now found.now look.now guess }
    ensures own { result ≡ true → look.now ≡ look_of field.now.minds field.now.seed (world_of field.now.world) guess look.now.turn }
{
    // called for its clause: the field has a world
    let _width = field.world().width();
    is_same_in_all(field, found, look, guess)
}

// Whether everything is the same that must be for a look to agree.
fn is_same_in_all(field: &Field<'_>, found: &Found, look: &Look, guess: u64) -> bool
    requires { IsLookOf found.now.minds found.now.seed found.now.base look.now }
    ensures { (result ≡ true) ↔ (IsSameGame field.now found.now × (look.now.guess ≡ guess)
        × (AllByRecursion (λ read. (world_of found.now.base).cells (seen_place read) ≡ (world_of field.now.world).cells (seen_place read)) look.now.reads
        × IsSameAnt field.now found.now look.now.turn)) }
{
    is_same_game(field, found) && look.guess() == guess && is_same_there(field, found, look)
}

// Whether the field's world has what the look read, and its ant is the same.
fn is_same_there(field: &Field<'_>, found: &Found, look: &Look) -> bool
    requires { IsLookOf found.now.minds found.now.seed found.now.base look.now }
    ensures { (result ≡ true) ↔ (AllByRecursion (λ read. (world_of found.now.base).cells (seen_place read) ≡ (world_of field.now.world).cells (seen_place read)) look.now.reads
        × IsSameAnt field.now found.now look.now.turn) }
{
    are_reads_same(field, found, look) && is_same_ant(field, found, look.turn())
}

// Whether, at each position that was read, the field's world has the same cell as the answer's world; the look stored
// that cell.
fn are_reads_same(field: &Field<'_>, found: &Found, look: &Look) -> bool
    requires { IsLookOf found.now.minds found.now.seed found.now.base look.now }
    ensures { (result ≡ true) ↔ AllByRecursion (λ read. (world_of found.now.base).cells (seen_place read) ≡ (world_of field.now.world).cells (seen_place read)) look.now.reads }
{
    are_cells_same(field.world(), look.reads().as_slice())
}

// Whether seeds, sheets, sizes and numbers of ids are equal.
#[tactic(auto, using(crate::proofs::AgreementLemmas::game_test))]
fn is_same_game(field: &Field<'_>, found: &Found) -> bool
    ensures { (result ≡ true) ↔ IsSameGame field.now found.now }
{
    are_numbers_same(field, found)
}

fn are_numbers_same(field: &Field<'_>, found: &Found) -> bool
    ensures { (result ≡ true) ↔ ((field.now.seed ≡ found.now.seed) × (field.now.minds.sheet ≡ found.now.minds.sheet)
        × ((field.now.world.width ≡ found.now.base.width) × (field.now.world.height ≡ found.now.base.height) × (field.now.world.ids ≡ found.now.base.ids))) }
{
    field.seed() == found.seed()
        && are_sheets_same(field.brains().sheet, found.brains().sheet)
        && are_sizes_same(field.world(), found.base())
}

// Whether two worlds have the same size and number of ids.
pub(crate) fn are_sizes_same(one: &World, other: &World) -> bool
    ensures { (result ≡ true) ↔ ((one.now.width ≡ other.now.width) × (one.now.height ≡ other.now.height) × (one.now.ids ≡ other.now.ids)) }
{
    one.width() == other.width()
        && one.height() == other.height()
        && one.ant_count() == other.ant_count()
}

// Whether an ant is dead in both, or alive in both with the same instruction.
#[tactic(auto, using(crate::proofs::AgreementLemmas::dead_test))]
fn is_same_ant(field: &Field<'_>, found: &Found, id: u32) -> bool
    ensures { (result ≡ true) ↔ IsSameAnt field.now found.now id }
{
    let Some(p) = found.base().ant_place(id) else {
        return field.world().ant_place(id).is_none();
    };
    is_living_same(field, found, id, p)
}

// The same for an ant that is alive in the answer's world.
#[tactic(auto, using(crate::proofs::AgreementLemmas::living_dead, crate::proofs::AgreementLemmas::living_test))]
fn is_living_same(field: &Field<'_>, found: &Found, id: u32, p: Pos) -> bool
    requires { place_in (world_of found.now.base) id ≡ Some p }
    ensures { (result ≡ true) ↔ IsSameAnt field.now found.now id }
{
    let ant = ant_at(found.base(), id, p);
    let Some(_there) = field.world().ant_place(id) else {
        return false;
    };
    is_same_instruction(field.brains(), found.brains(), &ant)
}

// The ant with an id at its place.
#[tactic(auto, using(crate::proofs::AgreementLemmas::placed_inside, crate::proofs::AgreementLemmas::placed_ant))]
fn ant_at(base: &World, id: u32, p: Pos) -> Ant
    requires { place_in (world_of base.now) id ≡ Some p }
    ensures { ((world_of base.now).cells p).ant ≡ Some result }
{
    let Some(ant) = base.cell(p).ant else {
        unreachable!()
    };
    ant
}

// Whether an ant has the same instruction in two pairs of brains.
fn is_same_instruction(one: Brains<'_>, other: Brains<'_>, ant: &Ant) -> bool
    ensures { (result ≡ true) ↔ (instruction_at (mind_of (minds_of one.entry) ant.now.colour) ant.now.state ≡ instruction_at (mind_of (minds_of other.entry) ant.now.colour) ant.now.state) }
{
    are_same(
        instruction_at(one.of(ant.colour), ant.state),
        instruction_at(other.of(ant.colour), ant.state),
    )
}

// The instruction at a state; after the last one it is a Drop, as in the definition.
fn instruction_at(brain: &Brain, state: u16) -> Instr
    ensures { result ≡ instruction_at brain.now state }
{
    if u32::from(state) < brain.len() {
        return brain.at(state);
    }
    Instr::Drop { next: 0 }
}
