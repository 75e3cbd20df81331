// Sightings, joined one by one.
ghost use Rattle.std.specs.Prelude.{◌≡◌, ◌≤◌, [], ◌∷◌, if◌then◌else◌, length};
ghost use Rattle.hex_geometry.specs.Position.{same_pos};
ghost use Rattle.cell_world.specs.Parts.{union, with_part, has_part};
ghost use Rattle.spec_record.specs.Inner.Sightings as sighting;

use crate::record::Sighting;
use arrayvec::ArrayVec;
use cell_world::{Cell, Part, Parts};
use hex_geometry::Pos;

// Parts of the cell at a position, as a turn sees them.
#[derive(Clone, Copy)]
pub(crate) struct Seen<'c> {
    pub(crate) at: Pos,
    pub(crate) parts: Parts,
    pub(crate) cell: &'c Cell,
}

// Notes these parts of the cell at `p`: they are added to its entry if the position is in the list; otherwise it is
// added last.
#[inline]
pub(crate) fn note<const N: usize>(
    list: &mut ArrayVec<Sighting, N>,
    p: Pos,
    parts: Parts,
    cell: Cell,
)
    requires { length (sighting.sighted list.old.items (p, parts, cell)) ≤ N }
    ensures { list.new.items ≡ sighting.sighted list.old.items (p, parts, cell) }
{
    let number = number_of(list.as_slice(), p);
    if number < list.len() {
        let (q, old, there) = list[number];
        list[number] = (q, union(old, parts), there);
    } else {
        list.push((p, parts, cell));
    }
}

// Replaces a list by one with only these parts of the cell at `p`, in the memory that it has.
#[inline]
pub(crate) fn note_alone<const N: usize>(
    list: &mut ArrayVec<Sighting, N>,
    p: Pos,
    parts: Parts,
    cell: Cell,
)
    requires { 1 ≤ N }
    ensures { list.new.items ≡ (p, parts, cell) ∷ [] }
{
    if list.is_empty() {
        list.push((p, parts, cell));
    } else {
        list[0] = (p, parts, cell);
        list.truncate(1);
    }
}

// Replaces a list by one of two sightings, which may be at the same position.
#[inline]
pub(crate) fn note_two(list: &mut ArrayVec<Sighting, 19>, first: Seen<'_>, second: Seen<'_>)
    ensures { list.new.items ≡ sighting.sighted ((first.entry.at, first.entry.parts, first.entry.cell.now) ∷ []) (second.entry.at, second.entry.parts, second.entry.cell.now) }
{
    if is_same(first.at, second.at) {
        note_alone(
            list,
            first.at,
            union(first.parts, second.parts),
            *first.cell,
        );
    } else {
        note_alone(list, first.at, first.parts, *first.cell);
        list.push((second.at, second.parts, *second.cell));
    }
}

// The number of a position in the list, or the length of the list if it isn't there.
#[inline]
fn number_of(list: &[Sighting], p: Pos) -> usize
    ensures { result ≡ sighting.seen_number p list.now }
{
    let mut number = 0;
    for (q, _, _) in list {
        if is_same(*q, p) {
            return number;
        }
        number += 1;
    }
    number
}

// The parts of either set.
#[inline]
pub(crate) fn union(a: Parts, b: Parts) -> Parts
    ensures { result ≡ union a b }
{
    let mut all = a;
    all = with_if(all, b, Part::Who);
    all = with_if(all, b, Part::Mind);
    all = with_if(all, b, Part::Load);
    all = with_if(all, b, Part::Food);
    all = with_if(all, b, Part::RedMarks);
    with_if(all, b, Part::BlackMarks)
}

// The same set with this part, if the other set has it.
#[inline]
fn with_if(parts: Parts, other: Parts, part: Part) -> Parts
    ensures { result ≡ (if has_part other part then with_part parts part else parts) }
{
    if other.has(part) {
        parts.with(part)
    } else {
        parts
    }
}

// Whether two positions are equal.
#[inline]
#[tactic(auto, unfolding(hex_geometry::specs::Position::same_pos))]
pub(crate) fn is_same(p: Pos, q: Pos) -> bool
    ensures { result ≡ same_pos p q }
{
    p == q
}
