// Cells compared and changed part by part.
ghost use Rattle.std.specs.Prelude.{◌≡◌, ◌↔◌, if◌then◌else◌, true, option_map};
ghost use Rattle.cell_world.specs.Parts.{Agree, Alike, CanPatch, IsDifference, identity_of, has_part, patched, patched_ant, patched_by, posture_of};

use crate::ant::Ant;
use crate::cell::Cell;
use crate::marks::Marks;
use crate::part::{Part, Parts};

impl Cell {
    /// Whether the two cells are equal in each of the parts; true if there is no part.
    #[inline]
    pub fn agrees(&self, other: &Cell, parts: Parts) -> bool
        ensures { (result ≡ true) ↔ Agree parts self.now other.now }
    {
        self.agrees_in(other, parts, Part::Who)
            && self.agrees_in(other, parts, Part::Mind)
            && self.agrees_in(other, parts, Part::Load)
            && self.agrees_in(other, parts, Part::Food)
            && self.agrees_in(other, parts, Part::RedMarks)
            && self.agrees_in(other, parts, Part::BlackMarks)
    }

    /// The cell with the named parts of the source, and everything else its own. Parts with Who also have Mind and
    /// Load. If the parts have Mind or Load without Who, both cells hold ants with the same id and colour.
    #[inline]
    pub fn patched(self, source: Cell, parts: Parts) -> Cell
        requires { CanPatch self source parts }
        ensures { result ≡ patched self source parts }
    {
        Cell {
            food: choose(parts.has(Part::Food), source.food, self.food),
            red: choose(parts.has(Part::RedMarks), source.red, self.red),
            black: choose(parts.has(Part::BlackMarks), source.black, self.black),
            ant: choose(
                parts.has(Part::Who),
                source.ant,
                patched_ant(self.ant, source.ant, parts),
            ),
            ..self
        }
    }

    /// The first of the parts in which the two cells differ, in the order of the variants; `None` if they agree in all
    /// of them.
    pub fn difference(&self, other: &Cell, parts: Parts) -> Option<Part>
        ensures { IsDifference parts self.now other.now result }
    {
        if !self.agrees_in(other, parts, Part::Who) {
            return Some(Part::Who);
        }
        if !self.agrees_in(other, parts, Part::Mind) {
            return Some(Part::Mind);
        }
        if !self.agrees_in(other, parts, Part::Load) {
            return Some(Part::Load);
        }
        if !self.agrees_in(other, parts, Part::Food) {
            return Some(Part::Food);
        }
        if !self.agrees_in(other, parts, Part::RedMarks) {
            return Some(Part::RedMarks);
        }
        if !self.agrees_in(other, parts, Part::BlackMarks) {
            return Some(Part::BlackMarks);
        }
        None
    }

    // whether the two cells are equal in the part, if it is one of these
    #[inline]
    fn agrees_in(&self, other: &Cell, parts: Parts, part: Part) -> bool
        ensures { (result ≡ true) ↔ (has_part parts part ≡ true → Alike part self.now other.now) }
    {
        !parts.has(part) || self.alike(other, part)
    }

    // whether the two cells are equal in the part
    #[inline]
    fn alike(&self, other: &Cell, part: Part) -> bool
        ensures { (result ≡ true) ↔ Alike part self.now other.now }
    {
        match part {
            Part::Who => self.same_who(other),
            Part::Mind => self.same_mind(other),
            Part::Load => self.same_load(other),
            Part::Food => self.food == other.food,
            Part::RedMarks => same_marks(&self.red, &other.red),
            Part::BlackMarks => same_marks(&self.black, &other.black),
        }
    }

    #[inline]
    fn same_who(&self, other: &Cell) -> bool
        ensures { (result ≡ true) ↔ (option_map identity_of self.now.ant ≡ option_map identity_of other.now.ant) }
    {
        match (self.ant, other.ant) {
            (Some(one), Some(two)) => one.id == two.id && one.colour == two.colour,
            (None, None) => true,
            _ => false,
        }
    }

    #[inline]
    fn same_mind(&self, other: &Cell) -> bool
        ensures { (result ≡ true) ↔ (option_map posture_of self.now.ant ≡ option_map posture_of other.now.ant) }
    {
        match (self.ant, other.ant) {
            (Some(one), Some(two)) => one.state == two.state
                && one.resting == two.resting
                && one.facing == two.facing,
            (None, None) => true,
            _ => false,
        }
    }

    #[inline]
    fn same_load(&self, other: &Cell) -> bool
        ensures { (result ≡ true) ↔ (option_map (λ ant. ant.laden) self.now.ant ≡ option_map (λ ant. ant.laden) other.now.ant) }
    {
        match (self.ant, other.ant) {
            (Some(one), Some(two)) => one.laden == two.laden,
            (None, None) => true,
            _ => false,
        }
    }
}

// whether two sets of markers are equal
#[inline]
fn same_marks(one: &Marks, other: &Marks) -> bool
    ensures { (result ≡ true) ↔ (one.now ≡ other.now) }
{
    one == other
}

// one value if it is named, and otherwise the other
#[inline]
fn choose<T: Copy>(named: bool, source: T, own: T) -> T
    ensures { result ≡ if named then source else own }
{
    if named { source } else { own }
}

// the ants of two cells: the first ant with the posture and the load of the second, if they are named
#[inline]
fn patched_ant(own: Option<Ant>, source: Option<Ant>, parts: Parts) -> Option<Ant>
    ensures { result ≡ patched_ant parts own source }
{
    match (own, source) {
        (Some(ant), Some(other)) => Some(patched_by(ant, other, parts)),
        _ => own,
    }
}

// an ant with the posture and the load of another, if they are named
#[inline]
fn patched_by(ant: Ant, other: Ant, parts: Parts) -> Ant
    ensures { result ≡ patched_by parts ant other }
{
    let laden = if parts.has(Part::Load) {
        other.laden
    } else {
        ant.laden
    };
    if parts.has(Part::Mind) {
        Ant {
            state: other.state,
            resting: other.resting,
            facing: other.facing,
            laden,
            ..ant
        }
    } else {
        Ant { laden, ..ant }
    }
}
