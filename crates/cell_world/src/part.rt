// The parts of a cell, and sets of them.
ghost use Rattle.std.specs.Prelude.{◌≡◌, true};
ghost use Rattle.cell_world.specs.Parts.{has_part, no_parts, with_part};

use crate::cell::Cell;

/// A part of a cell. Rock and hill belong to no part, since no turn changes them.
#[derive(Clone, Copy, Debug, PartialEq, Eq)]
pub enum Part {
    /// The id and colour of the ant on the cell, or that there is none.
    Who,
    /// The ant's state, resting count and direction, or that there is none.
    Mind,
    /// Whether the ant carries food, or that there is none.
    Load,
    /// How many food particles are on the cell.
    Food,
    /// The markers of the red ants.
    RedMarks,
    /// The markers of the black ants.
    BlackMarks,
}

/// A set of parts of a cell.
#[derive(Clone, Copy, Debug, Default, PartialEq, Eq)]
pub struct Parts {
    who: bool,
    mind: bool,
    load: bool,
    food: bool,
    red_marks: bool,
    black_marks: bool,
}

impl Parts {
    /// The empty set.
    #[inline]
    pub fn none() -> Parts
        ensures { result ≡ no_parts }
    {
        Parts {
            who: false,
            mind: false,
            load: false,
            food: false,
            red_marks: false,
            black_marks: false,
        }
    }

    /// Whether this part is in the set.
    #[inline]
    pub fn has(&self, part: Part) -> bool
        ensures { result ≡ has_part self.now part }
    {
        match part {
            Part::Who => self.who,
            Part::Mind => self.mind,
            Part::Load => self.load,
            Part::Food => self.food,
            Part::RedMarks => self.red_marks,
            Part::BlackMarks => self.black_marks,
        }
    }

    /// The same set with this part; the others are unchanged.
    #[inline]
    pub fn with(self, part: Part) -> Parts
        ensures { result ≡ with_part self part }
    {
        match part {
            Part::Who => Parts { who: true, ..self },
            Part::Mind => Parts { mind: true, ..self },
            Part::Load => Parts { load: true, ..self },
            Part::Food => Parts { food: true, ..self },
            Part::RedMarks => Parts {
                red_marks: true,
                ..self
            },
            Part::BlackMarks => Parts {
                black_marks: true,
                ..self
            },
        }
    }
}
