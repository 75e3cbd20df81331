// Which ant is on a cell, in two bytes.
ghost use Rattle.std.specs.Prelude.{◌≡◌};
ghost use Rattle.cell_world.specs.Inner.Bodies.{IsKnown};
ghost use Rattle.cell_world.specs.Inner.Stored.{occupant_id, occupant_of};

use crate::ant::Ant;

// The id of the ant on a cell, or a number that is no ant's id if there is none.
#[derive(Clone, Copy)]
pub struct Occupant {
    number: u16,
}

// No world has enough ants for this to be an id.
const NOBODY: u16 = 65535;

impl Occupant {
    // The occupant of a cell with this ant, or without one.
    #[inline]
    pub fn of(ant: Option<Ant>) -> Occupant
        requires { IsKnown 65535 ant }
        ensures { result ≡ occupant_of ant }
    {
        match ant {
            Some(ant) => Occupant {
                number: ant.id as u16,
            },
            None => Occupant { number: NOBODY },
        }
    }

    // The ant's id, if there is one.
    #[inline]
    pub fn id(self) -> Option<u16>
        ensures { result ≡ occupant_id self }
    {
        if self.number == NOBODY {
            None
        } else {
            Some(self.number)
        }
    }
}
