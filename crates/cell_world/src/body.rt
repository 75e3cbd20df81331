// What a world keeps of an ant.
ghost use Rattle.std.specs.Prelude.{◌≡◌};
ghost use Rattle.cell_world.specs.Inner.Stored.{ant_from, body_at, is_living};

use crate::ant::{Ant, Colour};
use hex_geometry::{Dir, Pos};

// What a world keeps of an ant, by its id: its position, which is `None` if it is dead, and everything else about it.
#[derive(Clone, Copy)]
pub struct Body {
    pub place: Option<Pos>,
    pub state: u16,
    pub resting: u8,
    pub facing: Dir,
    pub colour: Colour,
    pub laden: bool,
}

impl Body {
    // The body of this ant at `place`.
    #[inline]
    pub fn at(place: Pos, ant: Ant) -> Body
        ensures { result ≡ body_at place ant }
    {
        Body {
            place: Some(place),
            state: ant.state,
            resting: ant.resting,
            facing: ant.facing,
            colour: ant.colour,
            laden: ant.laden,
        }
    }

    // The ant with this id and body.
    #[inline]
    pub fn ant(&self, id: u32) -> Ant
        ensures { result ≡ ant_from id self.now }
    {
        Ant {
            id,
            colour: self.colour,
            state: self.state,
            resting: self.resting,
            facing: self.facing,
            laden: self.laden,
        }
    }

    // Whether it is the body of a living ant of this colour.
    pub fn is_living(&self, colour: Colour) -> bool
        ensures { result ≡ is_living colour self.now }
    {
        self.place.is_some() && self.colour == colour
    }
}
