// The shape of a generated world.
ghost use Rattle.std.specs.Prelude.{◌≡◌, ◌<◌};
ghost use Rattle.world_gen.specs.Elements.{count_of, element_of};

use crate::element::Element;
use cell_world::Colour;

/// The sizes of a generated world, and how many rocks and blobs of food it has beside its two hills.
#[derive(Clone, Copy, Debug, PartialEq, Eq)]
pub struct Shape {
    /// How many columns there are, from 3 to 512.
    pub width: u16,
    /// How many rows there are, from 3 to 512.
    pub height: u16,
    /// How many rocks, from 0 to 255.
    pub rocks: u8,
    /// How many blobs of food, from 0 to 255.
    pub blobs: u8,
}

impl Shape {
    /// The shape of the contest's worlds: 150 by 150 cells, 14 rocks and 11 blobs of food (the task's contest worlds).
    pub fn contest() -> Shape
        ensures width { result.width ≡ 150 }
        ensures height { result.height ≡ 150 }
        ensures rocks { result.rocks ≡ 14 }
        ensures blobs { result.blobs ≡ 11 }
    {
        Shape {
            width: 150,
            height: 150,
            rocks: 14,
            blobs: 11,
        }
    }

    // How many elements there are.
    pub(crate) fn count(self) -> u32
        ensures count { result ≡ count_of self }
        ensures below { result < 513 }
    {
        2 + self.rocks as u32 + self.blobs as u32
    }

    // The element with this number.
    pub(crate) fn element(self, number: u32) -> Element
        ensures { result ≡ element_of self number }
    {
        if number == 0 {
            Element::Hill(Colour::Red)
        } else if number == 1 {
            Element::Hill(Colour::Black)
        } else if number < 2 + self.rocks as u32 {
            Element::Rock
        } else {
            Element::Blob
        }
    }
}
