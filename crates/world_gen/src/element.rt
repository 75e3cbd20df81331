// What is placed in a world.
use cell_world::Colour;

// An element to be placed.
#[derive(Clone, Copy, Debug, PartialEq, Eq)]
pub enum Element {
    // The hill of a colour.
    Hill(Colour),
    // A rock, whose radius is drawn.
    Rock,
    // A blob of food.
    Blob,
}
