//! Worlds generated from a number: the contest's shape, and others like it.
//!
//! The generator works in the manner of the contest's: two hills, then rocks, then blobs of food, each placed at random
//! where it touches neither the rim nor anything placed before. [`generate`] returns the opening world of exactly the
//! placed elements, or the element that has no room. The laws say that placed elements lie apart, and that a seed and a
//! shape have one outcome. Trying a place takes no memory. Whatever names no section of the contest's task is this
//! project's own. This crate depends on `hex_geometry`, `ant_random` and `cell_world`.
#![tactic(auto)]

mod cells;
mod draft;
mod element;
mod existence;
mod fits;
mod food;
mod generator;
mod laws;
mod shape;
mod spot;
mod tries;

pub use cell_world::World;
pub use existence::has_outcome;
pub use food::food_on_cells;
pub use generator::{GenFault, generate};
pub use hex_geometry::OutOfMemory;
pub use laws::{elements_lie_apart, placing_is_one};
pub use shape::Shape;
