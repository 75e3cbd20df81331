//! Cells, ants and the world.
//!
//! The task's geography, chemistry and biology: what is on each cell, which ants there are, and what holds in every
//! world. Contracts see a [`World`] as its sizes, the number of ids that were ever assigned, and its cells in row
//! order. `world_of` turns such a grid into a function from positions to cells, with rock outside. The rules of a turn
//! are generic over [`Ground`], a world that can be read and changed cell by cell. This crate depends on
//! `hex_geometry`.
//!
//! Whatever names no section of the contest's task is this project's own.
#![tactic(auto)]

mod ant;
mod body;
mod build;
mod cell;
mod count_laws;
mod ground;
mod ground_laws;
mod kind;
mod limits;
mod marks;
mod marks_laws;
mod occupant;
mod opening_laws;
mod part;
mod part_laws;
mod patch;
mod score;
mod tile;
mod world;

pub use ant::{Ant, Colour, PlacedAnt};
pub use cell::Cell;
pub use count_laws::{alive_are_placed, set_counts};
pub use ground::Ground;
pub use ground_laws::{place_is_cell, set_is_read, set_keeps, set_weighs, sets_settle};
pub use hex_geometry::OutOfMemory;
pub use kind::Kind;
pub use limits::{LEAST_SIZE, MOST_ANTS, MOST_SIZE, MOST_WEIGHT};
pub use marks::Marks;
pub use marks_laws::marks_are_sets;
pub use opening_laws::{hills_are_manned, plans_open};
pub use part::{Part, Parts};
pub use part_laws::{cells_are_parts, patches_change_nothing, patches_settle, patches_take_parts};
pub use score::Score;
pub use world::{Cells, World};
