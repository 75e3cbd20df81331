// What a world keeps of its cells and ants at the start of a game.
ghost use Rattle.std.specs.Prelude.{◌≡◌, ◌+◌, ◌*◌, ◌++◌, ◌∷◌, [], ◌<◌, ◌≤◌, length, map, None, replicate, vec_len, IfOk, OnOk};
ghost use Rattle.std.specs.List.{AllByRecursion};
ghost use Rattle.cell_world.specs.Limits.{most_ants};
ghost use Rattle.hex_geometry.specs.RowOrder.{pos_at};
ghost use Rattle.cell_world.specs.Opening.{floor, hill_cell, hill_count, opening_cell};
ghost use Rattle.cell_world.specs.Inner.Stored.{hill_of, new_bodies, new_body, no_body, opening_bodies, opening_tiles, tile_of};

use crate::ant::{Ant, Colour};
use crate::body::Body;
use crate::cell::Cell;
use crate::kind::Kind;
use crate::marks::Marks;
use crate::tile::Tile;
use hex_geometry::{Dir, OutOfMemory, Pos, pos_at};
use std::alloc::Global;

// What a world is built from: its tiles in row order, and the bodies of its ants, by id.
#[derive(Drop)]
pub struct WorldParts {
    pub tiles: Vec<Tile>,
    pub bodies: Vec<Body>,
}

impl WorldParts {
    // The tiles and the ants' bodies for these kinds, in row order.
    pub fn of_kinds(alloc: Global, width: u16, kinds: &[Kind]) -> Result<WorldParts, OutOfMemory>
        requires wide { 1 ≤ width }
        requires low { length kinds.now ≤ width * 65536 }
        requires few { hill_count kinds.now ≤ most_ants }
        ensures tiles { IfOk result (λ parts. parts.tiles.items ≡ opening_tiles 0 kinds.now) }
        ensures bodies { IfOk result (λ parts. parts.bodies.items ≡ opening_bodies width 0 kinds.now) }
    {
        let mut parts = WorldParts {
            tiles: Vec::with_capacity(alloc, kinds.len())?,
            bodies: Vec::new(alloc),
        };
        for kind in kinds {
            parts.add(width, *kind)?;
        }
        Ok(parts)
    }

    // Adds the next cell, of this kind, and its ant if one begins there.
    fn add(&mut self, width: u16, kind: Kind) -> Result<(), OutOfMemory>
        requires wide { 1 ≤ width }
        requires low { vec_len self.old.tiles < width * 65536 }
        requires few { vec_len self.old.bodies < 65535 }
        ensures tiles { OnOk result (self.new.tiles.items ≡ self.old.tiles.items ++ tile_of (opening_cell (vec_len self.old.bodies) kind) ∷ []) }
        ensures bodies { OnOk result (self.new.bodies.items ≡ self.old.bodies.items ++ new_bodies (hill_of kind) (pos_at width (vec_len self.old.tiles))) }
    {
        let cell = opening_cell(kind, self.bodies.len() as u32);
        let tile = Tile::of(&cell);
        if let Some(colour) = hill_of(kind) {
            let place = pos_at(width, self.tiles.len());
            self.bodies.push(new_body(colour, place))?;
        }
        self.tiles.push(tile)?;
        Ok(())
    }
}

// What is kept of cells that hold no ant.
pub fn ground_tiles(alloc: Global, cells: &[Cell]) -> Result<Vec<Tile>, OutOfMemory>
    requires { AllByRecursion (λ cell. cell.ant ≡ None) cells.now }
    ensures { IfOk result (λ tiles. tiles.items ≡ map tile_of cells.now) }
{
    let mut tiles = Vec::with_capacity(alloc, cells.len())?;
    for cell in cells {
        tiles.push(ground_tile(cell))?;
    }
    Ok(tiles)
}

// What is kept of a cell that holds no ant.
fn ground_tile(cell: &Cell) -> Tile
    requires { cell.now.ant ≡ None }
    ensures { result ≡ tile_of cell.now }
{
    Tile::of(cell)
}

// The given number of bodies, all of them of dead ants.
#[tactic(auto, unfolding(crate::specs::Inner::Stored::no_body))]
pub fn dead_bodies(alloc: Global, ids: u32) -> Result<Vec<Body>, OutOfMemory>
    ensures { IfOk result (λ bodies. bodies.items ≡ replicate ids no_body) }
{
    let body = Body {
        place: None,
        state: 0,
        resting: 0,
        facing: Dir::East,
        colour: Colour::Red,
        laden: false,
    };
    let bodies = vec![in alloc; body; ids as usize]?;
    Ok(bodies)
}

// The colour of the hill to which a cell of this kind belongs, if any.
fn hill_of(kind: Kind) -> Option<Colour>
    ensures { result ≡ hill_of kind }
{
    match kind {
        Kind::RedHill => Some(Colour::Red),
        Kind::BlackHill => Some(Colour::Black),
        Kind::Rock | Kind::Clear | Kind::Food(_) => None,
    }
}

// The body of an ant that begins at `place`.
fn new_body(colour: Colour, place: Pos) -> Body
    ensures { result ≡ new_body colour place }
{
    Body {
        place: Some(place),
        state: 0,
        resting: 0,
        facing: Dir::East,
        colour,
        laden: false,
    }
}

// A cell of this kind. If an ant begins on it, it has this id.
#[tactic(auto, unfolding(crate::specs::Opening::floor, crate::specs::Cell::rock))]
fn opening_cell(kind: Kind, id: u32) -> Cell
    ensures { result ≡ opening_cell id kind }
{
    match kind {
        Kind::Rock => Cell {
            rocky: true,
            ..floor()
        },
        Kind::Clear => floor(),
        Kind::RedHill => hill_cell(Colour::Red, id),
        Kind::BlackHill => hill_cell(Colour::Black, id),
        Kind::Food(food) => Cell {
            food: food as u32,
            ..floor()
        },
    }
}

// A clear cell without food, marks, ant or hill.
#[tactic(auto, unfolding(crate::specs::Opening::floor))]
fn floor() -> Cell
    ensures { result ≡ floor }
{
    Cell {
        rocky: false,
        hill: None,
        food: 0,
        red: Marks::none(),
        black: Marks::none(),
        ant: None,
    }
}

// A hill cell with its ant.
fn hill_cell(colour: Colour, id: u32) -> Cell
    ensures { result ≡ hill_cell colour id }
{
    let ant = Ant {
        id,
        colour,
        state: 0,
        resting: 0,
        facing: Dir::East,
        laden: false,
    };
    Cell {
        hill: Some(colour),
        ant: Some(ant),
        ..floor()
    }
}
