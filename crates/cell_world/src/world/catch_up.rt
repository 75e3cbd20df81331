// A world made equal to another.
ghost use Rattle.std.specs.Prelude.{◌≡◌, ◌*◌, ◌<◌, List, [], length};
ghost use Rattle.std.specs.List.{Contains};
ghost use Rattle.hex_geometry.specs.Position.{IsInside};
ghost use Rattle.hex_geometry.specs.declared.position.Pos.{Pos};
ghost use Rattle.cell_world.specs.Inner.CatchUp.{Catching, Followed};
ghost use Rattle.cell_world.specs.Grid.{world_of};
ghost use Rattle.hex_geometry.specs.RowOrder.{index_of};

use crate::body::Body;
use crate::tile::Tile;
use crate::world::World;
use hex_geometry::{Pos, index_of};

impl World {
    /// Makes the world equal to `other`, which differs from it at most at these positions. Both have the same size and
    /// number of ids, and the positions are inside. The work depends on the number of positions; if there are many
    /// compared with the ids, all bodies are copied as one run, which is faster.
    pub fn catch_up(&mut self, other: &World, places: &[Pos])
        requires width { self.old.width ≡ other.now.width }
        requires height { self.old.height ≡ other.now.height }
        requires ids { self.old.ids ≡ other.now.ids }
        requires inside { (p : Pos) → Contains places.now p → IsInside self.old.width self.old.height p }
        requires same { (p : Pos) → ¬ Contains places.now p → (world_of self.old).cells p ≡ (world_of other.now).cells p }
        ensures { self.new ≡ other.now }
    {
        if places.len() >= self.bodies.len() / 4 {
            self.bodies.copy_from_slice(&other.bodies);
            follow_tiles(
                &mut self.tiles,
                &self.bodies,
                &other.tiles,
                self.width,
                places,
            );
            return;
        }
        follow(
            &mut self.tiles,
            &mut self.bodies,
            &other.tiles,
            &other.bodies,
            self.width,
            places,
        );
    }

    /// Makes the world equal to `other`, in the memory that it has. Both have the same size and number of ids. It takes
    /// no memory.
    pub fn copy_from(&mut self, other: &World)
        requires width { self.old.width ≡ other.now.width }
        requires height { self.old.height ≡ other.now.height }
        requires ids { self.old.ids ≡ other.now.ids }
        ensures { self.new ≡ other.now }
    {
        self.tiles.copy_from_slice(&other.tiles);
        self.bodies.copy_from_slice(&other.bodies);
    }
}

// Makes what is kept of these positions equal to what another world keeps.
fn follow(
    tiles: &mut Vec<Tile>,
    bodies: &mut Vec<Body>,
    others: &Vec<Tile>,
    other_bodies: &Vec<Body>,
    width: u16,
    places: &[Pos],
)
    requires all_tiles { length others.now.items ≡ length tiles.old.items }
    requires all_ids { length other_bodies.now.items ≡ length bodies.old.items }
    requires inside { (p : Pos) → Contains places.now p → index_of width p < length tiles.old.items }
    requires start { Catching width tiles.old.items tiles.old.items others.now.items bodies.old.items bodies.old.items other_bodies.now.items places.now }
    ensures { Catching width tiles.old.items tiles.new.items others.now.items bodies.old.items bodies.new.items other_bodies.now.items [] }
{
    for p in places {
        let i = index_of(width, *p);
        let before = tiles[i].ant.id();
        let tile = others[i];
        tiles[i] = tile;
        follow_body(bodies, other_bodies, before);
        follow_body(bodies, other_bodies, tile.ant.id());
    }
}

// Makes the tiles of these positions equal to those of another world, whose bodies were already copied.
fn follow_tiles(
    tiles: &mut Vec<Tile>,
    bodies: &Vec<Body>,
    others: &Vec<Tile>,
    width: u16,
    places: &[Pos],
)
    requires all_tiles { length others.now.items ≡ length tiles.old.items }
    requires inside { (p : Pos) → Contains places.now p → index_of width p < length tiles.old.items }
    ensures { (old : List Body) → Catching width tiles.old.items tiles.old.items others.now.items old bodies.now.items bodies.now.items places.now →
        Catching width tiles.old.items tiles.new.items others.now.items old bodies.now.items bodies.now.items [] }
{
    // Called for its clause: a list's length is a machine number.
    let _bodies = bodies.len();
    for p in places {
        let i = index_of(width, *p);
        tiles[i] = others[i];
    }
}

// Makes the body of this id, if there is one, equal to that of another world.
#[inline]
fn follow_body(bodies: &mut Vec<Body>, others: &Vec<Body>, id: Option<u16>)
    requires { length others.now.items ≡ length bodies.old.items }
    ensures { Followed bodies.old.items bodies.new.items others.now.items id }
{
    if let Some(id) = id {
        let at = id as usize;
        if at < others.len() {
            bodies[at] = others[at];
        }
    }
}
