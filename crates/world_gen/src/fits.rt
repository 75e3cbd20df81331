// Whether an element's cells are open at a place. Nothing here takes memory.
ghost use Rattle.hex_geometry.specs.Position.{point_of};
ghost use Rattle.std.specs.Prelude.{◌+◌, ◌*◌, ◌≤◌, ◌↔◌, IsTrue};
ghost use Rattle.world_gen.specs.Inner.Open.{AllOpen, BallIsOpen, BlobIsOpen, IsFenced, IsShut, IsBallWithin, LineIsOpen, RowIsOpen};

use crate::draft::Draft;
use crate::spot::{Figure, HILL_RADIUS, Spot};
use hex_geometry::{Dir, Pos, Side, adjacent, distance, turned};

impl Draft {
    // Whether each cell of the spot is open.
    pub fn fits(&self, spot: Spot) -> bool
        requires { IsFenced self.now.width self.now.height self.now.blocked.items }
        ensures { IsTrue result ↔ (AllOpen self.now.width self.now.height self.now.blocked.items spot) }
    {
        match spot.figure {
            Figure::Hill(_) => self.ball_is_open(spot.place, HILL_RADIUS),
            Figure::Rock(radius) => self.ball_is_open(spot.place, radius as u16),
            Figure::Blob(first) => self.blob_is_open(spot.place, first),
        }
    }

    // Whether each position of the ball is open.
    fn ball_is_open(&self, centre: Pos, radius: u16) -> bool
        requires fence { IsFenced self.now.width self.now.height self.now.blocked.items }
        requires small { radius ≤ 255 }
        ensures { IsTrue result ↔ (BallIsOpen self.now.width self.now.height self.now.blocked.items (point_of centre) radius) }
    {
        if !self.is_within(centre, radius) {
            return false;
        }
        for row in 0..2 * radius as u32 + 1 {
            let y = (centre.y - radius) as u32 + row;
            if !self.row_is_open(centre, radius, y as u16) {
                return false;
            }
        }
        true
    }

    // Whether the ball ends before the rim on all sides.
    fn is_within(&self, centre: Pos, radius: u16) -> bool
        requires small { radius ≤ 255 }
        ensures { IsTrue result ↔ (IsBallWithin self.now.width self.now.height centre radius) }
    {
        let (x, y, reach) = (centre.x as u32, centre.y as u32, radius as u32);
        reach < x
            && reach < y
            && x + reach + 1 < self.width as u32
            && y + reach + 1 < self.height as u32
    }

    // Whether the positions of a row that are in the ball are open. The ball ends before the rim.
    fn row_is_open(&self, centre: Pos, radius: u16, y: u16) -> bool
        requires fence { IsFenced self.now.width self.now.height self.now.blocked.items }
        requires within { IsBallWithin self.now.width self.now.height centre radius }
        ensures { IsTrue result ↔ (RowIsOpen self.now.width self.now.height self.now.blocked.items centre radius y (2 * radius + 1)) }
    {
        for column in 0..2 * radius as u32 + 1 {
            let x = (centre.x - radius) as u32 + column;
            if self.is_shut(centre, radius, Pos { x: x as u16, y }) {
                return false;
            }
        }
        true
    }

    // Whether a position is in the ball and not open.
    fn is_shut(&self, centre: Pos, radius: u16, p: Pos) -> bool
        requires { IsFenced self.now.width self.now.height self.now.blocked.items }
        ensures { IsTrue result ↔ (IsShut self.now.width self.now.height self.now.blocked.items centre radius p) }
    {
        distance(centre, p) <= radius as u32 && !self.is_open(p)
    }

    // Whether each cell of the blob is open.
    fn blob_is_open(&self, corner: Pos, first: Dir) -> bool
        requires { IsFenced self.now.width self.now.height self.now.blocked.items }
        ensures { IsTrue result ↔ (BlobIsOpen self.now.width self.now.height self.now.blocked.items (point_of corner) first) }
    {
        let second = turned(first, Side::Right);
        let mut start = corner;
        for along in 0..5u32 {
            if !self.line_is_open(start, second) {
                return false;
            }
            start = adjacent(start, first);
        }
        true
    }

    // Whether a position and the next four in a direction are open.
    fn line_is_open(&self, start: Pos, way: Dir) -> bool
        requires { IsFenced self.now.width self.now.height self.now.blocked.items }
        ensures { IsTrue result ↔ (LineIsOpen self.now.width self.now.height self.now.blocked.items (point_of start) way 5) }
    {
        let mut p = start;
        for beside in 0..5u32 {
            if !self.is_open(p) {
                return false;
            }
            p = adjacent(p, way);
        }
        true
    }
}
