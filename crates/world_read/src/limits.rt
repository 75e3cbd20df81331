// What holds of the kinds of a world: a rocky rim, and not too many hill cells.
ghost use Rattle.std.specs.Prelude.{◌≡◌, ◌≤◌, ◌<◌, ◌*◌, length};
ghost use Rattle.cell_world.specs.Limits.{most_size};
ghost use Rattle.cell_world.specs.Opening.{hill_count};
ghost use Rattle.world_read.specs.Inner.Reading.{AreSizes, is_open, leaving, limited, open_rim};
ghost use Rattle.world_read.specs.Inner.Scan.{SearchesRow};

use crate::fault::WorldFault;
use cell_world::{Kind, MOST_ANTS};
use hex_geometry::{Pos, index_of, is_on_rim};

// Whether the rim is rock and there are not too many hill cells.
pub fn check_limits(width: u16, height: u16, kinds: &[Kind]) -> Result<(), WorldFault>
    requires sizes { AreSizes width height }
    requires full { length kinds.now ≡ width * height }
    ensures { leaving (record { width = width; height = height; kinds = kinds.now }) result ≡ limited width height kinds.now (open_rim width height kinds.now) }
{
    if let Some(p) = open_rim(width, height, kinds) {
        return Err(WorldFault::OpenRim { x: p.x, y: p.y });
    }
    let count = hill_count(kinds);
    if count > MOST_ANTS {
        return Err(WorldFault::TooManyAnts { count });
    }
    Ok(())
}

// The first cell of the rim, in row order, that isn't rock.
fn open_rim(width: u16, height: u16, kinds: &[Kind]) -> Option<Pos>
    requires { length kinds.now ≡ width * height }
    ensures { result ≡ open_rim width height kinds.now }
{
    for y in 0..height {
        let found = open_in_row(width, height, y, kinds);
        if found.is_some() {
            return found;
        }
    }
    None
}

// The first cell of this row that is on the rim and isn't rock.
fn open_in_row(width: u16, height: u16, y: u16, kinds: &[Kind]) -> Option<Pos>
    requires row { y < height }
    requires full { length kinds.now ≡ width * height }
    ensures { SearchesRow width height kinds.now y result }
{
    for x in 0..width {
        let p = Pos { x, y };
        let kind = kinds[index_of(width, p)];
        if is_open(width, height, kind, p) {
            return Some(p);
        }
    }
    None
}

// Whether a cell of this kind at p is on the rim, and isn't rock.
fn is_open(width: u16, height: u16, kind: Kind, p: Pos) -> bool
    requires column { p.x < width }
    requires row { p.y < height }
    ensures { result ≡ is_open width height kind p }
{
    is_on_rim(width, height, p) && !kind.is_rock()
}

fn hill_count(kinds: &[Kind]) -> u32
    requires { length kinds.now ≤ most_size * most_size }
    ensures { result ≡ hill_count kinds.now }
{
    kinds.iter().filter(|kind| kind.is_hill()).count() as u32
}
