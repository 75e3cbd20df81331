// The sizes of a world text, on its first two lines.
ghost use Rattle.std.specs.Prelude.{◌≡◌, ◌≤◌, drop, IfSome};
ghost use Rattle.cell_world.specs.Limits.{least_size, most_size};
ghost use Rattle.world_read.specs.Inner.Reading.{first_size, size_of};

use ant_base::{Lines, read_number_within, trim_line};
use cell_world::{LEAST_SIZE, MOST_SIZE};

// Reads the next line, and returns its size.
pub fn read_size(lines: &mut Lines) -> Option<u16>
    ensures size { result ≡ first_size lines.old }
    ensures bounds { IfSome result (λ size. (least_size ≤ size) × (size ≤ most_size)) }
    ensures rest { lines.new ≡ drop 1 lines.old }
{
    size_of(lines.next()?)
}

// The size on a line.
fn size_of(line: &[u8]) -> Option<u16>
    ensures size { result ≡ size_of line.now }
    ensures bounds { IfSome result (λ size. (least_size ≤ size) × (size ≤ most_size)) }
{
    let size = read_number_within(trim_line(line), LEAST_SIZE as u64, MOST_SIZE as u64)?;
    Some(size as u16)
}
