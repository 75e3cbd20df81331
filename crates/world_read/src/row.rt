// One row of a world text.
ghost use Rattle.std.specs.Prelude.{◌≡◌};
ghost use Rattle.world_read.specs.Inner.Reading.{kind_of, ReadsAs, cell_of, leaving, onto_row, row_of};

use crate::fault::WorldFault;
use ant_base::is_separator;
use cell_world::Kind;

// Reads a line as this row, and adds its kinds at the end of the list.
pub fn read_row(line: &[u8], width: u16, row: u16, kinds: &mut Vec<Kind>) -> Result<(), WorldFault>
    ensures { ReadsAs (onto_row kinds.old.items (row_of width row line.now)) (leaving kinds.new.items result) }
{
    let mut column = 0;
    for byte in line {
        if is_separator(*byte) {
            continue;
        }
        let kind = cell_of(*byte, width, row, column)?;
        kinds.push(kind)?;
        column += 1;
    }
    if column < width {
        return Err(WorldFault::ShortRow { row });
    }
    Ok(())
}

// The kind of a row's next cell, after this many cells.
fn cell_of(byte: u8, width: u16, row: u16, column: u16) -> Result<Kind, WorldFault>
    ensures { result ≡ cell_of width row column byte }
{
    if column >= width {
        return Err(WorldFault::LongRow { row });
    }
    kind_of(byte).ok_or(WorldFault::BadCell { row, column })
}

// The kind for a byte.
fn kind_of(byte: u8) -> Option<Kind>
    ensures { result ≡ kind_of byte }
{
    match byte {
        b'#' => Some(Kind::Rock),
        b'.' => Some(Kind::Clear),
        b'+' => Some(Kind::RedHill),
        b'-' => Some(Kind::BlackHill),
        b'1'..=b'9' => Some(Kind::Food(byte - b'0')),
        _ => None,
    }
}
