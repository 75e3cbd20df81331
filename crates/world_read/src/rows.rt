// The rows of a world text, and what follows them.
ghost use Rattle.std.specs.Prelude.{◌≡◌, Ok};
ghost use Rattle.std.specs.List.{list_all};
ghost use Rattle.ant_base.specs.Lines.{is_blank};
ghost use Rattle.world_read.specs.Inner.Reading.{ReadsAs, leaving, rows_from, with_row};

use crate::fault::WorldFault;
use crate::row::read_row;
use ant_base::{Lines, is_blank};
use cell_world::Kind;

// Reads a line for each row, and adds their kinds at the end of the list.
pub fn read_rows(
    lines: &mut Lines,
    width: u16,
    height: u16,
    kinds: &mut Vec<Kind>,
) -> Result<(), WorldFault>
    ensures { ReadsAs
        (with_row (Ok kinds.old.items) (rows_from width 0 height lines.old))
        (leaving (record { kinds = kinds.new.items; rest = lines.new }) result) }
{
    for row in 0..height {
        let Some(line) = lines.next() else {
            return Err(WorldFault::MissingRow { row });
        };
        read_row(line, width, row, kinds)?;
    }
    Ok(())
}

// Whether the remaining lines have only separators.
pub fn are_blank(lines: &mut Lines) -> bool
    ensures { result ≡ list_all is_blank lines.old }
{
    lines.all(|line| is_blank(line))
}
