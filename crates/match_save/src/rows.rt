// Rows of cells.
ghost use Rattle.match_save.specs.Inner.Answered.{Fills, ReadsAs, RowFills, behind};
ghost use Rattle.match_save.specs.Inner.Readers.{one};
ghost use Rattle.match_save.specs.Inner.Reading.{read_rows, row_of};

use crate::fault::SaveFault;
use crate::row_cell::RowCell;
use crate::save_lines::SaveLines;
use std::alloc::Global;

// Reads the line with this number, which should be a row of this many cells, and adds them at the end of the list.
fn push_row<T: RowCell>(
    line: &[u8],
    number: u32,
    width: u16,
    cells: &mut Vec<T>,
) -> Result<(), SaveFault>
    ensures { RowFills (row_of T.of_byte width line.now) number cells.old.items cells.new.items result }
{
    if line.len() != width as usize {
        return Err(SaveFault::BadLine { line: number });
    }
    for byte in line {
        let Some(cell) = T::of_byte(*byte) else {
            return Err(SaveFault::BadLine { line: number });
        };
        cells.push(cell)?;
    }
    Ok(())
}

// Reads the next line, which should be a row of this many cells, and adds them at the end of the list.
fn next_row<T: RowCell>(
    lines: &mut SaveLines,
    width: u16,
    cells: &mut Vec<T>,
) -> Result<(), SaveFault>
    ensures { Fills (behind cells.old.items (one (row_of T.of_byte width) lines.old)) cells.new.items lines.new result }
{
    let number = lines.number();
    let line = lines.take()?;
    push_row(line, number, width, cells)
}

// Reads this many rows, and adds their cells at the end of the list.
fn fill_rows<T: RowCell>(
    lines: &mut SaveLines,
    width: u16,
    height: u16,
    cells: &mut Vec<T>,
) -> Result<(), SaveFault>
    ensures { Fills (behind cells.old.items (read_rows T.of_byte width height lines.old)) cells.new.items lines.new result }
{
    for _row in 0..height {
        next_row(lines, width, cells)?;
    }
    Ok(())
}

// The cells of this many rows, one row after another.
pub fn read_rows<T: RowCell>(
    alloc: Global,
    lines: &mut SaveLines,
    width: u16,
    height: u16,
) -> Result<Vec<T>, SaveFault>
    ensures { ReadsAs (read_rows T.of_byte width height lines.old) (λ cells. cells.items) lines.new result }
{
    let mut cells = Vec::with_capacity(alloc, width as usize * height as usize)?;
    fill_rows(lines, width, height, &mut cells)?;
    Ok(cells)
}
