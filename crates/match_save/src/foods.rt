// The food of the cells.
ghost use Rattle.std.specs.Prelude.{◌≡◌, ◌%◌, ◌/◌, ◌≤◌, ◌<◌};
ghost use Rattle.match_save.specs.Inner.Answered.{Fills, ReadsAs, behind, line_left};
ghost use Rattle.match_save.specs.Inner.Reading.{food_at, food_of, read_all_foods, read_foods};

use crate::fault::{RefusedLine, SaveFault};
use crate::fields::Fields;
use crate::rows::read_rows;
use crate::save_lines::SaveLines;
use cell_world::MOST_WEIGHT;
use std::alloc::Global;

// The value of the byte for all amounts of food above 62.
const HAS_LINE: u8 = 63;

// The least food that has a line of its own.
const LEAST_LISTED: u64 = 63;

// The most food of a world.
const MOST_FOOD: u64 = MOST_WEIGHT as u64;

// The food of a line for the cell in this column and row.
fn food_of(line: &[u8], x: usize, y: usize) -> Option<u32>
    ensures { result ≡ food_of x y line.now }
{
    let mut fields = Fields::new(line);
    let Ok(()) = fields.word("food") else {
        return None;
    };
    let Ok(_column) = fields.number(x as u64, x as u64) else {
        return None;
    };
    let Ok(_row) = fields.number(y as u64, y as u64) else {
        return None;
    };
    let Ok(food) = fields.number(LEAST_LISTED, MOST_FOOD) else {
        return None;
    };
    if fields.is_done() {
        Some(food as u32)
    } else {
        None
    }
}

// The food of the cell with this number in row order; its byte has this value.
fn food_at(lines: &mut SaveLines, width: u16, cell: usize, value: u8) -> Result<u32, RefusedLine>
    requires { 1 ≤ width }
    ensures { food_at width cell value lines.old ≡ line_left lines.new result }
{
    if value != HAS_LINE {
        return Ok(value as u32);
    }
    let number = lines.number();
    let line = lines.take()?;
    let columns = width as usize;
    food_of(line, cell % columns, cell / columns).ok_or(RefusedLine(number))
}

// The food of the cells whose bytes have these values, after what is in the list.
fn fill_foods(
    lines: &mut SaveLines,
    width: u16,
    values: &[u8],
    foods: &mut Vec<u32>,
) -> Result<(), SaveFault>
    requires { 1 ≤ width }
    ensures { Fills (behind foods.old.items (read_foods width 0 values.now lines.old)) foods.new.items lines.new result }
{
    for (cell, value) in values.iter().enumerate() {
        let food = food_at(lines, width, cell, *value)?;
        foods.push(food)?;
    }
    Ok(())
}

// The food of all cells in row order: rows of bytes, and a line for each amount that has no byte of its own.
pub fn read_all_foods(
    alloc: Global,
    lines: &mut SaveLines,
    width: u16,
    height: u16,
) -> Result<Vec<u32>, SaveFault>
    requires { 1 ≤ width }
    ensures { ReadsAs (read_all_foods width height lines.old) (λ foods. foods.items) lines.new result }
{
    let values = read_rows(alloc, lines, width, height)?;
    let mut foods = Vec::with_capacity(alloc, values.len())?;
    fill_foods(lines, width, &values, &mut foods)?;
    Ok(foods)
}
