// All lines of a save, read.
ghost use Rattle.std.specs.Prelude.{◌≡◌, ◌<◌, ◌≤◌, ◌^◌, length, map};
ghost use Rattle.ant_base.specs.Lines.{ends_in_lf};
ghost use Rattle.brain_read.specs.Drafts.{drafted};
ghost use Rattle.match_save.specs.Inner.Answered.{ReadsAs, line_told};
ghost use Rattle.match_save.specs.Inner.Reading.{brain_parts, cell_parts, draft_of_text, line_end, read_body};
ghost use Rattle.match_save.specs.Inner.Said.{TellsDraft, said};

use crate::ants::read_ants;
use crate::fault::{RefusedLine, SaveFault};
use crate::foods::read_all_foods;
use crate::head::{Head, read_head};
use crate::programs::read_program;
use crate::rows::read_rows;
use crate::save_lines::SaveLines;
use crate::soil::Soil;
use brain_read::Draft;
use cell_world::PlacedAnt;
use std::alloc::Global;

// What all lines of a save say, if each of them is in its form.
#[derive(Drop)]
pub struct SaveDraft {
    pub head: Head,
    // The instructions of both brains, by state.
    pub red: Vec<Draft>,
    pub black: Vec<Draft>,
    // The cells in row order: their ground, the markers of both colours and the food.
    pub soils: Vec<Soil>,
    pub red_marks: Vec<u8>,
    pub black_marks: Vec<u8>,
    pub foods: Vec<u32>,
    // The living ants, by rising id.
    pub ants: Vec<PlacedAnt>,
}

// The instructions of both brains.
fn read_brains(alloc: Global, lines: &mut SaveLines) -> Result<(Vec<Draft>, Vec<Draft>), SaveFault>
    ensures { ReadsAs (brain_parts lines.old) (λ both. (map drafted both.0.items, map drafted both.1.items)) lines.new result }
{
    let red = read_program(alloc, lines, "red")?;
    let black = read_program(alloc, lines, "black")?;
    Ok((red, black))
}

// The content of the cells, in row order.
#[derive(Drop)]
struct CellLists {
    soils: Vec<Soil>,
    red_marks: Vec<u8>,
    black_marks: Vec<u8>,
    foods: Vec<u32>,
}

// What the rows of the cells say.
fn read_cells(
    alloc: Global,
    lines: &mut SaveLines,
    width: u16,
    height: u16,
) -> Result<CellLists, SaveFault>
    requires { 1 ≤ width }
    ensures { ReadsAs (cell_parts width height lines.old) (λ lists. (lists.soils.items, (lists.red_marks.items, (lists.black_marks.items, lists.foods.items)))) lines.new result }
{
    let soils = read_rows(alloc, lines, width, height)?;
    let red_marks = read_rows(alloc, lines, width, height)?;
    let black_marks = read_rows(alloc, lines, width, height)?;
    let foods = read_all_foods(alloc, lines, width, height)?;
    Ok(CellLists {
        soils,
        red_marks,
        black_marks,
        foods,
    })
}

// What follows the first eight lines, up to the last line.
fn read_body(alloc: Global, lines: &mut SaveLines, head: Head) -> Result<SaveDraft, SaveFault>
    requires wide { 1 ≤ head.width }
    requires tall { 1 ≤ head.height }
    ensures { ReadsAs (read_body head lines.old) said lines.new result }
{
    let (red, black) = read_brains(alloc, lines)?;
    let cells = read_cells(alloc, lines, head.width, head.height)?;
    let ants = read_ants(alloc, lines, head.width, head.height)?;
    Ok(SaveDraft {
        head,
        red,
        black,
        soils: cells.soils,
        red_marks: cells.red_marks,
        black_marks: cells.black_marks,
        foods: cells.foods,
        ants,
    })
}

// Whether a text ends in LF.
fn ends_in_lf(text: &[u8]) -> bool
    ensures { result ≡ ends_in_lf text.now }
{
    match text {
        [.., last] => *last == b'\n',
        [] => false,
    }
}

// Checks that no line is left, and that the last one ends in LF.
fn check_end(lines: &mut SaveLines, is_ended: bool) -> Result<(), RefusedLine>
    ensures { line_end is_ended lines.old ≡ line_told result }
{
    let number = lines.number();
    if lines.take().is_ok() {
        return Err(RefusedLine(number));
    }
    if is_ended {
        Ok(())
    } else {
        Err(RefusedLine(number.saturating_sub(1)))
    }
}

// What all lines of a text say, if each is in its form.
pub fn read_draft(alloc: Global, text: &[u8]) -> Result<SaveDraft, SaveFault>
    requires { length text.now < 2 ^ 31 }
    ensures { TellsDraft (draft_of_text text.now) result }
{
    let mut lines = SaveLines::new(text);
    let head = read_head(&mut lines)?;
    let draft = read_body(alloc, &mut lines, head)?;
    check_end(&mut lines, ends_in_lf(text))?;
    Ok(draft)
}
