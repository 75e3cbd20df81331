// World texts read.
ghost use Rattle.std.specs.Prelude.{◌≡◌, ◌≤◌, [], length, IfErr, IfOk};
ghost use Rattle.ant_base.specs.Answers.{AnswersFault, AnswersValue, IsFaultOr};
ghost use Rattle.ant_base.specs.Shelf.{longest};
ghost use Rattle.cell_world.specs.Grid.{Grid};
ghost use Rattle.world_read.specs.Faulty.{IsWorldFault};
ghost use Rattle.world_read.specs.Opened.{IsOpeningWorld, OpensAs};
ghost use Rattle.world_read.specs.declared.fault.WorldFault.{WorldFault};
ghost use Rattle.world_read.specs.declared.fault.WorldFault.TheVariants.{OutOfMemory};
ghost use Rattle.world_read.specs.Inner.Reading.{AreSizes, ReadsAs, rows_ended, opened, rows_from, world_of_text};

use crate::fault::WorldFault;
use crate::limits::check_limits;
use crate::rows::{are_blank, read_rows};
use crate::size::read_size;
use ant_base::Lines;
use cell_world::{Kind, World};
use std::alloc::Global;

/// The opening world of a world text of at most 4,194,304 bytes, or the text's first fault (the task's world files).
/// Rows and columns are counted from 0.
///
/// Every text is that of one opening world or has one fault. `OutOfMemory` may be returned for any text; every other
/// result follows from the text alone. While it reads, it holds the kinds of the cells; their memory is allocated once.
///
/// For `3\n3\n###\n#+#\n###\n` it returns the world of 3 by 3 cells with one ant: a red one with id 0, on (1, 1), which
/// is its hill. For `2\n3\n` it returns `BadWidth`, and for `3\n3\n###\n#..\n###\n` `OpenRim { x: 2, y: 1 }`.
pub fn read_world(alloc: Global, text: &[u8]) -> Result<World, WorldFault>
    requires { length text.now ≤ longest }
    ensures opening { IfOk result IsOpeningWorld }
    ensures world { IfOk result (λ world. OpensAs text.now world) }
    ensures fault { IfErr result (IsFaultOr OutOfMemory (IsWorldFault text.now)) }
    ensures every_world { (world : Grid) → OpensAs text.now world → AnswersValue OutOfMemory result world }
    ensures every_fault { (fault : WorldFault) → IsWorldFault text.now fault → AnswersFault OutOfMemory result fault }
{
    read_text(alloc, text)
}

// What the text is read as.
fn read_text(alloc: Global, text: &[u8]) -> Result<World, WorldFault>
    ensures { ReadsAs (world_of_text text.now) result }
{
    let mut lines = Lines::new(text);
    let Some(width) = read_size(&mut lines) else {
        return Err(WorldFault::BadWidth);
    };
    let Some(height) = read_size(&mut lines) else {
        return Err(WorldFault::BadHeight);
    };
    let mut kinds = Vec::with_capacity(alloc, width as usize * height as usize)?;
    open_world(alloc, width, height, &mut lines, &mut kinds)
}

// The opening world of the kinds in the lines of rows. The kinds are put into the list.
fn open_world(
    alloc: Global,
    width: u16,
    height: u16,
    lines: &mut Lines,
    kinds: &mut Vec<Kind>,
) -> Result<World, WorldFault>
    requires sizes { AreSizes width height }
    requires none { kinds.old.items ≡ [] }
    ensures { ReadsAs (opened (rows_ended width height (rows_from width 0 height lines.old))) result }
{
    read_rows(lines, width, height, kinds)?;
    if !are_blank(lines) {
        return Err(WorldFault::ExtraRow);
    }
    check_limits(width, height, kinds)?;
    Ok(World::build(alloc, width, height, kinds)?)
}
