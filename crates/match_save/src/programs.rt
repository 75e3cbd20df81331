// The instructions of a brain.
ghost use Rattle.std.specs.Prelude.{◌≡◌, ◌-◌, ◌<◌, length, map, option_map, take, IfOk};
ghost use Rattle.std.specs.Str.{bytes_eq};
ghost use Rattle.brain_read.specs.Canonical.{instruction_text};
ghost use Rattle.brain_read.specs.Drafts.{drafted};
ghost use Rattle.match_save.specs.Text.{instruction_line};
ghost use Rattle.match_save.specs.Inner.Answered.{Fills, ReadsAs, behind};
ghost use Rattle.match_save.specs.Inner.LineTexts.{IfPrinted};
ghost use Rattle.match_save.specs.Inner.Readers.{many, one};
ghost use Rattle.match_save.specs.Inner.Reading.{instruction_of, read_program};

use crate::fault::SaveFault;
use crate::head::named_number;
use crate::save_lines::SaveLines;
use ant_base::{Calls, Layout, MemSink};
use brain_read::{Draft, MOST_STATES, read_instruction};
use hex_geometry::OutOfMemory;
use line_tokens::Tokens;
use std::alloc::Global;

const MOST_INSTRUCTIONS: u64 = MOST_STATES as u64;

// More bytes than the line of any instruction has.
const LINE_ROOM: u64 = 80;

// A text without its last byte.
fn without_last(text: &[u8]) -> &[u8]
    ensures { result.now ≡ take (length text.now - 1) text.now }
{
    text.split_at(text.len().saturating_sub(1)).0
}

// Whether two texts are equal.
fn are_same(text: &[u8], other: &[u8]) -> bool
    ensures { result ≡ bytes_eq text.now other.now }
{
    text == other
}

// Prints an instruction into a sink; returns whether there was room for all of it.
fn prints(draft: Draft, sink: &mut MemSink) -> bool
    ensures { IfPrinted sink.old.held sink.new.held (instruction_text (drafted draft)) result }
{
    match draft.push_to(sink) {
        Ok(()) => true,
        Err(_) => false,
    }
}

// Whether an instruction is printed exactly as this line.
fn is_printed_as(alloc: Global, draft: Draft, line: &[u8]) -> Result<bool, OutOfMemory>
    ensures { IfOk result (λ same. same ≡ bytes_eq (instruction_line (drafted draft)) line.now) }
{
    let Ok(mut sink) = MemSink::with_room(alloc, LINE_ROOM, Calls::new(alloc)) else {
        return Err(OutOfMemory);
    };
    if !prints(draft, &mut sink) {
        return Err(OutOfMemory);
    }
    let same = are_same(without_last(sink.held()), line);
    Ok(same)
}

// The instruction of a line that is exactly how the instruction is printed.
fn instruction_of(alloc: Global, line: &[u8]) -> Result<Option<Draft>, OutOfMemory>
    ensures { IfOk result (λ found. option_map drafted found ≡ instruction_of line.now) }
{
    let mut tokens = Tokens::new(line);
    let Ok(draft) = read_instruction(&mut tokens) else {
        return Ok(None);
    };
    let same = is_printed_as(alloc, draft, line)?;
    if same { Ok(Some(draft)) } else { Ok(None) }
}

// The instruction of the next line.
fn next_instruction(alloc: Global, lines: &mut SaveLines) -> Result<Draft, SaveFault>
    ensures { ReadsAs (one instruction_of lines.old) drafted lines.new result }
{
    let number = lines.number();
    let line = lines.take()?;
    match instruction_of(alloc, line)? {
        Some(draft) => Ok(draft),
        None => Err(SaveFault::BadLine { line: number }),
    }
}

// Reads this many instructions, and adds them at the end of the list.
fn fill_program(
    alloc: Global,
    lines: &mut SaveLines,
    count: u64,
    list: &mut Vec<Draft>,
) -> Result<(), SaveFault>
    ensures { Fills (behind (map drafted list.old.items) (many instruction_of count lines.old)) (map drafted list.new.items) lines.new result }
{
    for _state in 0..count {
        let draft = next_instruction(alloc, lines)?;
        list.push(draft)?;
    }
    Ok(())
}

// The instructions of a brain, after the line of its name and its length.
pub fn read_program(
    alloc: Global,
    lines: &mut SaveLines,
    name: &str,
) -> Result<Vec<Draft>, SaveFault>
    ensures { ReadsAs (read_program name.now lines.old) (λ list. map drafted list.items) lines.new result }
{
    let count = named_number(lines, name, 1, MOST_INSTRUCTIONS)?;
    let mut list = Vec::with_capacity(alloc, count as usize)?;
    fill_program(alloc, lines, count, &mut list)?;
    Ok(list)
}
