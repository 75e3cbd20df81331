// The words and the files of a call of the program, and a run of it.
ghost use Rattle.std.specs.Prelude.{◌≡◌, ◌<◌, ◌^◌, ◌&&◌, ◌++◌, IfOk, IfSome, IfNone, length, nat_le};
ghost use Rattle.std.specs.List.{AllByRecursion};
ghost use Rattle.std.specs.Str.{IsUtf8};
ghost use Rattle.ant_base.specs.Lines.{lines_of};
ghost use Rattle.ant_commands.specs.FaultLines.{ending_status, plain_ending};
ghost use Rattle.command_words.specs.Words.{texts};
ghost use Rattle.ants_c.specs.Called.{Runs, files_in};
ghost use Rattle.ants_c.specs.Rooms.{behind, counted, overlaid};

use crate::lent_shelf::LentShelf;
use crate::room_log::RoomLog;
use crate::room_sink::RoomSink;
use ant_base::{Lines, OutOfMemory};
use ant_commands::{Ended, Status, run_alone};
use std::alloc::Global;

/// The lines of a text as words; `None` if one isn't UTF-8.
pub fn words_of(alloc: Global, text: &[u8]) -> Result<Option<Vec<String>>, OutOfMemory>
    ensures words { IfOk result (λ found. IfSome found (λ words. texts words.items ≡ lines_of text.now)) }
    ensures none { IfOk result (λ found. IfNone found (AllByRecursion IsUtf8 (lines_of text.now) → ⊥)) }
{
    let mut words = Vec::new(alloc);
    for line in Lines::new(text) {
        let Ok(word) = str::from_utf8(line) else {
            return Ok(None);
        };
        words.push(String::from_str(alloc, word)?)?;
    }
    Ok(Some(words))
}

// Runs the program with these words over these files, with output and errors into two rooms.
fn run_in_rooms<'w>(
    alloc: Global,
    words: &'w [String],
    names: &[u8],
    sizes: &[u32],
    bytes: &[u8],
    output: &mut RoomSink<'_>,
    errors: &mut RoomSink<'_>,
) -> Ended<'w>
    ensures runs { Runs (texts words.now) (files_in (lines_of names.now) sizes.now bytes.now) (behind output.old.log.bytes output.new.log.bytes) (behind errors.old.log.bytes errors.new.log.bytes) (plain_ending result) }
    ensures out_name { output.new.room.ghost_name ≡ output.old.room.ghost_name }
    ensures out_log { output.new.log.bytes ≡ output.old.log.bytes ++ behind output.old.log.bytes output.new.log.bytes }
    ensures said_name { errors.new.room.ghost_name ≡ errors.old.room.ghost_name }
    ensures said_log { errors.new.log.bytes ≡ errors.old.log.bytes ++ behind errors.old.log.bytes errors.new.log.bytes }
    ensures unfailing { ending_status (plain_ending result) ≡ Status.Write → ⊥ }
{
    let mut shelf = LentShelf::new(names, sizes, bytes);
    run_alone(alloc, words, &mut shelf, output, errors)
}

/// How the program ran: how it ended, and how many bytes it wrote and reported. For each of the two rooms it has what
/// the room held, followed by these bytes.
#[derive(Drop)]
pub struct Ran<'w> {
    pub ended: Ended<'w>,
    pub used: usize,
    pub told: usize,
    text: RoomLog,
    line: RoomLog,
}

/// Whether what the program wrote and what it reported have room in these two rooms.
pub fn has_room(ran: &Ran<'_>, out: &[u8], said: &[u8]) -> bool
    ensures room { result ≡ (nat_le ran.now.used (length out.now) && nat_le ran.now.told (length said.now)) }
    ensures short_out { length out.now < 2 ^ 63 }
    ensures short_said { length said.now < 2 ^ 63 }
{
    let out_room = out.len();
    let said_room = said.len();
    ran.used <= out_room && ran.told <= said_room
}

/// Runs the program with these words over these files, and writes its output and its errors over two rooms.
pub fn lay_program<'w>(
    alloc: Global,
    words: &'w [String],
    names: &[u8],
    sizes: &[u32],
    bytes: &[u8],
    out: &mut [u8],
    said: &mut [u8],
) -> Ran<'w>
    ensures runs { Runs (texts words.now) (files_in (lines_of names.now) sizes.now bytes.now) (behind out.old result.text.bytes) (behind said.old result.line.bytes) (plain_ending result.ended) }
    ensures out { out.new ≡ overlaid out.old (behind out.old result.text.bytes) }
    ensures used { result.used ≡ counted (behind out.old result.text.bytes) }
    ensures said { said.new ≡ overlaid said.old (behind said.old result.line.bytes) }
    ensures told { result.told ≡ counted (behind said.old result.line.bytes) }
    ensures unfailing { ending_status (plain_ending result.ended) ≡ Status.Write → ⊥ }
{
    let mut output = RoomSink::new(out);
    let mut errors = RoomSink::new(said);
    let ended = run_in_rooms(alloc, words, names, sizes, bytes, &mut output, &mut errors);
    Ran {
        ended,
        used: output.pushed(),
        told: errors.pushed(),
        text: output.log(),
        line: errors.log(),
    }
}
