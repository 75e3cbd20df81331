// How a run of the program ended, in numbers.
ghost use Rattle.std.specs.Prelude.{◌≡◌, ◌≤◌, unwrap_or};
ghost use Rattle.ant_base.specs.Lines.{lines_of};
ghost use Rattle.ant_commands.specs.FaultLines.{plain_ending};
ghost use Rattle.ants_c.specs.Ended.{at_word, ending_fault, file_named, number_of, word_naming};

use crate::fault::AntsFault;
use crate::refusal::{CallFault, Refusal};
use crate::tell::told_fault;
use ant_base::{Lines, cut_line};
use ant_commands::{CommandStop, Ended};

// The lines are numbered from `first` on. Returns the number of the first one that equals this text, or 0 if none does.
fn number_of(first: u64, text: &str, lines: &[u8]) -> u64
    requires { first ≤ 2 }
    ensures { result ≡ number_of first text.now (lines_of lines.now) }
{
    let mut number = first;
    for line in Lines::new(lines) {
        if line == text.as_bytes() {
            return number;
        }
        number += 1;
    }
    0
}

// The number of the first file with this name, among these names.
fn file_named(name: &str, names: &[u8]) -> u32
    ensures { result ≡ file_named name.now (lines_of names.now) }
{
    u32::try_from(number_of(1, name, names)).unwrap_or(u32::MAX)
}

// The number of the first word that names this file.
#[tactic(auto, using(crate::proofs::Endings::lines_after_first))]
fn word_naming(name: &str, words: &[u8]) -> u64
    ensures { result ≡ word_naming name.now (lines_of words.now) }
{
    let (_, others) = cut_line(words);
    number_of(2, name, others)
}

// A word with this number, in numbers.
fn at_word(number: u64) -> AntsFault
    ensures { result ≡ at_word number }
{
    AntsFault {
        text: 0,
        kind: 0,
        line: 0,
        column: 0,
        number,
        words: 0,
    }
}

// How a run with these words over files with these names ended, in numbers, if it was refused or a file is missing.
fn ending_fault(words: &[u8], names: &[u8], ended: Ended<'_>) -> Option<AntsFault>
    ensures { result ≡ ending_fault (lines_of words.now) (lines_of names.now) (plain_ending ended.entry) }
{
    match ended {
        Ended::RefusedWord(word) => Some(at_word(word as u64)),
        Ended::Stopped(CommandStop::Read(name)) => Some(at_word(word_naming(name, words))),
        Ended::Stopped(CommandStop::Input(name, fault)) => Some(told_fault(Refusal {
            text: file_named(name, names),
            fault: CallFault::File(fault),
        })),
        Ended::Stopped(CommandStop::NoRoom(element)) => Some(told_fault(Refusal {
            text: 0,
            fault: CallFault::NoRoom(element),
        })),
        Ended::Done | Ended::Stopped(CommandStop::Write | CommandStop::Memory) => None,
    }
}

/// Writes how a run with these words over files with these names ended, in numbers, if it was refused or a file is
/// missing.
pub fn tell_ending(words: &[u8], names: &[u8], ended: Ended<'_>, fault: &mut AntsFault)
    ensures { fault.new ≡ unwrap_or (ending_fault (lines_of words.now) (lines_of names.now) (plain_ending ended.entry)) fault.old }
{
    if let Some(told) = ending_fault(words, names, ended) {
        *fault = told;
    }
}
