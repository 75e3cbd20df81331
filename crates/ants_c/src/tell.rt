// The results of a call that stops.
ghost use Rattle.std.specs.Prelude.{◌≡◌, ◌⊎◌};
ghost use Rattle.ants_c.specs.Rooms.{counted, overlaid};
ghost use Rattle.ants_c.specs.Told.{IsStopped, told_fault};
ghost use Rattle.ants_c.specs.Words.{fault_words};

use crate::fault::AntsFault;
use crate::numbers::numbers_of;
use crate::refusal::{Refusal, Stop};
use crate::status::{MEMORY, REFUSED};
use crate::texts::lay;

// The numbers of a refusal whose words have this many bytes.
fn fault_of(refusal: Refusal, size: usize) -> AntsFault
    requires { size ≡ counted (fault_words refusal.fault) }
    ensures { result ≡ told_fault refusal }
{
    let numbers = numbers_of(refusal.fault);
    AntsFault {
        text: refusal.text,
        kind: numbers.kind,
        line: numbers.line,
        column: numbers.column,
        number: numbers.number,
        words: size as u64,
    }
}

/// The numbers of a refusal.
pub fn told_fault(refusal: Refusal) -> AntsFault
    ensures { result ≡ told_fault refusal }
{
    let size = lay(&refusal.fault, &mut []);
    fault_of(refusal, size)
}

// Writes a refusal: its numbers, and its words into the room for them.
fn tell(refusal: Refusal, fault: &mut AntsFault, words: &mut [u8])
    ensures fault { fault.new ≡ told_fault refusal }
    ensures words { words.new ≡ overlaid words.old (fault_words refusal.fault) }
{
    let size = lay(&refusal.fault, words);
    *fault = fault_of(refusal, size);
}

/// Writes why texts were not read, and returns the status; for a refused text, it writes the numbers and the words of
/// its fault.
pub fn stopped(stop: Stop, fault: &mut AntsFault, words: &mut [u8]) -> u32
    ensures ended { (result ≡ 5) ⊎ (result ≡ 6) }
    ensures stopped { IsStopped stop result fault.old fault.new words.old words.new }
{
    match stop {
        Stop::OutOfMemory => MEMORY,
        Stop::Refused(refusal) => {
            tell(refusal, fault, words);
            REFUSED
        }
    }
}
