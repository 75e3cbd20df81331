// Words, numbers and the end of a line, by their positions.
ghost use Rattle.std.specs.Prelude.{◌≡◌, ◌≤◌, [], drop, OnOk, IfOk};
ghost use Rattle.line_tokens.specs.Steps.{with_rest, missing, refused, take_word, take_number, take_end};

use super::Tokens;
use crate::bytes::has_bad_byte;
use crate::refusal::{LineFault, Refusal};
use ant_base::read_number_within;
use word_table::WordTable;

impl<'t> Tokens<'t> {
    /// Takes the next token, which should be a word of the table in any ASCII case, and returns its place there,
    /// counted from 0. Any other token is refused as `UnknownWord`, and is taken too. If no token is left, it refuses
    /// as `MissingToken`.
    pub fn word<const N: usize>(&mut self, table: &WordTable<N>) -> Result<usize, Refusal>
        ensures step { take_word table.now self.old ≡ with_rest self.new result }
        ensures passed { self.new ≡ drop 1 self.old }
    {
        let Some(token) = self.next() else {
            return Err(missing_token());
        };
        match table.find(token) {
            Some(place) => Ok(place),
            None => Err(refusal_of(token, LineFault::UnknownWord)),
        }
    }

    /// Takes the next token, which should be a number of 1 to 10 digits from `least` to `most`, both included, and
    /// returns its value. Any other token is refused as `BadNumber`, and is taken too. If no token is left, it refuses
    /// as `MissingToken`.
    pub fn number(&mut self, least: u64, most: u64) -> Result<u64, Refusal>
        ensures step { take_number least most self.old ≡ with_rest self.new result }
        ensures passed { self.new ≡ drop 1 self.old }
        ensures bounds { IfOk result (λ number. (least ≤ number) × (number ≤ most)) }
    {
        let Some(token) = self.next() else {
            return Err(missing_token());
        };
        match read_number_within(token, least, most) {
            Some(number) => Ok(number),
            None => Err(refusal_of(token, LineFault::BadNumber)),
        }
    }

    /// Ok if no token is left; otherwise the next token is refused as `ExtraToken`.
    pub fn end(&mut self) -> Result<(), Refusal>
        ensures step { take_end self.old ≡ with_rest self.new result }
        ensures passed { self.new ≡ drop 1 self.old }
        ensures ended { OnOk result (self.new ≡ []) }
    {
        match self.next() {
            Some(token) => Err(refusal_of(token, LineFault::ExtraToken)),
            None => Ok(()),
        }
    }
}

// A position has no token.
fn missing_token() -> Refusal
    ensures { result ≡ missing }
{
    Refusal {
        fault: LineFault::MissingToken,
        bad_byte: false,
    }
}

// A position doesn't accept its token.
fn refusal_of(token: &[u8], fault: LineFault) -> Refusal
    ensures { result ≡ refused token.now fault }
{
    Refusal {
        fault,
        bad_byte: has_bad_byte(token),
    }
}
