// The lines of a save, with their numbers.
ghost use Rattle.std.specs.Prelude.{◌≡◌, ◌+◌, ◌<◌, ◌^◌, length, Ok, Err};
ghost use Rattle.ant_base.specs.Lines.{lines_of};
ghost use Rattle.match_save.specs.Inner.Answered.{line_left_slice};
ghost use Rattle.match_save.specs.Inner.Readers.{next_element};

use crate::fault::RefusedLine;
use ant_base::Lines;
use std::marker::Model;

// The lines that are left, and the number of the first of them.
#[derive(Drop)]
pub struct SaveLines<'t> {
    lines: Lines<'t>,
    number: u32,
}

impl<'t> Model for SaveLines<'t> {
    ghost use Rattle.std.specs.Prelude.{List, ℕ};
    ghost use Rattle.match_save.specs.Inner.Readers.{Left};
    ghost use Rattle.match_save.specs.Inner.Few.{AreFewLines};

    ghost Value = { Left (List ℕ) };

    ghost view = { λ it. record { number = it.number; items = it.lines } };

    ghost invariant = { λ it. AreFewLines (record { number = it.number; items = it.lines }) };
}

impl<'t> SaveLines<'t> {
    // All lines of a text, from number 1 on.
    pub fn new(text: &'t [u8]) -> Self
        requires { length text.now < 2 ^ 31 }
        ensures { result ≡ record { number = 1; items = lines_of text.now } }
    {
        SaveLines {
            lines: Lines::new(text),
            number: 1,
        }
    }

    // The number of the next line.
    pub fn number(&self) -> u32
        ensures { result ≡ self.now.number }
    {
        self.number
    }

    // The next line, or its number if there is none.
    pub fn take(&mut self) -> Result<&'t [u8], RefusedLine>
        ensures { next_element self.old ≡ line_left_slice self.new result }
    {
        let Some(line) = self.lines.next() else {
            return Err(RefusedLine(self.number));
        };
        self.number += 1;
        Ok(line)
    }
}
