// Values with a text, printed by `{}`; and the text of a fault with the number of its line.
ghost use Rattle.std.specs.Prelude.{◌≡◌, ◌++◌, OnOk, OnErr};
ghost use Rattle.std.specs.Fmt.{WritesOnOk};
ghost use Rattle.ant_base.specs.FaultText.{line_says};

use crate::{Failed, Layout, Sink};
use arrayvec::ArrayString;
use std::{fmt, str};

// The most bytes of a text that is shown.
const ROOM: usize = 128;

// A sink of a short text.
#[derive(Drop)]
struct ShortText {
    text: ArrayString<{ ROOM }>,
    faults: u64,
}

// Appends the piece, if it is valid UTF-8 and there is room.
fn append(text: &mut ArrayString<{ ROOM }>, piece: &[u8]) -> Result<(), Failed>
    ensures whole { OnOk result (text.new.bytes ≡ text.old.bytes ++ piece.now) }
    ensures kept { OnErr result (text.new ≡ text.old) }
{
    let Ok(piece) = str::from_utf8(piece) else {
        return Err(Failed);
    };
    match text.try_push_str(piece) {
        Ok(()) => Ok(()),
        Err(_) => Err(Failed),
    }
}

impl Sink for ShortText {
    ghost use Rattle.std.specs.Prelude.{Some, []};

    ghost state = { λ short. record { held = Some short.text.bytes; waiting = Some []; faults = short.faults } };

    fn push(&mut self, piece: &[u8]) -> Result<(), Failed> {
        let appended = append(&mut self.text, piece);
        if appended.is_err() {
            self.faults = self.faults.saturating_add(1);
        }
        appended
    }
}

/// Writes the text of a value as `{}` does, for an `impl Display`. A text of more than 128 bytes is an error.
pub fn show<L: Layout, W: fmt::Write>(value: &L, f: &mut fmt::Formatter<W>) -> fmt::Result
    ensures { WritesOnOk W.write_str_gives f.old result (L.text value.now) f.new }
{
    let mut short = ShortText {
        text: ArrayString::new(),
        faults: 0,
    };
    match value.push_to(&mut short) {
        Ok(()) => f.pad(short.text.as_str()),
        Err(Failed) => Err(fmt::Error),
    }
}

/// A fault's text after the number of its line, which is counted from 1: `line 3: bad number`.
#[derive(Clone, Copy)]
pub struct AtLine<A>(pub u32, pub A);

impl<A: Layout + Copy> Layout for AtLine<A> {
    ghost text = { λ said. line_says said.0 (A.text said.1) };

    fn push_to<K: Sink>(&self, sink: &mut K) -> Result<(), Failed> {
        crate::layout!("line ", self.0, ": ", self.1).push_to(sink)
    }
}
