// Values that are texts.
ghost use Rattle.std.specs.Prelude.{◌++◌, List, ℕ};
ghost use Rattle.std.specs.Fmt.{decimal};
ghost use Rattle.ant_base.specs.Sink.{Pushed};
ghost use Rattle.ant_base.specs.Layout.{text_of_option};

use crate::{Failed, Sink};
use itoa::Buffer;

/// A value with one exact text.
pub trait Layout {
    /// The text that is printed.
    ghost text: { Self → List ℕ };

    /// Pushes the text. At `Failed` a prefix of it was appended, and the count of faults rose.
    fn push_to<K: Sink>(&self, sink: &mut K) -> Result<(), Failed>
        ensures { Pushed (K.state sink.old) (K.state sink.new) (text self.now) result };
}

// An impl for each type of numbers: one for all types that become a u64 would overlap with that for texts.
impl Layout for u8 {
    ghost text = { decimal };

    fn push_to<K: Sink>(&self, sink: &mut K) -> Result<(), Failed> {
        let mut buffer = Buffer::new();
        sink.push(buffer.format(*self).as_bytes())
    }
}

impl Layout for u16 {
    ghost text = { decimal };

    fn push_to<K: Sink>(&self, sink: &mut K) -> Result<(), Failed> {
        let mut buffer = Buffer::new();
        sink.push(buffer.format(*self).as_bytes())
    }
}

impl Layout for u32 {
    ghost text = { decimal };

    fn push_to<K: Sink>(&self, sink: &mut K) -> Result<(), Failed> {
        let mut buffer = Buffer::new();
        sink.push(buffer.format(*self).as_bytes())
    }
}

impl Layout for u64 {
    ghost text = { decimal };

    fn push_to<K: Sink>(&self, sink: &mut K) -> Result<(), Failed> {
        let mut buffer = Buffer::new();
        sink.push(buffer.format(*self).as_bytes())
    }
}

impl Layout for usize {
    ghost text = { decimal };

    fn push_to<K: Sink>(&self, sink: &mut K) -> Result<(), Failed> {
        let mut buffer = Buffer::new();
        sink.push(buffer.format(*self).as_bytes())
    }
}

impl Layout for &str {
    ghost text = { λ s. s.now };

    fn push_to<K: Sink>(&self, sink: &mut K) -> Result<(), Failed> {
        sink.push(self.as_bytes())
    }
}

impl<A: Layout> Layout for Option<A> {
    ghost text = { text_of_option A.text };

    fn push_to<K: Sink>(&self, sink: &mut K) -> Result<(), Failed> {
        match self {
            None => Ok(()),
            Some(part) => part.push_to(sink),
        }
    }
}

impl<A: Layout, B: Layout> Layout for (A, B) {
    ghost text = { λ both. A.text both.0 ++ B.text both.1 };

    fn push_to<K: Sink>(&self, sink: &mut K) -> Result<(), Failed> {
        self.0.push_to(sink)?;
        self.1.push_to(sink)
    }
}

/// Several values as one, in right-nested pairs: `layout!("cell (", x, ", ", y, ")")`.
#[macro_export]
macro_rules! layout {
    ($part:expr $(,)?) => {
        $part
    };
    ($part:expr, $($more:expr),+ $(,)?) => {
        ($part, $crate::layout!($($more),+))
    };
}
