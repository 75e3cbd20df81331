// Where output goes.
ghost use Rattle.ant_base.specs.Sink.{SinkState, Pushed};

use crate::{Layout, show};
use std::error::Error;
use std::fmt;

/// A push that failed. The sink took a prefix of the piece, and its count of faults rose.
#[derive(Clone, Copy, Debug, PartialEq, Eq)]
pub struct Failed;

impl Layout for Failed {
    ghost use Rattle.ant_base.specs.FaultText.{failed_text};

    ghost text = { λ _. failed_text };

    fn push_to<K: Sink>(&self, sink: &mut K) -> Result<(), Failed> {
        "output failed".push_to(sink)
    }
}

impl fmt::Display for Failed {
    ghost use Rattle.std.specs.Prelude.{Some};
    ghost use Rattle.ant_base.specs.FaultText.{failed_text};

    ghost output = { λ _. Some failed_text };

    fn fmt<W: fmt::Write>(&self, f: &mut fmt::Formatter<W>) -> fmt::Result {
        show(self, f)
    }
}

impl Error for Failed {}

/// Where output goes.
pub trait Sink {
    /// The bytes held, if the sink reports them; those that wait in its buffer, if it reports those; and the count of
    /// faults.
    ghost state: { Self → SinkState };

    /// Appends the piece. At `Failed` a prefix of it was appended, and the count of faults rose.
    fn push(&mut self, piece: &[u8]) -> Result<(), Failed>
        ensures { Pushed (state self.old) (state self.new) piece.now result };
}
