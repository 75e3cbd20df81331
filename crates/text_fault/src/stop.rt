// Why texts are not opened.
use crate::fault::TextFault;
use ant_base::{Failed, Layout, OutOfMemory, Sink, show};
use std::error::Error;
use std::fmt;

/// Why a text was not opened.
#[derive(Clone, Copy, Debug, PartialEq, Eq)]
pub enum TextStop {
    /// Memory ran out. This says nothing of the text.
    OutOfMemory,
    /// The text is refused.
    Refused(TextFault),
}

impl Layout for TextStop {
    ghost use Rattle.text_fault.specs.FaultText.{text_stop_text};

    ghost text = { text_stop_text };

    fn push_to<K: Sink>(&self, sink: &mut K) -> Result<(), Failed> {
        match *self {
            TextStop::OutOfMemory => OutOfMemory.push_to(sink),
            TextStop::Refused(fault) => fault.push_to(sink),
        }
    }
}

impl fmt::Display for TextStop {
    ghost use Rattle.std.specs.Prelude.{Some};
    ghost use Rattle.text_fault.specs.FaultText.{text_stop_text};

    ghost output = { λ stop. Some (text_stop_text stop) };

    fn fmt<W: fmt::Write>(&self, f: &mut fmt::Formatter<W>) -> fmt::Result {
        show(self, f)
    }
}

impl Error for TextStop {}
