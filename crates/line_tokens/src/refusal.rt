// Why a line is refused.
use ant_base::{Failed, Layout, Sink, show};
use std::error::Error;
use std::fmt;

/// The text for a token that has a bad byte.
pub const BAD_BYTE: &str = "bad byte";

/// What is wrong with the first position at fault in a line.
#[derive(Clone, Copy, Debug, PartialEq, Eq)]
pub enum LineFault {
    /// The position needs a word, and its token is none of its words.
    UnknownWord,
    /// The form needs this position, and it has no token.
    MissingToken,
    /// The position needs a number, and its token is none that it accepts.
    BadNumber,
    /// There is a token after the end of the form.
    ExtraToken,
}

impl Layout for LineFault {
    ghost use Rattle.line_tokens.specs.FaultText.{line_fault_text};

    ghost text = { line_fault_text };

    fn push_to<K: Sink>(&self, sink: &mut K) -> Result<(), Failed> {
        match self {
            LineFault::UnknownWord => "unknown word".push_to(sink),
            LineFault::MissingToken => "missing token".push_to(sink),
            LineFault::BadNumber => "bad number".push_to(sink),
            LineFault::ExtraToken => "extra token".push_to(sink),
        }
    }
}

impl fmt::Display for LineFault {
    ghost use Rattle.std.specs.Prelude.{Some};
    ghost use Rattle.line_tokens.specs.FaultText.{line_fault_text};

    ghost output = { λ fault. Some (line_fault_text fault) };

    fn fmt<W: fmt::Write>(&self, f: &mut fmt::Formatter<W>) -> fmt::Result {
        show(self, f)
    }
}

impl Error for LineFault {}

/// Why a line is refused: what is wrong with its first position at fault, and whether the token there has a bad byte
/// (any byte except tab, LF, CR and 32 to 126).
#[derive(Clone, Copy, Debug, PartialEq, Eq)]
pub struct Refusal {
    /// What is wrong with the position, regardless of bad bytes.
    pub fault: LineFault,
    /// Whether the token there has a bad byte; false if there is no token.
    pub bad_byte: bool,
}

impl Layout for Refusal {
    ghost use Rattle.line_tokens.specs.FaultText.{refusal_text};

    ghost text = { refusal_text };

    fn push_to<K: Sink>(&self, sink: &mut K) -> Result<(), Failed> {
        if self.bad_byte {
            BAD_BYTE.push_to(sink)
        } else {
            self.fault.push_to(sink)
        }
    }
}

impl fmt::Display for Refusal {
    ghost use Rattle.std.specs.Prelude.{Some};
    ghost use Rattle.line_tokens.specs.FaultText.{refusal_text};

    ghost output = { λ fault. Some (refusal_text fault) };

    fn fmt<W: fmt::Write>(&self, f: &mut fmt::Formatter<W>) -> fmt::Result {
        show(self, f)
    }
}

impl Error for Refusal {}
