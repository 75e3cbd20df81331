// The text for words that are not a command.
use crate::Refused;
use ant_base::{Failed, Layout, Sink, layout, show};
use std::error::Error;
use std::fmt;

impl Layout for Refused {
    ghost use Rattle.command_words.specs.FaultText.{refused_text};

    ghost text = { λ refused. refused_text refused.word };

    fn push_to<K: Sink>(&self, sink: &mut K) -> Result<(), Failed> {
        layout!("word ", self.word, " refused").push_to(sink)
    }
}

impl fmt::Display for Refused {
    ghost use Rattle.std.specs.Prelude.{Some};
    ghost use Rattle.command_words.specs.FaultText.{refused_text};

    ghost output = { λ refused. Some (refused_text refused.word) };

    fn fmt<W: fmt::Write>(&self, f: &mut fmt::Formatter<W>) -> fmt::Result {
        show(self, f)
    }
}

impl Error for Refused {}
