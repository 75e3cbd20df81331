// What the words at a place of a command may be.
ghost use Rattle.std.specs.Prelude.{◌≡◌};
ghost use Rattle.command_words.specs.Slots.{fits, is_file_name};

use crate::dumps::is_dumps;
use crate::{NameList, NumberKind};

/// What one word of a command may be.
#[derive(Clone, Copy, Debug, PartialEq, Eq)]
pub enum Slot {
    /// a word of at least one byte that doesn't begin with `--`; `-` is one
    FileName,
    /// a number within the limits of its kind
    Number(NumberKind),
    /// `none`, `all`, or numbers from 0 to 1,000,000 with one comma between each two
    Dumps,
    /// the word before the names of a list
    Keyword(NameList),
}

/// A place of a command: one word, or any number of names within the limits of their list.
#[derive(Clone, Copy, Debug, PartialEq, Eq)]
pub enum Place {
    /// one word
    Word(Slot),
    /// the file names of a list
    Names(NameList),
}

impl Slot {
    pub(crate) fn fits(self, word: &str) -> bool
        ensures { result ≡ fits self word.now }
    {
        match self {
            Slot::FileName => is_file_name(word),
            Slot::Number(kind) => kind.read(word.as_bytes()).is_some(),
            Slot::Dumps => is_dumps(word.as_bytes()),
            Slot::Keyword(list) => word == list.keyword(),
        }
    }
}

// Whether a word is a file name: at least one byte, and no `--` at its front.
#[tactic(auto, unfolding(crate::specs::Slots::is_file_name))]
pub(crate) fn is_file_name(word: &str) -> bool
    ensures { result ≡ is_file_name word.now }
{
    let name = word.as_bytes();
    !name.is_empty() && !name.starts_with(b"--")
}
