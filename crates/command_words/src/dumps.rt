// The rounds that are dumped.
ghost use Rattle.std.specs.Prelude.{◌≡◌, option_map};
ghost use Rattle.command_words.specs.Slots.{dumps_of, is_dumps};

use crate::Numbers;

/// The rounds after which the world is dumped, as the words choose them, counted from 0 for the start.
#[derive(Drop)]
pub enum DumpRounds<'w> {
    /// no round
    Nothing,
    /// every round
    All,
    /// the rounds of a list, in its order, including repeated ones
    Chosen(Numbers<'w>),
}

impl<'w> DumpRounds<'w> {
    ghost use Rattle.command_words.specs.Words.{plain_dumps};

    // `none`, `all`, or numbers from 0 to 1,000,000 with one comma between them.
    #[tactic(auto, unfolding(crate::specs::Slots::dumps_of))]
    pub(crate) fn new(word: &'w [u8]) -> Option<Self>
        ensures { option_map plain_dumps result ≡ dumps_of word.now }
    {
        if word == b"none".as_slice() {
            return Some(DumpRounds::Nothing);
        }
        if word == b"all".as_slice() {
            return Some(DumpRounds::All);
        }
        let numbers = Numbers::new(word)?;
        Some(DumpRounds::Chosen(numbers))
    }
}

// Whether a word is one of these.
#[tactic(auto, unfolding(crate::specs::Slots::is_dumps))]
pub(crate) fn is_dumps(word: &[u8]) -> bool
    ensures { result ≡ is_dumps word.now }
{
    DumpRounds::new(word).is_some()
}
