// What a command line requests.
ghost use Rattle.std.specs.Prelude.{◌≡◌, ◌≤◌};
ghost use Rattle.command_words.specs.Words.{plain_dumps, texts};
ghost use Rattle.command_words.specs.Command.{most_for, plain};
ghost use Rattle.command_words.specs.Table.{HasFile, HasNames, HasNumber, HasNumberOption, HasOption, values_of};
ghost use Rattle.command_words.specs.declared.table.Choice.TheVariants.{Dump};

use crate::values::{dumps_said, names_of, said_at, said_for, word_after, word_for};
use crate::walk::is_among;
use crate::{Choice, CommandKind, DumpRounds, NameList};

/// What a command line requests, whichever command it is: which command, and what the words say at each of its places,
/// in its lists of names and by its options. It borrows the words and takes no memory. Contracts see it by `plain`.
#[derive(Clone, Copy)]
pub struct Asked<'w> {
    /// which command it is
    pub kind: CommandKind,
    /// all words of the command, including its first
    pub words: &'w [String],
}

impl<'w> Asked<'w> {
    /// The name of the file at a place, counted from 0.
    pub fn file(self, place: u8) -> &'w str
        requires has { HasFile self.kind place }
        ensures { result.now ≡ (plain self.entry).file place }
    {
        match word_for(self.kind, self.words, place) {
            None => "",
            Some(word) => word,
        }
    }

    /// The number at a place, counted from 0: within the limits of the place's kind.
    pub fn number(self, place: u8) -> u32
        requires has { HasNumber self.kind place }
        ensures { result ≡ (plain self.entry).number place }
    {
        let word = word_for(self.kind, self.words, place);
        said_at(self.kind.places().get(place as usize).copied(), word)
    }

    /// The names of a list.
    pub fn names(self, list: NameList) -> &'w [String]
        requires has { HasNames self.kind list }
        ensures { texts result.now ≡ (plain self.entry).names list }
    {
        names_of(list, self.words)
    }

    /// The number that an option says, or its default: within the limits of the option's kind.
    #[tactic(auto, using(crate::proofs::WithinLemmas::option_most))]
    pub fn option(self, choice: Choice) -> u32
        requires has { HasNumberOption self.kind choice }
        ensures is { result ≡ (plain self.entry).option choice }
        ensures most { result ≤ most_for (values_of choice) }
    {
        let word = word_after(choice, self.words);
        said_for(choice.values(), choice.default(), word)
    }

    /// The rounds that are dumped.
    pub fn dumps(self) -> DumpRounds<'w>
        requires has { HasOption self.kind Dump }
        ensures { plain_dumps result ≡ (plain self.entry).dumps }
    {
        dumps_said(word_after(Choice::Dump, self.words))
    }

    /// Whether an option is given.
    pub fn has(self, choice: Choice) -> bool
        requires has { HasOption self.kind choice }
        ensures { result ≡ (plain self.entry).has choice }
    {
        is_among(choice.word(), self.words)
    }
}

/// The words are not a command. It has the refused word: the first one that makes it impossible to complete the line to
/// a command.
#[derive(Clone, Copy, Debug, PartialEq, Eq)]
pub struct Refused {
    /// counted from 1; the number of words plus one if words are only missing at the end
    pub word: usize,
}
