// Finding what the words say.
ghost use Rattle.std.specs.Prelude.{option_copied, slice_get, ◌+◌, ◌≡◌};
ghost use Rattle.command_words.specs.Command.{answers_in, dumps_said, names_front, rest_after, said, said_at, said_for, value_of};
ghost use Rattle.command_words.specs.Inner.Walk.{names_of};
ghost use Rattle.command_words.specs.Table.{option_of, values_of};
ghost use Rattle.command_words.specs.Words.{plain_dumps, texts};

use crate::slot::is_file_name;
use crate::{Choice, CommandKind, DumpRounds, NameList, NumberKind, Place, Slot};

// The word at a place, counted from 0.
pub(crate) fn word_at<'w>(words: &'w [String], place: usize) -> Option<&'w str>
    ensures { option_copied result ≡ slice_get (texts words.now) place }
{
    let word = words.get(place)?;
    Some(word.as_str())
}

// The words after the first one that equals this.
fn rest_after<'w>(text: &str, words: &'w [String]) -> &'w [String]
    ensures { texts result.now ≡ rest_after text.now (texts words.now) }
{
    for at in 0..words.len() {
        if words[at].as_str() == text {
            return &words[at + 1..];
        }
    }
    &words[..0]
}

// The word after the first one that is this option's word; a flag has none.
pub(crate) fn word_after<'w>(choice: Choice, words: &'w [String]) -> Option<&'w str>
    ensures { option_copied result ≡ value_of (values_of choice) (rest_after (option_of choice) (texts words.now)) }
{
    match (choice.values(), rest_after(choice.word(), words)) {
        ([_, ..], [word, ..]) => Some(word.as_str()),
        _ => None,
    }
}

// The names after the first word that is this list's word.
pub(crate) fn names_of<'w>(list: NameList, words: &'w [String]) -> &'w [String]
    ensures { texts result.now ≡ names_of list (texts words.now) }
{
    names_front(rest_after(list.keyword(), words))
}

fn names_front<'w>(words: &'w [String]) -> &'w [String]
    ensures { texts result.now ≡ names_front (texts words.now) }
{
    for at in 0..words.len() {
        if !is_file_name(words[at].as_str()) {
            return &words[..at];
        }
    }
    words
}

// The number of a word; without it, the default.
fn said(kind: NumberKind, default: u32, word: Option<&str>) -> u32
    ensures { result ≡ said kind default (option_copied word.entry) }
{
    match word {
        None => default,
        Some(word) => kind.read(word.as_bytes()).unwrap_or(default),
    }
}

// The word of a place of a command, counted from 0.
pub(crate) fn word_for<'w>(kind: CommandKind, words: &'w [String], place: u8) -> Option<&'w str>
    ensures { option_copied result ≡ (answers_in kind (texts words.now)).place (place + 1) }
{
    let number = place as usize + 1;
    if number <= kind.places().len() {
        word_at(words, number)
    } else {
        None
    }
}

// The number of a word at a place; a place for something else has none.
pub(crate) fn said_at(place: Option<Place>, word: Option<&str>) -> u32
    ensures { result ≡ said_at place (option_copied word.entry) }
{
    match place {
        Some(Place::Word(Slot::Number(kind))) => said(kind, kind.least(), word),
        _ => 0,
    }
}

// The number of the word after an option's, by the option's places.
pub(crate) fn said_for(values: &[Place], default: u32, word: Option<&str>) -> u32
    ensures { result ≡ said_for values.now default (option_copied word.entry) }
{
    match values {
        [Place::Word(Slot::Number(kind))] => said(*kind, default, word),
        _ => default,
    }
}

// The dumps that a word requests; without it there are none.
pub(crate) fn dumps_said<'w>(word: Option<&'w str>) -> DumpRounds<'w>
    ensures { plain_dumps result ≡ dumps_said (option_copied word.entry) }
{
    match word {
        None => DumpRounds::Nothing,
        Some(word) => match DumpRounds::new(word.as_bytes()) {
            None => DumpRounds::Nothing,
            Some(dumps) => dumps,
        },
    }
}
