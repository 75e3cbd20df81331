// Reading the words one after another.
ghost use Rattle.std.specs.Prelude.{[], length, option_copied, ◌<◌, ◌≡◌, drop, if◌then◌else◌, take, ◌+◌};
ghost use Rattle.command_words.specs.Inner.Walk.{choice_of, closed, due_after, due_after_option, has_enough, has_needed, is_finished, is_repeated, command_kind_of, may_follow, plain_walk, reached, takes_names, walk};
ghost use Rattle.command_words.specs.Command.{is_among};
ghost use Rattle.command_words.specs.Table.{places_of};
ghost use Rattle.command_words.specs.Words.{texts};

use crate::slot::is_file_name;
use crate::table::{MOST_NAMES, kinds};
use crate::{Choice, CommandKind, NameList, Place, Refused};

// The known command with this first word.
#[tactic(auto, unfolding(crate::specs::Inner::Walk::command_kind_of))]
pub(crate) fn kind_of(word: &str) -> Option<CommandKind>
    ensures { result ≡ command_kind_of word.now }
{
    kinds().iter().copied().find(|kind| kind.word() == word)
}

// The places that are still due after all the words, or the first word that no command of this kind has there.
pub(crate) fn walk(kind: CommandKind, words: &[String]) -> Result<&'static [Place], Refused>
    requires { 0 < length words.now }
    ensures { plain_walk result ≡ walk kind (drop 1 (texts words.now)) (places_of kind) [] (take 1 (texts words.now)) }
{
    let mut due = kind.places();
    // where the names at the current place begin
    let mut from = 1;
    for at in 1..words.len() {
        let before = &words[..at];
        let word = words[at].as_str();
        let here = places_reached(due, &before[from..], word);
        let Some(later) = due_after(kind, here, &before[from..], before, word) else {
            return Err(Refused { word: at + 1 });
        };
        from = names_from(here, from, at);
        due = later;
    }
    Ok(close_names(due, &words[from..]))
}

// Whether no place is due, and each option that is needed is among the words.
pub(crate) fn is_finished(kind: CommandKind, due: &[Place], words: &[String]) -> bool
    ensures { result ≡ is_finished kind due.now (texts words.now) }
{
    due.is_empty() && has_needed(kind, words)
}

// Whether each option that is needed is among the words.
fn has_needed(kind: CommandKind, words: &[String]) -> bool
    ensures { result ≡ has_needed kind (texts words.now) }
{
    for choice in kind.choices() {
        if choice.is_needed() && !is_among(choice.word(), words) {
            return false;
        }
    }
    true
}

// The places that are due at the end of the words; a list of names is done if it has enough.
fn close_names(due: &'static [Place], names: &[String]) -> &'static [Place]
    ensures { result.now ≡ closed due.now (texts names.now) }
{
    match due {
        [] => due,
        [Place::Word(_), ..] => due,
        [Place::Names(list), later @ ..] => { if has_enough(*list, names) { later } else { due } }
    }
}

// The places that are due at one more word; a word that isn't a name ends a list of names that has enough.
fn places_reached(due: &'static [Place], names: &[String], word: &str) -> &'static [Place]
    ensures { result.now ≡ reached due.now (texts names.now) word.now }
{
    match due {
        [] => due,
        [Place::Word(_), ..] => due,
        [Place::Names(_), ..] => {
            if is_file_name(word) {
                due
            } else {
                close_names(due, names)
            }
        }
    }
}

// The places that are due after one more word; if none is due, an option may follow.
fn due_after(
    kind: CommandKind,
    due: &'static [Place],
    names: &[String],
    before: &[String],
    word: &str,
) -> Option<&'static [Place]>
    ensures { option_copied result ≡ due_after kind due.now (texts names.now) (texts before.now) word.now }
{
    match due {
        [] => due_after_option(kind, before, word),
        [Place::Word(slot), later @ ..] => { if slot.fits(word) { Some(later) } else { None } }
        [Place::Names(list), ..] => {
            if may_follow(*list, names, word) {
                Some(due)
            } else {
                None
            }
        }
    }
}

// The places that are due after an option's word; no option may be given twice.
fn due_after_option(kind: CommandKind, before: &[String], word: &str) -> Option<&'static [Place]>
    ensures { option_copied result ≡ due_after_option (choice_of kind word.now) (is_among word.now (texts before.now)) }
{
    let choice = choice_of(kind, word)?;
    if is_among(word, before) {
        None
    } else {
        Some(choice.values())
    }
}

// Where the names at the current place begin, after one more word.
fn names_from(due: &'static [Place], from: usize, at: usize) -> usize
    requires { at < 18446744073709551615 }
    ensures { result ≡ if takes_names due.now then from else (at + 1) }
{
    match due {
        [] => at + 1,
        [Place::Word(_), ..] => at + 1,
        [Place::Names(_), ..] => from,
    }
}

fn has_enough(list: NameList, names: &[String]) -> bool
    ensures { result ≡ has_enough list (texts names.now) }
{
    list.fewest() <= names.len()
}

// Whether a word may follow the names of a list.
fn may_follow(list: NameList, names: &[String], word: &str) -> bool
    ensures { result ≡ may_follow list (texts names.now) word.now }
{
    is_file_name(word) && names.len() < MOST_NAMES && !is_repeated(list, names, word)
}

// Whether a word is already among names that must differ.
fn is_repeated(list: NameList, names: &[String], word: &str) -> bool
    ensures { result ≡ is_repeated list (texts names.now) word.now }
{
    list.must_differ() && is_among(word, names)
}

// The command's option with this word.
#[tactic(auto, unfolding(crate::specs::Inner::Walk::choice_of))]
fn choice_of(kind: CommandKind, word: &str) -> Option<Choice>
    ensures { result ≡ choice_of kind word.now }
{
    kind.choices()
        .iter()
        .copied()
        .find(|choice| choice.word() == word)
}

pub(crate) fn is_among(word: &str, words: &[String]) -> bool
    ensures { result ≡ is_among word.now (texts words.now) }
{
    for other in words {
        if other.as_str() == word {
            return true;
        }
    }
    false
}
