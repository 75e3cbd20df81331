//! The words of the program's command line: which words are a command, what they say, and which word is refused.
//!
//! `read_words` returns what the words request, or the first word that makes it impossible to complete the line to a
//! command. Both are relations over tables of commands, options and lists of names, with a row each, and say nothing
//! about how the words are read. A command or an option is known only if a row of `kinds` or `choices` names it. The
//! laws say that words are one command or have one refused word, that options may be in any order, and that numbers and
//! names are within their limits. No call takes memory. Command lines are this project's own. This crate depends on
//! `ant_base`, for numbers.
#![tactic(auto)]

mod asked;
mod dumps;
mod far;
mod help;
mod laws;
mod limits;
mod numbers;
mod pieces;
mod read;
mod refused;
mod slot;
mod table;
mod values;
mod walk;

pub use asked::{Asked, Refused};
pub use dumps::DumpRounds;
pub use far::{is_far_run, read_words_without_far};
pub use help::HelpPage;
pub use laws::{
    any_order, front_begins, never_both, one_command, one_of_both, one_refused_word, refuses_far,
    says_its_words, within_limits,
};
pub use limits::NumberKind;
pub use numbers::Numbers;
pub use read::read_words;
pub use slot::{Place, Slot};
pub use table::{Choice, CommandKind, DEFAULT_WINDOW, NameList};
