// Laws of all words. Each call does nothing: its clause is the law.
ghost use Rattle.command_words.specs.Far.{RefusesFar};
ghost use Rattle.command_words.specs.Laws.{AnyOrder, FrontBegins, NeverBoth, OneCommand, OneOfBoth, OneRefusedWord, SaysItsWords, WithinLimits};

/// A law: some words are at most one command.
#[tactic(auto, using(crate::proofs::WordLaws::one_command))]
pub fn one_command()
    ensures { OneCommand }
{}

/// A law: some words have at most one refused word.
#[tactic(auto, using(crate::proofs::WordLaws::one_refused_word))]
pub fn one_refused_word()
    ensures { OneRefusedWord }
{}

/// A law: words that are a command have no refused word.
pub fn never_both()
    ensures { NeverBoth }
{}

/// A law: words are a command or have a refused word.
pub fn one_of_both()
    ensures { OneOfBoth }
{}

/// A law: a prefix of the beginning of a command is the beginning of a command.
#[tactic(auto, using(crate::proofs::WordLaws::front_begins))]
pub fn front_begins()
    ensures { FrontBegins }
{}

/// A law: the same options, each with the same words, say the same in any order.
pub fn any_order()
    ensures { AnyOrder }
{}

/// A law: each requested number is within the limits of its kind, including those of a list of rounds, and each list
/// has a permitted number of names.
pub fn within_limits()
    ensures { WithinLimits }
{}

/// A law: for a reader that doesn't know `--far`, a run with that word is not a command, and all other words are
/// unchanged.
#[tactic(auto, using(crate::proofs::FarWords::refuses_far))]
pub fn refuses_far()
    ensures { RefusesFar }
{}

/// A law: whatever is requested is one of the words; without an option, the table's default is used.
#[tactic(auto, using(crate::proofs::SaidLemmas::says_its_words))]
pub fn says_its_words()
    ensures { SaysItsWords }
{}
