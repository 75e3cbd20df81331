// The option `--far`, for a reader that doesn't know it.
ghost use Rattle.std.specs.Prelude.{IfErr, IfOk, min, true, ◌≡◌};
ghost use Rattle.command_words.specs.Command.{IsCommand, IsRefusedAt, PlainAsked, plain};
ghost use Rattle.command_words.specs.Inner.Fronts.{words_before};
ghost use Rattle.command_words.specs.Far.{is_far_run, words_without_far};
ghost use Rattle.command_words.specs.Words.{texts};

use crate::read::read_words;
use crate::walk::is_among;
use crate::{Asked, Choice, CommandKind, Refused};

/// Whether the first word is `run`, and `--far` is among the others, rightly or wrongly.
#[tactic(auto, unfolding(crate::specs::Command::is_among))]
pub fn is_far_run(words: &[String]) -> bool
    ensures { result ≡ is_far_run (texts words.now) }
{
    let [first, others @ ..] = words else {
        return false;
    };
    first.as_str() == CommandKind::Run.word() && is_among(Choice::Far.word(), others)
}

/// As `read_words`, for a reader without `--far`: the first `--far` of a `run` is refused, unless an earlier word is.
/// It takes no memory.
pub fn read_words_without_far<'w>(words: &'w [String]) -> Result<Asked<'w>, Refused>
    ensures command { IfOk result (λ asked. IsCommand (words_without_far (texts words.now)) (plain asked)) }
    ensures refused { IfErr result (λ refused. IsRefusedAt (words_without_far (texts words.now)) refused.word) }
    ensures none { IfErr result (λ _. (asked : PlainAsked) → ¬ IsCommand (words_without_far (texts words.now)) asked) }
{
    if is_far_run(words) {
        Err(refused_far(words))
    } else {
        read_words(words)
    }
}

// The refused word of a run that has `--far` among its words, if that isn't an option.
fn refused_far(words: &[String]) -> Refused
    requires { is_far_run (texts words.now) ≡ true }
    ensures { IsRefusedAt (words_without_far (texts words.now)) result.word }
{
    let front = words_before(Choice::Far.word(), words);
    let next = Refused {
        word: front.len() + 1,
    };
    match read_words(front) {
        Ok(_) => next,
        Err(refused) => earlier(refused, next),
    }
}

fn earlier(one: Refused, other: Refused) -> Refused
    ensures { result.word ≡ min one.word other.word }
{
    if one.word < other.word { one } else { other }
}

// The words before the first one that equals this; all of them if none does.
fn words_before<'w>(text: &str, words: &'w [String]) -> &'w [String]
    ensures { texts result.now ≡ words_before text.now (texts words.now) }
{
    for at in 0..words.len() {
        if words[at].as_str() == text {
            return &words[..at];
        }
    }
    words
}
