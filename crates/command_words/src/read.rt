// What the words request, or the word that is refused.
ghost use Rattle.std.specs.Prelude.{IfErr, IfOk, ◌≡◌};
ghost use Rattle.command_words.specs.Command.{IsCommand, IsRefusedAt, PlainAsked, plain};
ghost use Rattle.command_words.specs.Inner.Walk.{plain_result, read_of};
ghost use Rattle.command_words.specs.Words.{texts};

use crate::walk::{is_finished, kind_of, walk};
use crate::{Asked, Refused};

/// What the program's words request, without the program's own name. If they are not a command, it returns the first
/// word, counted from 1, that makes it impossible to complete the line to a command; if words are only missing at the
/// end, it returns the number of words plus one. It takes no memory.
#[tactic(auto, using(crate::proofs::ReadLemmas::result_command, crate::proofs::ReadLemmas::result_refused, crate::proofs::ReadLemmas::result_none))]
pub fn read_words<'w>(words: &'w [String]) -> Result<Asked<'w>, Refused>
    ensures command { IfOk result (λ asked. IsCommand (texts words.now) (plain asked)) }
    ensures refused { IfErr result (λ refused. IsRefusedAt (texts words.now) refused.word) }
    ensures none { IfErr result (λ _. (asked : PlainAsked) → ¬ IsCommand (texts words.now) asked) }
{
    read(words)
}

// The same, as a function of the words.
fn read<'w>(words: &'w [String]) -> Result<Asked<'w>, Refused>
    ensures { plain_result result ≡ read_of (texts words.now) }
{
    let Some(first) = words.first() else {
        return Err(Refused { word: 1 });
    };
    let Some(kind) = kind_of(first.as_str()) else {
        return Err(Refused { word: 1 });
    };
    let due = walk(kind, words)?;
    if is_finished(kind, due, words) {
        Ok(Asked { kind, words })
    } else {
        Err(Refused {
            word: words.len() + 1,
        })
    }
}
