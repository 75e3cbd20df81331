// Names and labels as tokens.
ghost use Rattle.std.specs.Prelude.{◌≡◌};
ghost use Rattle.ant_asm.specs.Names.{are_name_bytes, before_colon, begins_with_letter, is_name, is_name_byte, is_next, name_if};
ghost use Rattle.ant_asm.specs.Inner.Reading.{label_read, name_read, name_seen, read_label, read_name, take_token, with_rest};

use crate::spelling::{Source, SpellingFault};
use line_tokens::{Tokens, has_bad_byte};

// The next token, which should be a label.
pub(crate) fn label<'t>(tokens: &mut Tokens<'t>) -> Result<Source<'t>, SpellingFault>
    ensures { take_token read_label tokens.old ≡ with_rest tokens.new (label_read result) }
{
    match tokens.next() {
        None => Err(SpellingFault::MissingToken),
        Some(token) => label_at(token),
    }
}

// The label of a token.
#[tactic(auto, unfolding(crate::specs::Inner::Reading::read_label))]
pub(crate) fn label_at<'t>(token: &'t [u8]) -> Result<Source<'t>, SpellingFault>
    ensures { read_label token.now ≡ label_read result }
{
    if has_bad_byte(token) {
        return Err(SpellingFault::BadByte);
    }
    if is_next(token) {
        return Ok(Source::Next);
    }
    if !is_name(token) {
        return Err(SpellingFault::BadName);
    }
    Ok(Source::Named(token))
}

// The next token, which should be a name.
pub(crate) fn name<'t>(tokens: &mut Tokens<'t>) -> Result<&'t [u8], SpellingFault>
    ensures { take_token read_name tokens.old ≡ with_rest tokens.new (name_read result) }
{
    match tokens.next() {
        None => Err(SpellingFault::MissingToken),
        Some(token) => name_at(token),
    }
}

// The name of a token.
#[tactic(auto, unfolding(crate::specs::Inner::Reading::read_name))]
pub(crate) fn name_at<'t>(token: &'t [u8]) -> Result<&'t [u8], SpellingFault>
    ensures { read_name token.now ≡ name_read result }
{
    if has_bad_byte(token) {
        return Err(SpellingFault::BadByte);
    }
    if !is_name(token) {
        return Err(SpellingFault::BadName);
    }
    Ok(token)
}

// The name before the `:` at the end of a token, if it is one.
pub(crate) fn name_before_colon<'t>(token: &'t [u8]) -> Option<&'t [u8]>
    ensures { name_seen result ≡ name_if (before_colon token.now) }
{
    let Some((last, front)) = token.split_last() else {
        return None;
    };
    if *last != b':' {
        return None;
    }
    if !is_name(front) {
        return None;
    }
    Some(front)
}

// Whether a token is the word `next`, in any ASCII case.
#[tactic(auto, unfolding(crate::specs::Names::is_next))]
fn is_next(token: &[u8]) -> bool
    ensures { result ≡ is_next token.now }
{
    b"next".eq_ignore_ascii_case(token)
}

// Whether a token is a name.
#[tactic(auto, unfolding(crate::specs::Names::is_name))]
fn is_name(token: &[u8]) -> bool
    ensures { result ≡ is_name token.now }
{
    (begins_with_letter(token) && token.len() <= 32) && (are_name_bytes(token) && !is_next(token))
}

fn begins_with_letter(token: &[u8]) -> bool
    ensures { result ≡ begins_with_letter token.now }
{
    match token {
        [] => false,
        [first, ..] => first.is_ascii_alphabetic(),
    }
}

fn are_name_bytes(token: &[u8]) -> bool
    ensures { result ≡ are_name_bytes token.now }
{
    token.iter().all(|byte| is_name_byte(*byte))
}

fn is_name_byte(byte: u8) -> bool
    ensures { result ≡ is_name_byte byte }
{
    byte.is_ascii_alphanumeric() || byte == b'_'
}
