// The tokens of a line, with one space between them.
ghost use Rattle.std.specs.Prelude.{◌≡◌, ◌+◌, ◌<◌, ◌≤◌, length, ◌∷◌, not, ◌==◌, IfOk, IfSome};
ghost use Rattle.ant_base.specs.Number.{within};
ghost use Rattle.std.specs.List.{prefix_len};
ghost use Rattle.std.specs.Str.{bytes_eq};
ghost use Rattle.match_save.specs.Inner.Answered.{leaving, leaving_slice};
ghost use Rattle.match_save.specs.Inner.Reading.{is_none_left, led_by, number, pieces, pieces_left, strict_value, word};
ghost use Rattle.match_save.specs.Inner.Readers.{next_element};

use crate::number::strict_number;
use std::marker::Model;

// The tokens that are left, and the number of the first of them.
#[derive(Drop)]
pub struct Fields<'t> {
    rest: Option<&'t [u8]>,
    number: usize,
}

impl<'t> Model for Fields<'t> {
    ghost use Rattle.std.specs.Prelude.{List, ℕ};
    ghost use Rattle.match_save.specs.Inner.Readers.{Left};
    ghost use Rattle.match_save.specs.Inner.Reading.{pieces_left};
    ghost use Rattle.match_save.specs.Inner.Few.{AreFewTokens};

    ghost Value = { Left (List ℕ) };

    ghost view = { λ it. record { number = it.number; items = pieces_left it.rest } };

    ghost invariant = { λ it. AreFewTokens (record { number = it.number; items = pieces_left it.rest }) };
}

// Whether these bytes are those of a text.
pub fn is_text(bytes: &[u8], text: &str) -> bool
    ensures { result ≡ bytes_eq text.now bytes.now }
{
    text.as_bytes() == bytes
}

// The most pieces of a line.
fn most_pieces(line: &[u8]) -> usize
    ensures { result ≡ length line.now + 1 }
{
    line.len() + 1
}

// How many bytes precede the first space.
fn token_length(text: &[u8]) -> usize
    ensures first { result ≡ prefix_len (λ byte. not (byte == 32)) text.now }
    ensures within { result ≤ length text.now }
{
    text.iter().take_while(|byte| **byte != b' ').count()
}

// The first token of a line, and what follows the space after it, if there is one.
fn cut_token(text: &[u8]) -> (&[u8], Option<&[u8]>)
    ensures { pieces text.now ≡ result.0.now ∷ pieces_left result.1 }
{
    let (token, rest) = text.split_at(token_length(text));
    match rest {
        [] => (token, None),
        [_, rest @ ..] => (token, Some(rest)),
    }
}

impl<'t> Fields<'t> {
    // All tokens of a line.
    pub fn new(line: &'t [u8]) -> Self
        ensures { result ≡ record { number = 0; items = pieces line.now } }
    {
        // Called for its clause: a line has no more fields than the counter can count.
        let _most = most_pieces(line);
        Fields {
            rest: Some(line),
            number: 0,
        }
    }

    // The number of the next token, from 0.
    pub fn number_of_next(&self) -> usize
        ensures { result ≡ self.now.number }
    {
        self.number
    }

    // The next token, or its number if there is none.
    pub fn take(&mut self) -> Result<&'t [u8], usize>
        ensures { next_element self.old ≡ leaving_slice self.new result }
    {
        let Some(line) = self.rest else {
            return Err(self.number);
        };
        let (token, rest) = cut_token(line);
        self.rest = rest;
        self.number += 1;
        Ok(token)
    }

    // The next token, which should be a number between these two.
    pub fn number(&mut self, least: u64, most: u64) -> Result<u64, usize>
        ensures value { number least most self.old ≡ leaving self.new result }
        ensures bounds { IfOk result (λ n. (least ≤ n) × (n ≤ most)) }
    {
        let at = self.number;
        let token = self.take()?;
        strict_within(token, least, most).ok_or(at)
    }

    // Passes the next token, which should be this word.
    pub fn word(&mut self, text: &str) -> Result<(), usize>
        ensures { led_by text.now self.old ≡ leaving self.new result }
    {
        let at = self.number;
        let token = self.take()?;
        if is_text(token, text) {
            Ok(())
        } else {
            Err(at)
        }
    }

    // The next two tokens, which should be this word and a number between these two.
    #[tactic(auto, using(crate::proofs::Words::word_passed, crate::proofs::Words::word_refused))]
    pub fn named_number(&mut self, text: &str, least: u64, most: u64) -> Result<u64, usize>
        ensures value { word text.now (number least most) self.old ≡ leaving self.new result }
        ensures bounds { IfOk result (λ n. (least ≤ n) × (n ≤ most)) }
    {
        self.word(text)?;
        self.number(least, most)
    }

    // Whether no token is left.
    pub fn is_done(&self) -> bool
        ensures { result ≡ is_none_left self.now.items }
    {
        is_nothing(self.rest)
    }
}

// Whether no token is left in what is left of a line.
#[tactic(auto, using(crate::proofs::Cuts::pieces_not_done))]
fn is_nothing(rest: Option<&[u8]>) -> bool
    ensures { result ≡ is_none_left (pieces_left rest.entry) }
{
    match rest {
        None => true,
        Some(_) => false,
    }
}

// The value of a strict number between these two.
fn strict_within(text: &[u8], least: u64, most: u64) -> Option<u64>
    ensures value { result ≡ within least most (strict_value text.now) }
    ensures bounds { IfSome result (λ n. (least ≤ n) × (n ≤ most)) }
{
    let number = strict_number(text)?;
    if least <= number && number <= most {
        Some(number)
    } else {
        None
    }
}
