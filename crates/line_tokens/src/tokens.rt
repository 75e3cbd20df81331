// The tokens of a line, one after another.
ghost use Rattle.std.specs.Prelude.{◌≡◌, ◌≤◌, length};
ghost use Rattle.std.specs.Iterator.{YieldsFirstRef, item_count};
ghost use Rattle.std.specs.List.{prefix_len};
ghost use Rattle.line_tokens.specs.Inner.Scan.{is_token_byte, begins_token};
ghost use Rattle.line_tokens.specs.Tokens.{has_token, tokens_of};

mod steps;

use ant_base::{after_separators, is_separator};
use std::marker::Model;

/// The remaining tokens of a line, from the first on. A `;` begins a comment that goes to the end of the line. What
/// precedes it is cut into tokens by spaces, tabs and CR bytes (the task's neurology). It takes no memory. Contracts
/// see the list of the tokens that are left.
#[derive(Drop)]
pub struct Tokens<'t> {
    rest: &'t [u8],
}

impl<'t> Model for Tokens<'t> {
    ghost use Rattle.std.specs.Prelude.{List, ℕ};
    ghost use Rattle.line_tokens.specs.Tokens.{tokens_of};

    ghost Value = { List (List ℕ) };

    ghost view = { λ tokens. tokens_of tokens.rest.now };
}

impl<'t> Tokens<'t> {
    /// All tokens of a line, which is given without its LF (the task's neurology).
    pub fn new(line: &'t [u8]) -> Self
        ensures { result ≡ tokens_of line.now }
    {
        Tokens { rest: line }
    }

    /// Whether there is a token left.
    pub fn has_next(&self) -> bool
        ensures { result ≡ has_token self.now }
    {
        begins_token(after_separators(self.rest))
    }
}

impl<'t> Iterator for Tokens<'t> {
    type Item = &'t [u8];

    ghost next_gives = { YieldsFirstRef (λ tokens. tokens) };

    ghost remaining = { item_count (λ tokens. tokens) };

    fn next(&mut self) -> Option<&'t [u8]> {
        let start = after_separators(self.rest);
        let (token, rest) = start.split_at(token_length(start));
        self.rest = rest;
        if token.is_empty() {
            return None;
        }
        Some(token)
    }
}

fn begins_token(text: &[u8]) -> bool
    ensures { result ≡ begins_token text.now }
{
    match text {
        [] => false,
        [byte, ..] => is_token_byte(*byte),
    }
}

// How many bytes at the front belong to a token.
fn token_length(text: &[u8]) -> usize
    ensures bytes { result ≡ prefix_len is_token_byte text.now }
    ensures bound { result ≤ length text.now }
{
    text.iter().take_while(|byte| is_token_byte(**byte)).count()
}

fn is_token_byte(byte: u8) -> bool
    ensures { result ≡ is_token_byte byte }
{
    !(is_separator(byte) || byte == b';')
}
