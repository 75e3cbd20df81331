// Lines of a text.
ghost use Rattle.std.specs.Prelude.{◌≡◌, ◌<◌, ◌≤◌, ◌∷◌, length, drop, not};
ghost use Rattle.std.specs.List.{prefix_len, suffix_len};
ghost use Rattle.std.specs.Iterator.{YieldsFirstRef, item_count};
ghost use Rattle.ant_base.specs.Lines.{lines_of, first_line, after_line, is_lf, is_separator, is_blank, after_separators, trimmed};

use std::marker::Model;

/// The remaining lines of a text, from the first on: the pieces between LF bytes, with no further line after a last LF
/// (the contest's files). It takes no memory, and reads each byte once.
#[derive(Drop)]
pub struct Lines<'t> {
    rest: &'t [u8],
}

impl<'t> Model for Lines<'t> {
    ghost use Rattle.std.specs.Prelude.{List, ℕ};
    ghost use Rattle.ant_base.specs.Lines.{lines_of};

    ghost Value = { List (List ℕ) };

    ghost view = { λ lines. lines_of lines.rest.now };
}

impl<'t> Lines<'t> {
    /// All lines of the text (the contest's files). An empty text has none.
    pub fn new(text: &'t [u8]) -> Self
        ensures lines { result ≡ lines_of text.now }
        ensures few { length result ≤ length text.now }
    {
        Lines { rest: text }
    }
}

impl<'t> Iterator for Lines<'t> {
    type Item = &'t [u8];

    ghost next_gives = { YieldsFirstRef (λ lines. lines) };

    ghost remaining = { item_count (λ lines. lines) };

    fn next(&mut self) -> Option<&'t [u8]> {
        if self.rest.is_empty() {
            return None;
        }
        let (line, rest) = cut_line(self.rest);
        self.rest = rest;
        Some(line)
    }
}

/// The first line of a text without its LF, and the rest after that LF. Both are empty if the text is empty (the
/// contest's files).
pub fn cut_line(text: &[u8]) -> (&[u8], &[u8])
    ensures line { result.0.now ≡ first_line text.now }
    ensures rest { result.1.now ≡ after_line text.now }
    ensures lines { 0 < length text.now → lines_of text.now ≡ result.0.now ∷ lines_of result.1.now }
{
    let (line, rest) = text.split_at(line_length(text));
    (line, after_first(rest))
}

// All but the first byte.
fn after_first(text: &[u8]) -> &[u8]
    ensures { result.now ≡ drop 1 text.now }
{
    match text {
        [] => text,
        [_, rest @ ..] => rest,
    }
}

// How many bytes there are before the first LF.
fn line_length(text: &[u8]) -> usize
    ensures first { result ≡ prefix_len (λ byte. not (is_lf byte)) text.now }
    ensures within { result ≤ length text.now }
{
    text.iter().take_while(|byte| **byte != b'\n').count()
}

/// Whether a byte is a separator: a space, a tab or a CR (the contest's files).
pub fn is_separator(byte: u8) -> bool
    ensures { result ≡ is_separator byte }
{
    matches!(byte, b' ' | b'\t' | b'\r')
}

/// Whether a line has only separators. An empty line is blank (the contest's files).
pub fn is_blank(line: &[u8]) -> bool
    ensures { result ≡ is_blank line.now }
{
    line.iter().all(|byte| is_separator(*byte))
}

/// What follows the separators at the front of a text (the contest's files).
pub fn after_separators(text: &[u8]) -> &[u8]
    ensures { result.now ≡ after_separators text.now }
{
    text.split_at(separators_in_front(text)).1
}

/// A line without the separators at its front and at its end; those between other bytes stay (the contest's files).
pub fn trim_line(line: &[u8]) -> &[u8]
    ensures { result.now ≡ trimmed line.now }
{
    let line = after_separators(line);
    let (line, _) = line.split_at(line.len() - separators_at_end(line));
    line
}

fn separators_in_front(line: &[u8]) -> usize
    ensures count { result ≡ prefix_len is_separator line.now }
    ensures within { result ≤ length line.now }
{
    line.iter().take_while(|byte| is_separator(**byte)).count()
}

fn separators_at_end(line: &[u8]) -> usize
    ensures count { result ≡ suffix_len is_separator line.now }
    ensures within { result ≤ length line.now }
{
    line.iter()
        .rev()
        .take_while(|byte| is_separator(**byte))
        .count()
}
