// Pieces of a text between its commas.
ghost use Rattle.std.specs.Prelude.{◌≡◌, ◌≤◌, ◌∷◌, length, not, ◌==◌, option_copied};
ghost use Rattle.std.specs.List.{prefix_len};
ghost use Rattle.std.specs.Iterator.{YieldsFirstRef, item_count};
ghost use Rattle.command_words.specs.Slots.{pieces_of};
ghost use Rattle.command_words.specs.Inner.Pieces.{pieces_left, after_byte};

use std::marker::Model;

// The remaining pieces of a text, from the first on. It takes no memory, and reads each byte once.
#[derive(Drop)]
pub(crate) struct Pieces<'t> {
    // what follows the last comma that was read, until the last piece is taken
    rest: Option<&'t [u8]>,
}

impl<'t> Model for Pieces<'t> {
    ghost use Rattle.std.specs.Prelude.{List, ℕ, option_copied};
    ghost use Rattle.command_words.specs.Inner.Pieces.{pieces_left};

    ghost Value = { List (List ℕ) };

    ghost view = { λ pieces. pieces_left (option_copied pieces.rest) };
}

impl<'t> Pieces<'t> {
    pub(crate) fn new(text: &'t [u8]) -> Self
        ensures { result ≡ pieces_of text.now }
    {
        Pieces { rest: Some(text) }
    }
}

impl<'t> Iterator for Pieces<'t> {
    type Item = &'t [u8];

    ghost next_gives = { YieldsFirstRef (λ pieces. pieces) };

    ghost remaining = { item_count (λ pieces. pieces) };

    fn next(&mut self) -> Option<&'t [u8]> {
        let text = self.rest?;
        let (piece, rest) = cut_piece(text);
        self.rest = rest;
        Some(piece)
    }
}

// The first piece, and what follows its comma.
#[tactic(auto, using(crate::proofs::PiecesLemmas::pieces_of_cut))]
fn cut_piece(text: &[u8]) -> (&[u8], Option<&[u8]>)
    ensures { pieces_of text.now ≡ result.0.now ∷ pieces_left (option_copied result.1) }
{
    let (piece, rest) = text.split_at(piece_length(text));
    (piece, after_byte(rest))
}

fn after_byte(text: &[u8]) -> Option<&[u8]>
    ensures { option_copied result ≡ after_byte text.now }
{
    match text {
        [] => None,
        [_, rest @ ..] => Some(rest),
    }
}

// How many bytes precede the first comma.
fn piece_length(text: &[u8]) -> usize
    ensures first { result ≡ prefix_len (λ byte. not (byte == 44)) text.now }
    ensures within { result ≤ length text.now }
{
    text.iter().take_while(|byte| **byte != b',').count()
}
