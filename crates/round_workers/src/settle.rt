// The looks of all pieces, settled in order.
ghost use Rattle.std.specs.Prelude.{◌≡◌, ◌≤◌, All, map};
ghost use Rattle.round_book.specs.Book.{IsSameWindow, StandsOn, window_of};
ghost use Rattle.round_workers.specs.Inner.Pieces.{AreLooked, AreConsecutive};

use crate::piece::Piece;
use round_book::{Book, Field, advance};

// Settles the turns of all pieces, one after another.
pub fn settle_pieces(book: &mut Book, field: &Field<'_>, pieces: &[Piece])
    requires stands { StandsOn field.now book.old }
    requires follow { AreConsecutive (map (λ piece. piece.share) pieces.now) book.old.next book.old.to }
    requires looked { All (λ piece. AreLooked (window_of field.now book.old.from book.old.to) piece.share piece.looks.items) pieces.now }
    ensures stands { StandsOn field.now book.new }
    ensures next { book.new.next ≡ book.old.to }
    ensures same { IsSameWindow book.old book.new }
{
    for piece in pieces {
        settle_piece(book, field, piece);
    }
}

// Settles the turns of a piece, one after another.
fn settle_piece(book: &mut Book, field: &Field<'_>, piece: &Piece)
    requires stands { StandsOn field.now book.old }
    requires next { piece.now.share.from ≡ book.old.next }
    requires forwards { piece.now.share.from ≤ piece.now.share.to }
    requires within { piece.now.share.to ≤ book.old.to }
    requires looked { AreLooked (window_of field.now book.old.from book.old.to) piece.now.share piece.now.looks.items }
    ensures stands { StandsOn field.now book.new }
    ensures next { book.new.next ≡ piece.now.share.to }
    ensures same { IsSameWindow book.old book.new }
{
    let turns = (piece.share.to - piece.share.from) as usize;
    for look in &piece.looks[..turns] {
        advance(book, field, look);
    }
}
