//! How work is shared out: the tasks are a row, and each worker gets a piece of it.
//!
//! The pieces follow one another, together they are the whole row, and their sizes differ by at most one. The crate
//! depends on no other. This is this project's own.
#![tactic(auto)]

ghost use Rattle.std.specs.Prelude.{◌≡◌, ◌≤◌, ◌<◌, ◌^◌};
ghost use Rattle.work_share.specs.Borders.{border};
ghost use Rattle.work_share.specs.Laws.{PiecesAreEven, PiecesAreTheRow};

/// The start of a worker's piece in a row of `count` tasks. Worker k, from 0, has the tasks from this border up to, but
/// not including, the border of worker k + 1. The border of the number of workers is the end of the row.
///
/// There are 1 to 16 workers, `worker` is at most their number, and there are fewer than 2^32 tasks.
#[inline]
#[tactic(auto, using(crate::proofs::BordersLemmas::border_small, crate::proofs::BordersLemmas::border_within))]
pub fn border(workers: usize, count: usize, worker: usize) -> usize
    requires workers { (1 ≤ workers) × (workers ≤ 16) }
    requires worker { worker ≤ workers }
    requires few { count < 2 ^ 32 }
    ensures border { result ≡ border workers count worker }
    ensures within { result ≤ count }
{
    worker * count / workers
}

/// A law: the pieces are the row. The first begins at its start, each begins where the previous one ends, none ends
/// before it begins, and the last ends at the row's end. The call does nothing: its clause is the law.
pub fn pieces_are_the_row()
    ensures { PiecesAreTheRow }
{}

/// A law: the pieces are even. None is longer than another by more than one. The call does nothing: its clause is the
/// law.
pub fn pieces_are_even()
    ensures { PiecesAreEven }
{}
