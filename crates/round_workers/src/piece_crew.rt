// A crew whose looks are made in pieces.
ghost use Rattle.std.specs.Prelude.{◌≡◌, ◌+◌, ◌-◌, ◌<◌, ◌^◌, All, map, min, IfOk, OnOk, OnErr};
ghost use Rattle.round_book.specs.Book.{CanBegin, IsPlayed, window_of};
ghost use Rattle.round_book.specs.Counts.{counts_of};
ghost use Rattle.round_workers.specs.Crews.{IsCrewSize};
ghost use Rattle.round_workers.specs.Inner.Pieces.{AreConsecutive, IsPieceReady};

use crate::fork::look_at_pieces;
use crate::piece::{Piece, deal};
use crate::settle::settle_pieces;
use crate::share::Turns;
use crate::team::Team;
use ant_base::Gate;
use hex_geometry::OutOfMemory;
use round_book::{Counts, Field, play_window};
use std::alloc::Global;
use std::marker::Model;
use std::thread::Threads;

/// A crew of workers that make the looks of a window at the same time, each for a contiguous piece of its turns. The
/// looks are settled in order on the caller's thread. It keeps the rooms of its looks from one window to the next.
#[derive(Drop)]
pub struct PieceCrew<'c, R: Threads + Sync, G: Gate> {
    team: Team<'c, R, G>,
    turns: u64,
    pieces: Option<Vec<Piece>>,
}

impl<'c, R: Threads + Sync, G: Gate> Model for PieceCrew<'c, R, G> {
    ghost use Rattle.round_workers.specs.Crews.{CrewValue, IsCrewSize};

    ghost Value = { CrewValue };

    ghost view = { λ crew. record { workers = crew.team.workers; turns = crew.turns } };

    ghost invariant = { λ crew. IsCrewSize crew.team.workers };
}

impl<'c, R: Threads + Sync, G: Gate> PieceCrew<'c, R, G> {
    /// A crew of 1 to 16 workers, which has played no turn yet. Each worker, from 0, calls the gate before each look
    /// that it makes. It takes no memory.
    pub fn new(rt: &'c R, workers: u32, gate: &'c G) -> PieceCrew<'c, R, G>
        requires workers { IsCrewSize workers }
        ensures { result ≡ record { workers = workers; turns = 0 } }
    {
        PieceCrew {
            team: Team { rt, gate, workers },
            turns: 0,
            pieces: None,
        }
    }

    /// How many turns the crew has played, from 0; it stays at the largest `u64`, 2^64 - 1.
    #[inline]
    pub fn turns(&self) -> u64
        ensures { result ≡ self.now.turns }
    {
        self.turns
    }

    /// Plays the turns of the ids from `from` up to, but not including, `to`. The field is whole, `from` is at most
    /// `to`, `to` is at most the number of ids, and the place plus the number of turns is below 2^63. Afterwards the
    /// field is whole, and its world and place are those after the turns in order. The result counts the looks that
    /// were used and the turns that were executed again. It fails only if memory runs out; the field and the count of
    /// turns are then unchanged.
    ///
    /// Of n turns, worker k of W makes the looks of those from `from` + k * n / W up to, but not including, `from` + (k
    /// + 1) * n / W, and calls the gate with its number and the id before each. A worker without a turn starts no
    /// thread. All looks are made before the field is lent, unless no second worker has a turn: then each look is
    /// settled as soon as it is made.
    pub fn window(
        &mut self,
        alloc: Global,
        field: &mut Field<'_>,
        from: u32,
        to: u32,
    ) -> Result<Counts, OutOfMemory>
        requires window { CanBegin field.old from to }
        ensures played { OnOk result (IsPlayed field.old from to field.new) }
        ensures counts { IfOk result (λ counts. counts ≡ counts_of (window_of field.old from to)) }
        ensures turns { OnOk result (self.new ≡ record self.old { turns = min (self.old.turns + (to - from)) (2 ^ 64 - 1) }) }
        ensures unchanged { OnErr result (field.new ≡ field.old) }
        ensures as_before { OnErr result (self.new ≡ self.old) }
    {
        let pieces = self.pieces.get_or_insert_with(|| Vec::new(alloc));
        let counts = play(&self.team, alloc, pieces, field, Turns { from, to })?;
        self.turns = self.turns.saturating_add(u64::from(to - from));
        Ok(counts)
    }
}

// Plays a window by the workers of a team, in these pieces and new ones if needed.
fn play<R: Threads + Sync, G: Gate>(
    team: &Team<'_, R, G>,
    alloc: Global,
    pieces: &mut Vec<Piece>,
    field: &mut Field<'_>,
    turns: Turns,
) -> Result<Counts, OutOfMemory>
    requires workers { IsCrewSize team.now.workers }
    requires window { CanBegin field.old turns.from turns.to }
    ensures played { OnOk result (IsPlayed field.old turns.from turns.to field.new) }
    ensures counts { IfOk result (λ counts. counts ≡ counts_of (window_of field.old turns.from turns.to)) }
    ensures unchanged { OnErr result (field.new ≡ field.old) }
{
    if team.workers.min(turns.to - turns.from) <= 1 {
        return play_window(team.gate, alloc, field, turns.from, turns.to);
    }
    let dealt = deal(pieces, alloc, field, turns, team.workers)?;
    play_pieces(team, alloc, &mut pieces[..dealt], field, turns)
}

// Plays a window whose turns are shared out, in these pieces.
fn play_pieces<R: Threads + Sync, G: Gate>(
    team: &Team<'_, R, G>,
    alloc: Global,
    pieces: &mut [Piece],
    field: &mut Field<'_>,
    turns: Turns,
) -> Result<Counts, OutOfMemory>
    requires workers { 0 < team.now.workers }
    requires window { CanBegin field.old turns.from turns.to }
    requires ready { All (IsPieceReady field.old turns.from) pieces.old }
    requires follow { AreConsecutive (map (λ piece. piece.share) pieces.old) turns.from turns.to }
    ensures played { OnOk result (IsPlayed field.old turns.from turns.to field.new) }
    ensures counts { IfOk result (λ counts. counts ≡ counts_of (window_of field.old turns.from turns.to)) }
    ensures unchanged { OnErr result (field.new ≡ field.old) }
{
    look_at_pieces(team, field, turns.from, pieces);
    let mut book = field.begin(alloc, turns.from, turns.to)?;
    settle_pieces(&mut book, field, pieces);
    Ok(field.finish(book))
}
