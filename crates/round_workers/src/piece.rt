// The looks of one worker.
ghost use Rattle.std.specs.Prelude.{◌≡◌, ◌+◌, ◌-◌, ◌<◌, ◌≤◌, ◌^◌, ◌∷◌, [], ◌++◌, take, IfOk, OnOk};
ghost use Rattle.std.specs.Vec.{vec_capacity, vec_len};
ghost use Rattle.cell_world.specs.Cell.{one_if};
ghost use Rattle.cell_world.specs.Grid.{world_of};
ghost use Rattle.round_book.specs.Book.{CanBegin, window_of};
ghost use Rattle.spec_record.specs.Look.{look_of};
ghost use Rattle.round_workers.specs.Crews.{IsCrewSize};
ghost use Rattle.round_workers.specs.Inner.Pieces.{AreLooked, HasPieceRoom, IsGuessed, IsPieceDone, IsPieceReady, all_have_room, shares_among};
ghost use Rattle.round_workers.specs.Inner.Shares.{if_any, shares};

use crate::guesses::guess_on;
use crate::share::{Share, Turns, share_of};
use ant_base::Gate;
use ant_random::Stream;
use hex_geometry::OutOfMemory;
use round_book::Field;
use spec_record::{Look, look_into};
use std::alloc::Global;

// A worker's turns, and rooms for its looks. The looks of the turns come first in the list; after them are those of an
// earlier window that had more turns, so that no room is made twice.
#[derive(Drop)]
pub struct Piece {
    pub share: Share,
    pub looks: Vec<Look>,
}

impl Piece {
    // Takes these turns, and room for their looks.
    fn take_on(&mut self, share: Share) -> Result<(), OutOfMemory>
        ensures share { self.new.share ≡ share }
        ensures room { OnOk result (HasPieceRoom self.new) }
    {
        self.share = share;
        let turns = share.to.saturating_sub(share.from) as usize;
        let more = turns.saturating_sub(self.looks.len());
        self.looks.reserve(more)?;
        Ok(())
    }

    // Makes the look at each of its turns, in order, and calls the gate before each.
    pub fn look_at_turns<G: Gate>(&mut self, field: &Field<'_>, gate: &G, from: u32)
        requires { IsPieceReady field.now from self.old }
        ensures { IsPieceDone field.now from self.old self.new }
    {
        make_looks(&mut self.looks, self.share, field, gate, from);
    }
}

// Makes the look at each turn of a share, in order, as a prefix of the list, which has room for them.
fn make_looks<G: Gate>(looks: &mut Vec<Look>, share: Share, field: &Field<'_>, gate: &G, from: u32)
    requires begin { CanBegin field.now from share.to }
    requires first { from ≤ share.from }
    requires forwards { share.from ≤ share.to }
    requires guess { IsGuessed field.now from share }
    requires room { share.to - share.from ≤ vec_capacity looks.old }
    ensures { AreLooked (window_of field.now from share.to) share looks.new.items }
{
    let mut stream = Stream::at_place_uncounted(field.seed(), share.guess);
    for id in share.from..share.to {
        gate.before_look(share.worker, id);
        make_look(looks, (id - share.from) as usize, field, &mut stream, id);
    }
}

// Makes the look at a turn, by a stream at its guess, in the room with this number: that of an older look, or the first
// free one.
#[inline]
fn make_look(looks: &mut Vec<Look>, at: usize, field: &Field<'_>, stream: &mut Stream, id: u32)
    requires id { id < field.now.world.ids }
    requires place { stream.old.place + 1 < 2 ^ 63 }
    requires next { at ≤ vec_len looks.old }
    requires room { at < vec_capacity looks.old }
    ensures made { take (at + 1) looks.new.items ≡ take at looks.old.items ++ look_of field.now.minds stream.old.seed
        (world_of field.now.world) stream.old.place id ∷ [] }
    ensures stream { stream.new ≡ record stream.old {
      place = stream.old.place + one_if
          (look_of field.now.minds stream.old.seed (world_of field.now.world) stream.old.place id).drew;
    } }
    ensures len { at + 1 ≤ vec_len looks.new }
    ensures capacity { vec_capacity looks.new ≡ vec_capacity looks.old }
{
    look_into(looks, at, field.world(), field.brains(), stream, id);
}

// Gives each worker that has a turn of the window its share, in a piece with room for its looks, from the first piece
// on; returns how many pieces that is. The guesses are counted here, each id once.
pub fn deal(
    pieces: &mut Vec<Piece>,
    alloc: Global,
    field: &Field<'_>,
    turns: Turns,
    workers: u32,
) -> Result<usize, OutOfMemory>
    requires workers { IsCrewSize workers }
    requires window { CanBegin field.now turns.from turns.to }
    ensures shares { IfOk result (λ dealt. shares_among dealt pieces.new.items ≡ shares (window_of field.now turns.from turns.to) workers workers) }
    ensures rooms { IfOk result (λ dealt. all_have_room dealt pieces.new.items) }
    ensures within { IfOk result (λ dealt. dealt ≤ vec_len pieces.new) }
{
    let mut guess = field.place();
    let mut dealt = 0;
    for worker in 0..workers {
        let share = share_of(workers, turns, worker, guess);
        guess = guess_on(field, turns, guess, share.from, share.to);
        dealt = give(pieces, alloc, dealt, share)?;
    }
    Ok(dealt)
}

// Gives a share to the next piece, if it has a turn; returns how many pieces then have one.
fn give(
    pieces: &mut Vec<Piece>,
    alloc: Global,
    dealt: usize,
    share: Share,
) -> Result<usize, OutOfMemory>
    requires { dealt ≤ vec_len pieces.old }
    ensures shares { IfOk result (λ now. shares_among now pieces.new.items ≡ shares_among dealt pieces.old.items ++ if_any share) }
    ensures rooms { IfOk result (λ now. all_have_room dealt pieces.old.items → all_have_room now pieces.new.items) }
    ensures within { IfOk result (λ now. now ≤ vec_len pieces.new) }
{
    if share.from >= share.to {
        return Ok(dealt);
    }
    give_next(pieces, alloc, dealt, share)?;
    Ok(dealt + 1)
}

// Gives a share to the piece with this number, which is made if there is none.
fn give_next(
    pieces: &mut Vec<Piece>,
    alloc: Global,
    at: usize,
    share: Share,
) -> Result<(), OutOfMemory>
    requires { at ≤ vec_len pieces.old }
    ensures shares { OnOk result (shares_among (at + 1) pieces.new.items ≡ shares_among at pieces.old.items ++ share ∷ []) }
    ensures rooms { OnOk result (all_have_room at pieces.old.items → all_have_room (at + 1) pieces.new.items) }
    ensures within { OnOk result (at + 1 ≤ vec_len pieces.new) }
{
    if at < pieces.len() {
        return pieces[at].take_on(share);
    }
    let mut piece = Piece {
        share,
        looks: Vec::new(alloc),
    };
    piece.take_on(share)?;
    pieces.push(piece)?;
    Ok(())
}
