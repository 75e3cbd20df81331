// A book: a window of turns that is being settled.
ghost use Rattle.std.specs.Prelude.{◌≡◌, ◌+◌, ◌-◌, ◌*◌, ◌<◌, ◌≤◌, ◌^◌, [], Option, Some, None, MatchOption};
ghost use Rattle.std.specs.List.{AllByRecursion, count_by};
ghost use Rattle.std.specs.Vec.{vec_capacity, vec_len};
ghost use Rattle.cell_world.specs.Cell.{one_if};
ghost use Rattle.cell_world.specs.Grid.{IsWorld, world_of};
ghost use Rattle.cell_world.specs.Parts.{Agree};
ghost use Rattle.ant_turn.specs.Minds.{AreSound, Fits, minds_of};
ghost use Rattle.spec_record.specs.Claims.{seen_cell, seen_parts, seen_place};
ghost use Rattle.round_book.specs.Book.{AgreesUnwritten, BookValue, CanTake, HoldsInBook, IsCause, IsEnded, IsRedone, IsSameWindow, Settles, moment_of};
ghost use Rattle.round_book.specs.Counts.{is_taken_verdict};
ghost use Rattle.round_book.specs.Inner.Kept.{IsWorkspaceReady};
ghost use Rattle.round_book.specs.Inner.Workspace.{AreMarked, most_listed};

use crate::verdict::{Cause, Verdict};
use crate::workspace::Workspace;
use ant_turn::Brains;
use cell_world::World;
use spec_record::{Look, look};
use std::marker::Model;

/// A window of turns that is being settled, one after another. It has its own world, which is that after the turns so
/// far, the place in the stream after them, the positions that they wrote, and the verdict on each look. Only a field's
/// `begin` makes one, and it can't be copied.
#[derive(Drop)]
pub struct Book {
    seed: u32,
    from: u32,
    to: u32,
    next: u32,
    place: u64,
    taken: u32,
    work: Workspace,
}

impl Model for Book {
    ghost use Rattle.round_book.specs.Book.{BookValue};
    ghost use Rattle.round_book.specs.Inner.Kept.{IsWorkspaceKept};

    ghost Value = { BookValue };

    ghost view = { λ book. record {
      seed = book.seed;
      from = book.from;
      to = book.to;
      next = book.next;
      world = book.work.world;
      place = book.place;
      written = book.work.written.items;
      verdicts = book.work.verdicts.items;
    } };

    ghost invariant = { λ book. IsWorkspaceKept book.from book.to book.next book.place book.taken book.work };
}

impl Book {
    // A book of these turns, in a ready workspace with room for them.
    pub(crate) fn over(work: Workspace, seed: u32, place: u64, from: u32, to: u32) -> Book
        requires ready { IsWorkspaceReady work.world work }
        requires forwards { from ≤ to }
        requires ids { to ≤ work.world.ids }
        requires lasting { place + (to - from) < 2 ^ 63 }
        requires write_room { most_listed work.world (vec_len work.written) (7 * (to - from)) ≤ vec_capacity work.written }
        requires verdict_room { vec_len work.verdicts + (to - from) ≤ vec_capacity work.verdicts }
        ensures { result ≡ record { seed = seed; from = from; to = to; next = from; world = work.world; place = place; written = []; verdicts = [] } }
    {
        Book {
            seed,
            from,
            to,
            next: from,
            place,
            taken: 0,
            work,
        }
    }

    /// The next turn to be settled: at most the end of the window, and equal to it once all are settled.
    #[inline]
    pub fn next(&self) -> u32
        ensures next { result ≡ self.now.next }
        ensures begun { self.now.from ≤ self.now.next }
        ensures within { self.now.next ≤ self.now.to }
    {
        self.next
    }

    // The end of the window: the id after its last turn.
    #[inline]
    pub(crate) fn to(&self) -> u32
        ensures { result ≡ self.now.to }
    {
        self.to
    }

    // How many turns the window has.
    #[inline]
    pub(crate) fn turns(&self) -> u32
        ensures turns { result ≡ self.now.to - self.now.from }
        ensures few { self.now.to - self.now.from < 2 ^ 32 }
    {
        self.to - self.from
    }

    // How many looks were used so far.
    #[inline]
    pub(crate) fn taken(&self) -> u32
        ensures count { result ≡ count_by is_taken_verdict self.now.verdicts }
        ensures most { result ≤ self.now.to - self.now.from }
    {
        self.taken
    }

    // Gives the workspace back, and the place after the turns.
    #[inline]
    pub(crate) fn close(self) -> (Workspace, u64)
        ensures world { result.0.world ≡ self.world }
        ensures written { result.0.written.items ≡ self.written }
        ensures marks { AreMarked self.world result.0.marked.items self.written }
        ensures place { result.1 ≡ self.place }
    {
        (self.work, self.place)
    }

    /// Settles the next turn by a look at it, if the look is valid. A look is valid if the book's world agrees with
    /// each cell that the look read in the parts that it read, and, if the turn draws a random number, the book's place
    /// is the look's guess. Then the named parts of its writes are set, the place rises by one if it drew, and the book
    /// notes that the look was used. Otherwise the result says why the look isn't valid, and the book is unchanged. It
    /// takes no memory.
    ///
    /// The next turn is one of the window, and the look is at that turn. At each read position that wasn't written, the
    /// look's cell agrees with the book's world. If the look is valid, its writes can be patched and set: first those
    /// that don't raise the weight of their cell, then the others.
    #[inline]
    pub fn settle(&mut self, look: Look) -> Option<Cause>
        requires in_window { self.old.next < self.old.to }
        requires turn { look.turn ≡ self.old.next }
        requires unwritten { AllByRecursion (AgreesUnwritten self.old) look.reads }
        requires writes { HoldsInBook self.old look → CanTake (world_of self.old.world) look.writes }
        ensures settled { Settles look self.old self.new result }
        ensures same { IsSameWindow self.old self.new }
    {
        self.settle_by(&look)
    }

    // The same by a look that stays with the caller.
    #[inline(always)]
    pub(crate) fn settle_by(&mut self, look: &Look) -> Option<Cause>
        requires in_window { self.old.next < self.old.to }
        requires turn { look.now.turn ≡ self.old.next }
        requires unwritten { AllByRecursion (AgreesUnwritten self.old) look.now.reads }
        requires writes { HoldsInBook self.old look.now → CanTake (world_of self.old.world) look.now.writes }
        ensures settled { Settles look.now self.old self.new result }
        ensures same { IsSameWindow self.old self.new }
    {
        let cause = self.cause_against(look);
        if cause.is_none() {
            self.end_turn(look, Verdict::Taken);
        }
        cause
    }

    // Why a look isn't valid, if it isn't.
    #[inline(always)]
    fn cause_against(&self, look: &Look) -> Option<Cause>
        requires { AllByRecursion (AgreesUnwritten self.now) look.now.reads }
        ensures { MatchOption result (HoldsInBook self.now look.now) (λ cause. IsCause look.now (moment_of self.now) cause) }
    {
        match self.work.first_change(look.reads().as_slice()) {
            Some(change) => Some(change),
            None => self.move_against(look),
        }
    }

    // Why a look isn't valid, if it isn't, but all that it read is unchanged.
    #[inline(always)]
    fn move_against(&self, look: &Look) -> Option<Cause>
        requires { AllByRecursion (λ read. Agree (seen_parts read) (seen_cell read) ((world_of self.now.world).cells (seen_place read))) look.now.reads }
        ensures { MatchOption result (HoldsInBook self.now look.now) (λ cause. IsCause look.now (moment_of self.now) cause) }
    {
        if look.drew() && look.guess() != self.place {
            return Some(Cause::Place {
                guessed: look.guess(),
                actual: self.place,
            });
        }
        None
    }

    /// Executes the next turn, by these brains, on the book's world at its place, and notes the cause. World and place
    /// become those after the turn, and the positions that it writes are noted as written. It takes no memory.
    ///
    /// The next turn is one of the window, and the brains fit the book's world. If a turn was executed again although
    /// its look is valid, or for a cause that isn't the look's, the book no longer stands for its window.
    #[inline(never)]
    pub fn redo(&mut self, brains: Brains<'_>, cause: Cause)
        requires in_window { self.old.next < self.old.to }
        requires fit { Fits (world_of self.old.world) (minds_of brains) }
        ensures redone { IsRedone (minds_of brains.entry) cause self.old self.new }
        ensures same { IsSameWindow self.old self.new }
    {
        lemma_valid(brains, &self.work.world);
        // a look at a turn in the very world in which the turn is taken says what it does
        let look = look(&self.work.world, brains, self.seed, self.place, self.next);
        self.end_turn(&look, Verdict::Redone(cause));
    }

    // Ends the next turn, which does what the look says, with a verdict.
    #[inline(always)]
    pub(crate) fn end_turn(&mut self, look: &Look, verdict: Verdict)
        requires in_window { self.old.next < self.old.to }
        requires writes { CanTake (world_of self.old.world) look.now.writes }
        ensures ended { IsEnded look.now verdict self.old self.new }
        ensures same { IsSameWindow self.old self.new }
    {
        self.work.write(look.writes().as_slice());
        self.work.verdicts.push_reserved(verdict);
        self.taken += taken_by(&verdict);
        self.place += one_if(look.drew());
        self.next += 1;
    }
}

/// Returns nothing and does nothing that can be seen. It is called for its clauses: that brains and a world are what
/// their types promise. It is public for a caller whose proof needs that before a turn.
#[inline]
pub fn lemma_valid(brains: Brains<'_>, world: &World)
    ensures sound { AreSound (minds_of brains.entry) }
    ensures world { IsWorld world.now }
{
    let _red = brains.red.len();
    let _black = brains.black.len();
    let _corpse = brains.sheet.corpse();
    let _width = world.width();
}

// 1 if the look was used, and 0 if its turn was executed again.
#[inline(always)]
fn taken_by(verdict: &Verdict) -> u32
    ensures { result ≡ one_if (is_taken_verdict verdict.now) }
{
    match verdict {
        Verdict::Taken => 1,
        Verdict::Redone(_) => 0,
    }
}

// 1 if true, and 0 otherwise.
#[inline]
pub(crate) fn one_if(is: bool) -> u64
    ensures { result ≡ one_if is }
{
    u64::from(is)
}
