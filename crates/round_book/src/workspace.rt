// What a book works on.
ghost use Rattle.std.specs.Prelude.{◌≡◌, ◌⊎◌, ◌↔◌, ◌+◌, ◌*◌, ◌<◌, ◌≤◌, max, true, false, [], ◌∷◌, length, IfOk, OnOk};
ghost use Rattle.std.specs.List.{AllByRecursion, Contains};
ghost use Rattle.std.specs.Vec.{vec_capacity, vec_len};
ghost use Rattle.hex_geometry.specs.Position.{IsInside};
ghost use Rattle.cell_world.specs.Grid.{IsWorld, world_of};
ghost use Rattle.hex_geometry.specs.RowOrder.{index_of};
ghost use Rattle.cell_world.specs.World.{with_cells};
ghost use Rattle.spec_record.specs.Claims.{EachOnce, seen_place, seen_positions};
ghost use Rattle.spec_record.specs.Patches.{patched_cells};
ghost use Rattle.round_book.specs.Book.{AgreesIfUnwritten, CanTake, Wrote};
ghost use Rattle.round_book.specs.Inner.Changes.{Changes, IsUnwritten};
ghost use Rattle.round_book.specs.Inner.Kept.{IsWorkspaceReady};
ghost use Rattle.round_book.specs.Inner.Workspace.{AreMarked, most_listed};

use crate::passes::set_writes;
use crate::verdict::{Cause, Verdict};
use cell_world::World;
use hex_geometry::{OutOfMemory, Pos, index_of};
use spec_record::Sighting;
use std::alloc::Global;

// A world, which of its cells were written since it was lent, as marks and as a list, and the verdicts on the turns so
// far.
#[derive(Drop)]
pub(crate) struct Workspace {
    pub(crate) world: World,
    pub(crate) marked: Vec<bool>,
    pub(crate) written: Vec<Pos>,
    pub(crate) verdicts: Vec<Verdict>,
}

impl Workspace {
    // A copy of a world, with nothing written.
    pub(crate) fn over(alloc: Global, world: &World) -> Result<Workspace, OutOfMemory>
        ensures { IfOk result (λ it. IsWorkspaceReady world.now it) }
    {
        Ok(Workspace {
            world: world.copy(alloc)?,
            marked: vec![in alloc; false; cell_count(world)]?,
            written: Vec::new(alloc),
            verdicts: Vec::new(alloc),
        })
    }

    // Reserves room for the positions that this many turns write, seven for each but no more than there are cells, and
    // for their verdicts.
    #[inline(always)]
    pub(crate) fn reserve(&mut self, turns: u32) -> Result<(), OutOfMemory>
        ensures rest { self.new ≡ record self.old { written = self.new.written; verdicts = self.new.verdicts } }
        ensures written { self.new.written.items ≡ self.old.written.items }
        ensures verdicts { self.new.verdicts.items ≡ self.old.verdicts.items }
        ensures write_room { OnOk result (most_listed self.new.world (vec_len self.new.written) (7 * turns) ≤ vec_capacity self.new.written) }
        ensures no_more { OnOk result (vec_capacity self.new.written ≡ max (vec_capacity self.old.written) (vec_len self.old.written + most_listed self.old.world 0 (7 * turns))) }
        ensures verdict_room { OnOk result (vec_len self.new.verdicts + turns ≤ vec_capacity self.new.verdicts) }
    {
        self.reserve_written(7 * turns as usize)?;
        self.reserve_verdicts(turns as usize)
    }

    // Reserves room for this many more written positions, but no more than there are cells. Most windows find the room
    // of an earlier one, so the cells are counted only if that is too small.
    #[inline]
    fn reserve_written(&mut self, more: usize) -> Result<(), OutOfMemory>
        ensures rest { self.new ≡ record self.old { written = self.new.written } }
        ensures written { self.new.written.items ≡ self.old.written.items }
        ensures room { OnOk result (most_listed self.new.world (vec_len self.new.written) more ≤ vec_capacity self.new.written) }
        ensures no_more { OnOk result (vec_capacity self.new.written ≡ max (vec_capacity self.old.written) (vec_len self.old.written + most_listed self.old.world 0 more)) }
    {
        if more <= self.written.capacity() - self.written.len() {
            return Ok(());
        }
        let most = cell_count(&self.world).min(more);
        self.written.reserve_exact(most)?;
        Ok(())
    }

    // Reserves room for this many more verdicts.
    #[inline]
    fn reserve_verdicts(&mut self, more: usize) -> Result<(), OutOfMemory>
        ensures rest { self.new ≡ record self.old { verdicts = self.new.verdicts } }
        ensures verdicts { self.new.verdicts.items ≡ self.old.verdicts.items }
        ensures room { OnOk result (vec_len self.new.verdicts + more ≤ vec_capacity self.new.verdicts) }
    {
        if more <= self.verdicts.capacity() - self.verdicts.len() {
            return Ok(());
        }
        self.verdicts.reserve(more)?;
        Ok(())
    }

    // Whether the cell at `p` was written; false outside the world.
    #[inline]
    pub(crate) fn is_marked(&self, p: Pos) -> bool
        requires { AreMarked self.now.world self.now.marked.items self.now.written.items }
        ensures { (result ≡ true) ↔ Contains self.now.written.items p }
    {
        if !is_inside(&self.world, p) {
            return false;
        }
        self.has_mark(p)
    }

    // Whether the cell at `p`, which is inside the world, is marked.
    #[inline]
    fn has_mark(&self, p: Pos) -> bool
        requires marks { AreMarked self.now.world self.now.marked.items self.now.written.items }
        requires inside { IsInside self.now.world.width self.now.world.height p }
        ensures { (result ≡ true) ↔ Contains self.now.written.items p }
    {
        self.marked[index_of(self.world.width(), p)]
    }

    // Marks the cell at `p` as written, and lists it if it wasn't marked.
    #[inline]
    pub(crate) fn mark(&mut self, p: Pos)
        requires marks { AreMarked self.old.world self.old.marked.items self.old.written.items }
        requires inside { IsInside self.old.world.width self.old.world.height p }
        requires room { most_listed self.old.world (vec_len self.old.written) 1 ≤ vec_capacity self.old.written }
        ensures rest { self.new ≡ record self.old { marked = self.new.marked; written = self.new.written } }
        ensures marks { AreMarked self.new.world self.new.marked.items self.new.written.items }
        ensures written { (q : Pos) → Contains self.new.written.items q ↔ (Contains self.old.written.items q ⊎ (q ≡ p)) }
        ensures capacity { vec_capacity self.new.written ≡ vec_capacity self.old.written }
        ensures length { vec_len self.new.written ≤ vec_len self.old.written + 1 }
    {
        let i = index_of(self.world.width(), p);
        if !self.marked[i] {
            self.marked[i] = true;
            self.written.push_reserved(p);
        }
    }

    // The first part, in the order of the reads, that was read and has changed. Most looks read no cell that was
    // written, so all marks are tested first, and the rest is a call.
    #[inline(always)]
    pub(crate) fn first_change(&self, reads: &[Sighting]) -> Option<Cause>
        requires marks { AreMarked self.now.world self.now.marked.items self.now.written.items }
        requires unwritten { AllByRecursion (AgreesIfUnwritten self.now.written.items (world_of self.now.world).cells) reads.now }
        ensures { Changes reads.now (world_of self.now.world).cells result }
    {
        if self.none_marked(reads) {
            return None;
        }
        self.first_difference(reads)
    }

    // Whether none of the cells that were read was written.
    #[inline(always)]
    fn none_marked(&self, reads: &[Sighting]) -> bool
        requires { AreMarked self.now.world self.now.marked.items self.now.written.items }
        ensures { result ≡ true → AllByRecursion (IsUnwritten self.now.written.items) reads.now }
    {
        for (at, _, _) in reads {
            if self.is_marked(*at) {
                return false;
            }
        }
        true
    }

    // The first part, in the order of the reads, that was read and has changed. It compares only written cells.
    #[inline(never)]
    fn first_difference(&self, reads: &[Sighting]) -> Option<Cause>
        requires marks { AreMarked self.now.world self.now.marked.items self.now.written.items }
        requires unwritten { AllByRecursion (AgreesIfUnwritten self.now.written.items (world_of self.now.world).cells) reads.now }
        ensures { Changes reads.now (world_of self.now.world).cells result }
    {
        for read in reads {
            let change = self.change(read);
            if change.is_some() {
                return change;
            }
        }
        None
    }

    // The same for one position.
    #[inline(always)]
    fn change(&self, read: &Sighting) -> Option<Cause>
        requires marks { AreMarked self.now.world self.now.marked.items self.now.written.items }
        requires unwritten { AgreesIfUnwritten self.now.written.items (world_of self.now.world).cells read.now }
        ensures { Changes (read.now ∷ []) (world_of self.now.world).cells result }
    {
        let (at, _, _) = read;
        if !self.is_marked(*at) {
            return None;
        }
        self.difference_at(read)
    }

    // The same for one position, whose cell is compared. Few are, so this is a call.
    #[inline(never)]
    fn difference_at(&self, read: &Sighting) -> Option<Cause>
        requires { IsInside self.now.world.width self.now.world.height (seen_place read.now) }
        ensures { Changes (read.now ∷ []) (world_of self.now.world).cells result }
    {
        let (at, parts, cell) = read;
        let part = cell.difference(&self.world.cell(*at), *parts)?;
        Some(Cause::Part { at: *at, part })
    }

    // Sets the named parts of writes, and marks their cells.
    #[inline(always)]
    pub(crate) fn write(&mut self, writes: &[Sighting])
        requires marks { AreMarked self.old.world self.old.marked.items self.old.written.items }
        requires once { EachOnce (seen_positions writes.now) }
        requires writes { CanTake (world_of self.old.world) writes.now }
        requires room { most_listed self.old.world (vec_len self.old.written) (length writes.now) ≤ vec_capacity self.old.written }

        // the world is the one with the writes, of the same size
        ensures world { world_of self.new.world ≡ with_cells (world_of self.old.world) (patched_cells (world_of self.old.world).cells writes.now) }
        ensures cells { self.new.world.width * self.new.world.height ≡ self.old.world.width * self.old.world.height }

        // their cells are marked and listed, without new memory
        ensures marks { AreMarked self.new.world self.new.marked.items self.new.written.items }
        ensures written { Wrote self.old.written.items (seen_positions writes.now) self.new.written.items }
        ensures verdicts { self.new.verdicts ≡ self.old.verdicts }
        ensures capacity { vec_capacity self.new.written ≡ vec_capacity self.old.written }
        ensures length { vec_len self.new.written ≤ vec_len self.old.written + length writes.now }
    {
        self.mark_all(writes);
        set_writes(&mut self.world, writes);
    }

    // Marks the cells of writes.
    #[inline(always)]
    fn mark_all(&mut self, writes: &[Sighting])
        requires marks { AreMarked self.old.world self.old.marked.items self.old.written.items }
        requires inside { AllByRecursion (λ write. IsInside self.old.world.width self.old.world.height (seen_place write)) writes.now }
        requires room { most_listed self.old.world (vec_len self.old.written) (length writes.now) ≤ vec_capacity self.old.written }
        ensures rest { self.new ≡ record self.old { marked = self.new.marked; written = self.new.written } }
        ensures marks { AreMarked self.new.world self.new.marked.items self.new.written.items }
        ensures written { Wrote self.old.written.items (seen_positions writes.now) self.new.written.items }
        ensures capacity { vec_capacity self.new.written ≡ vec_capacity self.old.written }
        ensures length { vec_len self.new.written ≤ vec_len self.old.written + length writes.now }
    {
        for (at, _, _) in writes {
            self.mark(*at);
        }
    }

    // Clears all marks, and empties the lists.
    pub(crate) fn clear(&mut self)
        requires { AreMarked self.old.world self.old.marked.items self.old.written.items }
        ensures { IsWorkspaceReady self.old.world self.new }
    {
        unmark(&mut self.marked, &self.world, &self.written);
        self.written.clear();
        self.verdicts.clear();
    }
}

// How many cells a world has.
fn cell_count(world: &World) -> usize
    ensures { result ≡ world.now.width * world.now.height }
{
    world.width() as usize * world.height() as usize
}

// Whether the position is inside the world.
#[inline]
fn is_inside(world: &World, p: Pos) -> bool
    ensures inside { (result ≡ true) ↔ ((p.x < world.now.width) × (p.y < world.now.height)) }
    ensures world { IsWorld world.now }
{
    p.x < world.width() && p.y < world.height()
}

// Clears the marks of these positions.
fn unmark(marked: &mut [bool], world: &World, places: &[Pos])
    requires { AreMarked world.now marked.old places.now }
    ensures { AreMarked world.now marked.new [] }
{
    for p in places {
        marked[index_of(world.width(), *p)] = false;
    }
}
