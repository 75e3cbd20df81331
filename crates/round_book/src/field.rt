// A game's field.
ghost use Rattle.std.specs.Prelude.{◌≡◌, ◌-◌, ◌<◌, ◌≤◌, ◌^◌, true, None, IfOk, OnOk, OnErr};
ghost use Rattle.std.specs.List.{Contains};
ghost use Rattle.std.specs.Vec.{vec_capacity};
ghost use Rattle.cell_world.specs.Grid.{IsWorld, world_of};
ghost use Rattle.ant_turn.specs.Minds.{AreSound, Fits, minds_of};
ghost use Rattle.round_book.specs.Book.{CanBegin, FieldValue, StandsOn, begun, lent_for};
ghost use Rattle.round_book.specs.Inner.Workspace.{AreMarked};

use crate::book::{Book, lemma_valid};
use crate::workspace::Workspace;
use ant_random::Stream;
use ant_turn::Brains;
use cell_world::World;
use hex_geometry::{OutOfMemory, Pos};
use spec_record::{Look, look};
use std::alloc::Global;
use std::marker::Model;
use std::mem;

/// The state of a game: its world, its brains, its seed and its place in the stream. It is whole, or lent for a window
/// of turns between two ids. While it is lent, it shows its state at the start of the window.
#[derive(Drop)]
pub struct Field<'b> {
    world: World,
    workspace: Option<Workspace>,
    lent: Option<(u32, u32)>,
    brains: Brains<'b>,
    seed: u32,
    place: u64,
    // the stream after the last window, so that the next one makes no jump
    stream: Option<Stream>,
    // the room of the last window's looks, once one was made
    looks: Vec<Look>,
}

impl<'b> Model for Field<'b> {
    ghost use Rattle.std.specs.Option.{is_some};
    ghost use Rattle.ant_turn.specs.Minds.{minds_of};
    ghost use Rattle.round_book.specs.Book.{FieldValue};
    ghost use Rattle.round_book.specs.Inner.Kept.{IsFieldKept};

    ghost Value = { FieldValue };

    ghost view = { λ field. record {
      world = field.world;
      minds = minds_of field.brains;
      seed = field.seed;
      place = field.place;
      whole = is_some field.workspace;
      lent = field.lent;
    } };

    ghost invariant = { λ field. IsFieldKept field.world (minds_of field.brains) field.workspace };
}

impl<'b> Field<'b> {
    /// A whole field. Each ant's state is below the length of its colour's brain, and the place is below 2^62. It fails
    /// only if memory runs out.
    pub fn new(
        alloc: Global,
        world: World,
        brains: Brains<'b>,
        seed: u32,
        place: u64,
    ) -> Result<Field<'b>, OutOfMemory>
        requires fit { Fits (world_of world) (minds_of brains) }
        requires place { place < 2 ^ 62 }
        ensures { IfOk result (λ field. field ≡ record { world = world; minds = minds_of brains.entry; seed = seed; place = place; whole = true; lent = None }) }
    {
        lemma_valid(brains, &world);
        let workspace = Workspace::over(alloc, &world)?;
        Ok(Field {
            world,
            workspace: Some(workspace),
            lent: None,
            brains,
            seed,
            place,
            stream: None,
            looks: Vec::new(alloc),
        })
    }

    /// The world; while the field is lent, the world at the start of the window.
    #[inline]
    pub fn world(&self) -> &World
        ensures world { result.now ≡ self.now.world }
        ensures fit { Fits (world_of self.now.world) self.now.minds }
    {
        &self.world
    }

    /// The brains of the game.
    #[inline]
    pub fn brains(&self) -> Brains<'b>
        ensures brains { minds_of result ≡ self.now.minds }
        ensures sound { AreSound self.now.minds }
    {
        self.brains
    }

    /// The seed of the game's random numbers.
    #[inline]
    pub fn seed(&self) -> u32
        ensures { result ≡ self.now.seed }
    {
        self.seed
    }

    /// How many random numbers were drawn; while the field is lent, the number at the start of the window.
    #[inline]
    pub fn place(&self) -> u64
        ensures { result ≡ self.now.place }
    {
        self.place
    }

    /// Begins the window of the turns of the ids from `from` up to, but not including, `to`. The field is lent for
    /// them, and the book stands on it, with no turn settled yet. The field is whole, `from` is at most `to`, `to` is
    /// at most the number of ids, and the place plus the number of turns is below 2^63. It fails only if memory runs
    /// out; the field is then whole and unchanged. No call on the book takes memory: it has room for the positions that
    /// the turns write, seven for each turn but no more than the world has cells.
    #[inline(always)]
    pub fn begin(&mut self, _alloc: Global, from: u32, to: u32) -> Result<Book, OutOfMemory>
        requires { CanBegin self.old from to }
        ensures lent { OnOk result (self.new ≡ lent_for self.old from to) }
        ensures book { IfOk result (λ book. book ≡ begun self.old from to) }
        ensures stands { IfOk result (λ book. StandsOn self.new book) }
        ensures unchanged { OnErr result (self.new ≡ self.old) }
    {
        self.lend(from, to)
    }

    // Returns a stream at the field's seed and place: the kept one if it is there, and otherwise a new one.
    #[inline]
    pub(crate) fn take_stream(&mut self) -> Stream
        requires { self.old.place < 2 ^ 63 }
        ensures seed { result.seed ≡ self.old.seed }
        ensures place { result.place ≡ self.old.place }
        ensures field { self.new ≡ self.old }
    {
        if let Some(stream) = self.stream.take() {
            if stream.seed() == self.seed && stream.place() == self.place {
                return stream;
            }
        }
        Stream::at_place_uncounted(self.seed, self.place)
    }

    // Keeps a stream, and the room of looks, for the next window.
    #[inline]
    pub(crate) fn keep(&mut self, stream: Stream, looks: Vec<Look>)
        ensures { self.new ≡ self.old }
    {
        self.stream = Some(stream);
        self.looks = looks;
    }

    // Returns a list with room for at least one look.
    #[inline]
    pub(crate) fn take_looks(&mut self, alloc: Global) -> Result<Vec<Look>, OutOfMemory>
        ensures room { IfOk result (λ looks. 1 ≤ vec_capacity looks) }
        ensures field { self.new ≡ self.old }
    {
        let mut looks = mem::replace(&mut self.looks, Vec::new(alloc));
        if looks.capacity() == 0 {
            looks.reserve(1)?;
        }
        Ok(looks)
    }

    // Lends the workspace, after it got room for the window. It gets the room where it is stored, so that it isn't
    // moved for the call.
    #[inline(always)]
    fn lend(&mut self, from: u32, to: u32) -> Result<Book, OutOfMemory>
        requires { CanBegin self.old from to }
        ensures lent { OnOk result (self.new ≡ lent_for self.old from to) }
        ensures book { IfOk result (λ book. book ≡ begun self.old from to) }
        ensures unchanged { OnErr result (self.new ≡ self.old) }
        ensures world { IsWorld self.old.world }
        ensures sound { AreSound self.old.minds }
        ensures fit { Fits (world_of self.old.world) self.old.minds }
    {
        let ids = self.world.ant_count();
        prove!(to <= ids);
        let Some(kept) = &mut self.workspace else {
            unreachable!()
        };
        kept.reserve(to - from)?;
        let Some(work) = self.workspace.take() else {
            unreachable!()
        };
        self.lent = Some((from, to));
        Ok(Book::over(work, self.seed, self.place, from, to))
    }

    // Takes back what was lent, with the world and the place after the window. The field's own world is made equal to
    // that world at the positions that were written.
    #[inline(always)]
    pub(crate) fn take_back(&mut self, work: Workspace, place: u64)
        requires marks { AreMarked work.world work.marked.items work.written.items }
        requires width { self.old.world.width ≡ work.world.width }
        requires height { self.old.world.height ≡ work.world.height }
        requires ids { self.old.world.ids ≡ work.world.ids }
        requires unwritten { (p : _) → ¬ Contains work.written.items p → (world_of self.old.world).cells p ≡ (world_of work.world).cells p }
        requires fit { Fits (world_of work.world) self.old.minds }
        ensures { self.new ≡ record self.old { world = work.world; place = place; whole = true; lent = None } }
    {
        self.workspace = Some(work);
        if let Some(kept) = &mut self.workspace {
            self.world.catch_up(&kept.world, &kept.written);
            kept.clear();
        }
        self.lent = None;
        self.place = place;
    }
}
