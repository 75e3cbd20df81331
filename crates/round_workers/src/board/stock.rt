// The memory from which boards are built.
ghost use Rattle.std.specs.Prelude.{◌≡◌, ◌+◌, ◌<◌, ◌≤◌, ◌^◌, [], replicate, OnOk};
ghost use Rattle.std.specs.Vec.{vec_capacity, vec_len};
ghost use Rattle.round_workers.specs.Inner.BoardPlaces.{IsStocked};

use crate::board::places::keep;
use crate::board::room::Room;
use crate::board::view::BoardSlot;
use hex_geometry::OutOfMemory;
use round_book::Book;
use spec_record::Look;
use std::alloc::Global;
use std::mem;

// What boards are built from, kept from one to the next. So a board takes memory only for its table, and if it has more
// turns than those before. Nothing is known of its content between two boards.
#[derive(Drop)]
pub(crate) struct Stock {
    // The rooms of looks that no board has.
    pub(crate) rooms: Vec<Room<Look>>,
    // The room of the book, if no board has it.
    pub(crate) home: Option<Room<Book>>,
    // The words with which a table begins.
    pub(crate) words: Vec<u64>,
    // Room for the places of the looks of a board that is taken apart, and for the looks.
    pub(crate) places: Vec<BoardSlot>,
    pub(crate) looks: Vec<Option<Look>>,
}

impl Stock {
    // An empty stock.
    pub(crate) fn new(alloc: Global) -> Stock {
        Stock {
            rooms: Vec::new(alloc),
            home: None,
            words: Vec::new(alloc),
            places: Vec::new(alloc),
            looks: Vec::new(alloc),
        }
    }

    // Makes room for a board of this many turns.
    pub(crate) fn fill(&mut self, turns: usize) -> Result<(), OutOfMemory>
        requires { turns < 2 ^ 32 }
        ensures { OnOk result (IsStocked turns self.new) }
    {
        self.rooms.reserve(turns + 1)?;
        zeros(&mut self.words, turns + 2)?;
        bare(&mut self.places, turns)?;
        bare(&mut self.looks, turns)
    }

    // Hands out the room for the places of a board's looks, and for the looks.
    pub(crate) fn lend_room(&mut self, alloc: Global) -> (Vec<BoardSlot>, Vec<Option<Look>>)
        ensures places { result.0 ≡ self.old.places }
        ensures looks { result.1 ≡ self.old.looks }
        ensures rooms { self.new.rooms ≡ self.old.rooms }
    {
        let places = mem::replace(&mut self.places, Vec::new(alloc));
        let looks = mem::replace(&mut self.looks, Vec::new(alloc));
        (places, looks)
    }

    // Takes back what a board was built from, which is in these places.
    pub(crate) fn take_back(
        &mut self,
        home: Room<Book>,
        mut places: Vec<BoardSlot>,
        looks: Vec<Option<Look>>,
    )
        requires { vec_len self.old.rooms + vec_len places ≤ vec_capacity self.old.rooms }
    {
        keep(&mut self.rooms, &mut places);
        self.home = Some(home);
        self.places = places;
        self.looks = looks;
    }
}

// Empties a list, and makes room in it for this many.
fn bare<T: Drop>(list: &mut Vec<T>, count: usize) -> Result<(), OutOfMemory>
    ensures bare { OnOk result (list.new.items ≡ []) }
    ensures room { OnOk result (count ≤ vec_capacity list.new) }
{
    list.clear();
    list.reserve(count)?;
    Ok(())
}

// Fills a list with this many zeros.
fn zeros(list: &mut Vec<u64>, count: usize) -> Result<(), OutOfMemory>
    ensures { OnOk result (list.new.items ≡ replicate count 0) }
{
    list.clear();
    list.resize(count, 0)?;
    Ok(())
}
