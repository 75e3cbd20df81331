// Rooms on the heap for the book and the looks of a board.
ghost use Rattle.std.specs.Prelude.{◌≡◌, ◌+◌, ◌<◌, ◌^◌, IfOk, Some, None};
ghost use Rattle.cell_world.specs.Grid.{world_of};
ghost use Rattle.spec_record.specs.Look.{look_of};

use ant_random::Stream;
use hex_geometry::OutOfMemory;
use round_book::Field;
use spec_record::{Look, look_by};
use std::alloc::Global;
use std::marker::Model;

/// A room for one value, with the value or without it. Passing it on doesn't move the value.
#[derive(Drop)]
pub struct Room<T> {
    pub(crate) content: Box<Option<T>>,
}

impl<T> Model for Room<T> {
    ghost use Rattle.std.specs.Prelude.{Option};

    ghost Value = { Option T };

    ghost view = { λ room. room.content.value };
}

impl<T: Drop> Room<T> {
    // A room without a value.
    pub(crate) fn new(alloc: Global) -> Result<Room<T>, OutOfMemory>
        ensures { IfOk result (λ room. room ≡ None) }
    {
        let Ok(content) = Box::new(alloc, None) else {
            return Err(OutOfMemory);
        };
        Ok(Room { content })
    }

    // Puts a value into the room, and drops what was there.
    #[inline]
    pub(crate) fn put(&mut self, value: T)
        ensures { self.new ≡ Some value }
    {
        *self.content = Some(value);
    }

    // Takes out what is in the room.
    #[inline]
    pub(crate) fn take(&mut self) -> Option<T>
        ensures value { result ≡ self.old }
        ensures room { self.new ≡ None }
    {
        self.content.take()
    }
}

impl<T> Room<T> {
    // What is in the room.
    #[inline]
    pub(crate) fn content(&self) -> &Option<T>
        ensures { result.now ≡ self.now }
    {
        &self.content
    }
}

impl Room<Look> {
    // Makes the look at a turn of the field's world in the room, with its random number guessed at the place of a
    // stream.
    #[inline]
    pub(crate) fn look_at(&mut self, field: &Field<'_>, stream: &mut Stream, id: u32)
        requires id { id < field.now.world.ids }
        requires place { stream.old.place + 1 < 2 ^ 63 }
        ensures look { self.new ≡ Some (look_of field.now.minds stream.old.seed (world_of field.now.world) stream.old.place id) }
        ensures seed { stream.new.seed ≡ stream.old.seed }
    {
        renew(&mut self.content, field, stream, id);
    }
}

// The same in the room of an old look, if there is one.
#[inline]
fn renew(content: &mut Option<Look>, field: &Field<'_>, stream: &mut Stream, id: u32)
    requires id { id < field.now.world.ids }
    requires place { stream.old.place + 1 < 2 ^ 63 }
    ensures look { content.new ≡ Some (look_of field.now.minds stream.old.seed (world_of field.now.world) stream.old.place id) }
    ensures seed { stream.new.seed ≡ stream.old.seed }
{
    match content {
        Some(look) => look.renew(field.world(), field.brains(), stream, id),
        None => *content = Some(look_by(field.world(), field.brains(), stream, id)),
    }
}
