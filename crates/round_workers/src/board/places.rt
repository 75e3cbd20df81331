// What is in a place.
ghost use Rattle.std.specs.Prelude.{◌≡◌, ◌≢◌, ◌+◌, ◌≤◌, Some, None, MatchOption};
ghost use Rattle.std.specs.Vec.{vec_capacity, vec_len};
ghost use Rattle.round_workers.specs.Inner.BoardPlaces.{book_room, look_in, look_room};

use crate::board::room::Room;
use crate::board::view::BoardSlot;
use round_book::Book;
use spec_record::Look;

// The room of a look that is in a place.
#[inline]
pub(crate) fn look_room(place: BoardSlot) -> Room<Look>
    requires { look_room place ≢ None }
    ensures { look_room place ≡ Some result }
{
    match place {
        BoardSlot::Spare(room) => room,
        BoardSlot::OneLook(room) => room,
        BoardSlot::TheBook(_room) => unreachable!(),
        BoardSlot::Nothing => unreachable!(),
    }
}

// The room of the book that is in a place.
#[inline]
pub(crate) fn book_room(place: BoardSlot) -> Room<Book>
    requires { book_room place ≢ None }
    ensures { book_room place ≡ Some result }
{
    match place {
        BoardSlot::TheBook(room) => room,
        BoardSlot::Spare(_room) => unreachable!(),
        BoardSlot::OneLook(_room) => unreachable!(),
        BoardSlot::Nothing => unreachable!(),
    }
}

// The room of a look that is in a place, if there is one.
#[inline]
fn room_of(place: BoardSlot) -> Option<Room<Look>> {
    match place {
        BoardSlot::Spare(room) => Some(room),
        BoardSlot::OneLook(room) => Some(room),
        BoardSlot::TheBook(_room) => None,
        BoardSlot::Nothing => None,
    }
}

// Takes the rooms of looks out of these places, and keeps them, in the memory that their list has.
pub(crate) fn keep(rooms: &mut Vec<Room<Look>>, places: &mut Vec<BoardSlot>)
    requires { vec_len rooms.old + vec_len places.old ≤ vec_capacity rooms.old }
{
    while let Some(place) = places.pop() {
        if let Some(room) = room_of(place) {
            rooms.push_reserved(room);
        }
    }
}

// The look in a place, if one waits there.
#[inline]
pub(crate) fn look_in(place: &BoardSlot) -> Option<&Look>
    ensures { MatchOption result (look_in place.now ≡ None) (λ look. look_in place.now ≡ Some look.now) }
{
    match place {
        BoardSlot::OneLook(room) => match room.content() {
            Some(look) => Some(look),
            None => None,
        },
        BoardSlot::Spare(_room) => None,
        BoardSlot::TheBook(_room) => None,
        BoardSlot::Nothing => None,
    }
}

// Takes the look out of a place, if one waits there.
#[inline]
pub(crate) fn look_out_of(place: BoardSlot) -> Option<Look>
    ensures { result ≡ look_in place }
{
    match place {
        BoardSlot::OneLook(mut room) => room.take(),
        BoardSlot::Spare(_room) => None,
        BoardSlot::TheBook(_room) => None,
        BoardSlot::Nothing => None,
    }
}
