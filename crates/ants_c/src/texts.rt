// Texts that are written over the caller's room.
ghost use Rattle.std.specs.Prelude.{◌≡◌};
ghost use Rattle.ants_c.specs.Rooms.{IsPut, Writes, counted, overlaid, room_status};

use crate::room_sink::RoomSink;
use crate::status::{DONE, NO_ROOM};
use ant_base::Layout;

/// Writes the text of a value over the room, as far as the room goes, and returns how many bytes it has.
pub fn lay<L: Layout>(value: &L, room: &mut [u8]) -> usize
    ensures room { room.new ≡ overlaid room.old (L.text value.now) }
    ensures size { result ≡ counted (L.text value.now) }
{
    let mut sink = RoomSink::new(room);
    let _ = value.push_to(&mut sink);
    sink.pushed()
}

/// The status of a text of this many bytes that was written over the room.
pub fn status_of(size: usize, room: &[u8]) -> u32
    ensures status { result ≡ room_status size room.now }
    ensures either { Writes result }
{
    if size <= room.len() { DONE } else { NO_ROOM }
}

/// Writes the text of a value over the caller's room and its length into `used`, and returns the status.
pub fn put<L: Layout>(value: &L, out: &mut [u8], used: &mut usize) -> u32
    ensures put { IsPut (L.text value.now) out.old out.new used.new result }
    ensures status { Writes result }
{
    *used = lay(value, out);
    status_of(*used, out)
}
