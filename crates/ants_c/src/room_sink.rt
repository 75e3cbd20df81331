// The caller's room, as a sink.
ghost use Rattle.std.specs.Prelude.{◌≡◌, ◌++◌, ◌<◌, ◌^◌, drop, length, take};
ghost use Rattle.ants_c.specs.Rooms.{IsLaid, overlaid};

use crate::room_log::RoomLog;
use ant_base::{Failed, Sink};

/// A sink over the caller's room (this project's own). It writes what is pushed over the room, as far as the room goes,
/// and counts all of it. No push fails. The count stays at the largest `usize`.
#[derive(Drop)]
pub struct RoomSink<'o> {
    room: &'o mut [u8],
    pushed: usize,
    log: RoomLog,
    pub ghost laid: { IsLaid room.now pushed log.bytes },
}

// Writes a piece over the front of the room, as far as the room goes.
#[tactic(auto, using(crate::proofs::Overlaid::front_laid))]
fn cover(room: &mut [u8], piece: &[u8])
    ensures { room.new ≡ overlaid room.old piece.now }
{
    let fitting = piece.len().min(room.len());
    room[..fitting].copy_from_slice(&piece[..fitting]);
}

// Writes a piece over the room from a place on, as far as the room goes.
fn cover_from(room: &mut [u8], from: usize, piece: &[u8])
    ensures laid { room.new ≡ take from room.old ++ overlaid (drop from room.old) piece.now }
    ensures short { length room.old < 2 ^ 64 }
{
    if from < room.len() {
        cover(&mut room[from..], piece);
    }
}

impl<'o> RoomSink<'o> {
    /// A sink over this room, into which nothing was pushed.
    pub fn new(room: &'o mut [u8]) -> RoomSink<'o>
        ensures same_reference { result.room.ghost_name ≡ room.entry.ghost_name }
        ensures log { result.log.bytes ≡ room.old }
    {
        let log = RoomLog::begun(room);
        RoomSink {
            room,
            pushed: 0,
            log,
        }
    }

    /// What the room held, followed by all that was pushed.
    pub(crate) fn log(&self) -> RoomLog
        ensures { result.bytes ≡ self.now.log.bytes }
    {
        self.log.copy()
    }

    /// How many bytes were pushed.
    pub fn pushed(&self) -> usize
        ensures { result ≡ self.now.pushed }
    {
        self.pushed
    }
}

impl Sink for RoomSink<'_> {
    ghost use Rattle.ants_c.specs.RoomSinks.{sink_of_room};

    ghost state = { sink_of_room };

    fn push(&mut self, piece: &[u8]) -> Result<(), Failed> {
        cover_from(self.room, self.pushed, piece);
        self.pushed = self.pushed.saturating_add(piece.len());
        self.log.note(piece);
        Ok(())
    }
}
