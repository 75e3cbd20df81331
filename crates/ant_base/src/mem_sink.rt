// A sink in memory.
ghost use Rattle.std.specs.Prelude.{◌≡◌, ◌++◌, [], take, is_ok, IfOk, if◌then◌else◌};
ghost use Rattle.ant_base.specs.Faults.{one_more};
ghost use Rattle.ant_base.specs.Sink.{Pushed};
ghost use Rattle.ant_base.specs.MemSink.{takes_whole, bytes_taken, sink_of};

use crate::{Calls, Failed, OutOfMemory, Sink};
use std::alloc::Global;
use std::marker::Model;

/// A sink in memory with a fixed room, with calls that fail by their number.
///
/// Contracts see its bytes. The counts of calls and of faults stay at the largest `u64`.
#[derive(Drop)]
pub struct MemSink {
    bytes: Vec<u8>,
    room: u64,
    failing: Calls,
    calls: u64,
    faults: u64,
}

impl Model for MemSink {
    ghost use Rattle.std.specs.Prelude.{◌≤◌, vec_len, vec_capacity};
    ghost use Rattle.ant_base.specs.MemSink.{MemSinkState};

    ghost Value = { MemSinkState };

    ghost view = { λ s. record { held = s.bytes.items; room = s.room; failing = s.failing.numbers; calls = s.calls; faults = s.faults } };

    ghost invariant = { λ s. (vec_len s.bytes ≤ s.room) × (s.room ≤ vec_capacity s.bytes) };
}

impl MemSink {
    /// An empty sink with room for `room` bytes. The pushes with the given numbers fail; the first push has the number
    /// 1. The call fails if there is no memory for the room.
    pub fn with_room(alloc: Global, room: u64, failing: Calls) -> Result<Self, OutOfMemory>
        ensures { IfOk result (λ s. s ≡ record { held = []; room = room; failing = failing.numbers; calls = 0; faults = 0 }) }
    {
        Ok(MemSink {
            bytes: Vec::with_capacity(alloc, room as usize)?,
            room,
            failing,
            calls: 0,
            faults: 0,
        })
    }

    /// The bytes held, in the order in which they were pushed.
    pub fn held(&self) -> &[u8]
        ensures { result.now ≡ self.now.held }
    {
        &self.bytes
    }

    // Counts a fault.
    fn fault(&mut self) -> Failed
        ensures { self.new ≡ record self.old { faults = one_more self.old.faults } }
    {
        self.faults = self.faults.saturating_add(1);
        Failed
    }
}

impl Sink for MemSink {
    ghost state = { sink_of };

    fn push(&mut self, piece: &[u8]) -> Result<(), Failed>
        ensures sink { Pushed (sink_of self.old) (sink_of self.new) piece.now result }
        // It fails exactly if its number is one of the failing ones or the piece doesn't fit.
        ensures answer { is_ok result ≡ takes_whole self.old piece.now }
        ensures held { self.new.held ≡ self.old.held ++ take (bytes_taken self.old piece.now) piece.now }
        ensures faults { self.new.faults ≡ (if takes_whole self.old piece.now then self.old.faults else one_more self.old.faults) }
        ensures calls { self.new.calls ≡ one_more self.old.calls }
        ensures room { self.new.room ≡ self.old.room }
        ensures failing { self.new.failing ≡ self.old.failing }
    {
        self.calls = self.calls.saturating_add(1);
        if self.failing.has(self.calls) {
            return Err(self.fault());
        }
        let fitting = piece.len().min(self.room as usize - self.bytes.len());
        self.bytes.extend_from_slice(&piece[..fitting]).unwrap();
        if fitting < piece.len() {
            return Err(self.fault());
        }
        Ok(())
    }
}
