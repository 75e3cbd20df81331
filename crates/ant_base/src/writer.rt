// Writers that may buffer what they took.
ghost use Rattle.std.specs.Prelude.{◌≡◌, ◌≢◌, [], List, ℕ, Bool, true, false, IsOk, OnOk};
ghost use Rattle.std.specs.Io.{WritesAtMost};
ghost use Rattle.std.specs.Io.KnownBytes.{Keeps, WriteAppends};
ghost use Rattle.ant_base.specs.Streams.{TakesSome};

use std::io::{self, BufWriter, Stderr, Write};

/// A writer that may buffer some of what it took.
pub trait Writer: Write {
    /// The bytes that wait in the writer's buffer, in order.
    ghost waiting: { Self → List ℕ };

    /// Whether no write and no flush of this writer fails. It is true for no stream of the system.
    ghost sure: { Self → Bool };

    /// Takes a prefix of the piece and returns its length in bytes, as `Write::write` does. The clauses say what a
    /// writer that is sure returns.
    fn write_some(&mut self, piece: &[u8]) -> io::Result<usize>
        ensures bound { WritesAtMost result piece.now }
        ensures taken { WriteAppends (Self.contents self.old) (Self.contents self.new) result piece.now }
        ensures sure { sure self.old ≡ true → piece.now ≢ [] → TakesSome result × (sure self.new ≡ true) };

    /// Flushes the bytes that wait.
    fn flush_waiting(&mut self) -> io::Result<()>
        ensures kept { Keeps (Self.contents self.old) (Self.contents self.new) }
        ensures sent { OnOk result (waiting self.new ≡ []) }
        ensures sure { sure self.old ≡ true → IsOk result × (sure self.new ≡ true) };
}

impl<W: Write + Drop> Writer for BufWriter<W> {
    ghost use Rattle.std.specs.Io.Buffered.{writer_buffer};

    ghost waiting = { writer_buffer };

    ghost sure = { λ _. false };

    fn write_some(&mut self, piece: &[u8]) -> io::Result<usize> {
        self.write(piece)
    }

    fn flush_waiting(&mut self) -> io::Result<()> {
        self.flush()
    }
}

// It has no buffer.
impl Writer for Stderr {
    ghost waiting = { λ _. [] };

    ghost sure = { λ _. false };

    fn write_some(&mut self, piece: &[u8]) -> io::Result<usize> {
        self.write(piece)
    }

    fn flush_waiting(&mut self) -> io::Result<()> {
        self.flush()
    }
}
