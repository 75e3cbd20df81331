// Sinks over the writers of std.
ghost use Rattle.std.specs.Prelude.{◌≡◌, [], is_ok, if◌then◌else◌, IsOk, OnOk, true};
ghost use Rattle.std.specs.Io.KnownBytes.{Keeps};
ghost use Rattle.ant_base.specs.Faults.{one_more};
ghost use Rattle.ant_base.specs.Lines.{ends_in_lf};
ghost use Rattle.ant_base.specs.Inner.Answered.{taken_of};
ghost use Rattle.ant_base.specs.Sink.{Pushed};
ghost use Rattle.ant_base.specs.Streams.{IsFlushedByLines, Takes, sink_of_stream};

use crate::system_log::SystemLog;
use crate::{Failed, Sink, Writer};
use std::io::{self, BufWriter, ErrorKind, Stderr, Stdout};
use std::marker::Model;

/// A sink over a stream. It reports the bytes that the stream took.
///
/// It writes in a loop. A write that was interrupted is tried again. After each piece that ends in LF the stream is
/// flushed. A write that takes no bytes is a fault, and so is a flush that fails. Over a stream that never fails, no
/// push fails. The count of faults rises by one at each push that returns `Failed` and at no other, and stays at the
/// largest `u64`. So if it is 0, and the bytes that the stream took are empty or end in LF, nothing waits in the
/// stream's buffer.
#[derive(Drop)]
pub struct StreamSink<W: Writer> {
    stream: W,
    faults: u64,
    system_log: SystemLog,
}

/// A sink on standard output. It is flushed after each piece that ends in LF.
pub type OutSink = StreamSink<BufWriter<Stdout>>;

/// A sink on standard error.
pub type ErrSink = StreamSink<Stderr>;

impl<W: Writer> Model for StreamSink<W> {
    ghost use Rattle.ant_base.specs.Streams.{IsFlushedByLines, StreamState};

    ghost Value = { StreamState };

    ghost view = { λ s. record { taken = s.system_log.bytes; waiting = W.waiting s.stream; written = W.contents s.stream; faults = s.faults; sure = W.sure s.stream } };

    ghost invariant = { λ s. IsFlushedByLines s.faults s.system_log.bytes (W.waiting s.stream) };
}

impl<W: Writer> StreamSink<W> {
    /// A sink over this stream, which took nothing yet and in which nothing waits, with a count of 0 faults.
    pub fn new(stream: W) -> Self
        requires { W.waiting stream ≡ [] }
        ensures { result ≡ record { taken = []; waiting = W.waiting stream; written = W.contents stream; faults = 0; sure = W.sure stream } }
    {
        StreamSink {
            stream,
            faults: 0,
            system_log: SystemLog::new(),
        }
    }

    /// The count of faults, from 0. If it is 0, all that the stream took up to the end of a line was flushed.
    pub fn faults(&self) -> u64
        ensures count { result ≡ self.now.faults }
        ensures flushed { IsFlushedByLines self.now.faults self.now.taken self.now.waiting }
    {
        self.faults
    }
}

impl<W: Writer> Sink for StreamSink<W> {
    ghost state = { sink_of_stream };

    fn push(&mut self, piece: &[u8]) -> Result<(), Failed>
        ensures sink { Pushed (sink_of_stream self.old) (sink_of_stream self.new) piece.now result }
        ensures count { self.new.faults ≡ (if is_ok result then self.old.faults else one_more self.old.faults) }
        // The stream took the bytes, and what the stream itself reports agrees.
        ensures taken { Takes self.old.taken self.new.taken self.old.written self.new.written piece.now result }
        // After the end of a line nothing waits.
        ensures sent { OnOk result (ends_in_lf piece.now ≡ true → self.new.waiting ≡ []) }
        // It fails only if the stream does.
        ensures sure { self.old.sure ≡ true → IsOk result × (self.new.sure ≡ true) }
    {
        if piece.is_empty() {
            return Ok(());
        }
        let written = write_whole(&mut self.stream, &mut self.system_log, piece);
        if written.is_err() {
            self.faults = self.faults.saturating_add(1);
        }
        written
    }
}

// Writes the whole piece, and flushes the stream if the piece ends in LF.
fn write_whole<W: Writer>(
    stream: &mut W,
    system_log: &mut SystemLog,
    piece: &[u8],
) -> Result<(), Failed>
    ensures taken { Takes system_log.old.bytes system_log.new.bytes (W.contents stream.old) (W.contents stream.new) piece.now result }
    ensures sent { OnOk result (ends_in_lf piece.now ≡ true → W.waiting stream.new ≡ []) }
    ensures sure { W.sure stream.old ≡ true → IsOk result × (W.sure stream.new ≡ true) }
{
    let mut rest = piece;
    // The same number of turns as std's own loops: no clause says how often a write is interrupted.
    for _turn in 0..u64::MAX {
        if rest.is_empty() {
            return flush_line(stream, piece);
        }
        let taken = taken_by(stream.write_some(rest))?;
        system_log.note_bytes(&rest[..taken]);
        rest = &rest[taken..];
    }
    Err(Failed)
}

// How many bytes a write took. An interrupted write took none and is not a fault. A write that returns 0 is a fault.
fn taken_by(answer: io::Result<usize>) -> Result<usize, Failed>
    ensures { result ≡ taken_of answer }
{
    match answer {
        Ok(0) => Err(Failed),
        Ok(taken) => Ok(taken),
        Err(error) => match error.kind() {
            ErrorKind::Interrupted => Ok(0),
            _ => Err(Failed),
        },
    }
}

// Flushes the stream if the piece ends in LF.
fn flush_line<W: Writer>(stream: &mut W, piece: &[u8]) -> Result<(), Failed>
    ensures kept { Keeps (W.contents stream.old) (W.contents stream.new) }
    ensures sent { OnOk result (ends_in_lf piece.now ≡ true → W.waiting stream.new ≡ []) }
    ensures sure { W.sure stream.old ≡ true → IsOk result × (W.sure stream.new ≡ true) }
{
    if piece.is_empty() || piece[piece.len() - 1] != b'\n' {
        return Ok(());
    }
    match stream.flush_waiting() {
        Ok(()) => Ok(()),
        Err(_) => Err(Failed),
    }
}
