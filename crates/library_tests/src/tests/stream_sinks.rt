// Sinks over writers that take as many bytes as they choose, and over the standard streams.
ghost use Rattle.std.specs.Prelude.{◌≡◌, true};

use ant_base::{ErrSink, OutSink, Sink, StreamSink, Writer};
use std::alloc::Global;
use std::io;
use std::io::{BufWriter, ErrorKind, Write};

// A writer that takes at most this many bytes at a time, until it stops.
#[derive(Drop)]
struct Slow {
    got: Vec<u8>,
    most: usize,
    stop: Stop,
    flushes: u64,
    writes: u64,
}

// How a writer stops.
#[derive(Clone, Copy)]
enum Stop {
    Never,
    TakesNothing(usize),
    Fails(usize),
    FlushFails,
    Interrupted,
}

impl Stop {
    // How many bytes there is still room for, after this many were taken.
    fn left(self, taken: usize) -> io::Result<usize> {
        match self {
            Stop::TakesNothing(room) => Ok(room.saturating_sub(taken)),
            Stop::Fails(room) if taken < room => Ok(room - taken),
            Stop::Fails(_) => Err(io::Error::from(ErrorKind::Other)),
            Stop::Never | Stop::FlushFails | Stop::Interrupted => Ok(usize::MAX),
        }
    }
}

impl Write for Slow {
    fn write(&mut self, buf: &[u8]) -> io::Result<usize> {
        self.writes = self.writes.saturating_add(1);
        if matches!(self.stop, Stop::Interrupted) && self.writes % 3 != 0 {
            return Err(io::Error::from(ErrorKind::Interrupted));
        }
        let left = self.stop.left(self.got.len())?;
        let taken = buf.len().min(self.most).min(left);
        self.got.extend_from_slice(&buf[..taken])?;
        Ok(taken)
    }

    fn flush(&mut self) -> io::Result<()> {
        if matches!(self.stop, Stop::FlushFails) {
            return Err(io::Error::from(ErrorKind::Other));
        }
        self.flushes = self.flushes.saturating_add(1);
        Ok(())
    }
}

// Such a writer, borrowed by a sink.
#[derive(Drop)]
struct Lent<'s> {
    slow: &'s mut Slow,
}

impl Write for Lent<'_> {
    fn write(&mut self, buf: &[u8]) -> io::Result<usize> {
        self.slow.write(buf)
    }

    fn flush(&mut self) -> io::Result<()> {
        self.slow.flush()
    }
}

// It doesn't report what it holds back, and isn't sure.
impl Writer for Lent<'_> {
    ghost use Rattle.std.specs.Prelude.{[], false};

    ghost waiting = { λ _. [] };

    ghost sure = { λ _. false };

    fn write_some(&mut self, piece: &[u8]) -> io::Result<usize> {
        self.write(piece)
    }

    fn flush_waiting(&mut self) -> io::Result<()> {
        self.flush()
    }
}

// A writer that drops all that it gets.
#[derive(Drop)]
struct Nowhere {}

impl Write for Nowhere {
    fn write(&mut self, buf: &[u8]) -> io::Result<usize> {
        Ok(buf.len())
    }

    fn flush(&mut self) -> io::Result<()> {
        Ok(())
    }
}

// It never fails.
impl Writer for Nowhere {
    ghost use Rattle.std.specs.Prelude.{[], true};

    ghost waiting = { λ _. [] };

    ghost sure = { λ _. true };

    fn write_some(&mut self, piece: &[u8]) -> io::Result<usize> {
        Ok(piece.len())
    }

    fn flush_waiting(&mut self) -> io::Result<()> {
        Ok(())
    }
}

// A push to a sink over it succeeds: its clause says so.
fn push_to_nowhere(sink: &mut StreamSink<Nowhere>, piece: &[u8])
    requires { sink.old.sure ≡ true }
    ensures { sink.new.sure ≡ true }
{
    match sink.push(piece) {
        Ok(()) => {}
        Err(_) => unreachable!(),
    }
}

#[test]
fn a_push_fails_only_where_the_stream_does(rt: HostRuntime) {
    let mut sink = StreamSink::new(Nowhere {});
    push_to_nowhere(&mut sink, b"");
    push_to_nowhere(&mut sink, b"a");
    push_to_nowhere(&mut sink, b"a line\n");
    assert!(rt; sink.faults() == 0);
}

// A writer that wasn't used yet.
fn slow_writer(alloc: Global, most: usize, stop: Stop) -> Slow {
    Slow {
        got: Vec::new(alloc),
        most,
        stop,
        flushes: 0,
        writes: 0,
    }
}

// Whether a new sink over a writer takes these pieces.
fn takes_all(slow: &mut Slow, pieces: &[&str]) -> bool {
    let mut sink = StreamSink::new(Lent { slow });
    for piece in pieces {
        if sink.push(piece.as_bytes()).is_err() {
            return false;
        }
    }
    true
}

// Whether a writer gets all that is pushed, and is flushed at the one piece that ends in LF.
fn gets_whole_pieces(mut slow: Slow) -> bool {
    let begun = takes_all(&mut slow, &["ab", ""]);
    let before = slow.flushes;
    let ended = takes_all(&mut slow, &["cde\n", "f\ng"]);
    begun
        && ended
        && before == 0
        && slow.flushes == 1
        && slow.got.as_slice() == b"abcde\nf\ng".as_slice()
}

#[test]
fn a_slow_writer_gets_the_whole_piece(rt: HostRuntime) {
    for most in [1, 2, 3, 100] {
        assert!(rt; gets_whole_pieces(slow_writer(rt.alloc(), most, Stop::Never)));
    }
}

#[test]
fn an_interrupted_write_is_made_again(rt: HostRuntime) {
    for most in [1, 2, 100] {
        assert!(rt; gets_whole_pieces(slow_writer(rt.alloc(), most, Stop::Interrupted)));
    }
}

// Whether a sink over a writer that stops early counts two faults.
fn has_two_faults(slow: &mut Slow) -> bool {
    let mut sink = StreamSink::new(Lent { slow });
    let first = sink.push(b"abc\n");
    let nothing = sink.push(b"");
    let last = sink.push(b"d");
    first.is_err() && nothing.is_ok() && last.is_err() && sink.faults() == 2
}

#[test]
fn a_writer_that_stops_is_a_fault(rt: HostRuntime) {
    for (room, front) in [(0, ""), (1, "a"), (2, "ab"), (3, "abc")] {
        for stop in [Stop::TakesNothing(room), Stop::Fails(room)] {
            let mut slow = slow_writer(rt.alloc(), 2, stop);
            assert!(rt; has_two_faults(&mut slow));
            assert!(rt; slow.got.as_slice() == front.as_bytes());
        }
    }
}

#[test]
fn a_flush_that_fails_is_a_fault(rt: HostRuntime) {
    let mut slow = slow_writer(rt.alloc(), 9, Stop::FlushFails);
    let mut sink = StreamSink::new(Lent { slow: &mut slow });
    assert!(rt; sink.push(b"a").is_ok());
    assert!(rt; sink.faults() == 0);
    assert!(rt; sink.push(b"b\n").is_err());
    assert!(rt; sink.faults() == 1);
}

#[test]
fn standard_output_takes_a_line(rt: HostRuntime) {
    let stream = BufWriter::new(rt.alloc(), rt.stdout()).expect(&rt, "memory");
    let mut out: OutSink = StreamSink::new(stream);
    assert!(rt; out.push(b"a line\n").is_ok());
    assert!(rt; out.faults() == 0);
}

#[test]
fn standard_error_takes_a_line(rt: HostRuntime) {
    let mut err: ErrSink = StreamSink::new(rt.stderr());
    assert!(rt; err.push(b"a line\n").is_ok());
    assert!(rt; err.faults() == 0);
}
