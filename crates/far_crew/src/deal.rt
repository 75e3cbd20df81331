// Jobs for the workers of a window.
ghost use Rattle.std.specs.Prelude.{◌-◌, ◌<◌, ◌≤◌};
ghost use Rattle.far_crew.specs.Inner.Copies.{AreCopiesOf};
ghost use Rattle.far_crew.specs.Inner.Turns.{AreTurnsOf, CanLookAt};

use crate::channels::WorkerChannels;
use crate::guesses::GuessedTurns;
use crate::job::Job;
use crate::kept::Copies;
use hex_geometry::OutOfMemory;
use round_book::Field;
use spec_record::Look;
use std::alloc::Global;
use work_share::border;

// The most workers among which a window is shared out.
const MOST_WORKERS: usize = 16;

// Some of the turns of a window, numbered from 0: from the first up to, but not including, the last.
#[derive(Clone, Copy)]
pub struct Piece {
    pub first: usize,
    pub last: usize,
}

// Makes a job ready for each open line: the turns are shared out in contiguous pieces.
pub fn prepare_all(
    alloc: Global,
    lines: &mut [WorkerChannels],
    field: &Field<'_>,
    copies: &Copies,
    turns: &GuessedTurns<'_>,
) -> Result<(), OutOfMemory>
    requires copies { AreCopiesOf field.now copies.now }
    requires turns { AreTurnsOf field.now turns.now }
{
    let workers = open_lines(lines).min(MOST_WORKERS);
    let mut worker = 0;
    for line in lines {
        if line.is_open() && worker < workers {
            let room = line.take_room(alloc);
            let piece = piece_of(turns, workers, worker);
            line.prepare(job_of(alloc, field, copies, turns, piece, room)?);
            worker += 1;
        }
    }
    Ok(())
}

// How many lines are open.
fn open_lines(lines: &[WorkerChannels]) -> usize {
    lines.iter().filter(|line| line.is_open()).count()
}

// The piece of this worker among this many.
fn piece_of(turns: &GuessedTurns<'_>, workers: usize, worker: usize) -> Piece
    requires forwards { turns.now.from ≤ turns.now.to }
    requires few { workers ≤ 16 }
    requires worker { worker < workers }
    ensures forwards { result.first ≤ result.last }
    ensures within { result.last ≤ turns.now.to - turns.now.from }
{
    let turns = (turns.to - turns.from) as usize;
    let first = border(workers, turns, worker);
    let last = border(workers, turns, worker + 1);
    Piece { first, last }
}

// The job of the turns of a piece.
#[tactic(auto, using(crate::proofs::JobLemmas::all_between))]
pub fn job_of(
    alloc: Global,
    field: &Field<'_>,
    copies: &Copies,
    turns: &GuessedTurns<'_>,
    piece: Piece,
    room: Vec<Look>,
) -> Result<Job, OutOfMemory>
    requires copies { AreCopiesOf field.now copies.now }
    requires turns { CanLookAt field.now.world turns.now }
    requires forwards { piece.first ≤ piece.last }
    requires within { piece.last ≤ turns.now.to - turns.now.from }
{
    // Called for its clause: an ant's id is a machine number.
    let _ids = field.world().ant_count();
    let Piece { first, last } = piece;
    let turns = GuessedTurns {
        from: turns.from + first as u32,
        to: turns.from + last as u32,
        guesses: &turns.guesses[first..last],
    };
    Job::in_room(alloc, field, copies.share()?, &turns, room)
}
