// Runs by any number of workers. Looks that workers make at the same time, each of them once.
ghost use Rattle.std.specs.Prelude.{◌≡◌, true};
ghost use Rattle.round_workers.specs.Crews.{IsCrewSize};

use crate::commands::games::{Players, killing_field, killing_players};
use crate::commands::runs::{KILLED, KILLING, KILLING_ROUND};
use crate::commands::saves::STANDING;
use crate::commands::{Given, Job, NO_JOB, answer_over, check_by, done, files_of};
use ant_base::{Gate, NoGate};
use ant_commands::Status;
use round_book::Field;
use round_workers::{BoardCrew, PieceCrew};
use std::alloc::Global;
use std::hint::spin_loop;
use std::process::Abort;
use std::sync::Wait;
use std::sync::atomic::{AtomicBool, AtomicU32, Ordering};
use std::test::Fail;
use std::thread::Threads;

// The number of turns after which a worker that waits for another one gives up.
const PATIENCE: u32 = 100_000_000;

// Workers whose first looks wait for each other, each as long as its patience lasts. It has which of them have begun,
// whether one waited in vain or was not among them, and how often each turn was announced.
#[derive(Drop)]
struct Meeting {
    begun: Vec<AtomicBool>,
    missed: AtomicBool,
    announced: Vec<AtomicU32>,
}

impl Meeting {
    // A meeting of this many workers, before any of them has called, for a round of this many turns.
    fn of(alloc: Global, workers: usize, turns: usize) -> Result<Meeting, Fail> {
        Ok(Meeting {
            begun: nobody(alloc, workers)?,
            missed: AtomicBool::new(false),
            announced: nothing(alloc, turns)?,
        })
    }

    // Asserts that all workers met, that each turn from this one on was announced once, and that no other turn was.
    fn check<R: Abort>(&self, rt: &R, from: usize) {
        assert!(rt;
            !self.missed.load(Ordering::SeqCst),
            "a worker waited in vain"
        );
        for (turn, count) in self.announced.iter().enumerate() {
            check_announced(rt, turn, count, u32::from(turn >= from));
        }
    }
}

// Asserts how often a turn was announced.
fn check_announced<R: Abort>(rt: &R, turn: usize, count: &AtomicU32, wanted: u32) {
    assert_eq!(rt; count.load(Ordering::SeqCst), wanted, "turn {turn}");
}

// This many workers that haven't begun.
fn nobody(alloc: Global, workers: usize) -> Result<Vec<AtomicBool>, Fail> {
    let mut begun = Vec::new(alloc);
    for _ in 0..workers {
        begun.push(AtomicBool::new(false))?;
    }
    Ok(begun)
}

// This many turns that weren't announced.
fn nothing(alloc: Global, turns: usize) -> Result<Vec<AtomicU32>, Fail> {
    let mut announced = Vec::new(alloc);
    for _ in 0..turns {
        announced.push(AtomicU32::new(0))?;
    }
    Ok(announced)
}

impl Gate for Meeting {
    fn before_look(&self, worker: u32, ticket: u32) {
        let met = match self.begun.get(worker as usize) {
            Some(own) => meets(own, &self.begun),
            None => false,
        };
        match self.announced.get(ticket as usize) {
            Some(count) if met => {
                count.fetch_add(1, Ordering::SeqCst);
            }
            _ => self.missed.store(true, Ordering::SeqCst),
        }
    }
}

// Announces that one worker has begun, and returns whether all begin within its patience.
fn meets(own: &AtomicBool, all: &[AtomicBool]) -> bool {
    own.store(true, Ordering::SeqCst);
    for other in all {
        if !begins(other) {
            return false;
        }
    }
    true
}

// Whether a worker begins before another one's patience ends.
fn begins(worker: &AtomicBool) -> bool {
    for _ in 0..PATIENCE {
        if worker.load(Ordering::SeqCst) {
            return true;
        }
        spin_loop();
    }
    false
}

// Words of the round in which a surrounded ant dies, and its counts.
const COUNTED: [(&str, &str); 9] = [
    (
        "run w r b --seed 12345 --rounds 1 --dump 1 --stats --workers 1",
        "turns 7 taken 5 redone 2\n",
    ),
    (
        "run w r b --seed 12345 --rounds 1 --dump 1 --stats --workers 2",
        "turns 7 taken 5 redone 2\n",
    ),
    (
        "run w r b --seed 12345 --rounds 1 --dump 1 --stats --workers 7",
        "turns 7 taken 5 redone 2\n",
    ),
    (
        "run w r b --seed 12345 --rounds 1 --dump 1 --stats --workers 16",
        "turns 7 taken 5 redone 2\n",
    ),
    (
        "run w r b --workers 2 --window 1 --seed 12345 --rounds 1 --dump 1 --stats",
        "turns 7 taken 7 redone 0\n",
    ),
    (
        "run w r b --seed 12345 --rounds 1 --dump 1 --stats --far",
        "turns 7 taken 5 redone 2\n",
    ),
    (
        "run w r b --seed 12345 --rounds 1 --dump 1 --stats --workers 3 --far",
        "turns 7 taken 5 redone 2\n",
    ),
    (
        "run w r b --far --seed 12345 --rounds 1 --dump 1 --stats --workers 16 --window 1",
        "turns 7 taken 7 redone 0\n",
    ),
    (
        "run w r b --seed 12345 --rounds 1 --dump 1 --far --workers 2",
        "",
    ),
];

// Asserts what is written for the round in which a surrounded ant dies, with these words, by workers that call this
// gate.
fn check_killing<R: Threads + Wait + Sync + Abort, G: Gate>(
    rt: &R,
    alloc: Global,
    line: &str,
    gate: &G,
    counts: &str,
) -> Result<(), Fail> {
    let whole = format!(in alloc; "{KILLED}{counts}")?;
    let job = KILLING_ROUND.with(Given::Line, line);
    check_by(rt, alloc, &job, gate, done(&whole))
}

// Asserts what is written for the same round with the words of each row.
fn check_workers<R: Threads + Wait + Sync + Abort>(
    rt: &R,
    alloc: Global,
    rows: &[(&str, &str)],
) -> Result<(), Fail> {
    for (line, counts) in rows {
        check_killing(rt, alloc, line, &NoGate, counts)?;
    }
    Ok(())
}

#[test]
fn any_number_of_workers_writes_the_same_bytes(rt: HostRuntime) -> Result<(), Fail> {
    check_workers(&rt, rt.alloc(), &COUNTED)
}

// How many turns the round has in which a surrounded ant dies.
const TURNS: usize = 7;

// A window of the round by a crew: the number of workers, the first turn, and the result. The result is the counts, the
// turns that the crew says it played, and the place after the window.
#[derive(Clone, Copy, Debug, PartialEq, Eq)]
struct Window {
    workers: u32,
    from: u32,
    taken: u32,
    redone: u32,
    turns: u64,
    place: u64,
}

// The whole round by two workers and by three, and its turns from 3 on.
const WINDOWS: [Window; 3] = [
    Window {
        workers: 2,
        from: 0,
        taken: 5,
        redone: 2,
        turns: 7,
        place: 1,
    },
    Window {
        workers: 3,
        from: 0,
        taken: 5,
        redone: 2,
        turns: 7,
        place: 1,
    },
    Window {
        workers: 3,
        from: 3,
        taken: 4,
        redone: 0,
        turns: 4,
        place: 1,
    },
];

// Plays the turns of a field from one on, by a crew of this many workers whose looks are made in pieces.
fn window_in_pieces<R: Threads + Sync, G: Gate>(
    rt: &R,
    alloc: Global,
    field: &mut Field<'_>,
    workers: u32,
    from: u32,
    gate: &G,
) -> Result<Window, Fail>
    requires workers { IsCrewSize workers }
    requires whole { field.old.whole ≡ true }
    requires first { field.old.place ≡ 0 }
{
    let ids = field.world().ant_count();
    let from = ids.min(from);
    let mut crew = PieceCrew::new(rt, workers, gate);
    let counts = crew.window(alloc, field, from, ids)?;
    Ok(Window {
        workers,
        from,
        taken: counts.taken(),
        redone: counts.redone(),
        turns: crew.turns(),
        place: field.place(),
    })
}

// The same by a crew with a board.
fn window_on_board<R: Threads + Sync, G: Gate>(
    rt: &R,
    alloc: Global,
    field: &mut Field<'_>,
    workers: u32,
    from: u32,
    gate: &G,
) -> Result<Window, Fail>
    requires workers { IsCrewSize workers }
    requires whole { field.old.whole ≡ true }
    requires first { field.old.place ≡ 0 }
{
    let ids = field.world().ant_count();
    let from = ids.min(from);
    let mut crew = BoardCrew::new(rt, workers, gate);
    let counts = crew.window(alloc, field, from, ids)?;
    Ok(Window {
        workers,
        from,
        taken: counts.taken(),
        redone: counts.redone(),
        turns: crew.turns(),
        place: field.place(),
    })
}

// Asserts the result of a window whose workers met and announced each of its turns once.
fn check_window<R: Abort>(rt: &R, meeting: &Meeting, window: Window, wanted: &Window) {
    assert_eq!(rt; window, *wanted);
    meeting.check(rt, wanted.from as usize);
}

// Asserts the result of a window of a field by a crew of pieces, whose workers meet and announce each of its turns
// once.
fn check_field_in_pieces<R: Threads + Sync + Abort>(
    rt: &R,
    alloc: Global,
    field: &mut Field<'_>,
    wanted: &Window,
) -> Result<(), Fail>
    requires whole { field.old.whole ≡ true }
    requires first { field.old.place ≡ 0 }
{
    let workers = wanted.workers;
    assert!(rt; 1 <= workers && workers <= 16);
    let meeting = Meeting::of(alloc, workers as usize, TURNS)?;
    let window = window_in_pieces(rt, alloc, field, workers, wanted.from, &meeting)?;
    check_window(rt, &meeting, window, wanted);
    Ok(())
}

// The same by a crew with a board.
fn check_field_on_board<R: Threads + Sync + Abort>(
    rt: &R,
    alloc: Global,
    field: &mut Field<'_>,
    wanted: &Window,
) -> Result<(), Fail>
    requires whole { field.old.whole ≡ true }
    requires first { field.old.place ≡ 0 }
{
    let workers = wanted.workers;
    assert!(rt; 1 <= workers && workers <= 16);
    let meeting = Meeting::of(alloc, workers as usize, TURNS)?;
    let window = window_on_board(rt, alloc, field, workers, wanted.from, &meeting)?;
    check_window(rt, &meeting, window, wanted);
    Ok(())
}

// Asserts the result of a window by a crew of pieces, in the round in which a surrounded ant dies.
fn check_pieces<R: Threads + Sync + Abort>(
    rt: &R,
    alloc: Global,
    players: &Players,
    wanted: &Window,
) -> Result<(), Fail> {
    let mut field = killing_field(rt, alloc, players)?;
    check_field_in_pieces(rt, alloc, &mut field, wanted)
}

// The same for a crew with a board.
fn check_board<R: Threads + Sync + Abort>(
    rt: &R,
    alloc: Global,
    players: &Players,
    wanted: &Window,
) -> Result<(), Fail> {
    let mut field = killing_field(rt, alloc, players)?;
    check_field_on_board(rt, alloc, &mut field, wanted)
}

// Asserts the result of each window by both crews.
fn check_each<R: Threads + Sync + Abort>(
    rt: &R,
    alloc: Global,
    players: &Players,
    windows: &[Window],
) -> Result<(), Fail> {
    for window in windows {
        check_pieces(rt, alloc, players, window)?;
        check_board(rt, alloc, players, window)?;
    }
    Ok(())
}

// Asserts the result of each window by both crews, in the round in which a surrounded ant dies.
fn check_windows<R: Threads + Sync + Abort>(
    rt: &R,
    alloc: Global,
    windows: &[Window],
) -> Result<(), Fail> {
    let players = killing_players(rt, alloc)?;
    check_each(rt, alloc, &players, windows)
}

#[test]
fn crews_of_two_and_three_look_at_the_same_time(rt: HostRuntime) -> Result<(), Fail> {
    check_windows(&rt, rt.alloc(), &WINDOWS)
}

// Who announced each turn of the round: one more than the worker's number, or 0 if no worker did.
#[derive(Drop)]
struct Announcers {
    by: Vec<AtomicU32>,
}

impl Gate for Announcers {
    fn before_look(&self, worker: u32, ticket: u32) {
        if let Some(by) = self.by.get(ticket as usize) {
            by.store(worker.saturating_add(1), Ordering::SeqCst);
        }
    }
}

// Windows in pieces: for how many workers, from which turn on, and who announces each turn. There are n turns and W
// workers. Worker k has the turns from k * n / W up to, and not including, (k + 1) * n / W.
const PIECES: [(u32, u32, [u32; TURNS]); 3] = [
    (2, 0, [1, 1, 1, 2, 2, 2, 2]),
    (3, 0, [1, 1, 2, 2, 3, 3, 3]),
    (3, 3, [0, 0, 0, 1, 2, 3, 3]),
];

// Asserts who announced each turn.
fn check_announcers<R: Abort>(rt: &R, announced: &[AtomicU32], wanted: &[u32]) {
    for (by, number) in announced.iter().zip(wanted) {
        assert_eq!(rt; by.load(Ordering::SeqCst), *number);
    }
}

// Asserts who announces each turn of a window of a field, in pieces for this number of workers.
fn check_pieces_of<R: Threads + Sync + Abort>(
    rt: &R,
    alloc: Global,
    field: &mut Field<'_>,
    workers: u32,
    from: u32,
    wanted: &[u32],
) -> Result<(), Fail>
    requires whole { field.old.whole ≡ true }
    requires first { field.old.place ≡ 0 }
{
    assert!(rt; 1 <= workers && workers <= 16);
    let announcers = Announcers {
        by: nothing(alloc, TURNS)?,
    };
    let window = window_in_pieces(rt, alloc, field, workers, from, &announcers)?;
    assert_eq!(rt; window.workers, workers);
    check_announcers(rt, &announcers.by, wanted);
    Ok(())
}

// Asserts the same for a window of the round in which a surrounded ant dies.
fn check_announced_by<R: Threads + Sync + Abort>(
    rt: &R,
    alloc: Global,
    players: &Players,
    workers: u32,
    from: u32,
    wanted: &[u32],
) -> Result<(), Fail> {
    let mut field = killing_field(rt, alloc, players)?;
    check_pieces_of(rt, alloc, &mut field, workers, from, wanted)
}

#[test]
fn each_worker_has_its_piece_of_a_window(rt: HostRuntime) -> Result<(), Fail> {
    let players = killing_players(&rt, rt.alloc())?;
    for (workers, from, wanted) in &PIECES {
        check_announced_by(&rt, rt.alloc(), &players, *workers, *from, wanted)?;
    }
    Ok(())
}

// Words of the same round, how many workers meet in it, and its counts if they are requested. No more workers meet than
// there are turns. A worker that stays ready calls the gate even if it is alone. All of them do so in each window. If
// they didn't, the committer would do it for them.
const MET: [(&str, usize, &str); 10] = [
    (
        "run w r b --seed 12345 --rounds 1 --dump 1 --workers 2",
        2,
        "",
    ),
    (
        "run w r b --seed 12345 --rounds 1 --dump 1 --stats --workers 2",
        2,
        "turns 7 taken 5 redone 2\n",
    ),
    (
        "run w r b --seed 12345 --rounds 1 --dump 1 --workers 2 --far",
        2,
        "",
    ),
    (
        "run w r b --seed 12345 --rounds 1 --dump 1 --stats --window 3 --workers 2",
        2,
        "turns 7 taken 6 redone 1\n",
    ),
    (
        "run w r b --seed 12345 --rounds 1 --dump 1 --stats --workers 1",
        1,
        "turns 7 taken 5 redone 2\n",
    ),
    (
        "run w r b --seed 12345 --rounds 1 --dump 1 --stats --workers 2 --far",
        2,
        "turns 7 taken 5 redone 2\n",
    ),
    (
        "run w r b --seed 12345 --rounds 1 --dump 1 --workers 3 --far",
        3,
        "",
    ),
    ("run w r b --seed 12345 --rounds 1 --dump 1 --far", 1, ""),
    (
        "run w r b --seed 12345 --rounds 1 --dump 1 --window 3 --workers 2 --far --stats",
        2,
        "turns 7 taken 6 redone 1\n",
    ),
    (
        "run w r b --seed 12345 --rounds 1 --dump 1 --workers 16",
        7,
        "",
    ),
];

// Asserts what is written for the same round by this many workers. They meet, and announce each of its turns once.
fn check_run<R: Threads + Wait + Sync + Abort>(
    rt: &R,
    alloc: Global,
    line: &str,
    workers: usize,
    counts: &str,
) -> Result<(), Fail> {
    let meeting = Meeting::of(alloc, workers, TURNS)?;
    check_killing(rt, alloc, line, &meeting, counts)?;
    meeting.check(rt, 0);
    Ok(())
}

// Asserts the same for the words of each row.
fn check_runs<R: Threads + Wait + Sync + Abort>(
    rt: &R,
    alloc: Global,
    rows: &[(&str, usize, &str)],
) -> Result<(), Fail> {
    for (line, workers, counts) in rows {
        check_run(rt, alloc, line, *workers, counts)?;
    }
    Ok(())
}

#[test]
fn workers_of_a_run_look_at_the_same_time(rt: HostRuntime) -> Result<(), Fail> {
    check_runs(&rt, rt.alloc(), &MET)
}

// A command that plays one round, the number of workers, and the number of turns.
#[derive(Clone, Copy)]
struct Round<'t> {
    job: Job<'t>,
    workers: usize,
    turns: usize,
}

// A workload; and a game that is saved, one that is continued, and one that is saved again.
static ROUNDS: [Round<'static>; 4] = [
    Round {
        job: Job {
            line: "workload 12345 1 16",
            ..NO_JOB
        },
        workers: 16,
        turns: 254,
    },
    Round {
        job: Job {
            line: "save w r b --seed 12345 --rounds 1 --workers 3",
            ..KILLING
        },
        workers: 3,
        turns: TURNS,
    },
    Round {
        job: Job {
            line: "resume k --rounds 3 --workers 2",
            breaks: STANDING,
            ..KILLING
        },
        workers: 2,
        turns: 2,
    },
    Round {
        job: Job {
            line: "advance k --rounds 3 --workers 2",
            breaks: STANDING,
            ..KILLING
        },
        workers: 2,
        turns: 2,
    },
];

// Asserts that a command is done by workers which meet and announce each turn of its one round once.
fn check_meeting<R: Threads + Wait + Sync + Abort>(
    rt: &R,
    alloc: Global,
    round: &Round<'_>,
) -> Result<(), Fail> {
    let meeting = Meeting::of(alloc, round.workers, round.turns)?;
    check_done(rt, alloc, &round.job, &meeting)?;
    meeting.check(rt, 0);
    Ok(())
}

// Asserts that a command whose workers call this gate is done.
fn check_done<R: Threads + Wait + Sync + Abort, G: Gate>(
    rt: &R,
    alloc: Global,
    job: &Job<'_>,
    gate: &G,
) -> Result<(), Fail> {
    let files = files_of(alloc, job)?;
    let outcome = answer_over(rt, alloc, job, files, gate)?;
    assert_eq!(rt; outcome.status, Status::Done);
    Ok(())
}

// Asserts the same for each command.
fn check_meetings<R: Threads + Wait + Sync + Abort>(
    rt: &R,
    alloc: Global,
    rounds: &[Round<'_>],
) -> Result<(), Fail> {
    for round in rounds {
        check_meeting(rt, alloc, round)?;
    }
    Ok(())
}

#[test]
fn workers_of_a_workload_and_of_a_saved_game_look_at_the_same_time(
    rt: HostRuntime,
) -> Result<(), Fail> {
    check_meetings(&rt, rt.alloc(), &ROUNDS)
}
