// These tests check what no clause says: that commands succeed, and the exact bytes that they write. Each file has
// tables of cases, and a loop for each table. A table with commands in it is a `static`, and so is a command that a
// function varies: if they were constants, a function would build them piece by piece. The texts of one `static` are
// proved together, and the cost of that grows with the square of their length. So a long table is a `static` of its
// own, or is split into several.
mod acts;
mod assembled;
mod brains;
mod compared;
mod counts;
mod cup_options;
mod cups;
mod early_lines;
mod events;
mod games;
mod generated;
mod helped;
mod outside;
mod runs;
mod saves;
mod settle;
mod shown;
mod viewed;
mod ways;
mod words;
mod workers;
mod workloads;

use ant_base::{Calls, Files, Gate, MemShelf, MemSink, NoGate};
use ant_commands::{Status, run_ants};
use std::alloc::Global;
use std::process::Abort;
use std::sync::Wait;
use std::test::Fail;
use std::thread::Threads;

// A room with more bytes than any text in these tests.
const ROOM: u64 = 2000000;

// One red ant between rocks.
const CLOSED: &str = "3\n3\n# # #\n # + #\n# # #\n";

// A red ant among four black ones, with a fifth about to arrive.
const CLOSING: &str =
    "7\n6\n# # # # # # #\n # . . . . . #\n# . . - # . #\n # - . + - # #\n# + . - - # #\n # # # # # # #\n";

// A command, and what it runs over. A world is in the files w and -, a red brain in r, a black one in b, breaks in k,
// and more files have names of their own. `failing_fetch` and `failing_push` are the numbers of the fetch and of the
// push to out that fail, if there are such calls. Out and err have room for the given number of bytes.
#[derive(Clone, Copy, Debug)]
struct Job<'t> {
    line: &'t str,
    world: &'t str,
    red: &'t str,
    black: &'t str,
    breaks: &'t str,
    more: &'t [(&'t str, &'t str)],
    failing_fetch: u64,
    failing_push: u64,
    room: u64,
    err_room: u64,
}

// No words and empty files; nothing fails.
const NO_JOB: Job<'static> = Job {
    line: "",
    world: "",
    red: "",
    black: "",
    breaks: "",
    more: &[],
    failing_fetch: 0,
    failing_push: 0,
    room: ROOM,
    err_room: ROOM,
};

static EMPTY_JOB: Job<'static> = NO_JOB;

// The command with these words, over a world and two brains.
fn game_of<'t>(line: &'t str, world: &'t str, red: &'t str, black: &'t str) -> Job<'t> {
    game_with(line, world, red, black, "")
}

// The same with a text in k.
fn game_with<'t>(
    line: &'t str,
    world: &'t str,
    red: &'t str,
    black: &'t str,
    breaks: &'t str,
) -> Job<'t> {
    let mut job = EMPTY_JOB;
    job.line = line;
    job.world = world;
    job.red = red;
    job.black = black;
    job.breaks = breaks;
    job
}

// The result of a command.
#[derive(Drop)]
struct Outcome {
    status: Status,
    out: String,
    err: String,
}

// The text that a sink holds.
fn text_held(alloc: Global, sink: &MemSink) -> Result<String, Fail> {
    Ok(String::from_str(alloc, str::from_utf8(sink.held())?)?)
}

// The result of a command with this status, whose output and errors were pushed to these sinks.
fn outcome_of(
    alloc: Global,
    status: Status,
    out: &MemSink,
    err: &MemSink,
) -> Result<Outcome, Fail> {
    let out = text_held(alloc, out)?;
    let err = text_held(alloc, err)?;
    Ok(Outcome { status, out, err })
}

// The words of a line, which has one space between them.
fn split(alloc: Global, line: &str) -> Result<Vec<String>, Fail> {
    let mut words = Vec::new(alloc);
    push_words(alloc, line, &mut words)?;
    Ok(words)
}

// Appends the words of a line to others.
fn push_words(alloc: Global, line: &str, words: &mut Vec<String>) -> Result<(), Fail> {
    for word in line.split_terminator(' ') {
        words.push(String::from_str(alloc, word)?)?;
    }
    Ok(())
}

// A list of one call number.
fn only(alloc: Global, number: u64) -> Result<Calls, Fail> {
    let mut calls = Calls::new(alloc);
    calls.add(number)?;
    Ok(calls)
}

// Adds a file.
fn add_file(files: &mut Files, name: &str, text: &str) -> Result<(), Fail> {
    files.add(name, text.as_bytes())?;
    Ok(())
}

// Adds the files of a command.
fn add_files(files: &mut Files, job: &Job<'_>) -> Result<(), Fail> {
    add_file(files, "w", job.world)?;
    add_file(files, "-", job.world)?;
    add_file(files, "r", job.red)?;
    add_file(files, "b", job.black)?;
    add_file(files, "k", job.breaks)?;
    for (name, text) in job.more {
        add_file(files, name, text)?;
    }
    Ok(())
}

// The files of a command.
fn files_of(alloc: Global, job: &Job<'_>) -> Result<Files, Fail> {
    let mut files = Files::new(alloc);
    add_files(&mut files, job)?;
    Ok(files)
}

// Carries out a command.
fn answer<R: Threads + Wait + Sync>(rt: &R, alloc: Global, job: &Job<'_>) -> Result<Outcome, Fail> {
    answer_over(rt, alloc, job, files_of(alloc, job)?, &NoGate)
}

// Carries out a command over these files, whose workers call this gate.
fn answer_over<R: Threads + Wait + Sync, G: Gate>(
    rt: &R,
    alloc: Global,
    job: &Job<'_>,
    files: Files,
    gate: &G,
) -> Result<Outcome, Fail> {
    let mut shelf = shelf_of(alloc, job, files)?;
    answer_on(rt, alloc, job, &mut shelf, gate)
}

// The shelf of a command with these files.
fn shelf_of(alloc: Global, job: &Job<'_>, files: Files) -> Result<MemShelf, Fail> {
    let failing = only(alloc, job.failing_fetch)?;
    Ok(MemShelf::new(files, failing))
}

// Carries out a command over the files of a shelf.
fn answer_on<R: Threads + Wait + Sync, G: Gate>(
    rt: &R,
    alloc: Global,
    job: &Job<'_>,
    shelf: &mut MemShelf,
    gate: &G,
) -> Result<Outcome, Fail> {
    let words = split(alloc, job.line)?;
    answer_from(rt, alloc, job, &words, shelf, gate)
}

// Carries out the command with these words over the files of a shelf.
fn answer_from<R: Threads + Wait + Sync, G: Gate>(
    rt: &R,
    alloc: Global,
    job: &Job<'_>,
    words: &[String],
    shelf: &mut MemShelf,
    gate: &G,
) -> Result<Outcome, Fail> {
    let mut out = MemSink::with_room(alloc, job.room, only(alloc, job.failing_push)?)?;
    let mut err = MemSink::with_room(alloc, job.err_room, Calls::new(alloc))?;
    let status = run_ants(rt, alloc, words, shelf, &mut out, &mut err, gate);
    outcome_of(alloc, status, &out, &err)
}

// A status, and what the output and the errors got.
#[derive(Clone, Copy, Debug, PartialEq, Eq)]
struct Ending<'t> {
    status: Status,
    out: &'t str,
    err: &'t str,
}

// A command that is done, and wrote this text.
fn done(text: &str) -> Ending<'_> {
    Ending {
        status: Status::Done,
        out: text,
        err: "",
    }
}

// A command that stopped with this line, and wrote nothing.
fn stopped(status: Status, line: &str) -> Ending<'_> {
    Ending {
        status,
        out: "",
        err: line,
    }
}

// A command that is done and wrote this text, or stopped with it as its line.
fn ending_with(status: Status, text: &str) -> Ending<'_> {
    match status {
        Status::Done => done(text),
        _ => stopped(status, text),
    }
}

// A command whose output failed after a prefix of the text.
fn cut<'t>(front: &'t str, line: &'t str) -> Ending<'t> {
    Ending {
        status: Status::Write,
        out: front,
        err: line,
    }
}

// How a command ended.
fn ending_of(outcome: &Outcome) -> Ending<'_> {
    Ending {
        status: outcome.status,
        out: &outcome.out,
        err: &outcome.err,
    }
}

// Asserts the result of a command.
fn check<R: Threads + Wait + Sync + Abort>(
    rt: &R,
    alloc: Global,
    job: &Job<'_>,
    wanted: Ending<'_>,
) -> Result<(), Fail> {
    check_by(rt, alloc, job, &NoGate, wanted)
}

// Asserts the result of a command whose workers call this gate.
fn check_by<R: Threads + Wait + Sync + Abort, G: Gate>(
    rt: &R,
    alloc: Global,
    job: &Job<'_>,
    gate: &G,
    wanted: Ending<'_>,
) -> Result<(), Fail> {
    check_over(rt, alloc, job, files_of(alloc, job)?, gate, wanted)
}

// Asserts the result of a command over these files, whose workers call this gate.
fn check_over<R: Threads + Wait + Sync + Abort, G: Gate>(
    rt: &R,
    alloc: Global,
    job: &Job<'_>,
    files: Files,
    gate: &G,
    wanted: Ending<'_>,
) -> Result<(), Fail> {
    let outcome = answer_over(rt, alloc, job, files, gate)?;
    check_ending(rt, job, ending_of(&outcome), wanted);
    Ok(())
}

// Asserts how a command ended.
fn check_ending<R: Abort>(rt: &R, job: &Job<'_>, ending: Ending<'_>, wanted: Ending<'_>) {
    assert_eq!(rt; ending, wanted, "at {job:?}");
}

// A text by its parts: its beginning, some of its lines in order, perhaps with others between them, and its end.
#[derive(Clone, Copy, Debug)]
struct Told<'t> {
    start: &'t str,
    lines: &'t str,
    end: &'t str,
}

// Whether the lines of `wanted` are lines of `text`, in this order, perhaps with others between them.
fn has_lines(text: &str, wanted: &str) -> bool {
    let mut lines = text.split('\n');
    for line in wanted.split_terminator('\n') {
        if !lines.any(|other| other == line) {
            return false;
        }
    }
    true
}

// Whether a text fits this description.
fn is_told(text: &str, told: &Told<'_>) -> bool {
    if !text.starts_with(told.start) {
        return false;
    }
    if !text.ends_with(told.end) {
        return false;
    }
    has_lines(text, told.lines)
}

// Asserts that a command is done, and that its text fits.
fn check_text<R: Threads + Wait + Sync + Abort>(
    rt: &R,
    alloc: Global,
    job: &Job<'_>,
    told: &Told<'_>,
) -> Result<(), Fail> {
    let outcome = answer(rt, alloc, job)?;
    check_told(rt, job, ending_of(&outcome), told);
    Ok(())
}

// Asserts that a command with this ending is done, and that its text fits.
fn check_told<R: Abort>(rt: &R, job: &Job<'_>, ending: Ending<'_>, told: &Told<'_>) {
    check_ending(rt, job, ending, done(ending.out));
    assert!(rt; is_told(ending.out, told), "{told:?} of {job:?}");
}

// The part of a command that the rows of a table vary.
#[derive(Clone, Copy)]
enum Given {
    Line,
    World,
    Red,
    Black,
    Breaks,
}

impl<'t> Job<'t> {
    // The command with this text in one of its places.
    fn with(&self, given: Given, text: &'t str) -> Job<'t> {
        let mut job = *self;
        match given {
            Given::Line => job.line = text,
            Given::World => job.world = text,
            Given::Red => job.red = text,
            Given::Black => job.black = text,
            Given::Breaks => job.breaks = text,
        }
        job
    }
}

// Asserts the result of a command with this text in one of its places.
fn check_with<R: Threads + Wait + Sync + Abort>(
    rt: &R,
    alloc: Global,
    job: &Job<'_>,
    given: Given,
    text: &str,
    wanted: Ending<'_>,
) -> Result<(), Fail> {
    check(rt, alloc, &job.with(given, text), wanted)
}

// A table of rows. Each row has a text for one part of a command, and what the command prints: to the output if the
// status is Done, otherwise to the errors.
#[derive(Clone, Copy)]
struct Table<'t> {
    job: Job<'t>,
    given: Given,
    status: Status,
    rows: &'t [(&'t str, &'t str)],
}

// Asserts the result of the command for each row of a table.
fn check_rows<R: Threads + Wait + Sync + Abort>(
    rt: &R,
    alloc: Global,
    table: &Table<'_>,
) -> Result<(), Fail> {
    for (text, wanted) in table.rows {
        let ending = ending_with(table.status, wanted);
        check_with(rt, alloc, &table.job, table.given, text, ending)?;
    }
    Ok(())
}

// Asserts the result of the command for each row of each table.
fn check_tables<R: Threads + Wait + Sync + Abort>(
    rt: &R,
    alloc: Global,
    tables: &[Table<'_>],
) -> Result<(), Fail> {
    for table in tables {
        check_rows(rt, alloc, table)?;
    }
    Ok(())
}

// A command whose output fails: what the output holds then, and the line that the errors get.
#[derive(Clone, Copy)]
struct CutRun<'t> {
    job: Job<'t>,
    held: &'t str,
    line: &'t str,
}

// Asserts that the output of each command fails in this way.
fn check_cuts<R: Threads + Wait + Sync + Abort>(
    rt: &R,
    alloc: Global,
    cuts: &[CutRun<'_>],
) -> Result<(), Fail> {
    for it in cuts {
        check(rt, alloc, &it.job, cut(it.held, it.line))?;
    }
    Ok(())
}
