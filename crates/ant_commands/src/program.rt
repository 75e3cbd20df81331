// The whole program, over any shelf and any sinks.
ghost use Rattle.std.specs.Prelude.{◌≡◌};
ghost use Rattle.command_words.specs.Far.{words_without_far};
ghost use Rattle.command_words.specs.Command.{AskedWithin, plain};
ghost use Rattle.ant_commands.specs.Jobs.{job_of};
ghost use Rattle.command_words.specs.Words.{texts};
ghost use Rattle.round_book.specs.Book.{CanBegin};
ghost use Rattle.round_book.specs.Led.{IsWindow};
ghost use Rattle.ant_commands.specs.Inner.Cups.{CanPlay, GivesScores};
ghost use Rattle.ant_commands.specs.Inner.Reading.{CarriesOut, CarriesOutWords, ending_of};
ghost use Rattle.ant_commands.specs.Outside.{outside_of};
ghost use Rattle.ant_commands.specs.Run.{EndsAsPromised, EndsSo, GotLine, IsRunTo, Reports};
ghost use Rattle.ant_commands.specs.Status.{status_number};
ghost use Rattle.ant_commands.specs.FaultLines.{ending_status, fault_line, plain_ending, reason_of, status_of, word_line};
ghost use Rattle.ant_commands.specs.FaultLines.Reason.{AtMemory};
ghost use Rattle.std.specs.Process.{exit_status};

use crate::commands::cup::Games;
use crate::commands::far::run_far;
use crate::commands::setups::RunWords;
use crate::commands::{dispatch, workers_in};
use crate::status::Status;
use crate::stop::{CommandStop, Ended};
use ant_base::{Gate, Layout, Shelf, Sink, layout};
use command_words::{Asked, CommandKind, Refused, is_far_run, read_words, read_words_without_far};
use match_run::OutOfMemory;
use round_book::{Counts, Field, Led, SoloCrew};
use round_workers::BoardCrew;
use std::alloc::Global;
use std::process::ExitCode;
use std::sync::Wait;
use std::thread::Threads;
use tournament::{Pairing, play_games, play_games_alone};

// Which function calls which, from `main` down. The words are read once, by a function that knows `--far` or by one
// that doesn't:
//
//     run_to_exit > run_ants > run_here > read_and_carry_out > carry_out > dispatch > the command's own function
//                            > carry_out_far > run_far, for a run
//                                            > carry_out, for all else
//     run_alone > carry_out_alone > dispatch

// Carries out a command, whose numbers and names are within their limits. A crew takes no memory before its first
// window, so each command may have one.
fn carry_out<'w, R: Threads + Sync, S: Shelf, K: Sink, G: Gate>(
    rt: &R,
    alloc: Global,
    asked: Asked<'w>,
    shelf: &mut S,
    out: &mut K,
    gate: &G,
) -> Result<(), CommandStop<'w>>
    requires within { AskedWithin (plain asked) }
    ensures { CarriesOut (job_of (plain asked.entry)) (S.state shelf.old) (S.state shelf.new) (K.state out.old) (K.state out.new) (ending_of result) }
{
    let mut board = BoardCrew::new(rt, workers_in(asked), gate);
    let mut crew = Led::by(
        |field: &mut Field<'_>, from: u32, to: u32| -> Result<Counts, OutOfMemory>
            requires { CanBegin field.now from to }
            ensures { IsWindow result field.entry.now from to field.exit.now }
        { board.window(alloc, field, from, to) },
    );
    let play = |games: &Games<'_>, listed: &[Pairing], workers: u32|
        requires { CanPlay workers games.now listed.now }
        ensures { GivesScores games.entry.now listed.entry.now result }
    { play_games(rt, alloc, games, listed, workers) };
    dispatch(alloc, &mut crew, &play, asked, shelf, out)
}

// Carries out the command that the words are; `--far` is an unknown option.
fn read_and_carry_out<'w, R: Threads + Sync, S: Shelf, K: Sink, G: Gate>(
    rt: &R,
    alloc: Global,
    words: &'w [String],
    shelf: &mut S,
    out: &mut K,
    gate: &G,
) -> Ended<'w>
    ensures { CarriesOutWords (words_without_far (texts words.now)) (S.state shelf.old) (S.state shelf.new) (K.state out.old) (K.state out.new) (plain_ending result) }
{
    match read_words_without_far(words) {
        Ok(asked) => Ended::after(carry_out(rt, alloc, asked, shelf, out, gate)),
        Err(refused) => Ended::RefusedWord(refused.word),
    }
}

// Carries out the command that the words are on the caller's thread alone; `--far` is an unknown option.
fn carry_out_alone<'w, S: Shelf, K: Sink>(
    alloc: Global,
    words: &'w [String],
    shelf: &mut S,
    out: &mut K,
) -> Ended<'w>
    ensures { CarriesOutWords (words_without_far (texts words.now)) (S.state shelf.old) (S.state shelf.new) (K.state out.old) (K.state out.new) (plain_ending result) }
{
    let play = |games: &Games<'_>, listed: &[Pairing], _workers: u32| {
        play_games_alone(alloc, games, listed)
    };
    match read_words_without_far(words) {
        Ok(asked) => Ended::after(dispatch(alloc, &mut SoloCrew::new(), &play, asked, shelf, out)),
        Err(refused) => Ended::RefusedWord(refused.word),
    }
}

// Carries out the command that the words are; a run is played by workers that stay ready for the whole game.
fn carry_out_far<'w, R: Threads + Wait + Sync, S: Shelf, K: Sink, G: Gate>(
    rt: &R,
    alloc: Global,
    words: &'w [String],
    shelf: &mut S,
    out: &mut K,
    gate: &G,
) -> Ended<'w>
    ensures { CarriesOutWords (texts words.now) (S.state shelf.old) (S.state shelf.new) (K.state out.old) (K.state out.new) (plain_ending result) }
{
    match read_words(words) {
        Ok(asked) => match asked.kind {
            CommandKind::Run => Ended::after(run_far(
                rt,
                alloc,
                RunWords::of(asked),
                shelf,
                out,
                gate,
            )),
            _ => Ended::after(carry_out(rt, alloc, asked, shelf, out, gate)),
        },
        Err(refused) => Ended::RefusedWord(refused.word),
    }
}

/// The whole program without `--far`, which is an unknown option here, over a shelf of files, an output and a sink for
/// errors.
///
/// `words` doesn't have the program's name. The words are read first. Then each file is fetched and read before the
/// next one, in the order of its word, and each once. Then the text is written. The result is
/// - `Done`: all files of the command were fetched and accepted. The output got the text for what was read from them
///   and nothing else; the errors got nothing.
/// - `Words`: exactly if the words are not a command; nothing was fetched, and the output got nothing.
/// - `Read`: the last fetch failed, the shelf wasn't sure of its file, and each file before it was accepted; the output
///   got nothing.
/// - `Write`: all files were fetched and accepted, and the output failed and got a prefix of the text.
/// - `Input`: the last file that was fetched is too long, not in its grammar, or a save with too many rounds done, and
///   each file before it was accepted; or an element of the world to be generated has no room. The output got nothing.
/// - `Memory`: memory ran out; no fetch failed or was too long. Either each file except perhaps the last was accepted,
///   and the output got nothing; or all files of a `run`, a `resume` or a `cup` with `--games`, which write while they
///   play, were accepted, and the output got a proper prefix of the text. For a cup, these are the lines of all games
///   on its first worlds.
///
/// After each result except `Done` the errors got one line. It names the word (from 1), or the file and the place in
/// it. If the errors failed, they got a prefix of that line. The shelf's contents and the names of which it is sure are
/// unchanged, its log grows by the fetches, and its count of faults rises only if it isn't sure of a name that was
/// fetched. The workers of a game or a cup are threads of the runtime; a game's workers call the gate before each look.
///
/// The clause has a field for each of the promises above. The first, `run`, implies all others, by `promised_run` of
/// proofs/Verdicts.antt. The others state its parts for callers.
pub fn run_here<R: Threads + Sync, S: Shelf, K: Sink, E: Sink, G: Gate>(
    rt: &R,
    alloc: Global,
    words: &[String],
    shelf: &mut S,
    out: &mut K,
    err: &mut E,
    gate: &G,
) -> Status
    ensures { EndsAsPromised (words_without_far (texts words.now)) (outside_of (S.state shelf.old) (K.state out.old) (E.state err.old))
        (outside_of (S.state shelf.new) (K.state out.new) (E.state err.new)) result }
{
    let ended = read_and_carry_out(rt, alloc, words, shelf, out, gate);
    report(ended, err)
}

/// Does what `run_here` does on the caller's thread alone, without a runtime. It returns how the run ended: with its
/// whole text, at a refused word, or with its command's stop. A window or a cup for more workers is played on this
/// thread too, with the same text.
pub fn run_alone<'w, S: Shelf, K: Sink, E: Sink>(
    alloc: Global,
    words: &'w [String],
    shelf: &mut S,
    out: &mut K,
    err: &mut E,
) -> Ended<'w>
    ensures { EndsSo (words_without_far (texts words.now)) (outside_of (S.state shelf.old) (K.state out.old) (E.state err.old))
        (outside_of (S.state shelf.new) (K.state out.new) (E.state err.new)) (plain_ending result) }
{
    let ended = carry_out_alone(alloc, words, shelf, out);
    let _ = report(ended, err);
    ended
}

/// Does everything that the program does, over a shelf of files, an output and a sink for errors. It calls `run_here`,
/// unless the command is `run` and some word is `--far`. Then the workers stay ready for the whole game, and the call
/// may wait for one of them; its promise holds if it returns.
///
/// The clause is that of `run_here`, for all words; the doc of `run_here` says when each status is returned.
pub fn run_ants<R: Threads + Wait + Sync, S: Shelf, K: Sink, E: Sink, G: Gate>(
    rt: &R,
    alloc: Global,
    words: &[String],
    shelf: &mut S,
    out: &mut K,
    err: &mut E,
    gate: &G,
) -> Status
    ensures { EndsAsPromised (texts words.now) (outside_of (S.state shelf.old) (K.state out.old) (E.state err.old))
        (outside_of (S.state shelf.new) (K.state out.new) (E.state err.new)) result }
{
    if !is_far_run(words) {
        return run_here(rt, alloc, words, shelf, out, err, gate);
    }
    let ended = carry_out_far(rt, alloc, words, shelf, out, gate);
    report(ended, err)
}

// Reports how a run ended, unless it is done.
fn report<E: Sink>(ended: Ended<'_>, err: &mut E) -> Status
    ensures reports { Reports (E.state err.old) (E.state err.new) (plain_ending ended.entry) }
    ensures status { result ≡ ending_status (plain_ending ended.entry) }
{
    match ended {
        Ended::Done => Status::Done,
        Ended::RefusedWord(word) => report_word(word, err),
        Ended::Stopped(stop) => report_stop(&stop, err),
    }
}

// Reports the refused word.
#[tactic(auto, unfolding(crate::specs::FaultLines::word_line))]
fn report_word<E: Sink>(word: usize, err: &mut E) -> Status
    ensures reports { GotLine (E.state err.old) (E.state err.new) (word_line word) }
    ensures status { result ≡ Status.Words }
{
    let _ = layout!("ants: ", Refused { word }, "\n").push_to(err);
    Status::Words
}

// Reports why a command stopped.
fn report_stop<E: Sink>(stop: &CommandStop<'_>, err: &mut E) -> Status
    ensures reports { GotLine (E.state err.old) (E.state err.new) (fault_line (reason_of stop.now)) }
    ensures status { result ≡ status_of (reason_of stop.now) }
{
    let _ = stop.push_to(err);
    stop.status()
}

/// Does what `run_ants` does, and returns the number of its status as an exit code. It is everything that `main` does
/// after it has its words and its memory.
pub fn run_to_exit<R: Threads + Wait + Sync, S: Shelf, K: Sink, E: Sink, G: Gate>(
    rt: &R,
    alloc: Global,
    words: &[String],
    shelf: &mut S,
    out: &mut K,
    err: &mut E,
    gate: &G,
) -> ExitCode
    ensures { IsRunTo (texts words.now) (outside_of (S.state shelf.old) (K.state out.old) (E.state err.old))
        (outside_of (S.state shelf.new) (K.state out.new) (E.state err.new)) (exit_status result) }
{
    exit_of(run_ants(rt, alloc, words, shelf, out, err, gate))
}

/// Reports that memory ran out, and returns that status as an exit code. `main` does this if it has no memory for the
/// words or the buffer.
pub fn exit_without_memory<E: Sink>(err: &mut E) -> ExitCode
    ensures reports { GotLine (E.state err.old) (E.state err.new) (fault_line AtMemory) }
    ensures status { exit_status result ≡ status_number Status.Memory }
{
    exit_of(report_stop(&CommandStop::Memory, err))
}

fn exit_of(status: Status) -> ExitCode
    ensures { exit_status result ≡ status_number status }
{
    ExitCode::from(status.number())
}
