//! The simulator for programs in C, Python, Rust and other languages: a static library, whose exports have contracts.
//!
//! Each export takes texts as bytes and writes its results into memory of the caller. None keeps anything. A caller
//! owes the ten duties that ants.h lists. Apart from these no export has a precondition: a wrong number, text or word
//! gives a status. The statuses are the program's: 0 done, 2 a number outside its limits, 4 the room is too small, 5 a
//! text is refused, 6 out of memory. `ants_call`, which runs every command of the program, also returns 1 if its
//! arguments can't be read, 2 if the words are not a command, and 3 if a file is missing. Definitions that name no
//! section of the contest's task are this project's own. This crate depends on the readers, on `match_run` and on
//! `ant_commands`.
#![tactic(auto)]

ghost use Rattle.std.specs.Prelude.{◌≡◌, ◌⊎◌, ◌↔◌, ◌<◌, ◌≤◌, length};
ghost use Rattle.ant_base.specs.Lines.{lines_of};
ghost use Rattle.match_run.specs.Run.{most_rounds};
ghost use Rattle.ants_c.specs.Called.{CanBeRead, IsCalled, IsNotCalled, files_in, lent};
ghost use Rattle.ants_c.specs.Looked.{AreFew, AreLooked, AreRising, HasIds};
ghost use Rattle.ants_c.specs.Played.{AreScored, IsScored, IsStatus};
ghost use Rattle.ants_c.specs.Refused.{IsRefusedGame};
ghost use Rattle.ants_c.specs.Rooms.{IsPut, Writes};
ghost use Rattle.ants_c.specs.Told.{IsTold};
ghost use Rattle.ants_c.specs.Version.{version};

mod ant;
mod call;
mod ending;
mod fault;
mod fetch_log;
mod lent_shelf;
mod look;
mod numbers;
mod read;
mod refusal;
mod room_log;
mod room_sink;
mod score;
mod scores;
mod status;
mod tell;
mod texts;
mod version;

use crate::call::{has_room, lay_program, words_of};
use crate::ending::tell_ending;
use crate::lent_shelf::are_files;
use crate::look::{are_rising, put_looks};
use crate::read::{Setting, open_texts};
use crate::scores::{score_of_game, scores_of_setting};
use crate::status::{DONE, MEMORY, NO_ROOM, NUMBER, UNREADABLE};
use crate::tell::stopped;
use crate::texts::put;
use crate::version::VersionText;
pub use ant::AntsAnt;
use ant_turn::{Brains, Sheet};
pub use fault::AntsFault;
use match_run::MOST_ROUNDS;
pub use score::AntsScore;
use std::alloc::Global;

/// Writes the version of the library to `out`: what the program's `--version` prints between `ants
/// ` and the LF (this project's own). The status is
/// - 0: `out` begins with the version;
/// - 4: the version is longer than `out`, which holds the front of it.
///
/// `used` is the length of the version in both cases, and the bytes of `out` beyond it are
/// unchanged. This function never changes, so a caller that was built for a different version can
/// call it before any other function.
#[unsafe(no_mangle)]
pub extern "C" fn ants_version(out: &mut [u8], used: &mut usize) -> u32
    ensures version { IsPut version out.old out.new used.new result }
    ensures status { Writes result }
{
    put(&VersionText, out, used)
}

/// Plays a game by the contest's rules, turn after turn, and returns its score (the task's game
/// play). The status is
/// - 0: done; the score is that of the game of this world and these brains, after this number of
///   rounds with this seed;
/// - 2: there are more than 1,000,000 rounds;
/// - 5: a text is refused; the fault says which one, the first that is refused, and why, and its
///   words are written to `words`, as many bytes as have room;
/// - 6: out of memory.
///
/// The score is written at 0 only, the fault and the words at 5 only.
#[unsafe(no_mangle)]
#[tactic(auto, using(crate::proofs::Stops::stopped_tells))]
pub extern "C" fn ants_score(
    alloc: Global,
    world: &[u8],
    red: &[u8],
    black: &[u8],
    seed: u32,
    rounds: u32,
    score: &mut AntsScore,
    fault: &mut AntsFault,
    words: &mut [u8],
) -> u32
    ensures status { IsStatus result }
    ensures done { result ≡ 0 → IsScored world.now red.now black.now seed rounds score.new }
    ensures rounds { (result ≡ 2) ↔ (most_rounds < rounds) }
    ensures refused { result ≡ 5 → IsTold (IsRefusedGame world.now red.now black.now) fault.new words.old words.new }
    ensures score { (result ≡ 0) ⊎ (score.new ≡ score.old) }
    ensures fault { (result ≡ 5) ⊎ ((fault.new ≡ fault.old) × (words.new ≡ words.old)) }
    ensures room { result ≡ 4 → ⊥ }
{
    if rounds > MOST_ROUNDS {
        return NUMBER;
    }
    match open_texts(alloc, world, red, black) {
        Ok(setting) => {
            let Setting { world, red, black } = setting;
            let brains = Brains {
                red: &red,
                black: &black,
                sheet: Sheet::contest(),
            };
            *score = score_of_game(world, brains, rounds, seed);
            DONE
        }
        Err(stop) => stopped(stop, fault, words),
    }
}

/// Plays a game as `ants_score` does for each of the seeds, and reads the texts once (the task's
/// game play). The status is that of `ants_score`, or
/// - 4: there is room for fewer scores than there are seeds.
///
/// The scores are written at 0 only, in the order of the seeds; elements of `scores` beyond them are
/// unchanged. The fault and the words are written at 5 only. It takes memory for the scores and for
/// a copy of the world.
#[unsafe(no_mangle)]
#[tactic(auto, using(crate::proofs::Stops::stopped_tells))]
pub extern "C" fn ants_scores(
    alloc: Global,
    world: &[u8],
    red: &[u8],
    black: &[u8],
    seeds: &[u32],
    rounds: u32,
    scores: &mut [AntsScore],
    fault: &mut AntsFault,
    words: &mut [u8],
) -> u32
    ensures status { IsStatus result }
    ensures done { result ≡ 0 → AreScored world.now red.now black.now seeds.now rounds scores.old scores.new }
    ensures rounds { (result ≡ 2) ↔ (most_rounds < rounds) }
    ensures few { result ≡ 4 → length scores.old < length seeds.now }
    ensures room { (result ≡ 4) ⊎ ((result ≡ 2) ⊎ (length seeds.now ≤ length scores.old)) }
    ensures refused { result ≡ 5 → IsTold (IsRefusedGame world.now red.now black.now) fault.new words.old words.new }
    ensures scores { (result ≡ 0) ⊎ (scores.new ≡ scores.old) }
    ensures fault { (result ≡ 5) ⊎ ((fault.new ≡ fault.old) × (words.new ≡ words.old)) }
{
    if rounds > MOST_ROUNDS {
        return NUMBER;
    }
    if scores.len() < seeds.len() {
        return NO_ROOM;
    }
    let setting = match open_texts(alloc, world, red, black) {
        Ok(setting) => setting,
        Err(stop) => return stopped(stop, fault, words),
    };
    match scores_of_setting(alloc, &setting, rounds, seeds) {
        Ok(list) => {
            scores[..list.len()].copy_from_slice(&list);
            DONE
        }
        Err(_) => MEMORY,
    }
}

/// Plays a game as `ants_score` does, and looks at it after each of the rounds (the task's game
/// play and biology). A look is the score, and an ant for each id of the game, in order. The ants
/// of a later round follow those of the round before it. The status is that of `ants_score`, or
/// - 2: a round isn't above the one before it, or is above 1,000,000;
/// - 4: there is room for fewer scores than there are rounds, or for fewer ants than all rounds have
///   together.
///
/// `ids` is the number of ants of one round; it is written at 0 and at 4. The scores and the ants
/// are written at 0 only; elements beyond them are unchanged. The fault and the words are written at
/// 5 only.
#[unsafe(no_mangle)]
#[tactic(auto, using(crate::proofs::Stops::stopped_tells))]
pub extern "C" fn ants_look(
    alloc: Global,
    world: &[u8],
    red: &[u8],
    black: &[u8],
    seed: u32,
    rounds: &[u32],
    scores: &mut [AntsScore],
    ants: &mut [AntsAnt],
    ids: &mut usize,
    fault: &mut AntsFault,
    words: &mut [u8],
) -> u32
    ensures status { IsStatus result }
    ensures done { result ≡ 0 → AreLooked world.now red.now black.now seed rounds.now scores.old scores.new ants.old ants.new ids.new }
    ensures rounds { (result ≡ 2) ⊎ AreRising 0 rounds.now }
    ensures falling { result ≡ 2 → AreRising 0 rounds.now → ⊥ }
    ensures few { result ≡ 4 → HasIds world.now red.now black.now ids.new × AreFew (length rounds.now) ids.new scores.old ants.old }
    ensures room { result ≡ 0 → AreFew (length rounds.now) ids.new scores.old ants.old → ⊥ }
    ensures refused { result ≡ 5 → IsTold (IsRefusedGame world.now red.now black.now) fault.new words.old words.new }
    ensures looked { (result ≡ 0) ⊎ ((scores.new ≡ scores.old) × (ants.new ≡ ants.old)) }
    ensures ids { Writes result ⊎ (ids.new ≡ ids.old) }
    ensures fault { (result ≡ 5) ⊎ ((fault.new ≡ fault.old) × (words.new ≡ words.old)) }
{
    if !are_rising(rounds) {
        return NUMBER;
    }
    let setting = match open_texts(alloc, world, red, black) {
        Ok(setting) => setting,
        Err(stop) => return stopped(stop, fault, words),
    };
    *ids = setting.world.ant_count() as usize;
    if scores.len() < rounds.len() || ants.len() < rounds.len().saturating_mul(*ids) {
        return NO_ROOM;
    }
    put_looks(setting, seed, rounds, scores, ants);
    DONE
}

/// Runs a command of the program over files that you pass (this project's own). `words` has a line
/// for each word of the command line, without the program's name. `names` has a line for each file,
/// and `-` is a name like any other. `sizes` has the length of each file, and `bytes` has the files
/// one after another, in the order of the names. If two files have the same name, the first one is
/// used. `--far` is not an option. The call writes the program's output to `out`, and the line that
/// says what is wrong to `said`. The status is the program's own:
/// - 0: done; nothing is wrong, so there is no line;
/// - 2: the words are not a command; the fault's `number` is the first refused word, counted from
///   1, or one more than there are words if some are missing;
/// - 3: the words name a file that is not among `names`; the fault's `number` is the first word
///   that names it, counted from 1;
/// - 5: a file is refused, and the fault says which file and why; or an element of the world to be
///   generated has no room (kind 60);
/// - 6: out of memory.
///
/// Or the call itself fails:
/// - 1: the words or the names aren't UTF-8, the number of sizes isn't the number of names, or the
///   sizes don't add up to the length of `bytes`;
/// - 4: the output is longer than `out`, or the line is longer than `said`; both hold the part
///   that has room.
///
/// `used` is the length of the output and `told` the length of the line, at 4 too. The rest of
/// `out` and `said` is unchanged. The fault is written at 2, 3 and 5 only. At 5 its words are the
/// end of the line: the last `fault.words` bytes before the LF. At 1 nothing is written, nor at 6
/// if memory ran out before the command began. The call plays on the caller's thread, however many
/// workers the words name. It takes memory for a copy of each file while it is read, and for what
/// the command needs.
#[unsafe(no_mangle)]
pub extern "C" fn ants_call(
    alloc: Global,
    words: &[u8],
    names: &[u8],
    sizes: &[u32],
    bytes: &[u8],
    out: &mut [u8],
    used: &mut usize,
    said: &mut [u8],
    told: &mut usize,
    fault: &mut AntsFault,
) -> u32
    ensures unread { result ≡ 1 → CanBeRead words.now names.now sizes.now bytes.now → ⊥ }
    ensures read { (result ≡ 1) ⊎ ((result ≡ 6) ⊎ CanBeRead words.now names.now sizes.now bytes.now) }
    ensures called { IsCalled (lines_of words.now) (lines_of names.now) (files_in (lines_of names.now) sizes.now bytes.now)
        (lent out.old used.old said.old told.old fault.old) (lent out.new used.new said.new told.new fault.new) result
        ⊎ IsNotCalled (lent out.old used.old said.old told.old fault.old) (lent out.new used.new said.new told.new fault.new) result }
{
    let Ok(spoken) = words_of(alloc, words) else {
        return MEMORY;
    };
    let Some(list) = spoken else {
        return UNREADABLE;
    };
    if !are_files(names, sizes, bytes) {
        return UNREADABLE;
    }
    let ran = lay_program(alloc, &list, names, sizes, bytes, out, said);
    *used = ran.used;
    *told = ran.told;
    if !has_room(&ran, out, said) {
        return NO_ROOM;
    }
    tell_ending(words, names, ran.ended, fault);
    u32::from(ran.ended.status().number())
}
