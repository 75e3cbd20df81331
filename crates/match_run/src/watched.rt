// A game played before a watch: the one loop over rounds and turns.
ghost use Rattle.std.specs.Prelude.{◌+◌, ◌-◌, ◌*◌, ◌<◌, ◌≤◌, ◌^◌, ℕ, length};
ghost use Rattle.ant_turn.specs.Listed.{AreUp, IsUp, after_listed};
ghost use Rattle.ant_turn.specs.Minds.{AreSound, Fits, minds_of};
ghost use Rattle.ant_turn.specs.Rounds.{after_round, after_rounds, after_turn, after_turns};
ghost use Rattle.cell_world.specs.Limits.{most_ants};
ghost use Rattle.match_run.specs.Inner.Watch.{told_in_listed};
ghost use Rattle.match_run.specs.Told.{told_in_round, told_in_rounds, told_in_turns};
ghost use Rattle.match_run.specs.Watch.{IsFair, IsWatched, moment_of};

use crate::board::Board;
use crate::watch::Watch;
use ant_random::Stream;
use ant_turn::Brains;
use cell_world::Ground;

/// Plays the given number of rounds, counted from 1, before a watch (the task's kinetics). Each ant's state is below
/// the length of its colour's brain. The game ends early only if the watch ends it. It takes no memory.
#[inline(always)]
pub fn watch_rounds<W: Watch>(
    watch: &W,
    board: &mut W::On,
    brains: &Brains<'_>,
    stream: &mut Stream,
    rounds: u32,
    log: &mut W::Log,
) -> Result<(), W::Stop>
    requires fair { (seed : ℕ) → IsFair (W.telling watch.now (minds_of brains.now) seed) (W.logs watch.now) (W.ready watch.now (minds_of brains.now)) }
    requires fit { Fits (W.On.world board.old) (minds_of brains.now) }
    requires place { stream.old.place + rounds * most_ants < 2 ^ 63 }
    requires ready { W.ready watch.now (minds_of brains.now) log.old (rounds * most_ants) }
    ensures { IsWatched (W.logs watch.now) (W.ready watch.now (minds_of brains.now)) (minds_of brains.now) stream.old log.old log.new
        (told_in_rounds (W.telling watch.now (minds_of brains.now) stream.old.seed) (minds_of brains.now) stream.old.seed (moment_of (W.On.world board.old) stream.old) rounds) (rounds * most_ants)
        (after_rounds (minds_of brains.now) stream.old.seed (moment_of (W.On.world board.old) stream.old) rounds) (W.On.world board.new) stream.new result }
{
    for done in 0..rounds {
        watch_round(watch, board, brains, stream, done + 1, log)?;
    }
    Ok(())
}

/// Plays one round before a watch: a turn of each id, in rising order (the task's kinetics). The condition and the
/// early end are those of `watch_rounds`.
#[inline(always)]
pub fn watch_round<W: Watch>(
    watch: &W,
    board: &mut W::On,
    brains: &Brains<'_>,
    stream: &mut Stream,
    round: u32,
    log: &mut W::Log,
) -> Result<(), W::Stop>
    requires fair { (seed : ℕ) → IsFair (W.telling watch.now (minds_of brains.now) seed) (W.logs watch.now) (W.ready watch.now (minds_of brains.now)) }
    requires fit { Fits (W.On.world board.old) (minds_of brains.now) }
    requires place { stream.old.place + most_ants < 2 ^ 63 }
    requires ready { W.ready watch.now (minds_of brains.now) log.old most_ants }
    ensures { IsWatched (W.logs watch.now) (W.ready watch.now (minds_of brains.now)) (minds_of brains.now) stream.old log.old log.new
        (told_in_round (W.telling watch.now (minds_of brains.now) stream.old.seed round) (minds_of brains.now) stream.old.seed (moment_of (W.On.world board.old) stream.old)) most_ants
        (after_round (minds_of brains.now) stream.old.seed (moment_of (W.On.world board.old) stream.old)) (W.On.world board.new) stream.new result }
{
    let ids = board.ids();
    let mut from = 0;
    while from < ids {
        let to = ids.min(from + 64);
        watch_chunk(watch, board, brains, stream, Chunk { from, to }, round, log)?;
        from = to;
    }
    Ok(())
}

// The ids from `from` to below `to`, at most 64.
#[derive(Clone, Copy)]
struct Chunk {
    from: u32,
    to: u32,
    ghost order: { from ≤ to },
    ghost few: { to ≤ from + 64 },
}

// Plays the turns of a chunk: first those of resting ants, which aren't reported, and then the others in rising order.
#[inline(always)]
fn watch_chunk<W: Watch>(
    watch: &W,
    board: &mut W::On,
    brains: &Brains<'_>,
    stream: &mut Stream,
    chunk: Chunk,
    round: u32,
    log: &mut W::Log,
) -> Result<(), W::Stop>
    requires fair { (seed : ℕ) → IsFair (W.telling watch.now (minds_of brains.now) seed) (W.logs watch.now) (W.ready watch.now (minds_of brains.now)) }
    requires fit { Fits (W.On.world board.old) (minds_of brains.now) }
    requires made { chunk.to ≤ (W.On.world board.old).ids }
    requires place { stream.old.place + (chunk.to - chunk.from) < 2 ^ 63 }
    requires ready { W.ready watch.now (minds_of brains.now) log.old (chunk.to - chunk.from) }
    ensures { IsWatched (W.logs watch.now) (W.ready watch.now (minds_of brains.now)) (minds_of brains.now) stream.old log.old log.new
        (told_in_turns (W.telling watch.now (minds_of brains.now) stream.old.seed round) (minds_of brains.now) stream.old.seed (moment_of (W.On.world board.old) stream.old) chunk.from (chunk.to - chunk.from)) (chunk.to - chunk.from)
        (after_turns (minds_of brains.now) stream.old.seed (moment_of (W.On.world board.old) stream.old) chunk.from (chunk.to - chunk.from)) (W.On.world board.new) stream.new result }
{
    lemma_sound(*brains);
    let _ids = board.ids();
    let mut acting = [0; 64];
    let count = board.count_down_rests(chunk.from, chunk.to, &mut acting);
    watch_listed(watch, board, brains, stream, &acting[..count], round, log)
}

// Takes the turns of these ids, whose ants don't rest.
#[inline(always)]
fn watch_listed<W: Watch>(
    watch: &W,
    board: &mut W::On,
    brains: &Brains<'_>,
    stream: &mut Stream,
    ids: &[u16],
    round: u32,
    log: &mut W::Log,
) -> Result<(), W::Stop>
    requires fair { (seed : ℕ) → IsFair (W.telling watch.now (minds_of brains.now) seed) (W.logs watch.now) (W.ready watch.now (minds_of brains.now)) }
    requires fit { Fits (W.On.world board.old) (minds_of brains.now) }
    requires up { AreUp (W.On.world board.old) ids.now }
    requires place { stream.old.place + length ids.now < 2 ^ 63 }
    requires ready { W.ready watch.now (minds_of brains.now) log.old (length ids.now) }
    ensures { IsWatched (W.logs watch.now) (W.ready watch.now (minds_of brains.now)) (minds_of brains.now) stream.old log.old log.new
        (told_in_listed (W.telling watch.now (minds_of brains.now) stream.old.seed round) (minds_of brains.now) stream.old.seed (moment_of (W.On.world board.old) stream.old) ids.now) (length ids.now)
        (after_listed (minds_of brains.now) stream.old.seed (moment_of (W.On.world board.old) stream.old) ids.now) (W.On.world board.new) stream.new result }
{
    for id in ids {
        watch_acting(watch, board, brains, stream, u32::from(*id), round, log)?;
    }
    Ok(())
}

// Takes the turn of an id whose ant doesn't rest, if it is alive.
#[inline(always)]
fn watch_acting<W: Watch>(
    watch: &W,
    board: &mut W::On,
    brains: &Brains<'_>,
    stream: &mut Stream,
    id: u32,
    round: u32,
    log: &mut W::Log,
) -> Result<(), W::Stop>
    requires fair { (seed : ℕ) → IsFair (W.telling watch.now (minds_of brains.now) seed) (W.logs watch.now) (W.ready watch.now (minds_of brains.now)) }
    requires fit { Fits (W.On.world board.old) (minds_of brains.now) }
    requires id { id < (W.On.world board.old).ids }
    requires up { IsUp (W.On.world board.old) id }
    requires place { stream.old.place + 1 < 2 ^ 63 }
    requires ready { W.ready watch.now (minds_of brains.now) log.old 1 }
    ensures { IsWatched (W.logs watch.now) (W.ready watch.now (minds_of brains.now)) (minds_of brains.now) stream.old log.old log.new
        (W.telling watch.now (minds_of brains.now) stream.old.seed round (moment_of (W.On.world board.old) stream.old) id) 1
        (after_turn (minds_of brains.now) stream.old.seed (moment_of (W.On.world board.old) stream.old) id) (W.On.world board.new) stream.new result }
{
    let Some(standing) = board.ant_of(id) else {
        return Ok(());
    };
    watch.turn(board, brains, stream, standing, round, log)
}

// The brains are sound. It does nothing.
#[inline(always)]
fn lemma_sound(brains: Brains<'_>)
    ensures { AreSound (minds_of brains.entry) }
{
    let _red = brains.red.len();
    let _black = brains.black.len();
    let _corpse = brains.sheet.corpse();
}
