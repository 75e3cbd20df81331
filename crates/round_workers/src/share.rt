// The turns of a window at which each worker looks.
ghost use Rattle.std.specs.Prelude.{◌≡◌, ◌+◌, ◌-◌, ◌<◌, ◌≤◌};
ghost use Rattle.round_workers.specs.Crews.{most_workers};
ghost use Rattle.round_workers.specs.Inner.Shares.{share_of};

use work_share::border;

// The turns of a window: those of the ids from `from` up to, but not including, `to`.
#[derive(Clone, Copy)]
pub struct Turns {
    pub from: u32,
    pub to: u32,
}

// The turns of one worker, and the guess for the first of them.
#[derive(Clone, Copy)]
pub struct Share {
    pub worker: u32,
    pub from: u32,
    pub to: u32,
    pub guess: u64,
}

// The share of this worker in the turns of a window, if this is the guess for its first turn.
pub fn share_of(workers: u32, turns: Turns, worker: u32, guess: u64) -> Share
    requires workers { workers ≤ most_workers }
    requires worker { worker < workers }
    requires forwards { turns.from ≤ turns.to }
    ensures { result ≡ share_of workers turns.from (turns.to - turns.from) worker guess }
{
    let count = (turns.to - turns.from) as usize;
    Share {
        worker,
        from: turns.from + border(workers as usize, count, worker as usize) as u32,
        to: turns.from + border(workers as usize, count, worker as usize + 1) as u32,
        guess,
    }
}
