// The windows of a round, played one after another.
ghost use Rattle.std.specs.Prelude.{◌≡◌, ◌+◌, ◌-◌, ◌<◌, ◌≤◌, ◌^◌, true};
ghost use Rattle.match_run.specs.Counts.{both};
ghost use Rattle.match_run.specs.Game.{counted_on};
ghost use Rattle.match_run.specs.Inner.Windows.{WindowsPlayed};

use dump_print::Totals;
use round_book::{Counts, Crew, Field};
use std::alloc::Global;

// How far windows were played: the next turn, and the counts of all turns so far.
#[derive(Clone, Copy)]
pub(crate) struct Progress {
    pub(crate) next: u32,
    pub(crate) totals: Totals,
}

impl Progress {
    // One window further; it ends before turn `to`.
    fn after(self, to: u32, counts: &Counts) -> Progress
        requires forwards { self.next ≤ to }
        requires few { self.totals.turns + (to - self.next) < 2 ^ 63 }
        requires add_up { self.totals.taken + self.totals.redone ≡ self.totals.turns }
        requires counted { counts.now.taken + counts.now.redone ≡ to - self.next }
        ensures next { result.next ≡ to }
        ensures totals { result.totals ≡ both self.totals (record { turns = to - self.next; taken = counts.now.taken; redone = counts.now.redone }) }
    {
        Progress {
            next: to,
            totals: Totals {
                turns: self.totals.turns + u64::from(to - self.next),
                taken: self.totals.taken + u64::from(counts.taken()),
                redone: self.totals.redone + u64::from(counts.redone()),
            },
        }
    }
}

// Plays the windows of the turns from `from` on to the end of the round, or up to the first window that the crew
// refuses.
pub(crate) fn play_windows<C: Crew>(
    alloc: Global,
    crew: &mut C,
    field: &mut Field<'_>,
    size: u32,
    from: u32,
    totals: Totals,
) -> Progress
    requires ready { C.ready crew.old }
    requires whole { field.old.whole ≡ true }
    requires sized { 1 ≤ size }
    requires begins { from ≤ field.old.world.ids }
    requires lasting { field.old.place + (field.old.world.ids - from) < 2 ^ 63 }
    requires few { totals.turns + (field.old.world.ids - from) < 2 ^ 63 }
    requires add_up { totals.taken + totals.redone ≡ totals.turns }
    ensures ready { C.ready crew.new }
    ensures played { WindowsPlayed field.old size from totals field.new result.next result.totals }
    ensures add_up { result.totals.taken + result.totals.redone ≡ result.totals.turns }
    ensures turns { C.played crew.new ≡ counted_on (C.played crew.old) (result.totals.turns - totals.turns) }
{
    // A crew's count is a u64, so it doesn't change if there is no turn.
    let _count = crew.turns();
    let ids = field.world().ant_count();
    let mut progress = Progress { next: from, totals };
    while progress.next < ids {
        let to = progress.next + size.min(ids - progress.next);
        let Ok(counts) = crew.window(alloc, field, progress.next, to) else {
            return progress;
        };
        progress = progress.after(to, &counts);
    }
    progress
}
