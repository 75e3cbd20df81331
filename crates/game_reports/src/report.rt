// A report of a game: lines of what is seen of its turns.
ghost use Rattle.std.specs.Prelude.{◌≡◌, ◌+◌, ◌<◌, ◌≤◌, ◌^◌, ℕ, List, Some};
ghost use Rattle.ant_base.specs.Sink.{Pushed};
ghost use Rattle.ant_turn.specs.Minds.{Fits, minds_of};
ghost use Rattle.ant_turn.specs.Turn.{turn};
ghost use Rattle.cell_world.specs.Cell.{one_if};
ghost use Rattle.cell_world.specs.Valid.{Valid};
ghost use Rattle.cell_world.specs.World.{place_in, with_cells};
ghost use Rattle.match_run.specs.Run.{most_rounds};
ghost use Rattle.match_run.specs.Seen.{Seen, seen_here};
ghost use Rattle.match_run.specs.Watch.{moment_of};
ghost use Rattle.game_reports.specs.Inner.Broken.{broken};
ghost use Rattle.game_reports.specs.Report.{report_lines, report_text};

use ant_base::{Failed, Layout, Sink};
use ant_random::Stream;
use ant_turn::{Brains, act};
use cell_world::PlacedAnt;
use dump_print::SeedWords;
use match_run::{Board, Watch, watch_rounds};
use std::marker::PhantomData;

/// What a report of a game has to do: which game is played, and which of its rounds are reported.
#[derive(Clone, Copy, Debug, PartialEq, Eq)]
pub struct ReportPlan {
    /// The seed of the random numbers, from 0 to 4,294,967,295.
    pub seed: u32,
    /// How many rounds are played, from 0 to 1,000,000. Rounds are counted from 1.
    pub rounds: u32,
    /// The first round that is reported; 0 and 1 mean all. If it is above the last one, none is.
    pub from: u32,
}

// A kind of report: the lines of what is seen of a turn.
pub(crate) trait Report {
    // What the game is played on.
    type On: Board;

    // The lines of what is seen of a turn, each without its LF. `Self` is the setting of the report.
    ghost lines: { Self → Seen → List (List ℕ) };

    // Takes the turn of this ant, which is alive and doesn't rest, and pushes its lines, each after an LF.
    fn tell<K: Sink>(
        &self,
        board: &mut Self::On,
        brains: &Brains<'_>,
        stream: &mut Stream,
        standing: PlacedAnt,
        round: u32,
        sink: &mut K,
    ) -> Result<(), Failed>
        requires valid { Valid (Self.On.world board.old) }
        requires fit { Fits (Self.On.world board.old) (minds_of brains.now) }
        requires found { place_in (Self.On.world board.old) standing.ant.id ≡ Some standing.place }
        requires here { ((Self.On.world board.old).cells standing.place).ant ≡ Some standing.ant }
        requires up { standing.ant.resting ≡ 0 }
        requires place { stream.old.place + 1 < 2 ^ 63 }
        ensures world { Self.On.world board.new ≡ with_cells (Self.On.world board.old)
            (turn (minds_of brains.now) stream.old.seed (Self.On.world board.old) stream.old.place standing.ant.id).cells }
        ensures stream { stream.new ≡ record stream.old {
          place = stream.old.place + one_if (turn (minds_of brains.now) stream.old.seed (Self.On.world board.old) stream.old.place standing.ant.id).drew;
        } }
        ensures fit { Fits (Self.On.world board.new) (minds_of brains.now) }
        ensures told { Pushed (K.state sink.old) (K.state sink.new)
            (broken (lines self.now (seen_here (minds_of brains.now) stream.old.seed round (moment_of (Self.On.world board.old) stream.old) standing))) result };
}

// Plays a game and pushes its report: the line of the seed, and the lines of each turn from the plan's first round on.
pub(crate) fn push_report<R: Report, K: Sink>(
    report: &R,
    plan: ReportPlan,
    board: &mut R::On,
    brains: Brains<'_>,
    sink: &mut K,
) -> Result<(), Failed>
    requires fit { Fits (R.On.world board.old) (minds_of brains) }
    requires few_rounds { plan.rounds ≤ most_rounds }
    ensures { Pushed (K.state sink.old) (K.state sink.new)
        (report_text (R.lines report.now) plan.from (minds_of brains.entry) plan.seed (R.On.world board.old) plan.rounds) result }
{
    SeedWords(plan.seed).push_to(sink)?;
    push_rounds(report, plan, board, brains, sink)?;
    "\n".push_to(sink)
}

// Pushes the lines of the rounds. Each has its LF before it instead of after it, since the sinks of streams are flushed
// after each piece that ends in LF.
fn push_rounds<R: Report, K: Sink>(
    report: &R,
    plan: ReportPlan,
    board: &mut R::On,
    brains: Brains<'_>,
    sink: &mut K,
) -> Result<(), Failed>
    requires fit { Fits (R.On.world board.old) (minds_of brains) }
    requires few_rounds { plan.rounds ≤ most_rounds }
    ensures { Pushed (K.state sink.old) (K.state sink.new)
        (broken (report_lines (R.lines report.now) plan.from (minds_of brains.entry) plan.seed (R.On.world board.old) plan.rounds)) result }
{
    let mut stream = Stream::from_seed(plan.seed);
    let watch = Reporting::<R, K> {
        report,
        from: plan.from,
        sink: PhantomData,
    };
    watch_rounds(&watch, board, &brains, &mut stream, plan.rounds, sink)
}

// It pushes the lines of each turn from a round on.
#[derive(Drop)]
struct Reporting<'r, R, K> {
    report: &'r R,
    from: u32,
    sink: PhantomData<K>,
}

impl<R: Report, K: Sink> Watch for Reporting<'_, R, K> {
    ghost use Rattle.std.specs.Prelude.{ℕ, List};
    ghost use Rattle.ant_base.specs.Sink.{Pushed};
    ghost use Rattle.match_run.specs.Told.{from_round};
    ghost use Rattle.game_reports.specs.Inner.Broken.{broken};
    ghost use Rattle.game_reports.specs.Report.{told_of};

    type On = R::On;

    type Log = K;

    type Stop = Failed;

    ghost Told = { List ℕ };

    ghost telling = { λ watch minds seed. from_round watch.from (told_of (R.lines watch.report.now) minds seed) };

    ghost logs = { λ _ old new lines result. Pushed (K.state old) (K.state new) (broken lines) result };

    #[inline(always)]
    fn turn(
        &self,
        board: &mut R::On,
        brains: &Brains<'_>,
        stream: &mut Stream,
        standing: PlacedAnt,
        round: u32,
        sink: &mut K,
    ) -> Result<(), Failed> {
        if round < self.from {
            let _deed = act(board, *brains, stream, standing);
            return Ok(());
        }
        self.report
            .tell(board, brains, stream, standing, round, sink)
    }
}
