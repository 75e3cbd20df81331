// The text of a trace: one ant's way.
ghost use Rattle.std.specs.Prelude.{◌≡◌, ◌+◌, ◌-◌, ◌≤◌, is_none, codes, decimal};
ghost use Rattle.ant_base.specs.Layout.{◌+++◌, numbered};
ghost use Rattle.ant_base.specs.Sink.{Pushed};
ghost use Rattle.ant_turn.specs.Minds.{Fits, minds_of};
ghost use Rattle.cell_world.specs.Grid.{world_of};
ghost use Rattle.cell_world.specs.World.{place_in};
ghost use Rattle.match_run.specs.Run.{most_rounds};
ghost use Rattle.game_reports.specs.Inner.WayWords.{broken_end, broken_line, told_of, words_of, worlds_from};
ghost use Rattle.game_reports.specs.Trace.{trace_text};

use ant_base::{Failed, Layout, Sink, layout};
use ant_turn::Brains;
use cell_world::World;
use dump_print::{CellWords, SeedWords};
use match_run::GameAlone;

/// What a trace has to do: which ant is reported, in which rounds of which game.
#[derive(Clone, Copy, Debug, PartialEq, Eq)]
pub struct TracePlan {
    /// The id of the ant, from 0. There may be no ant with this id.
    pub id: u32,
    /// The seed of the random numbers, from 0 to 4,294,967,295.
    pub seed: u32,
    /// How many rounds are played, from 0 to 1,000,000. Rounds are counted from 1; round 0 is the start.
    pub rounds: u32,
    /// The first round that is reported. If it is above the last one, none is.
    pub from: u32,
}

/// Plays a game and pushes where one ant is: the line of the seed, and then a line for each round from the plan's first
/// to its last, such as `round 17: cell (3, 4): 1 food; red ant of id 2, dir 0, food 0, state 12, resting 0`. After
/// `round R: ` it is the line of the ant's cell in a dump of that round. If the ant is dead by then, the line is `round
/// R: dead`, and it is the last one. If no ant ever had this id, there is one line after that of the seed, such as `no
/// ant of id 99`, whatever the first round is.
///
/// Each ant's state is below the length of its colour's brain, as in every opening world, and the plan has at most
/// 1,000,000 rounds. The turns are those of a run. It fails only if the sink failed and its count of faults rose; then
/// a prefix of the text was pushed. No round is played after the last one that has a line, and none if none has. It
/// makes no looks and takes no memory.
pub fn trace<K: Sink>(
    world: World,
    brains: Brains<'_>,
    plan: &TracePlan,
    sink: &mut K,
) -> Result<(), Failed>
    requires fit { Fits (world_of world) (minds_of brains) }
    requires few_rounds { plan.now.rounds ≤ most_rounds }
    ensures { Pushed (K.state sink.old) (K.state sink.new)
        (trace_text (minds_of brains.entry) plan.now.seed (world_of world) plan.now.rounds plan.now.id plan.now.from) result }
{
    SeedWords(plan.seed).push_to(sink)?;
    push_end(world, brains, plan, sink)?;
    "\n".push_to(sink)
}

// Pushes what follows the words of the seed, without the last LF. Each line has its LF before it instead of after it,
// since the sinks of streams are flushed after each piece that ends in LF.
fn push_end<K: Sink>(
    world: World,
    brains: Brains<'_>,
    plan: &TracePlan,
    sink: &mut K,
) -> Result<(), Failed>
    requires fit { Fits (world_of world) (minds_of brains) }
    requires few_rounds { plan.now.rounds ≤ most_rounds }
    ensures { Pushed (K.state sink.old) (K.state sink.new)
        (broken_end (minds_of brains.entry) plan.now.seed (world_of world) plan.now.rounds plan.now.id plan.now.from) result }
{
    if plan.id >= world.ant_count() {
        return push_unmade(plan.id, sink);
    }
    if plan.from > plan.rounds {
        return Ok(());
    }
    let mut game = GameAlone::begin(world, brains, plan.seed);
    game.play_on(plan.from);
    push_lines(&mut game, plan.id, plan.rounds, sink)
}

// Pushes that no ant ever had this id.
fn push_unmade<K: Sink>(id: u32, sink: &mut K) -> Result<(), Failed>
    ensures { Pushed (K.state sink.old) (K.state sink.new) (codes "\nno ant of id " +++ decimal id) result }
{
    layout!("\nno ant of id ", id).push_to(sink)
}

// Pushes the lines of an ant from the current round on, each after an LF, and plays the rounds between them.
fn push_lines<K: Sink>(
    game: &mut GameAlone<'_>,
    id: u32,
    rounds: u32,
    sink: &mut K,
) -> Result<(), Failed>
    requires left { game.old.done ≤ rounds }
    requires few_rounds { rounds ≤ most_rounds }
    ensures { Pushed (K.state sink.old) (K.state sink.new)
        (numbered (broken_line (worlds_from game.old) id game.old.done) (rounds + 1 - game.old.done)) result }
{
    let from = game.done();
    for _ in 0..rounds - from {
        let told = ToldRound::of(game.world(), game.done(), id);
        told.push_to(sink)?;
        if told.is_last() {
            return Ok(());
        }
        game.round();
    }
    ToldRound::of(game.world(), game.done(), id).push_to(sink)
}

// A round, and the cell of the ant after it, if it is alive.
#[derive(Clone, Copy)]
struct ToldRound {
    round: u32,
    cell: Option<CellWords>,
}

impl ToldRound {
    // The report of an ant after a round, which led to this world.
    fn of(world: &World, round: u32, id: u32) -> ToldRound
        ensures { result ≡ told_of (world_of world.now) round (place_in (world_of world.now) id) }
    {
        let cell = match world.ant_place(id) {
            Some(at) => Some(CellWords {
                at,
                cell: world.cell(at),
            }),
            None => None,
        };
        ToldRound { round, cell }
    }

    // Whether no later round is reported.
    fn is_last(self) -> bool
        ensures { result ≡ is_none self.cell }
    {
        self.cell.is_none()
    }
}

// Its line without the LF, after the LF of the previous line.
impl Layout for ToldRound {
    ghost text = { words_of };

    fn push_to<K: Sink>(&self, sink: &mut K) -> Result<(), Failed> {
        match self.cell {
            Some(cell) => layout!("\nround ", self.round, ": ", cell).push_to(sink),
            None => layout!("\nround ", self.round, ": dead").push_to(sink),
        }
    }
}
