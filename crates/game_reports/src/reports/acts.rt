// The text of what the ants execute.
ghost use Rattle.std.specs.Prelude.{◌≡◌, ◌+◌, ◌<◌, ◌≤◌, ◌^◌, Some, codes};
ghost use Rattle.ant_base.specs.Layout.{◌+++◌};
ghost use Rattle.ant_base.specs.Sink.{Pushed};
ghost use Rattle.ant_turn.specs.Minds.{Fits, minds_of};
ghost use Rattle.cell_world.specs.Grid.{world_of};
ghost use Rattle.cell_world.specs.Valid.{Valid};
ghost use Rattle.dump_print.specs.Texts.{seed_text};
ghost use Rattle.game_reports.specs.Acts.{act_line, acts_text, answer_text, is_told, standing_words};
ghost use Rattle.game_reports.specs.Inner.ActWords.{broken_act, unmade_of};
ghost use Rattle.game_reports.specs.Trace.{unmade_text};
ghost use Rattle.match_run.specs.Run.{most_rounds};
ghost use Rattle.match_run.specs.Seen.{seen_here};
ghost use Rattle.match_run.specs.Watch.{moment_of};

use crate::executed::is_met;
use crate::report::{Report, ReportPlan, push_report};
use crate::words::{AntWords, PlaceWords};
use ant_base::{Failed, Layout, Sink, layout};
use ant_random::Stream;
use ant_turn::{Brains, act};
use brain_read::{Draft, Instr, InstructionWords};
use cell_world::{PlacedAnt, World};
use dump_print::push_seed;

/// Plays a game and pushes what its ants execute: the line of the seed, and then a line for each turn of a living ant
/// that doesn't rest, such as `round 3, red ant 0: on (2, 2), dir 0, food 1, state 7: Move 8 6: met`. Position,
/// direction, food and state are those before the turn. The canonical text of the instruction follows, and then `met`
/// if the answer was the first, as in a profile, or `unmet`; an instruction with one answer is met (the task's
/// neurology and kinetics; the lines are this project's own). Turns before the plan's first round have no lines. If
/// `one` is the id of an ant, only its turns have lines. If no ant ever had this id, there is one line after that of
/// the seed, such as `no ant of id 99`, whatever the first round is, and no round is played.
///
/// Each ant's state is below the length of its colour's brain, as in every opening world, and the plan has at most
/// 1,000,000 rounds. The turns are those of a run. Each line is pushed after its turn and before the next one. It fails
/// only if the sink failed and its count of faults rose; then a prefix of the text was pushed. It makes no looks and
/// takes no memory.
pub fn acts<K: Sink>(
    world: World,
    brains: Brains<'_>,
    plan: ReportPlan,
    one: Option<u32>,
    sink: &mut K,
) -> Result<(), Failed>
    requires fit { Fits (world_of world) (minds_of brains) }
    requires few_rounds { plan.rounds ≤ most_rounds }
    ensures { Pushed (K.state sink.old) (K.state sink.new)
        (acts_text (minds_of brains.entry) plan.seed (world_of world) plan.rounds one plan.from) result }
{
    if let Some(id) = unmade(one, world.ant_count()) {
        return push_unmade(plan.seed, id, sink);
    }
    let mut world = world;
    push_report(&ActReport { one }, plan, &mut world, brains, sink)
}

// The requested id, if there is one and no ant ever had it; `ids` is the number of ids.
fn unmade(one: Option<u32>, ids: u32) -> Option<u32>
    ensures { result ≡ unmade_of one ids }
{
    let id = one?;
    if id < ids {
        return None;
    }
    Some(id)
}

// Pushes that no ant ever had this id.
fn push_unmade<K: Sink>(seed: u32, id: u32, sink: &mut K) -> Result<(), Failed>
    ensures { Pushed (K.state sink.old) (K.state sink.new) (seed_text seed +++ unmade_text id) result }
{
    push_seed(seed, sink)?;
    layout!("no ant of id ", id, "\n").push_to(sink)
}

// The lines of every ant's turns, or of one ant's.
#[derive(Drop)]
struct ActReport {
    one: Option<u32>,
}

impl ActReport {
    // Whether the turns of this id have lines.
    #[inline(always)]
    fn tells(&self, id: u32) -> bool
        ensures { result ≡ is_told self.now.one id }
    {
        match self.one {
            Some(one) => one == id,
            None => true,
        }
    }
}

impl Report for ActReport {
    ghost use Rattle.game_reports.specs.Acts.{act_lines};

    type On = World;

    ghost lines = { λ report. act_lines report.one };

    #[inline(always)]
    fn tell<K: Sink>(
        &self,
        world: &mut World,
        brains: &Brains<'_>,
        stream: &mut Stream,
        standing: PlacedAnt,
        round: u32,
        sink: &mut K,
    ) -> Result<(), Failed> {
        if !self.tells(standing.ant.id) {
            let _deed = act(world, *brains, stream, standing);
            return Ok(());
        }
        let words = ActWords::of(world, brains, stream, standing, round);
        let _deed = act(world, *brains, stream, standing);
        words.push_to(sink)
    }
}

// What an ant executes in its turn.
#[derive(Clone, Copy)]
struct ActWords {
    round: u32,
    standing: PlacedAnt,
    instruction: Instr,
    met: bool,
}

impl ActWords {
    // What this ant, which doesn't rest, executes in its turn.
    #[inline(always)]
    fn of(
        world: &mut World,
        brains: &Brains<'_>,
        stream: &Stream,
        standing: PlacedAnt,
        round: u32,
    ) -> ActWords
        requires valid { Valid (world_of world.old) }
        requires fit { Fits (world_of world.old) (minds_of brains.now) }
        requires here { ((world_of world.old).cells standing.place).ant ≡ Some standing.ant }
        requires place { stream.now.place + 1 < 2 ^ 63 }
        ensures line { broken_act result.round result.standing result.instruction result.met ≡
            codes "\n" +++ act_line (seen_here (minds_of brains.now) stream.now.seed round (moment_of (world_of world.old) stream.now) standing) }
        ensures world { world_of world.new ≡ world_of world.old }
    {
        let instruction = brains.of(standing.ant.colour).at(standing.ant.state);
        let mut ahead = Stream::from_seed(stream.seed());
        ActWords {
            round,
            standing,
            instruction,
            met: is_met(world, stream, &mut ahead, standing, instruction),
        }
    }
}

// Its line, after an LF.
impl Layout for ActWords {
    ghost text = { λ words. broken_act words.round words.standing words.instruction words.met };

    fn push_to<K: Sink>(&self, sink: &mut K) -> Result<(), Failed> {
        layout!(
            "\nround ",
            self.round,
            ", ",
            StandingWords(self.standing),
            ": ",
            InstructionWords(Draft::of(self.instruction)),
            ": ",
            AnswerWord(self.met)
        )
        .push_to(sink)
    }
}

// An ant and its position.
#[derive(Clone, Copy)]
struct StandingWords(PlacedAnt);

impl Layout for StandingWords {
    ghost text = { λ words. standing_words words.0.place words.0.ant };

    fn push_to<K: Sink>(&self, sink: &mut K) -> Result<(), Failed> {
        let ant = self.0.ant;
        layout!(
            AntWords(ant),
            ": on ",
            PlaceWords(self.0.place),
            ", dir ",
            ant.facing.number(),
            ", food ",
            u8::from(ant.laden),
            ", state ",
            ant.state
        )
        .push_to(sink)
    }
}

// The word of an answer.
#[derive(Clone, Copy)]
struct AnswerWord(bool);

impl Layout for AnswerWord {
    ghost text = { λ answer. answer_text answer.0 };

    fn push_to<K: Sink>(&self, sink: &mut K) -> Result<(), Failed> {
        if self.0 {
            "met".push_to(sink)
        } else {
            "unmet".push_to(sink)
        }
    }
}
