// The text of a game's profile.
ghost use Rattle.std.specs.Prelude.{◌≡◌, ◌*◌, ◌≤◌, [], length};
ghost use Rattle.ant_base.specs.Layout.{◌+++◌};
ghost use Rattle.ant_base.specs.Sink.{Pushed};
ghost use Rattle.ant_turn.specs.Minds.{Fits, minds_of};
ghost use Rattle.cell_world.specs.declared.ant.Colour.TheVariants.{Red, Black};
ghost use Rattle.cell_world.specs.Grid.{world_of};
ghost use Rattle.cell_world.specs.Limits.{most_ants};
ghost use Rattle.dump_print.specs.Texts.{seed_text};
ghost use Rattle.game_reports.specs.Inner.Tallies.{AreFew, AreTallied, HaveStates, counted_line, tally_lines};
ghost use Rattle.game_reports.specs.Profile.{executed_in_rounds, met_text, profile_text, tally_line};
ghost use Rattle.game_reports.specs.Pushes.{PushedBefore};
ghost use Rattle.match_run.specs.Run.{most_rounds};

use crate::executed::executed_by;
use crate::report::ReportPlan;
use crate::tally::{Tallies, Tally};
use ant_base::{Each, Failed, Layout, NumberedTexts, PushFault, Sink, layout};
use ant_random::Stream;
use ant_turn::{Brains, act};
use brain_read::{Brain, Instr};
use cell_world::{Colour, PlacedAnt, World};
use dump_print::{ColourWord, push_seed};
use match_run::{Watch, watch_rounds};
use std::alloc::Global;

/// Plays a game and then pushes how often each state was executed: the line of the seed, a line for each state of the
/// red brain, from 0, and then one for each state of the black brain, such as `red 7: 120 times: Drop 0`, or `red 8: 91
/// times, 13 met: Move 9 3` if the instruction has two answers. The first number counts the turns in which an ant of
/// that colour was alive, didn't rest and was in this state. The second one counts those in which the answer was the
/// first: the condition held, a particle was taken, the ant moved, the number drawn was 0. The canonical text of the
/// instruction comes last (the task's neurology and kinetics; the lines are this project's own). Turns before the
/// plan's first round aren't counted.
///
/// Each ant's state is below the length of its colour's brain, as in every opening world, and the plan has at most
/// 1,000,000 rounds. The turns are those of a run. It makes no looks, and takes memory for two counts for each state.
/// If memory runs out, nothing was pushed and no turn was played. If the sink failed, its count of faults rose, and a
/// prefix of the text was pushed.
pub fn profile<K: Sink>(
    alloc: Global,
    world: World,
    brains: Brains<'_>,
    plan: ReportPlan,
    sink: &mut K,
) -> Result<(), PushFault>
    requires fit { Fits (world_of world) (minds_of brains) }
    requires few_rounds { plan.rounds ≤ most_rounds }
    ensures { PushedBefore (K.state sink.old) (K.state sink.new)
        (profile_text (minds_of brains.entry) plan.seed (world_of world) plan.rounds plan.from) result }
{
    let none = Tallies::new(alloc, brains)?;
    let tallies = count_rounds(world, brains, plan, none);
    Ok(push_profile(brains, plan.seed, &tallies, sink)?)
}

// Plays the rounds of a plan, and counts what is executed from its first round on.
fn count_rounds(world: World, brains: Brains<'_>, plan: ReportPlan, tallies: Tallies) -> Tallies
    requires fit { Fits (world_of world) (minds_of brains) }
    requires few_rounds { plan.rounds ≤ most_rounds }
    requires none { AreTallied (minds_of brains) [] tallies }
    requires few { AreFew tallies (plan.rounds * most_ants) }
    ensures { AreTallied (minds_of brains.entry)
        (executed_in_rounds (minds_of brains.entry) plan.seed (world_of world) plan.rounds plan.from) result }
{
    let mut world = world;
    let mut stream = Stream::from_seed(plan.seed);
    let mut counting = Counting {
        tallies,
        ahead: Stream::from_seed(plan.seed),
    };
    let _watched = watch_rounds(
        &StateWatch { from: plan.from },
        &mut world,
        &brains,
        &mut stream,
        plan.rounds,
        &mut counting,
    );
    let Counting {
        tallies,
        ahead: _ahead,
    } = counting;
    tallies
}

// The counts, and any stream, which only saves looking numbers up.
#[derive(Drop)]
struct Counting {
    tallies: Tallies,
    ahead: Stream,
}

// It counts what is executed in each turn from a round on.
#[derive(Drop)]
struct StateWatch {
    from: u32,
}

impl Watch for StateWatch {
    ghost use Rattle.std.specs.Prelude.{IsTrue};
    ghost use Rattle.std.specs.Result.{is_ok};
    ghost use Rattle.game_reports.specs.declared.executed.Executed.{Executed};
    ghost use Rattle.game_reports.specs.Inner.Tallies.{AreFew, CountsMore, HaveStates};
    ghost use Rattle.game_reports.specs.Profile.{executed_in};
    ghost use Rattle.match_run.specs.Told.{from_round};

    type On = World;

    type Log = Counting;

    type Stop = ();

    ghost Told = { Executed };

    ghost telling = { λ watch minds seed. from_round watch.from (λ _. executed_in minds seed) };

    ghost logs = { λ _ old new told result. IsTrue (is_ok result) × CountsMore told old.tallies new.tallies };

    ghost ready = { λ _ minds counting turns. HaveStates minds counting.tallies × AreFew counting.tallies turns };

    #[inline(always)]
    fn turn(
        &self,
        world: &mut World,
        brains: &Brains<'_>,
        stream: &mut Stream,
        standing: PlacedAnt,
        round: u32,
        counting: &mut Counting,
    ) -> Result<(), ()> {
        if round < self.from {
            let _deed = act(world, *brains, stream, standing);
            return Ok(());
        }
        let executed = executed_by(world, brains, stream, &mut counting.ahead, standing);
        let _deed = act(world, *brains, stream, standing);
        counting.tallies.count(executed);
        Ok(())
    }
}

// Pushes the text of what was counted.
fn push_profile<K: Sink>(
    brains: Brains<'_>,
    seed: u32,
    tallies: &Tallies,
    sink: &mut K,
) -> Result<(), Failed>
    requires states { HaveStates (minds_of brains) tallies.now }
    ensures { Pushed (K.state sink.old) (K.state sink.new)
        (seed_text seed +++ tally_lines Red (minds_of brains.entry).red tallies.now.red.items +++ tally_lines Black (minds_of brains.entry).black tallies.now.black.items) result }
{
    push_seed(seed, sink)?;
    push_brain(Colour::Red, brains.red, tallies.of(Colour::Red), sink)?;
    push_brain(Colour::Black, brains.black, tallies.of(Colour::Black), sink)
}

// Pushes the lines of a colour's brain.
fn push_brain<K: Sink>(
    colour: Colour,
    brain: &Brain,
    tallies: &[Tally],
    sink: &mut K,
) -> Result<(), Failed>
    requires states { length tallies.now ≡ length brain.now }
    ensures { Pushed (K.state sink.old) (K.state sink.new) (tally_lines colour brain.now tallies.now) result }
{
    Each(BrainLines {
        colour,
        brain,
        tallies,
    })
    .push_to(sink)
}

// The lines of a colour's brain, of which each state has a tally.
#[derive(Clone, Copy)]
struct BrainLines<'b> {
    colour: Colour,
    brain: &'b Brain,
    tallies: &'b [Tally],
    ghost states: { length tallies.now ≡ length brain.now },
}

impl NumberedTexts for BrainLines<'_> {
    ghost count = { λ lines. length lines.brain.now };

    ghost part = { λ lines state. counted_line lines.colour lines.brain.now lines.tallies.now state };

    fn count(&self) -> usize {
        self.brain.len() as usize
    }

    fn push_part<K: Sink>(&self, at: usize, sink: &mut K) -> Result<(), Failed> {
        let states = self.brain.len() as usize;
        prove!(at < states);
        let state = at as u16;
        StateLine {
            colour: self.colour,
            state,
            instruction: self.brain.at(state),
            tally: self.tallies[at],
        }
        .push_to(sink)
    }
}

// The line of a state.
#[derive(Clone, Copy)]
struct StateLine {
    colour: Colour,
    state: u16,
    instruction: Instr,
    tally: Tally,
}

impl Layout for StateLine {
    ghost text = { λ line. tally_line line.colour line.state line.instruction line.tally.times line.tally.met };

    #[tactic(auto, unfolding(crate::specs::Profile::tally_line))]
    fn push_to<K: Sink>(&self, sink: &mut K) -> Result<(), Failed> {
        layout!(
            ColourWord(self.colour),
            " ",
            self.state,
            ": ",
            self.tally.times,
            " times",
            MetWords {
                instruction: self.instruction,
                met: self.tally.met
            },
            ": ",
            self.instruction
        )
        .push_to(sink)
    }
}

// In how many turns the answer was the first, if the instruction has two.
#[derive(Clone, Copy)]
struct MetWords {
    instruction: Instr,
    met: u64,
}

impl Layout for MetWords {
    ghost text = { λ words. met_text words.instruction words.met };

    fn push_to<K: Sink>(&self, sink: &mut K) -> Result<(), Failed> {
        match self.instruction {
            Instr::Sense { .. } | Instr::PickUp { .. } | Instr::Move { .. } | Instr::Flip { .. } =>
                { layout!(", ", self.met, " met").push_to(sink) }
            Instr::Mark { .. } | Instr::Unmark { .. } | Instr::Drop { .. } | Instr::Turn { .. } =>
                Ok(()),
        }
    }
}
