// The command `workload`.
ghost use Rattle.std.specs.Prelude.{◌≡◌, ◌≤◌, ℕ, IfOk};
ghost use Rattle.ant_base.specs.Layout.{◌+++◌};
ghost use Rattle.ant_base.specs.Sink.{Pushed};
ghost use Rattle.ant_turn.specs.Minds.{Fits};
ghost use Rattle.cell_world.specs.Grid.{world_of};
ghost use Rattle.ant_commands.specs.Jobs.{workload_job};
ghost use Rattle.dump_print.specs.Texts.{score_text, stats_text};
ghost use Rattle.match_run.specs.Run.{most_rounds};
ghost use Rattle.ant_commands.specs.Inner.Reading.{CarriesOut, ending_of};
ghost use Rattle.ant_commands.specs.Inner.Plans.{IsGenerating};
ghost use Rattle.ant_commands.specs.Outputs.{contest_shape, sample_minds, summary_lines, summary_of, workload_text};
ghost use Rattle.ant_commands.specs.Sample.{sample_brain};

use crate::commands::generate::generated;
use crate::commands::played::play_game;
use crate::commands::sample::sample_brain;
use crate::stop::{CommandStop, after_push};
use ant_base::{Failed, Layout, Shelf, Sink, layout};
use ant_turn::{Brains, Sheet};
use brain_read::Brain;
use cell_world::{Colour, Score, World};
use command_words::DEFAULT_WINDOW;
use dump_print::{push_score, push_stats};
use match_run::{OutOfMemory, Totals};
use round_book::{Crew, Field};
use std::alloc::Global;
use world_gen::{Shape, food_on_cells};

/// The result of a workload.
#[derive(Clone, Copy)]
pub struct Summary {
    /// How many ids there are.
    pub ants: u32,
    /// The food on all cells at the start.
    pub food: u32,
    /// The red ants that are alive at the end.
    pub red: u32,
    /// The black ants that are alive at the end.
    pub black: u32,
    /// The score at the end.
    pub score: Score,
    /// The counts of the turns.
    pub totals: Totals,
}

// The world of a seed and the contest's shape.
fn contest_world<'w>(alloc: Global, seed: u32) -> Result<World, CommandStop<'w>>
    ensures { IsGenerating seed contest_shape result }
{
    generated(alloc, seed, Shape::contest())
}

// The result of a game on a world. Both sides play with this brain.
fn summary_of<C: Crew>(
    alloc: Global,
    crew: &mut C,
    world: World,
    brain: &Brain,
    seed: u32,
    rounds: u32,
) -> Result<Summary, OutOfMemory>
    requires ready { C.ready crew.old }
    requires sample { brain.now ≡ sample_brain }
    requires fit { Fits (world_of world) sample_minds }
    requires few_rounds { rounds ≤ most_rounds }
    ensures { IfOk result (λ summary. summary ≡ summary_of seed rounds (world_of world)) }
{
    let ants = world.ant_count();
    let food = food_on_cells(&world);
    let brains = Brains {
        red: brain,
        black: brain,
        sheet: Sheet::contest(),
    };
    let field = Field::new(alloc, world, brains, seed, 0)?;
    let game = play_game(alloc, crew, field, DEFAULT_WINDOW, rounds)?;
    let end = game.world();
    Ok(Summary {
        ants,
        food,
        red: end.alive(Colour::Red),
        black: end.alive(Colour::Black),
        score: end.score(),
        totals: game.totals(),
    })
}

#[tactic(auto, unfolding(crate::specs::Outputs::workload_text))]
fn push_summary<K: Sink>(
    seed: u32,
    rounds: u32,
    summary: Summary,
    out: &mut K,
) -> Result<(), Failed>
    ensures { Pushed (K.state out.old) (K.state out.new) (workload_text seed rounds summary) result }
{
    push_lines(seed, rounds, summary, out)?;
    push_end(summary, out)
}

// Pushes the first four lines, the last without its end.
#[tactic(auto, unfolding(crate::specs::Outputs::summary_lines))]
fn push_lines<K: Sink>(seed: u32, rounds: u32, summary: Summary, out: &mut K) -> Result<(), Failed>
    ensures { Pushed (K.state out.old) (K.state out.new) (summary_lines seed rounds summary) result }
{
    layout!(
        "workload seed ",
        seed,
        " rounds ",
        rounds,
        "\nants ",
        summary.ants,
        "\nfood ",
        summary.food,
        "\nalive red ",
        summary.red,
        " black ",
        summary.black
    )
    .push_to(out)
}

// Pushes the end of the fourth line, the score and the counts.
#[tactic(auto, using(std::proofs::lemmas::Result::err_from_is_err_and, ant_base::proofs::Pushes::front_more, ant_base::proofs::Pushes::pushed_then))]
fn push_end<K: Sink>(summary: Summary, out: &mut K) -> Result<(), Failed>
    ensures { Pushed (K.state out.old) (K.state out.new) (score_text summary.score +++ stats_text summary.totals) result }
{
    push_score(summary.score, out)?;
    push_stats(summary.totals, out)
}

/// Generates the world of the contest's shape from a seed, plays this number of rounds on it, and writes the result.
/// The game is by the contest's rules, and both sides play with the task's sample brain. The crew may have any number
/// of workers.
pub fn workload<'w, C: Crew, S: Shelf, K: Sink>(
    alloc: Global,
    crew: &mut C,
    seed: u32,
    rounds: u32,
    shelf: &mut S,
    out: &mut K,
) -> Result<(), CommandStop<'w>>
    requires ready { C.ready crew.old }
    requires few_rounds { rounds ≤ most_rounds }
    ensures { (workers : ℕ) → CarriesOut (workload_job seed rounds workers)
        (S.state shelf.old) (S.state shelf.new) (K.state out.old) (K.state out.new) (ending_of result) }
{
    let world = contest_world(alloc, seed)?;
    let brain = sample_brain(alloc)?;
    let summary = summary_of(alloc, crew, world, &brain, seed, rounds)?;
    after_push(push_summary(seed, rounds, summary, out))
}
