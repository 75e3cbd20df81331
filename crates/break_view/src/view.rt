// The text of a view.
ghost use Rattle.ant_base.specs.Layout.{◌+++◌};
ghost use Rattle.ant_base.specs.Sink.{Pushed};
ghost use Rattle.dump_print.specs.Texts.{cells_text};
ghost use Rattle.cell_world.specs.Grid.{world_of};
ghost use Rattle.break_view.specs.Texts.{end_text, no_stop_line, stop_line, view_text};

use crate::stop::Stop;
use ant_base::{Failed, Layout, Sink, layout};
use cell_world::World;
use dump_print::{push_cells, push_seed};

/// Pushes the text of a view. First is the line of the seed. If there is a stop, its line follows, such as `stop: round
/// 1, ant 1, break 1`, and the lines of the world's cells; otherwise the line `no stop in 5 rounds`, with the number of
/// rounds that had to be played. At `Failed` a prefix of the text was pushed, and the sink's count of faults rose. It
/// takes no memory.
pub fn push_view<K: Sink>(
    world: &World,
    seed: u32,
    rounds: u32,
    stop: Option<Stop>,
    sink: &mut K,
) -> Result<(), Failed>
    ensures { Pushed (K.state sink.old) (K.state sink.new) (view_text (world_of world.now) seed rounds stop) result }
{
    push_seed(seed, sink)?;
    push_end(world, rounds, stop, sink)
}

// Pushes what follows the line of the seed.
fn push_end<K: Sink>(
    world: &World,
    rounds: u32,
    stop: Option<Stop>,
    sink: &mut K,
) -> Result<(), Failed>
    ensures { Pushed (K.state sink.old) (K.state sink.new) (end_text (world_of world.now) rounds stop) result }
{
    match stop {
        Some(stop) => push_stop(world, stop, sink),
        None => push_no_stop(rounds, sink),
    }
}

// Pushes the line of a stop, and the lines of the cells.
#[tactic(auto, using(ant_base::proofs::Pushes::pushed_then))]
fn push_stop<K: Sink>(world: &World, stop: Stop, sink: &mut K) -> Result<(), Failed>
    ensures { Pushed (K.state sink.old) (K.state sink.new) (stop_line stop +++ cells_text (world_of world.now)) result }
{
    StopLine(stop).push_to(sink)?;
    push_cells(world, sink)
}

// Pushes the line of a game without a stop.
#[tactic(auto, unfolding(crate::specs::Texts::no_stop_line))]
fn push_no_stop<K: Sink>(rounds: u32, sink: &mut K) -> Result<(), Failed>
    ensures { Pushed (K.state sink.old) (K.state sink.new) (no_stop_line rounds) result }
{
    layout!("no stop in ", rounds, " rounds\n").push_to(sink)
}

// The line of a stop.
#[derive(Clone, Copy)]
struct StopLine(Stop);

impl Layout for StopLine {
    ghost text = { λ line. stop_line line.0 };

    #[tactic(auto, unfolding(crate::specs::Texts::stop_line))]
    fn push_to<K: Sink>(&self, sink: &mut K) -> Result<(), Failed> {
        let stop = self.0;
        layout!(
            "stop: round ",
            stop.round,
            ", ant ",
            stop.id,
            ", break ",
            stop.which,
            "\n"
        )
        .push_to(sink)
    }
}
