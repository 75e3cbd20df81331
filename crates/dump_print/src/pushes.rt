// The public calls; each pushes one text.
ghost use Rattle.ant_base.specs.Sink.{Pushed};
ghost use Rattle.cell_world.specs.Grid.{world_of};
ghost use Rattle.dump_print.specs.Texts.{cells_text, dump_text, score_text, seed_text, seed_words, stats_text};

use crate::lines::Cells;
use crate::totals::Totals;
use ant_base::{Failed, Layout, Sink, layout};
use cell_world::{Score, World};

/// The words of a seed, such as `random seed: 12345`: its line without the LF.
#[derive(Clone, Copy)]
pub struct SeedWords(pub u32);

impl Layout for SeedWords {
    ghost text = { λ words. seed_words words.0 };

    fn push_to<K: Sink>(&self, sink: &mut K) -> Result<(), Failed> {
        layout!("random seed: ", self.0).push_to(sink)
    }
}

/// Pushes the line of a seed, such as `random seed: 12345`. At `Failed` a prefix of the line was appended.
#[tactic(auto, unfolding(crate::specs::Texts::seed_text))]
pub fn push_seed<K: Sink>(seed: u32, sink: &mut K) -> Result<(), Failed>
    ensures { Pushed (K.state sink.old) (K.state sink.new) (seed_text seed) result }
{
    layout!(SeedWords(seed), "\n").push_to(sink)
}

/// Pushes a line for each cell, row by row from the top, each row from the left, such as `cell (1, 1): red hill; `. At
/// `Failed` a prefix of the lines was appended.
pub fn push_cells<K: Sink>(world: &World, sink: &mut K) -> Result<(), Failed>
    ensures { Pushed (K.state sink.old) (K.state sink.new) (cells_text (world_of world.now)) result }
{
    Cells(world).push_to(sink)
}

/// Pushes the dump of a world after the given number of rounds, 0 at the start: an empty line, `After round 0...` and
/// the lines of the cells. At `Failed` a prefix of the dump was appended.
///
/// For the opening world of `3\n3\n###\n#+#\n###\n` and round 0 it pushes 11 lines: the empty one, `After round 0...`,
/// and nine of cells. The seventh is `cell (1, 1): red hill; red ant of id 0, dir 0, food 0, state 0, resting 0`, and
/// the eight of the rim end in `: rock`.
#[tactic(auto, unfolding(crate::specs::Texts::dump_text))]
pub fn push_dump<K: Sink>(world: &World, round: u32, sink: &mut K) -> Result<(), Failed>
    ensures { Pushed (K.state sink.old) (K.state sink.new) (dump_text (world_of world.now) round) result }
{
    layout!("\nAfter round ", round, "...\n", Cells(world)).push_to(sink)
}

/// Pushes an empty line and the line of a score, such as `score: red 0 black 0`. At `Failed` a prefix of them was
/// appended.
#[tactic(auto, unfolding(crate::specs::Texts::score_text))]
pub fn push_score<K: Sink>(score: Score, sink: &mut K) -> Result<(), Failed>
    ensures { Pushed (K.state sink.old) (K.state sink.new) (score_text score) result }
{
    layout!("\nscore: red ", score.red, " black ", score.black, "\n").push_to(sink)
}

/// Pushes the line of a game's counts, such as `turns 7 taken 5 redone 2`. At `Failed` a prefix of the line was
/// appended.
#[tactic(auto, unfolding(crate::specs::Texts::stats_text))]
pub fn push_stats<K: Sink>(totals: Totals, sink: &mut K) -> Result<(), Failed>
    ensures { Pushed (K.state sink.old) (K.state sink.new) (stats_text totals) result }
{
    layout!(
        "turns ",
        totals.turns,
        " taken ",
        totals.taken,
        " redone ",
        totals.redone,
        "\n"
    )
    .push_to(sink)
}
