// The text of a game's events.
ghost use Rattle.std.specs.Prelude.{◌≡◌, ◌&&◌, ◌+◌, ◌<◌, ◌≤◌, ◌^◌, flat_map, Some, false, true};
ghost use Rattle.ant_base.specs.Layout.{text_of_option};
ghost use Rattle.ant_base.specs.Sink.{Pushed};
ghost use Rattle.ant_turn.specs.Listed.{IsUp};
ghost use Rattle.ant_turn.specs.Minds.{Fits, mind_of, minds_of};
ghost use Rattle.ant_turn.specs.Turn.{instruction_at, turn};
ghost use Rattle.cell_world.specs.Cell.{one_if};
ghost use Rattle.cell_world.specs.Grid.{world_of};
ghost use Rattle.cell_world.specs.World.{with_cells};
ghost use Rattle.match_run.specs.Run.{most_rounds};
ghost use Rattle.game_reports.specs.Events.{changed_score, event_lines};
ghost use Rattle.game_reports.specs.Inner.Broken.{broken};
ghost use Rattle.game_reports.specs.Inner.EventWords.{broken_death, broken_food, broken_score, broken_turn, carry_of, moved_by, told_death, verb_of};
ghost use Rattle.game_reports.specs.Inner.Chunks.{is_quiet, moves_food};
ghost use Rattle.game_reports.specs.Report.{report_text};
ghost use Rattle.hex_geometry.specs.Position.{IsInside};
ghost use Rattle.match_run.specs.Seen.{seen};
ghost use Rattle.match_run.specs.Watch.{moment_of};

use crate::report::{Report, ReportPlan, push_report};
use crate::words::{AntWords, HillWords, PlaceWords};
use ant_base::{Failed, Layout, Sink, layout};
use ant_random::Stream;
use ant_turn::{Brains, act, take_turn_noting_kills};
use arrayvec::ArrayVec;
use brain_read::Instr;
use cell_world::{Ant, Colour, Ground, PlacedAnt, Score, World};
use hex_geometry::Pos;
use match_run::ScoredWorld;

/// Plays a game and pushes its events: the line of the seed, and then the lines of each turn. Each ant that is killed
/// in the turn has a line, such as `round 1, black ant 1: red ant 2 dies on (3, 3)`: the acting ant, the killed ant and
/// the place of its death, which is the new cell of an ant that dies by its own Move. These lines are in the order of
/// the checks. A turn that changes the score has a line with the new score after them, such as `round 1, black ant 1:
/// score: red 3 black 0`. With `food`, a turn in which the ant takes a particle, or drops the one that it carries, has
/// a line before that of the score, such as `round 7, red ant 3: state 4 drops food on (3, 3), red hill`: the state
/// that the ant executes, its cell, and the hill to which the cell belongs, if any (the task's martial arts and game
/// play; the lines are this project's own). Turns before the plan's first round have no lines.
///
/// Each ant's state is below the length of its colour's brain, as in every opening world, and the plan has at most
/// 1,000,000 rounds. The turns are those of a run. Each line is pushed after its turn and before the next one. It fails
/// only if the sink failed and its count of faults rose; then a prefix of the text was pushed. It makes no looks and
/// takes no memory. The score is counted over the cells once, at the start.
pub fn events<K: Sink>(
    world: World,
    brains: Brains<'_>,
    plan: ReportPlan,
    food: bool,
    sink: &mut K,
) -> Result<(), Failed>
    requires fit { Fits (world_of world) (minds_of brains) }
    requires few_rounds { plan.rounds ≤ most_rounds }
    ensures { Pushed (K.state sink.old) (K.state sink.new)
        (report_text (event_lines food) plan.from (minds_of brains.entry) plan.seed (world_of world) plan.rounds) result }
{
    let mut ground = ScoredWorld::of(world);
    push_report(&EventReport { food }, plan, &mut ground, brains, sink)
}

// The lines of each turn, with those of food or without them.
#[derive(Drop)]
struct EventReport {
    food: bool,
}

impl EventReport {
    // Whether a turn of this instruction may have a line of food.
    #[inline(always)]
    fn adds_food(&self, instruction: &Instr) -> bool
        ensures { result ≡ (moves_food instruction.now && self.now.food) }
    {
        moves_food(instruction) && self.food
    }
}

impl Report for EventReport {
    ghost use Rattle.game_reports.specs.Events.{event_lines};

    type On = ScoredWorld;

    ghost lines = { λ report. event_lines report.food };

    #[inline(always)]
    fn tell<K: Sink>(
        &self,
        ground: &mut ScoredWorld,
        brains: &Brains<'_>,
        stream: &mut Stream,
        standing: PlacedAnt,
        round: u32,
        sink: &mut K,
    ) -> Result<(), Failed> {
        let ant = standing.ant;
        let instruction = brains.of(ant.colour).instruction(ant.state);
        if is_quiet(instruction) {
            let _deed = act(ground, *brains, stream, standing);
            return Ok(());
        }
        if self.adds_food(instruction) {
            return push_carried(ground, brains, stream, ant.id, round, sink);
        }
        push_deed(ground, brains, stream, ant.id, round, sink)
    }
}

// Whether an instruction never kills and never moves food.
#[inline(always)]
fn is_quiet(instruction: &Instr) -> bool
    ensures { result ≡ is_quiet instruction.now }
{
    match *instruction {
        Instr::Move { .. } | Instr::PickUp { .. } | Instr::Drop { .. } => false,
        _ => true,
    }
}

// Whether an instruction may move food.
#[inline(always)]
fn moves_food(instruction: &Instr) -> bool
    ensures { result ≡ moves_food instruction.now }
{
    match *instruction {
        Instr::PickUp { .. } | Instr::Drop { .. } => true,
        _ => false,
    }
}

// Takes the turn of an ant that doesn't rest, if it is alive, and pushes its lines except those of food. Its
// instruction may kill or move food. It is a function of its own, so that the notes cost other turns nothing. It takes
// the brains borrowed and the ant by its id, since copies of them would be made in each turn.
#[inline(never)]
fn push_deed<K: Sink>(
    ground: &mut ScoredWorld,
    brains: &Brains<'_>,
    stream: &mut Stream,
    id: u32,
    round: u32,
    sink: &mut K,
) -> Result<(), Failed>
    requires fit { Fits (world_of ground.old) (minds_of brains.now) }
    requires id { id < ground.old.ids }
    requires up { IsUp (world_of ground.old) id }
    requires place { stream.old.place + 1 < 2 ^ 63 }
    ensures text { Pushed (K.state sink.old) (K.state sink.new)
        (broken (flat_map (event_lines false) (seen (minds_of brains.now) stream.old.seed round (moment_of (world_of ground.old) stream.old) id))) result }
    ensures world { world_of ground.new ≡ with_cells (world_of ground.old)
        (turn (minds_of brains.now) stream.old.seed (world_of ground.old) stream.old.place id).cells }
    ensures stream { stream.new ≡ record stream.old {
      place = stream.old.place + one_if (turn (minds_of brains.now) stream.old.seed (world_of ground.old) stream.old.place id).drew;
    } }
    ensures fit { Fits (world_of ground.new) (minds_of brains.now) }
{
    let Some(standing) = ground.ant_of(id) else {
        return Ok(());
    };
    let before = ground.score();
    let mut dead = ArrayVec::new();
    let _deed = take_turn_noting_kills(ground, *brains, stream, standing, &mut dead);
    let turn = TurnWords {
        round,
        actor: standing.ant,
    };
    push_deaths(turn, &dead, sink)?;
    push_score(turn, before, ground.score(), sink)
}

// The same with the line of food, for a turn that may move food, if it is requested. So it costs other turns nothing.
#[inline(never)]
fn push_carried<K: Sink>(
    ground: &mut ScoredWorld,
    brains: &Brains<'_>,
    stream: &mut Stream,
    id: u32,
    round: u32,
    sink: &mut K,
) -> Result<(), Failed>
    requires fit { Fits (world_of ground.old) (minds_of brains.now) }
    requires id { id < ground.old.ids }
    requires up { IsUp (world_of ground.old) id }
    requires place { stream.old.place + 1 < 2 ^ 63 }
    ensures text { Pushed (K.state sink.old) (K.state sink.new)
        (broken (flat_map (event_lines true) (seen (minds_of brains.now) stream.old.seed round (moment_of (world_of ground.old) stream.old) id))) result }
    ensures world { world_of ground.new ≡ with_cells (world_of ground.old)
        (turn (minds_of brains.now) stream.old.seed (world_of ground.old) stream.old.place id).cells }
    ensures stream { stream.new ≡ record stream.old {
      place = stream.old.place + one_if (turn (minds_of brains.now) stream.old.seed (world_of ground.old) stream.old.place id).drew;
    } }
    ensures fit { Fits (world_of ground.new) (minds_of brains.now) }
{
    let Some(standing) = ground.ant_of(id) else {
        return Ok(());
    };
    let before = ground.score();
    let moved = food_moved(ground, brains, standing);
    let mut dead = ArrayVec::new();
    let _deed = take_turn_noting_kills(ground, *brains, stream, standing, &mut dead);
    let turn = TurnWords {
        round,
        actor: standing.ant,
    };
    push_deaths(turn, &dead, sink)?;
    push_food(turn, standing.place, moved, sink)?;
    push_score(turn, before, ground.score(), sink)
}

// The direction in which a particle goes in a turn.
#[derive(Clone, Copy)]
enum Carry {
    Takes,
    Drops,
}

impl Carry {
    // What the ant does.
    fn verb(self) -> &'static str
        ensures { result.now ≡ verb_of self }
    {
        match self {
            Carry::Takes => " takes",
            Carry::Drops => " drops",
        }
    }
}

// A particle that goes between an ant and its cell, and the hill of the cell.
#[derive(Clone, Copy)]
struct MovedFood {
    carry: Carry,
    hill: Option<Colour>,
}

// The particle that goes between this ant and its cell in its turn, if one does.
#[inline]
fn food_moved(
    ground: &mut ScoredWorld,
    brains: &Brains<'_>,
    standing: PlacedAnt,
) -> Option<MovedFood>
    requires fit { Fits (world_of ground.old) (minds_of brains.now) }
    requires inside { IsInside (world_of ground.old).width (world_of ground.old).height standing.place }
    requires here { ((world_of ground.old).cells standing.place).ant ≡ Some standing.ant }
    ensures moved { result ≡ moved_by true ((world_of ground.old).cells standing.place) standing.ant
        (instruction_at (mind_of (minds_of brains.now) standing.ant.colour) standing.ant.state) }
    ensures world { world_of ground.new ≡ world_of ground.old }
{
    let ant = standing.ant;
    let cell = ground.cell_at(standing.place);
    let carry = carry_of(ant.laden, cell.food, brains.of(ant.colour).at(ant.state))?;
    Some(MovedFood {
        carry,
        hill: cell.hill,
    })
}

// The direction in which a particle goes, by the ant's load and its cell's food.
#[inline]
fn carry_of(laden: bool, food: u32, instruction: Instr) -> Option<Carry>
    ensures { result ≡ carry_of laden food instruction }
{
    match instruction {
        Instr::PickUp { .. } => {
            if laden || food == 0 {
                None
            } else {
                Some(Carry::Takes)
            }
        }
        Instr::Drop { .. } => { if laden { Some(Carry::Drops) } else { None } }
        _ => None,
    }
}

// Pushes the line of the particle that an ant took or dropped, if it did.
#[inline]
fn push_food<K: Sink>(
    turn: TurnWords,
    place: Pos,
    moved: Option<MovedFood>,
    sink: &mut K,
) -> Result<(), Failed>
    ensures { Pushed (K.state sink.old) (K.state sink.new) (text_of_option (broken_food turn.round turn.actor place) moved) result }
{
    let Some(moved) = moved else {
        return Ok(());
    };
    FoodWords { turn, place, moved }.push_to(sink)
}

// Pushes the lines of the killed, if there are any.
#[inline(always)]
fn push_deaths<K: Sink>(
    turn: TurnWords,
    dead: &[Option<PlacedAnt>],
    sink: &mut K,
) -> Result<(), Failed>
    ensures { Pushed (K.state sink.old) (K.state sink.new) (flat_map (told_death turn.round turn.actor) dead.now) result }
{
    if dead.is_empty() {
        return Ok(());
    }
    push_each_death(turn, dead, sink)
}

// Pushes the lines of the killed.
fn push_each_death<K: Sink>(
    turn: TurnWords,
    dead: &[Option<PlacedAnt>],
    sink: &mut K,
) -> Result<(), Failed>
    ensures { Pushed (K.state sink.old) (K.state sink.new) (flat_map (told_death turn.round turn.actor) dead.now) result }
{
    for killed in dead {
        death(turn, killed).push_to(sink)?;
    }
    Ok(())
}

// The words of a killed ant.
fn death(turn: TurnWords, killed: &Option<PlacedAnt>) -> Option<DeathWords>
    ensures { text_of_option (λ words. broken_death words.turn.round words.turn.actor words.killed) result ≡ told_death turn.round turn.actor killed.now }
{
    let killed = *killed;
    Some(DeathWords {
        turn,
        killed: killed?,
    })
}

// Pushes the line of the score, if it has changed.
#[inline]
fn push_score<K: Sink>(
    turn: TurnWords,
    before: Score,
    after: Score,
    sink: &mut K,
) -> Result<(), Failed>
    ensures { Pushed (K.state sink.old) (K.state sink.new)
        (flat_map (broken_score turn.round turn.actor) (changed_score before after)) result }
{
    if before.red == after.red && before.black == after.black {
        return Ok(());
    }
    push_new_score(turn, after, sink)
}

// Pushes the line of a score.
fn push_new_score<K: Sink>(turn: TurnWords, score: Score, sink: &mut K) -> Result<(), Failed>
    ensures { Pushed (K.state sink.old) (K.state sink.new) (broken_score turn.round turn.actor score) result }
{
    layout!(turn, "score: red ", score.red, " black ", score.black).push_to(sink)
}

// The round and the ant whose turn it is, after an LF.
#[derive(Clone, Copy)]
struct TurnWords {
    round: u32,
    actor: Ant,
}

impl Layout for TurnWords {
    ghost text = { λ words. broken_turn words.round words.actor };

    fn push_to<K: Sink>(&self, sink: &mut K) -> Result<(), Failed> {
        layout!("\nround ", self.round, ", ", AntWords(self.actor), ": ").push_to(sink)
    }
}

// The words of an ant that dies.
#[derive(Clone, Copy)]
struct DeathWords {
    turn: TurnWords,
    killed: PlacedAnt,
}

impl Layout for DeathWords {
    ghost text = { λ words. broken_death words.turn.round words.turn.actor words.killed };

    fn push_to<K: Sink>(&self, sink: &mut K) -> Result<(), Failed> {
        layout!(
            self.turn,
            AntWords(self.killed.ant),
            " dies on ",
            PlaceWords(self.killed.place)
        )
        .push_to(sink)
    }
}

// The words of a particle that is taken or dropped on a cell.
#[derive(Clone, Copy)]
struct FoodWords {
    turn: TurnWords,
    place: Pos,
    moved: MovedFood,
}

impl Layout for FoodWords {
    ghost text = { λ words. broken_food words.turn.round words.turn.actor words.place words.moved };

    fn push_to<K: Sink>(&self, sink: &mut K) -> Result<(), Failed> {
        layout!(
            self.turn,
            "state ",
            self.turn.actor.state,
            self.moved.carry.verb(),
            " food on ",
            PlaceWords(self.place),
            HillWords(self.moved.hill)
        )
        .push_to(sink)
    }
}
