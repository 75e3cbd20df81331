// Games that crews play, round by round.
ghost use Rattle.std.specs.Prelude.{◌≡◌, ◌≤◌, true, IfOk, length};
ghost use Rattle.ant_base.specs.Shelf.{longest};

use crate::commands::ROOM;
use crate::commands::runs::{KILLED, KILLING_ROUND};
use ant_base::{Calls, LONGEST, MemSink};
use ant_turn::{Brains, Sheet};
use brain_read::{Brain, read_brain};
use dump_print::push_dump;
use hex_geometry::OutOfMemory;
use match_run::{Game, MOST_ROUNDS, Totals};
use round_book::{Counts, Crew, Field, SoloCrew};
use std::alloc::Global;
use std::process::Abort;
use std::test::Fail;
use world_read::read_world;

// The seed of the game in which a surrounded ant dies.
pub const SEED: u32 = 12345;

// A crew that plays as another one does, except that one of its calls refuses to play a window.
#[derive(Drop)]
struct Refusing<C: Drop> {
    crew: C,
    calls: u64,
    refused: u64,
}

impl<C: Crew + Drop> Crew for Refusing<C> {
    ghost played = { λ refusing. C.played refusing.crew };

    ghost ready = { λ refusing. C.ready refusing.crew };

    fn turns(&self) -> u64 {
        self.crew.turns()
    }

    fn window(
        &mut self,
        alloc: Global,
        field: &mut Field<'_>,
        from: u32,
        to: u32,
    ) -> Result<Counts, OutOfMemory> {
        self.calls = self.calls.saturating_add(1);
        if self.calls == self.refused {
            return Err(OutOfMemory);
        }
        self.crew.window(alloc, field, from, to)
    }
}

// The brains of a game.
#[derive(Drop)]
pub struct Players {
    red: Brain,
    black: Brain,
}

// The brain of a text.
fn brain_of<R: Abort>(rt: &R, alloc: Global, text: &str) -> Result<Brain, Fail> {
    let bytes = text.as_bytes();
    assert!(rt; bytes.len() <= LONGEST);
    Ok(read_brain(alloc, bytes)?)
}

// The brains of the game in which a surrounded ant dies.
pub(super) fn killing_players<R: Abort>(rt: &R, alloc: Global) -> Result<Players, Fail> {
    let red = brain_of(rt, alloc, KILLING_ROUND.red)?;
    let black = brain_of(rt, alloc, KILLING_ROUND.black)?;
    Ok(Players { red, black })
}

// A whole field with the world of a text, at the start of a seed's random numbers.
fn field_on<'b>(
    alloc: Global,
    text: &[u8],
    brains: Brains<'b>,
    seed: u32,
) -> Result<Field<'b>, Fail>
    requires { length text.now ≤ longest }
    ensures { IfOk result (λ field. (field.whole ≡ true) × (field.place ≡ 0)) }
{
    let world = read_world(alloc, text)?;
    let _red_states = brains.red.len();
    let _black_states = brains.black.len();
    Ok(Field::new(alloc, world, brains, seed, 0)?)
}

// A whole field at the start of the game in which a surrounded ant dies, with these brains.
pub(super) fn killing_field<'b, R: Abort>(
    rt: &R,
    alloc: Global,
    players: &'b Players,
) -> Result<Field<'b>, Fail>
    ensures { IfOk result (λ field. (field.whole ≡ true) × (field.place ≡ 0)) }
{
    let bytes = KILLING_ROUND.world.as_bytes();
    assert!(rt; bytes.len() <= LONGEST);
    let brains = Brains {
        red: &players.red,
        black: &players.black,
        sheet: Sheet::contest(),
    };
    field_on(alloc, bytes, brains, SEED)
}

// The state of a game: how many rounds are done, the counts of its turns, the place in the stream of random numbers,
// whether a round is at its end, and how many turns its crew says it played.
#[derive(Clone, Copy, Debug, PartialEq, Eq)]
struct Stage {
    done: u32,
    turns: u64,
    taken: u64,
    redone: u64,
    place: u64,
    at_round_end: bool,
    played: u64,
}

// The state of a game.
fn stage_of<C: Crew>(game: &Game<'_>, crew: &C) -> Stage {
    let Totals {
        turns,
        taken,
        redone,
    } = game.totals();
    Stage {
        done: game.done(),
        turns,
        taken,
        redone,
        place: game.place(),
        at_round_end: game.at_round_end(),
        played: crew.turns(),
    }
}

// Plays a round, and asserts its result.
fn check_round<R: Abort, C: Crew>(
    rt: &R,
    alloc: Global,
    game: &mut Game<'_>,
    crew: &mut C,
    wanted: Result<(), OutOfMemory>,
    stage: Stage,
)
    requires { C.ready crew.old }
    ensures { C.ready crew.new }
{
    assert!(rt; game.done() < MOST_ROUNDS);
    let round = game.round(alloc, crew);
    assert_eq!(rt; (round, stage_of(game, crew)), (wanted, stage));
}

// The game after its first round.
const FIRST: Stage = Stage {
    done: 1,
    turns: 7,
    taken: 6,
    redone: 1,
    place: 1,
    at_round_end: true,
    played: 7,
};

// The game after its second round.
const SECOND: Stage = Stage {
    done: 2,
    turns: 14,
    taken: 13,
    redone: 1,
    place: 2,
    at_round_end: true,
    played: 14,
};

// The game after the first window of its first round, at the death of the red ant.
const BROKEN_OFF: Stage = Stage {
    done: 0,
    turns: 3,
    taken: 2,
    redone: 1,
    place: 0,
    at_round_end: false,
    played: 3,
};

// Asserts that the red ant with id 2 is dead.
fn check_dead<R: Abort>(rt: &R, game: &Game<'_>) {
    assert_eq!(rt; game.world().ant_place(2), None);
}

// The dump of the world of a game.
fn dump_of(alloc: Global, game: &Game<'_>) -> Result<MemSink, Fail> {
    let mut sink = MemSink::with_room(alloc, ROOM, Calls::new(alloc))?;
    push_dump(game.world(), 1, &mut sink)?;
    Ok(sink)
}

// The text of a run with this dump.
fn text_with(alloc: Global, dump: &[u8]) -> Result<String, Fail> {
    let dump = str::from_utf8(dump)?;
    Ok(format!(in alloc; "random seed: {SEED}\n{dump}\nscore: red 3 black 0\n")?)
}

// The text of a run with one dump, that of the world of a game.
fn text_of(alloc: Global, game: &Game<'_>) -> Result<String, Fail> {
    let dump = dump_of(alloc, game)?;
    text_with(alloc, dump.held())
}

// Asserts that a text is the expected one.
fn check_same<R: Abort>(rt: &R, text: &str, wanted: &str) {
    assert_eq!(rt; text, wanted);
}

// Asserts that the world of a game is that of the dump after the round in which the red ant dies.
fn check_killed<R: Abort>(rt: &R, alloc: Global, game: &Game<'_>) -> Result<(), Fail> {
    let text = text_of(alloc, game)?;
    check_same(rt, &text, KILLED);
    Ok(())
}

// A round, its result, and the state of the game after it.
#[derive(Clone, Copy)]
struct Round {
    answer: Result<(), OutOfMemory>,
    stage: Stage,
}

// Two rounds of the game in which a surrounded ant dies. `refused` is the number of the call for a window that the crew
// refuses, or 0 if it refuses none.
#[derive(Clone, Copy)]
struct Played {
    refused: u64,
    first: Round,
    second: Round,
}

const GAMES: [Played; 2] = [
    Played {
        refused: 0,
        first: Round {
            answer: Ok(()),
            stage: FIRST,
        },
        second: Round {
            answer: Ok(()),
            stage: SECOND,
        },
    },
    Played {
        refused: 2,
        first: Round {
            answer: Err(OutOfMemory),
            stage: BROKEN_OFF,
        },
        second: Round {
            answer: Ok(()),
            stage: FIRST,
        },
    },
];

// Plays a round, and asserts its result: the red ant with id 2 dies in the first one.
fn check_step<R: Abort, C: Crew>(
    rt: &R,
    alloc: Global,
    game: &mut Game<'_>,
    crew: &mut C,
    round: Round,
) -> Result<(), Fail>
    requires { C.ready crew.old }
    ensures { C.ready crew.new }
{
    check_round(rt, alloc, game, crew, round.answer, round.stage);
    check_dead(rt, game);
    if round.stage.done == 1 {
        check_killed(rt, alloc, game)?;
    }
    Ok(())
}

// Asserts the results of the next two rounds of a game.
fn check_rounds<R: Abort>(
    rt: &R,
    alloc: Global,
    game: &mut Game<'_>,
    played: &Played,
) -> Result<(), Fail> {
    let mut crew = Refusing {
        crew: SoloCrew::new(),
        calls: 0,
        refused: played.refused,
    };
    check_step(rt, alloc, game, &mut crew, played.first)?;
    check_step(rt, alloc, game, &mut crew, played.second)
}

// Asserts the results of two rounds of the game in which a surrounded ant dies.
fn check_game<R: Abort>(rt: &R, alloc: Global, played: &Played) -> Result<(), Fail> {
    let players = killing_players(rt, alloc)?;
    check_game_of(rt, alloc, &players, played)
}

// Asserts the results of two rounds of the game with these players.
fn check_game_of<R: Abort>(
    rt: &R,
    alloc: Global,
    players: &Players,
    played: &Played,
) -> Result<(), Fail> {
    let mut game = Game::begin(killing_field(rt, alloc, players)?, 3);
    check_rounds(rt, alloc, &mut game, played)
}

// Asserts the results of each game in the list.
fn check_games<R: Abort>(rt: &R, alloc: Global, games: &[Played]) -> Result<(), Fail> {
    for played in games {
        check_game(rt, alloc, played)?;
    }
    Ok(())
}

#[test]
fn a_game_is_played_by_any_crew_and_goes_on_after_a_refusal(rt: HostRuntime) -> Result<(), Fail> {
    check_games(&rt, rt.alloc(), &GAMES)
}
