// Errands by far workers, which look at the same time. Looks that agree with a field, and looks that don't. And calls
// that take memory, if there is memory.
ghost use Rattle.std.specs.Prelude.{◌≡◌, ◌+◌, ◌<◌, ◌≤◌, ◌^◌, true, IfOk, length};
ghost use Rattle.std.specs.List.{AllByRecursion};
ghost use Rattle.std.specs.Option.{ForSome};
ghost use Rattle.std.specs.Arc.{arc_value};
ghost use Rattle.ant_base.specs.Shelf.{longest};
ghost use Rattle.ant_turn.specs.Minds.{Fits, minds_of};
ghost use Rattle.cell_world.specs.Grid.{world_of};

use ant_base::{Gate, LONGEST, NoGate};
use ant_turn::{Brains, Sheet};
use brain_read::{Brain, read_brain};
use cell_world::World;
use far_crew::{Errand, FarCrew, Found, Job, OwnBrains, agrees, with_far};
use round_book::{Crew, Field, play_window};
use std::alloc::Global;
use std::hint::spin_loop;
use std::process::Abort;
use std::sync::atomic::{AtomicBool, AtomicU32, Ordering};
use std::sync::{Arc, Wait};
use std::test::Fail;
use std::thread::Threads;
use world_read::read_world;

// The world in which a surrounded ant dies in the first round, the brains, and its seed.
pub(crate) const WORLD: &str =
    "7\n6\n# # # # # # #\n # . . . . . #\n# . . - # . #\n # - . + - # #\n# + . - - # #\n # # # # # # #\n";

const FLIPS: &str = "Flip 2 0 0";

const MOVES: &str = "Move 0 0";

pub(crate) const SEED: u32 = 12345;

// The guesses for the seven turns: only red ants draw numbers.
const GUESSES: [u64; 7] = [0, 0, 0, 1, 1, 2, 2];

// Turns of the looks with guesses, and whether they agree with the field on which they were made.
const OPENING: [(u32, u64, bool); 8] = [
    (0, 0, true),
    (1, 0, true),
    (2, 0, true),
    (3, 1, true),
    (4, 1, true),
    (5, 2, true),
    (6, 2, true),
    (4, 0, false),
];

// The same looks with the field after the round: a cell that turn 1 reads has changed, and the ant of turn 2 is dead.
const LATER: [(u32, u64, bool); 7] = [
    (0, 0, true),
    (1, 0, false),
    (2, 0, false),
    (3, 1, true),
    (4, 1, true),
    (5, 2, true),
    (6, 2, true),
];

// The guesses for the next round, in which the dead ant doesn't draw.
const NEXT_GUESSES: [u64; 7] = [1, 1, 1, 1, 1, 2, 2];

// Looks that were made at them on the field after the round, with that field: the dead ant is dead in both.
const NEXT: [(u32, u64, bool); 7] = [
    (0, 1, true),
    (1, 1, true),
    (2, 1, true),
    (3, 1, true),
    (4, 1, true),
    (5, 2, true),
    (6, 2, true),
];

// The brains of a game.
#[derive(Drop)]
pub(crate) struct Players {
    pub(crate) red: Brain,
    pub(crate) black: Brain,
}

fn brain_of<R: Abort>(rt: &R, alloc: Global, text: &str) -> Result<Brain, Fail> {
    let bytes = text.as_bytes();
    assert!(rt; bytes.len() <= LONGEST);
    Ok(read_brain(alloc, bytes)?)
}

pub(crate) fn make_players<R: Abort>(rt: &R, alloc: Global) -> Result<Players, Fail> {
    let red = brain_of(rt, alloc, FLIPS)?;
    let black = brain_of(rt, alloc, MOVES)?;
    Ok(Players { red, black })
}

// The world of a text, which these brains fit.
pub(crate) fn opened_world(alloc: Global, text: &[u8], brains: Brains<'_>) -> Result<World, Fail>
    requires { length text.now ≤ longest }
    ensures { IfOk result (λ world. Fits (world_of world) (minds_of brains.entry)) }
{
    let world = read_world(alloc, text)?;
    let _red_states = brains.red.len();
    let _black_states = brains.black.len();
    Ok(world)
}

// A whole field with the world of a text, at the start of a seed's random numbers.
pub(crate) fn field_on<'b>(
    alloc: Global,
    text: &[u8],
    brains: Brains<'b>,
    seed: u32,
) -> Result<Field<'b>, Fail>
    requires { length text.now ≤ longest }
    ensures { IfOk result (λ field. (field.whole ≡ true) × (field.place ≡ 0)) }
{
    let world = opened_world(alloc, text, brains)?;
    Ok(Field::new(alloc, world, brains, seed, 0)?)
}

// A whole field at the start of the game.
pub(crate) fn field_of<'b, R: Abort>(
    rt: &R,
    alloc: Global,
    players: &'b Players,
) -> Result<Field<'b>, Fail>
    ensures { IfOk result (λ field. (field.whole ≡ true) × (field.place ≡ 0)) }
{
    let bytes = WORLD.as_bytes();
    assert!(rt; bytes.len() <= LONGEST);
    let brains = Brains {
        red: &players.red,
        black: &players.black,
        sheet: Sheet::contest(),
    };
    field_on(alloc, bytes, brains, SEED)
}

// Copies of a field's brains.
fn own_brains(alloc: Global, field: &Field<'_>) -> Result<Arc<OwnBrains>, Fail>
    ensures { IfOk result (λ minds. arc_value minds ≡ field.now.minds) }
{
    Ok(Arc::new(alloc, OwnBrains::of(alloc, field.brains())?)?)
}

// A copy of its world.
fn base_of(alloc: Global, field: &Field<'_>) -> Result<Arc<World>, Fail>
    ensures { IfOk result (λ base. arc_value base ≡ field.now.world) }
{
    Ok(Arc::new(alloc, field.world().copy(alloc)?)?)
}

// The looks at all turns of a field's next round, each at its guess.
fn found_on<R: Abort>(
    rt: &R,
    alloc: Global,
    field: &Field<'_>,
    guesses: &[u64],
) -> Result<Found, Fail>
    requires count { length guesses.now ≡ 7 }
    requires small { AllByRecursion (λ guess. guess + 1 < 2 ^ 63) guesses.now }
{
    assert!(rt; 7 <= field.world().ant_count());
    let minds = own_brains(alloc, field)?;
    let base = base_of(alloc, field)?;
    let job = Job::of(alloc, field, minds, base, 0, 7, guesses)?;
    Ok(job.work(&NoGate, 0))
}

// Asserts of each row whether the look at its turn agrees with a field at its guess.
fn check_rows<R: Abort>(rt: &R, field: &Field<'_>, found: &Found, rows: &[(u32, u64, bool)]) {
    for (turn, guess, wanted) in rows {
        assert!(rt; (*turn as usize) < found.len());
        assert_eq!(rt; agrees(field, found, *turn, *guess), *wanted, "turn {turn}");
    }
}

// The looks of the game's first round.
fn first_looks<R: Abort>(rt: &R, alloc: Global, players: &Players) -> Result<Found, Fail> {
    let field = field_of(rt, alloc, players)?;
    found_on(rt, alloc, &field, &GUESSES)
}

// The field after the game's first round.
fn later_field<'b, R: Abort>(
    rt: &R,
    alloc: Global,
    players: &'b Players,
) -> Result<Field<'b>, Fail> {
    let mut field = field_of(rt, alloc, players)?;
    let ids = field.world().ant_count();
    play_window(&NoGate, alloc, &mut field, 0, ids)?;
    Ok(field)
}

// Asserts of each table whether the looks agree with their field: that of the game's start, or that after its first
// round.
fn check_agreement<R: Abort>(rt: &R, alloc: Global, players: &Players) -> Result<(), Fail> {
    let found = first_looks(rt, alloc, players)?;
    let opening = field_of(rt, alloc, players)?;
    check_rows(rt, &opening, &found, &OPENING);
    let later = later_field(rt, alloc, players)?;
    check_rows(rt, &later, &found, &LATER);
    let next = found_on(rt, alloc, &later, &NEXT_GUESSES)?;
    check_rows(rt, &later, &next, &NEXT);
    Ok(())
}

#[test]
fn looks_agree_with_a_field_where_it_is_the_same(rt: HostRuntime) -> Result<(), Fail> {
    let players = make_players(&rt, rt.alloc())?;
    check_agreement(&rt, rt.alloc(), &players)
}

// An errand that ends at once.
#[derive(Drop)]
struct Early {
    number: u32,
}

impl Errand for Early {
    ghost finished = { λ before after. after ≡ before };

    fn run<C: Crew>(self, _crew: &mut C) -> Self {
        self
    }
}

// Asserts that an errand is returned unchanged from a scope of this many workers.
fn check_early<R: Threads + Wait + Sync + Abort>(rt: &R, alloc: Global, workers: u32) {
    assert!(rt; 1 <= workers && workers <= 16);
    let Ok(done) = with_far(rt, alloc, workers, &NoGate, Early { number: workers }) else {
        panic!(rt; "there is memory");
    };
    assert_eq!(rt; done.number, workers);
}

#[test]
fn an_errand_may_end_early(rt: HostRuntime) {
    check_early(&rt, rt.alloc(), 1);
    check_early(&rt, rt.alloc(), 16);
}

// The number of turns after which a worker that waits for the other one gives up.
const PATIENCE: u32 = 100_000_000;

// A gate at which two workers wait for each other, each as long as its patience lasts. It has whether each of them
// called it, how often each turn was announced, and whether one waited in vain or was neither of them.
#[derive(Drop)]
struct Pair {
    begun: [AtomicBool; 2],
    announced: Vec<AtomicU32>,
    missed: AtomicBool,
}

impl Pair {
    // No worker has called it, for the given number of turns.
    fn of(alloc: Global, turns: usize) -> Result<Pair, Fail> {
        let mut announced = Vec::new(alloc);
        for _ in 0..turns {
            announced.push(AtomicU32::new(0))?;
        }
        Ok(Pair {
            begun: [AtomicBool::new(false), AtomicBool::new(false)],
            announced,
            missed: AtomicBool::new(false),
        })
    }

    // Asserts that only the two workers called it, that they met, and that each turn was announced once.
    fn check<R: Abort>(&self, rt: &R) {
        assert!(rt;
            !self.missed.load(Ordering::SeqCst),
            "a worker waited in vain"
        );
        for (turn, count) in self.announced.iter().enumerate() {
            check_announced(rt, turn, count);
        }
    }
}

// Asserts that a turn was announced once.
fn check_announced<R: Abort>(rt: &R, turn: usize, count: &AtomicU32) {
    assert_eq!(rt; count.load(Ordering::SeqCst), 1, "turn {turn}");
}

impl Gate for Pair {
    fn before_look(&self, worker: u32, ticket: u32) {
        let met = match worker {
            0 => meets(&self.begun[0], &self.begun[1]),
            1 => meets(&self.begun[1], &self.begun[0]),
            _ => false,
        };
        match self.announced.get(ticket as usize) {
            Some(count) if met => {
                count.fetch_add(1, Ordering::SeqCst);
            }
            _ => self.missed.store(true, Ordering::SeqCst),
        }
    }
}

// Announces that one worker has begun, and returns whether the other begins within its patience.
fn meets(own: &AtomicBool, other: &AtomicBool) -> bool {
    own.store(true, Ordering::SeqCst);
    for _ in 0..PATIENCE {
        if other.load(Ordering::SeqCst) {
            return true;
        }
        spin_loop();
    }
    false
}

// How often a gate was called, and the sum of the numbers with which it was called.
#[derive(Drop)]
struct Told {
    calls: AtomicU32,
    numbers: AtomicU32,
}

impl Gate for Told {
    fn before_look(&self, worker: u32, _ticket: u32) {
        self.calls.fetch_add(1, Ordering::SeqCst);
        self.numbers.fetch_add(worker, Ordering::SeqCst);
    }
}

// Five workers, none started, play a window of three turns. Asserts that each turn is announced, with the number of
// workers.
fn check_unstarted<R: Wait + Abort>(rt: &R, alloc: Global, players: &Players) -> Result<(), Fail> {
    let mut field = field_of(rt, alloc, players)?;
    assert!(rt; 3 <= field.world().ant_count());
    let told = Told {
        calls: AtomicU32::new(0),
        numbers: AtomicU32::new(0),
    };
    let mut crew = FarCrew::unstarted(rt, alloc, &told, 5);
    let counts = crew.window(alloc, &mut field, 0, 3)?;
    assert_eq!(rt; (counts.taken(), counts.redone()), PLAYED.first);
    assert_eq!(rt; crew.turns(), 3);
    assert_eq!(rt; told.calls.load(Ordering::SeqCst), 3);
    assert_eq!(rt; told.numbers.load(Ordering::SeqCst), 15);
    Ok(())
}

#[test]
fn the_committer_announces_each_look_by_the_number_of_workers(rt: HostRuntime) -> Result<(), Fail> {
    let players = make_players(&rt, rt.alloc())?;
    check_unstarted(&rt, rt.alloc(), &players)
}

// The result of two windows: how many looks were used and turns executed again in each, and the place after them.
#[derive(Clone, Copy, Debug, PartialEq, Eq)]
struct Played {
    first: (u32, u32),
    second: (u32, u32),
    place: u64,
}

// An errand that plays the first round of its game in two windows, the first of three turns; and its result.
#[derive(Drop)]
struct FirstRound<'b> {
    alloc: Global,
    field: Option<Field<'b>>,
    played: Option<Played>,
    ghost begins: { ForSome field (λ field. (field.whole ≡ true) × (field.place ≡ 0)) },
}

impl Errand for FirstRound<'_> {
    ghost use Rattle.std.specs.Prelude.{⊤};

    ghost finished = { λ _ _. ⊤ };

    fn run<C: Crew>(self, crew: &mut C) -> Self {
        let FirstRound {
            alloc,
            field,
            played: _,
        } = self;
        let played = match field {
            Some(mut field) => play_first_round(alloc, &mut field, crew),
            None => None,
        };
        FirstRound {
            alloc,
            field: None,
            played,
        }
    }
}

// Plays the first round of a game in two windows by a crew, if there is memory.
fn play_first_round<C: Crew>(alloc: Global, field: &mut Field<'_>, crew: &mut C) -> Option<Played>
    requires ready { C.ready crew.old }
    requires whole { field.old.whole ≡ true }
    requires first { field.old.place ≡ 0 }
{
    let ids = field.world().ant_count();
    let between = ids.min(3);
    let first = crew.window(alloc, field, 0, between).ok()?;
    if field.place() > 3 {
        return None;
    }
    let second = crew.window(alloc, field, between, ids).ok()?;
    Some(Played {
        first: (first.taken(), first.redone()),
        second: (second.taken(), second.redone()),
        place: field.place(),
    })
}

// Asserts the result of the round by two workers that stay ready. They look at the same time, and once at each turn.
fn check_pair<R: Threads + Wait + Sync + Abort>(
    rt: &R,
    alloc: Global,
    players: &Players,
) -> Result<(), Fail> {
    let field = field_of(rt, alloc, players)?;
    let pair = Pair::of(alloc, 7)?;
    let errand = FirstRound {
        alloc,
        field: Some(field),
        played: None,
    };
    let Ok(done) = with_far(rt, alloc, 2, &pair, errand) else {
        panic!(rt; "there is memory");
    };
    assert_eq!(rt; done.played, Some(PLAYED));
    pair.check(rt);
    Ok(())
}

// The red ant with id 2 dies in turn 1, so its own turn is executed again. The second window's guesses take that into
// account.
const PLAYED: Played = Played {
    first: (2, 1),
    second: (4, 0),
    place: 1,
};

#[test]
fn workers_that_stand_by_look_at_the_same_time_in_both_windows(
    rt: HostRuntime,
) -> Result<(), Fail> {
    let players = make_players(&rt, rt.alloc())?;
    check_pair(&rt, rt.alloc(), &players)
}
