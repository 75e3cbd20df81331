// A round in which each ant of a world takes its turn: red ants flip, black ones move, and one Move kills.
ghost use Rattle.std.specs.Prelude.{◌≡◌, [], ◌∷◌, IfOk};
ghost use Rattle.ant_turn.specs.Minds.{Fits, minds_of};
ghost use Rattle.brain_read.specs.Soundness.{IsSound};
ghost use Rattle.cell_world.specs.Grid.{world_of};

use crate::tests::{BLACK, CLEAR, RED, ROCK, shared};
use ant_random::Stream;
use ant_turn::{Brains, Sheet, check_around, surrounded, take_turn};
use brain_read::{Brain, Instr};
use cell_world::{Kind, Score, World};
use hex_geometry::Pos;
use std::alloc::{AllocError, Global};
use std::process::Abort;

// The brain with one instruction.
fn brain_of(alloc: Global, instruction: Instr) -> Result<Brain, AllocError>
    requires { IsSound 1 instruction }
    ensures { IfOk result (λ b. b ≡ instruction ∷ []) }
{
    Ok(Brain::from_list(vec![in alloc; instruction]?))
}

// A red ant among four black ones, with a fifth about to arrive.
const CLOSING: [Kind; 42] = [
    ROCK, ROCK, ROCK, ROCK, ROCK, ROCK, ROCK, ROCK, CLEAR, CLEAR, CLEAR, CLEAR, CLEAR, ROCK, ROCK,
    CLEAR, CLEAR, BLACK, ROCK, CLEAR, ROCK, ROCK, BLACK, CLEAR, RED, BLACK, ROCK, ROCK, ROCK, RED,
    CLEAR, BLACK, BLACK, ROCK, ROCK, ROCK, ROCK, ROCK, ROCK, ROCK, ROCK, ROCK,
];

// Asserts of each turn whether a number was drawn and how many ants were killed.
fn check_turns<R: Abort>(rt: &R, world: &mut World, brains: Brains<'_>, stream: &mut Stream)
    requires { Fits (world_of world.old) (minds_of brains) }
{
    for id in 0..7 {
        assert!(rt; id < world.ant_count());
        assert!(rt; stream.place() < 7);
        let deed = take_turn(world, brains, stream, id);
        let told = (deed.drew, deed.killed.len());
        assert_eq!(rt; told, (id == 4, usize::from(id == 1)), "id {id}");
    }
}

// Asserts where two ants are after the round, and the score.
fn check_after<R: Abort>(rt: &R, world: &World) {
    let places = (world.ant_place(1), world.ant_place(2));
    assert_eq!(rt; places, (Some(Pos { x: 2, y: 3 }), None));
    assert_eq!(rt; world.score(), Score { red: 3, black: 0 });
}

// Asserts both for a round.
fn check_round<R: Abort>(rt: &R, world: &mut World, brains: Brains<'_>)
    requires { Fits (world_of world.old) (minds_of brains) }
{
    let mut stream = Stream::from_seed(12345);
    check_turns(rt, world, brains, &mut stream);
    assert_eq!(rt; stream.place(), 1);
    check_after(rt, world);
}

#[test]
fn each_of_seven_ants_takes_its_turn(rt: HostRuntime) {
    let mut world = World::build(rt.alloc(), 7, 6, &CLOSING).expect(&rt, "there is memory");
    let flip = Instr::Flip {
        bound: 2,
        yes: 0,
        no: 0,
    };
    let red = brain_of(rt.alloc(), flip).expect(&rt, "there is memory");
    let black = brain_of(rt.alloc(), Instr::Move { yes: 0, no: 0 }).expect(&rt, "there is memory");
    let brains = Brains {
        red: &red,
        black: &black,
        sheet: Sheet::contest(),
    };
    check_round(&rt, &mut world, brains);
}

#[test]
fn brains_may_go_to_threads(rt: HostRuntime) {
    let brain = brain_of(rt.alloc(), Instr::Drop { next: 0 }).expect(&rt, "there is memory");
    assert_eq!(rt; shared(&brain).len(), 1);
    let brains = Brains {
        red: &brain,
        black: &brain,
        sheet: Sheet::contest(),
    };
    assert_eq!(rt; shared(&brains).black.len(), 1);
}

// Whether the red ant with id 2 is surrounded.
fn is_ant_surrounded<R: Abort>(rt: &R, world: &mut World, sheet: Sheet) -> bool {
    assert!(rt; world.width() == 7 && world.height() == 6);
    surrounded(world, sheet, Pos { x: 3, y: 3 })
}

// Asserts which ants the checks around the cell to the west of it kill.
fn check_killed<R: Abort>(rt: &R, world: &mut World, sheet: Sheet, killed: &[u32]) {
    assert!(rt; world.width() == 7 && world.height() == 6);
    let found = check_around(world, sheet, Pos { x: 2, y: 3 });
    assert_eq!(rt; found.as_slice(), killed);
}

#[test]
fn four_foes_surround_an_ant_by_a_sheet_of_four_alone(rt: HostRuntime) {
    let mut world = World::build(rt.alloc(), 7, 6, &CLOSING).expect(&rt, "there is memory");
    let four = Sheet::new(4, 3, 14);
    assert!(rt; !is_ant_surrounded(&rt, &mut world, Sheet::contest()));
    check_killed(&rt, &mut world, Sheet::contest(), &[]);
    assert!(rt; is_ant_surrounded(&rt, &mut world, four));
    check_killed(&rt, &mut world, four, &[2]);
    assert!(rt; !is_ant_surrounded(&rt, &mut world, four));
    assert_eq!(rt; world.score(), Score { red: 3, black: 0 });
}
