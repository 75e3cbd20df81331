// What no clause says: that there is memory for worlds and for a copy, and that what workers share and own may be
// passed to threads.
use crate::tests::{RED, ROCK, shared};
use brain_read::Brain;
use cell_world::{Ant, Cell, Colour, Kind, Marks, Part, Parts, Score, World};
use hex_geometry::{Dir, Pos};
use round_book::{Book, Field};
use round_workers::{Board, Seat, Worker};
use spec_record::Look;
use std::process::Abort;

// One hill cell between rocks.
const ONE_HILL: [Kind; 9] = [ROCK, ROCK, ROCK, ROCK, RED, ROCK, ROCK, ROCK, ROCK];

// The ant of the first hill cell at the start of a game.
const FIRST_ANT: Ant = Ant {
    id: 0,
    colour: Colour::Red,
    state: 0,
    resting: 0,
    facing: Dir::East,
    laden: false,
};

#[test]
fn cells_without_ants_are_a_world(rt: HostRuntime) {
    let none = Marks::none();
    let clear = Cell {
        rocky: false,
        hill: None,
        food: 0,
        red: none,
        black: none,
        ant: None,
    };
    let rock = Cell {
        rocky: true,
        ..clear
    };
    let fed = Cell { food: 4, ..clear };
    let cells = [
        rock, rock, rock, rock, rock, rock, fed, clear, clear, rock, rock, rock, rock, rock, rock,
    ];
    let world = World::of_ground(rt.alloc(), 5, 3, 2, &cells).expect(&rt, "there is memory");
    assert_eq!(rt; world.ant_count(), 2);
    let food = world.cell(Pos { x: 1, y: 1 }).food;
    assert_eq!(rt; (world.ant_place(1), food), (None, 4));
}

#[test]
fn worlds_cells_ants_and_scores_may_go_to_threads(rt: HostRuntime) {
    let world = World::build(rt.alloc(), 3, 3, &ONE_HILL).expect(&rt, "there is memory");
    let cell = shared(&world).cell(Pos { x: 1, y: 1 });
    assert_eq!(rt; shared(&cell).ant, Some(*shared(&FIRST_ANT)));
    let score = world.score();
    assert_eq!(rt; *shared(&score), Score { red: 0, black: 0 });
}

#[test]
fn a_copy_is_an_equal_world(rt: HostRuntime) {
    let world = World::build(rt.alloc(), 3, 3, &ONE_HILL).expect(&rt, "there is memory");
    let copy = world.copy(rt.alloc()).expect(&rt, "there is memory");
    assert_eq!(rt; copy.ant_count(), 1);
    let ants = (copy.ant_place(0), copy.alive(Colour::Red));
    assert_eq!(rt; (copy.width(), ants), (3, (Some(Pos { x: 1, y: 1 }), 1)));
}

// Compiles only for a type whose values may be passed to threads and shared by them.
fn may_go_to_threads<T: Send + Sync>() {}

// Compiles only for a type whose values may be passed to threads.
fn may_be_sent<T: Send>() {}

#[test]
fn what_workers_share_and_own_may_go_to_threads(_rt: HostRuntime) {
    may_go_to_threads::<World>();
    may_go_to_threads::<Brain>();
    may_go_to_threads::<Look>();
    may_go_to_threads::<Field<'static>>();
    may_go_to_threads::<Book>();
    may_go_to_threads::<Board>();
    may_be_sent::<Seat>();
    may_be_sent::<Worker>();
}

// Asserts whether two cells agree in a part, each with the other.
fn check_part<R: Abort>(rt: &R, one: &Cell, other: &Cell, part: Part, agree: bool) {
    let parts = Parts::none().with(part);
    assert_eq!(rt;
        (one.agrees(other, parts), other.agrees(one, parts)),
        (agree, agree)
    );
}

#[test]
fn cells_agree_in_the_parts_that_are_equal(rt: HostRuntime) {
    let none = Marks::none();
    let hill = Cell {
        rocky: false,
        hill: Some(Colour::Red),
        food: 0,
        red: none,
        black: none,
        ant: Some(FIRST_ANT),
    };
    let resting = Ant {
        resting: 14,
        ..FIRST_ANT
    };
    let other = Cell {
        food: 3,
        ant: Some(resting),
        ..hill
    };
    check_part(&rt, &hill, &other, Part::Who, true);
    check_part(&rt, &hill, &other, Part::Mind, false);
    check_part(&rt, &hill, &other, Part::Load, true);
    check_part(&rt, &hill, &other, Part::Food, false);
    check_part(&rt, &hill, &other, Part::RedMarks, true);
    check_part(&rt, &hill, &other, Part::BlackMarks, true);
}
