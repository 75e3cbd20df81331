// A window of turns, settled by looks that were made at guesses.
ghost use Rattle.std.specs.Prelude.{◌≡◌, ◌+◌, ◌-◌, ◌<◌, ◌≤◌, true, OnOk};
ghost use Rattle.cell_world.specs.Grid.{world_of};
ghost use Rattle.spec_record.specs.Guess.{guesses_of};
ghost use Rattle.round_book.specs.Book.{CanBegin, IsSameWindow, StandsOn, window_of};
ghost use Rattle.round_book.specs.Window.{look_for};

use crate::commands::games::{Players, killing_field, killing_players};
use cell_world::Part;
use hex_geometry::{OutOfMemory, Pos};
use round_book::{Book, Cause, Counts, Field};
use spec_record::{Look, guesses, look};
use std::alloc::Global;
use std::process::Abort;
use std::test::Fail;

// Settles the next turn by the look at it, and executes the turn again if the look isn't valid.
fn settle_or_redo(book: &mut Book, field: &Field<'_>, look: Look) -> Option<Cause>
    requires stands { StandsOn field.now book.old }
    requires left { book.old.next < book.old.to }
    requires look { look ≡ look_for (window_of field.now book.old.from book.old.to) book.old.next }
    ensures stands { StandsOn field.now book.new }
    ensures next { book.new.next ≡ book.old.next + 1 }
    ensures same { IsSameWindow book.old book.new }
{
    match book.settle(look) {
        None => None,
        Some(cause) => {
            book.redo(field.brains(), cause);
            Some(cause)
        }
    }
}

// Settles all turns of a window by looks at these guesses, and lists the result of each.
fn settle_window(
    book: &mut Book,
    field: &Field<'_>,
    guesses: &[u64],
    causes: &mut Vec<Option<Cause>>,
) -> Result<(), OutOfMemory>
    requires stands { StandsOn field.now book.old }
    requires first { book.old.next ≡ book.old.from }
    requires guesses { guesses.now ≡ guesses_of field.now.minds (world_of field.now.world) field.now.place book.old.from book.old.from (book.old.to - book.old.from) }
    ensures stands { OnOk result (StandsOn field.now book.new) }
    ensures done { OnOk result (book.new.next ≡ book.new.to) }
    ensures same { OnOk result (IsSameWindow book.old book.new) }
{
    for guess in guesses {
        let id = book.next();
        let look = look(field.world(), field.brains(), field.seed(), *guess, id);
        let cause = settle_or_redo(book, field, look);
        causes.push(cause)?;
    }
    Ok(())
}

// Plays a window by looks that are made one after another at guesses that were listed first, and lists the result of
// each.
fn play_by_looks(
    alloc: Global,
    field: &mut Field<'_>,
    from: u32,
    to: u32,
    causes: &mut Vec<Option<Cause>>,
) -> Result<Counts, OutOfMemory>
    requires { CanBegin field.old from to }
{
    let all = guesses(
        alloc,
        field.world(),
        field.brains(),
        field.place(),
        from,
        to,
    )?;
    let mut book = field.begin(alloc, from, to)?;
    settle_window(&mut book, field, &all, causes)?;
    Ok(field.finish(book))
}

// The result of the look at a turn of the game in which a surrounded ant dies.
#[derive(Clone, Copy, Debug, PartialEq, Eq)]
enum Fate {
    Taken,
    // Executed again, since the ant on (3, 3) has changed, or its state, rest or direction has.
    OfTheKilled,
    // Executed again: its random number is the one at place 0, but the guess was place 1.
    OfTheFlip,
    Other,
}

// The result of a look.
fn fate_of(cause: &Option<Cause>) -> Fate {
    match cause {
        None => Fate::Taken,
        Some(
            Cause::Part {
                at: Pos { x: 3, y: 3 },
                part: Part::Who | Part::Mind,
            },
        ) => Fate::OfTheKilled,
        Some(
            Cause::Place {
                guessed: 1,
                actual: 0,
            },
        ) => Fate::OfTheFlip,
        Some(_) => Fate::Other,
    }
}

// A black ant kills the red ant with id 2 in its turn. Then the red ant with id 4 draws the number that was guessed for
// the killed ant.
const FATES: [Fate; 7] = [
    Fate::Taken,
    Fate::Taken,
    Fate::OfTheKilled,
    Fate::Taken,
    Fate::OfTheFlip,
    Fate::Taken,
    Fate::Taken,
];

// Asserts the result of each look.
fn check_fates<R: Abort>(rt: &R, causes: &[Option<Cause>], wanted: &[Fate]) {
    assert_eq!(rt; causes.len(), wanted.len());
    for (cause, fate) in causes.iter().zip(wanted) {
        check_fate(rt, cause, *fate);
    }
}

// Asserts the result of a look.
fn check_fate<R: Abort>(rt: &R, cause: &Option<Cause>, wanted: Fate) {
    assert_eq!(rt; fate_of(cause), wanted, "{cause:?}");
}

// Asserts that a field has seven ants, and that no ant has drawn a number.
fn check_beginning<R: Abort>(rt: &R, field: &Field<'_>)
    ensures ids { 7 ≤ field.now.world.ids }
    ensures place { field.now.place ≡ 0 }
{
    assert!(rt; field.world().ant_count() >= 7);
    assert!(rt; field.place() == 0);
}

// Settles the first round of a field of seven ants, and asserts its counts and the result of each look.
fn check_settled<R: Abort>(
    rt: &R,
    alloc: Global,
    field: &mut Field<'_>,
    wanted: &[Fate],
) -> Result<(), Fail>
    requires whole { field.old.whole ≡ true }
{
    check_beginning(rt, field);
    let mut causes = Vec::new(alloc);
    let counts = play_by_looks(alloc, field, 0, 7, &mut causes)?;
    assert_eq!(rt; (counts.taken(), counts.redone()), (5, 2));
    check_fates(rt, &causes, wanted);
    Ok(())
}

// Settles the round in which the red ant dies, for the given players, and asserts its counts and the result of each
// look.
fn check_round_of<R: Abort>(
    rt: &R,
    alloc: Global,
    players: &Players,
    wanted: &[Fate],
) -> Result<(), Fail> {
    let mut field = killing_field(rt, alloc, players)?;
    check_settled(rt, alloc, &mut field, wanted)
}

// The same for the players of the game in which a surrounded ant dies.
fn check_settling<R: Abort>(rt: &R, alloc: Global, wanted: &[Fate]) -> Result<(), Fail> {
    let players = killing_players(rt, alloc)?;
    check_round_of(rt, alloc, &players, wanted)
}

#[test]
fn the_looks_of_a_killed_ant_and_of_the_next_flip_do_not_hold(rt: HostRuntime) -> Result<(), Fail> {
    check_settling(&rt, rt.alloc(), &FATES)
}
