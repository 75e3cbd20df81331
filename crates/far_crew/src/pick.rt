// Which look settles each turn of a window: the first that agrees or, if there is none, one of the crew's own.
ghost use Rattle.std.specs.Prelude.{◌≡◌, ◌+◌, ◌-◌, ◌<◌, ◌≤◌, List, [], None, length, slice_get, OnOk};
ghost use Rattle.std.specs.Option.{option_copied};
ghost use Rattle.std.specs.Vec.{vec_capacity, vec_len};
ghost use Rattle.far_crew.specs.Inner.Picks.{AreFilled, AreNone, ArePicked, ArePicksOf, look_named, looks_in};
ghost use Rattle.far_crew.specs.Inner.Turns.{AreTurnsOf, window_on};
ghost use Rattle.far_crew.specs.declared.channels.WorkerChannels.{WorkerChannels as GivenLine};

use crate::agreement::is_look_for;
use crate::caller::Caller;
use crate::channels::WorkerChannels;
use crate::found::Found;
use crate::guesses::{GuessedTurns, guess_of};
use ant_base::Gate;
use hex_geometry::OutOfMemory;
use round_book::Field;
use spec_record::{Look, look};

// Where the look at a turn is: the one with this number in the answer of this line, or among the crew's own.
#[derive(Clone, Copy)]
pub enum Pick {
    Theirs { line: usize, at: usize },
    Own { at: usize },
}

// An answer, with the number of its line.
#[derive(Clone, Copy)]
struct Answer<'a> {
    line: usize,
    found: &'a Found,
}

// Reserves room for the picks of this many turns, none of which has one yet, and for looks at all of them.
pub fn take_room(
    picks: &mut Vec<Option<Pick>>,
    own: &mut Vec<Look>,
    turns: usize,
) -> Result<(), OutOfMemory>
    ensures count { OnOk result (vec_len picks.new ≡ turns) }
    ensures none { OnOk result (AreNone picks.new.items) }
    ensures bare { OnOk result (own.new.items ≡ []) }
    ensures room { OnOk result (turns ≤ vec_capacity own.new) }
{
    own.clear();
    own.reserve(turns)?;
    blank(picks, turns)
}

// Sets no pick for each of this many turns.
fn blank(picks: &mut Vec<Option<Pick>>, turns: usize) -> Result<(), OutOfMemory>
    ensures count { OnOk result (vec_len picks.new ≡ turns) }
    ensures none { OnOk result (AreNone picks.new.items) }
{
    picks.clear();
    picks.resize(turns, None)?;
    Ok(())
}

// Picks for each turn of a window the first look that agrees. If there is none, it makes one of the crew's own.
#[tactic(auto, using(crate::proofs::PickLemmas::none_picked))]
pub fn choose<G: Gate>(
    caller: &Caller<'_, G>,
    field: &Field<'_>,
    lines: &[WorkerChannels],
    turns: &GuessedTurns<'_>,
    picks: &mut Vec<Option<Pick>>,
    own: &mut Vec<Look>,
)
    requires turns { AreTurnsOf field.now turns.now }
    requires count { vec_len picks.old ≡ turns.now.to - turns.now.from }
    requires none { AreNone picks.old.items }
    requires bare { own.old.items ≡ [] }
    requires room { turns.now.to - turns.now.from ≤ vec_capacity own.old }
    ensures count { vec_len picks.new ≡ turns.now.to - turns.now.from }
    ensures picked { ArePicked lines.now own.new.items picks.new.items (window_on field.now turns.now) }
    ensures filled { AreFilled picks.new.items (turns.now.to - turns.now.from) }
{
    sift(field, lines, turns, picks);
    fill(caller, field, turns, picks, own);
}

// Picks for each turn of a window the first look that agrees, in the order of the lines.
#[tactic(auto, using(crate::proofs::PickLemmas::looks_in_some))]
fn sift(
    field: &Field<'_>,
    lines: &[WorkerChannels],
    turns: &GuessedTurns<'_>,
    picks: &mut [Option<Pick>],
)
    requires turns { AreTurnsOf field.now turns.now }
    requires picks { ArePicksOf field.now turns.now lines.now [] picks.old }
    ensures { ArePicksOf field.now turns.now lines.now [] picks.new }
{
    for line in 0..lines.len() {
        if let Some(found) = &lines[line].found {
            sift_answer(field, lines, &Answer { line, found }, turns, picks);
        }
    }
}

// Picks each look of an answer that agrees, for a turn that has no pick yet.
fn sift_answer(
    field: &Field<'_>,
    lines: &[WorkerChannels],
    answer: &Answer<'_>,
    turns: &GuessedTurns<'_>,
    picks: &mut [Option<Pick>],
)
    requires answer { looks_in lines.now answer.now.line ≡ answer.now.found.now.looks }
    requires turns { AreTurnsOf field.now turns.now }
    requires picks { ArePicksOf field.now turns.now lines.now [] picks.old }
    ensures { ArePicksOf field.now turns.now lines.now [] picks.new }
{
    for at in 0..answer.found.len() {
        sift_look(field, lines, answer, at, turns, picks);
    }
}

// Picks a look, if it agrees and its turn has no pick yet.
fn sift_look(
    field: &Field<'_>,
    lines: &[WorkerChannels],
    answer: &Answer<'_>,
    at: usize,
    turns: &GuessedTurns<'_>,
    picks: &mut [Option<Pick>],
)
    requires answer { looks_in lines.now answer.now.line ≡ answer.now.found.now.looks }
    requires at { at < length answer.now.found.now.looks }
    requires turns { AreTurnsOf field.now turns.now }
    requires picks { ArePicksOf field.now turns.now lines.now [] picks.old }
    ensures { ArePicksOf field.now turns.now lines.now [] picks.new }
{
    let Answer { line, found } = *answer;
    let look = found.look(at);
    let id = look.turn();
    if id < turns.from || id >= turns.to {
        return;
    }
    let turn = (id - turns.from) as usize;
    if picks[turn].is_some() {
        return;
    }
    let guess = guess_of(field, turns, id);
    if is_look_for(field, found, look, guess, id) {
        picks[turn] = Some(Pick::Theirs { line, at });
    }
}

// Makes the look at each turn that has no pick, and picks it; the gate is called before each.
fn fill<G: Gate>(
    caller: &Caller<'_, G>,
    field: &Field<'_>,
    turns: &GuessedTurns<'_>,
    picks: &mut [Option<Pick>],
    own: &mut Vec<Look>,
)
    requires turns { AreTurnsOf field.now turns.now }
    requires count { length picks.old ≡ turns.now.to - turns.now.from }
    requires bare { own.old.items ≡ [] }
    requires room { turns.now.to - turns.now.from ≤ vec_capacity own.old }
    ensures picks { (lines : List GivenLine) → ArePicksOf field.now turns.now lines [] picks.old → ArePicksOf field.now turns.now lines own.new.items picks.new }
    ensures filled { AreFilled picks.new (turns.now.to - turns.now.from) }
{
    for id in turns.from..turns.to {
        fill_turn(caller, field, turns, picks, own, id);
    }
}

// Makes the look at a turn, if it has no pick, and picks it.
fn fill_turn<G: Gate>(
    caller: &Caller<'_, G>,
    field: &Field<'_>,
    turns: &GuessedTurns<'_>,
    picks: &mut [Option<Pick>],
    own: &mut Vec<Look>,
    id: u32,
)
    requires turns { AreTurnsOf field.now turns.now }
    requires first { turns.now.from ≤ id }
    requires last { id < turns.now.to }
    requires count { length picks.old ≡ turns.now.to - turns.now.from }
    requires room { vec_len own.old < vec_capacity own.old }
    requires filled { AreFilled picks.old (id - turns.now.from) }

    // whatever the lines hold, what was picked stays
    ensures picks { (lines : List GivenLine) → ArePicksOf field.now turns.now lines own.old.items picks.old → ArePicksOf field.now turns.now lines own.new.items picks.new }
    ensures count { length picks.new ≡ turns.now.to - turns.now.from }
    ensures filled { AreFilled picks.new (id + 1 - turns.now.from) }

    // at most one look is made, in the room that there is
    ensures len { vec_len own.new ≤ vec_len own.old + 1 }
    ensures capacity { vec_capacity own.new ≡ vec_capacity own.old }
{
    let turn = (id - turns.from) as usize;
    if picks[turn].is_some() {
        return;
    }
    let guess = guess_of(field, turns, id);
    caller.before_look(id);
    let at = own.len();
    own.push_reserved(look(field.world(), field.brains(), field.seed(), guess, id));
    picks[turn] = Some(Pick::Own { at });
}

// The look that a pick names, if there is one.
pub fn look_named<'a>(lines: &'a [WorkerChannels], own: &'a [Look], pick: Pick) -> Option<&'a Look>
    ensures { option_copied result ≡ look_named lines.now own.now pick }
{
    match pick {
        Pick::Theirs { line, at } => look_in(lines, line, at),
        Pick::Own { at } => own.get(at),
    }
}

// The look with this number in the answer of a line, if there is one.
#[tactic(auto, using(crate::proofs::PickLemmas::looks_in_past, crate::proofs::PickLemmas::looks_in_none, crate::proofs::PickLemmas::looks_in_some))]
fn look_in<'a>(lines: &'a [WorkerChannels], line: usize, at: usize) -> Option<&'a Look>
    ensures { option_copied result ≡ slice_get (looks_in lines.now line) at }
{
    if line >= lines.len() {
        return None;
    }
    let Some(found) = &lines[line].found else {
        return None;
    };
    found.look_if(at)
}
