// A program that is being expanded to instructions.
ghost use Rattle.std.specs.Prelude.{◌≡◌, ℕ, List, ◌+◌, ◌<◌, ◌≤◌, ◌++◌, length, OnOk, IfOk, map, [], ◌∷◌, Some, slice_get};
ghost use Rattle.ant_asm.specs.declared.body.Body.{Body};
ghost use Rattle.ant_asm.specs.Program.{size_of};
ghost use Rattle.ant_asm.specs.Places.{places_of};
ghost use Rattle.ant_asm.specs.LabelGame.{instruction_by};
ghost use Rattle.ant_asm.specs.Inner.Emission.{emitted, main_numbers, number_first};
ghost use Rattle.ant_asm.specs.Inner.Works.{IsGone, IsWork, numbers_in};
ghost use Rattle.ant_asm.specs.Inner.Flat.{AreGood, AreLabelsOf, IsActionOf, IsLabelOf, IsPlace, IsSpot, number_led, numbers_of, tree_at, most};

use crate::action::{Action, Label};
use crate::body::{Body, Item};
use crate::places::Address;
use brain_read::Instr;
use hex_geometry::OutOfMemory;
use std::alloc::Global;
use std::mem;

/// What was expanded so far: the instructions, and their addresses.
#[derive(Drop)]
pub struct Expansion {
    pub list: Vec<Instr>,
    pub places: Vec<Address>,
}

/// The place where a body is used: the number of its first instruction, the number of what follows it, and the numbers
/// given for its parameters.
#[derive(Clone, Copy)]
pub struct Frame<'f> {
    pub base: u16,
    pub after: u16,
    pub given: &'f [u16],
}

/// A body in use: its number, its frame, and a place in it. That is the place of the next item, or, while another body
/// is expanded, that of its use.
#[derive(Drop)]
pub struct Put {
    pub number: usize,
    pub place: usize,
    pub base: u16,
    pub after: u16,
    pub given: Vec<u16>,
}

/// What is being expanded: the current body, the bodies around it, from main on, and the places of the uses that led
/// there.
#[derive(Drop)]
pub struct Work {
    pub path: Vec<u32>,
    pub outer: Vec<Put>,
    pub top: Put,
}

// An item of a body in use: the body's number, its frame, and the item's place in it.
#[derive(Clone, Copy)]
struct Spot<'s> {
    bodies: &'s [Body],
    number: usize,
    frame: Frame<'s>,
    place: usize,
}

// The number of the first instruction from a place on.
fn number_first(bodies: &[Body], number: usize, frame: Frame, place: usize) -> u16
    requires good { AreGood bodies.now }
    requires known { number < length bodies.now }
    requires inside { IsPlace bodies.now number place }
    requires fits { frame.base + size_of (tree_at bodies.now number) ≤ most }
    ensures { result ≡ number_first (tree_at bodies.now number) (numbers_of frame.entry) place }
{
    let body = &bodies[number];
    let start = body.starts[place];
    if start == body.starts[body.items.as_slice().len()] {
        return frame.after;
    }
    frame.base + start
}

// The number to which a label of an item leads.
fn number_target(spot: Spot, label: Label) -> u16
    requires spot { IsSpot spot }
    requires label { IsLabelOf spot.bodies.now spot.number label }
    ensures { result ≡ number_led spot.entry label }
{
    match label {
        Label::Next => number_first(spot.bodies, spot.number, spot.frame, spot.place + 1),
        Label::Place(at) => number_first(spot.bodies, spot.number, spot.frame, at as usize),
        Label::Parameter(i) => spot.frame.given[i as usize],
    }
}

// For each label that an item gives to a block, the number to which it leads.
fn handed_numbers(alloc: Global, spot: Spot, handed: &[Label]) -> Result<Vec<u16>, OutOfMemory>
    requires spot { IsSpot spot }
    requires labels { AreLabelsOf spot.bodies.now spot.number handed.now }
    ensures { IfOk result (λ numbers. numbers.items ≡ map (number_led spot.entry) handed.now) }
{
    let mut numbers = Vec::with_capacity(alloc, handed.len())?;
    for label in handed {
        numbers.push(number_target(spot, *label))?;
    }
    Ok(numbers)
}

// A path with one more place.
fn with_place(alloc: Global, path: &[u32], place: usize) -> Result<Address, OutOfMemory>
    requires small { place < most }
    ensures { IfOk result (λ address. address ≡ path.now ++ place ∷ []) }
{
    let mut steps = Vec::with_capacity(alloc, path.len() + 1)?;
    steps.extend_from_slice(path)?;
    steps.push(place as u32)?;
    Ok(Address::of(steps))
}

// Removes the last place of a path.
fn leave(path: &mut Vec<u32>)
    ensures { (front : List ℕ) (place : ℕ) → path.old.items ≡ front ++ place ∷ [] → path.new.items ≡ front }
{
    path.pop();
}

// The instructions of the body with this number, which has no parameters, and their addresses.
pub(crate) fn expand(
    alloc: Global,
    bodies: &[Body],
    number: usize,
    out: &mut Expansion,
) -> Result<(), OutOfMemory>
    requires good { AreGood bodies.now }
    requires known { number < length bodies.now }
    requires given { (body : Body) → slice_get bodies.now number ≡ Some body → 0 ≡ body.parameters }
    requires fits { size_of (tree_at bodies.now number) ≤ most }
    ensures list { OnOk result (out.new.list.items ≡ out.old.list.items
        ++ emitted (tree_at bodies.now number) (tree_at bodies.now number) main_numbers 0) }
    ensures places { OnOk result (out.new.places.items ≡ out.old.places.items
        ++ places_of (tree_at bodies.now number) [] 0) }
{
    let mut work = Work {
        path: Vec::new(alloc),
        outer: Vec::new(alloc),
        top: Put {
            number,
            place: 0,
            base: 0,
            after: 0,
            given: Vec::new(alloc),
        },
    };
    'steps: loop {
        if !work.step(alloc, bodies, out)? {
            return Ok(());
        }
    }
}

impl Put {
    // The next item.
    fn spot<'s>(&'s self, bodies: &'s [Body]) -> Spot<'s>
        ensures bodies { result.bodies.now ≡ bodies.now }
        ensures number { result.number ≡ self.now.number }
        ensures place { result.place ≡ self.now.place }
        ensures numbers { numbers_of result.frame ≡ numbers_in self.now }
    {
        let given = self.given.as_slice();
        let frame = Frame {
            base: self.base,
            after: self.after,
            given,
        };
        Spot {
            bodies,
            number: self.number,
            frame,
            place: self.place,
        }
    }
}

impl Work {
    // Expands one more item, or ends a body; returns false at the end of all.
    fn step(
        &mut self,
        alloc: Global,
        bodies: &[Body],
        out: &mut Expansion,
    ) -> Result<bool, OutOfMemory>
        requires good { AreGood bodies.now }
        requires work { IsWork bodies.now self.old }
        ensures { IfOk result (IsGone bodies.now self.old self.new out.old out.new) }
    {
        let number = self.top.number;
        let place = self.top.place;
        let body = &bodies[number];
        let items = body.items.as_slice();
        if place >= items.len() {
            let Some(put) = self.outer.pop() else {
                return Ok(false);
            };
            leave(&mut self.path);
            self.top = put;
            self.top.place += 1;
            return Ok(true);
        }
        let spot = self.top.spot(bodies);
        match &items[place] {
            Item::Do(action) => {
                let path = self.path.as_slice();
                emit(alloc, spot, path, *action, out)?;
                self.top.place = place + 1;
                Ok(true)
            }
            Item::Use { block, handed } => {
                let given = handed_numbers(alloc, spot, handed.as_slice())?;
                let top = Put {
                    number: *block,
                    place: 0,
                    base: spot.frame.base + body.starts[place],
                    after: number_first(bodies, number, spot.frame, place + 1),
                    given,
                };
                self.path.push(place as u32)?;
                let outer = mem::replace(&mut self.top, top);
                self.outer.push(outer)?;
                Ok(true)
            }
        }
    }
}

// Expands one instruction of a body.
fn emit(
    alloc: Global,
    spot: Spot,
    path: &[u32],
    action: Action<Label>,
    out: &mut Expansion,
) -> Result<(), OutOfMemory>
    requires spot { IsSpot spot }
    requires action { IsActionOf spot.bodies.now spot.number action }
    ensures list { OnOk result (out.new.list.items ≡ out.old.list.items
        ++ instruction_by (number_led spot.entry) action ∷ []) }
    ensures places { OnOk result (out.new.places.items ≡ out.old.places.items ++ (path.now ++ spot.entry.place ∷ []) ∷ []) }
{
    let instruction = numbered_at(spot, action);
    out.list.push(instruction)?;
    let address = with_place(alloc, path, spot.place)?;
    out.places.push(address)?;
    Ok(())
}

// The instruction with numbers for labels.
fn numbered_at(spot: Spot, action: Action<Label>) -> Instr
    requires spot { IsSpot spot }
    requires action { IsActionOf spot.bodies.now spot.number action }
    ensures { result ≡ instruction_by (number_led spot.entry) action }
{
    match action {
        Action::Sense {
            sight,
            met,
            unmet,
            cond,
        } => Instr::Sense {
            sight,
            yes: number_target(spot, met),
            no: number_target(spot, unmet),
            cond,
        },
        Action::Mark { mark, on } => Instr::Mark {
            mark,
            next: number_target(spot, on),
        },
        Action::Unmark { mark, on } => Instr::Unmark {
            mark,
            next: number_target(spot, on),
        },
        Action::PickUp { met, unmet } => Instr::PickUp {
            yes: number_target(spot, met),
            no: number_target(spot, unmet),
        },
        Action::Drop { on } => Instr::Drop {
            next: number_target(spot, on),
        },
        Action::Turn { side, on } => Instr::Turn {
            side,
            next: number_target(spot, on),
        },
        Action::Move { met, unmet } => Instr::Move {
            yes: number_target(spot, met),
            no: number_target(spot, unmet),
        },
        Action::Flip { bound, met, unmet } => Instr::Flip {
            bound,
            yes: number_target(spot, met),
            no: number_target(spot, unmet),
        },
    }
}
