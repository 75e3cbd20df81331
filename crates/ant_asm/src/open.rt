// Bodies that are being read: their items, with names.
ghost use Rattle.std.specs.Prelude.{◌≡◌, ◌≤◌, is_none, List, length, map, OnOk, IfOk, IfErr, None, ◌++◌, ◌∷◌, []};
ghost use Rattle.std.specs.List.{list_any};
ghost use Rattle.ant_asm.specs.Program.{Items};
ghost use Rattle.ant_asm.specs.Standing.{item_size, labels_in, mark_fault, size_fault, with_line, with_mark, unknown_in, unknown_of, mapped, labels_of, has_unknown, way_of, way_or_next};
ghost use Rattle.ant_asm.specs.declared.body.Body.{Body};
ghost use Rattle.ant_asm.specs.Inner.Scopes.{known_as};
ghost use Rattle.ant_asm.specs.Inner.Reading.{seen};
ghost use Rattle.ant_asm.specs.Inner.ReadLine.{labels_seen, names_seen};
ghost use Rattle.ant_asm.specs.Inner.View.{FailsWith, IsClosedAs, IsGoodOpen, IsNew, flat_kind, flat_of, flat_resolved, kind_seen, open_seen, open_items, start_of, IsGoodKind};
ghost use Rattle.ant_asm.specs.Inner.Flat.{most};

use crate::action::{Action, Label};
use crate::body::{Body, Item};
use crate::fault::AsmFault;
use crate::scope::{Names, add_name, add_parameters, is_unknown, meaning_of, resolve, way_or_next};
use crate::spelling::Source;
use brain_read::MOST_STATES;
use hex_geometry::OutOfMemory;
use indexmap::IndexMap;
use std::alloc::Global;

/// An item with names: an instruction, or a use of the block with this number.
#[derive(Drop)]
pub enum OpenKind<'t> {
    Do(Action<Source<'t>>),
    Use {
        block: usize,
        handed: Vec<Source<'t>>,
    },
}

/// An item on its line, and how many instructions the items before it expand to.
#[derive(Drop)]
pub struct OpenItem<'t> {
    pub line: u32,
    pub start: u16,
    pub kind: OpenKind<'t>,
}

/// A body that may get more lines: how many parameters it has, the meaning of its names, its items, and how many
/// instructions they expand to.
#[derive(Drop)]
pub struct OpenBody<'t> {
    pub parameters: usize,
    pub names: Names<'t>,
    pub items: Vec<OpenItem<'t>>,
    pub size: usize,
}

impl<'t> OpenBody<'t> {
    // A body with this many parameters, which have no names yet, and nothing else.
    pub(crate) fn new(alloc: Global, parameters: usize) -> Self
        ensures count { result.parameters ≡ parameters }
        ensures unnamed { result.names.entries ≡ [] }
        ensures empty { result.items.items ≡ [] }
        ensures none { result.size ≡ 0 }
    {
        OpenBody {
            parameters,
            names: IndexMap::new(alloc),
            items: Vec::new(alloc),
            size: 0,
        }
    }

    // Names its parameters; it has nothing else yet.
    pub(crate) fn name_parameters(&mut self, parameters: &[&'t [u8]]) -> Result<(), OutOfMemory>
        requires few { length parameters.now ≤ 8 }
        requires count { self.old.parameters ≡ length parameters.now }
        requires unnamed { self.old.names.entries ≡ [] }
        requires empty { self.old.items.items ≡ [] }
        requires none { self.old.size ≡ 0 }
        ensures { OnOk result (IsNew (names_seen parameters.now) self.new) }
    {
        add_parameters(&mut self.names, parameters)
    }

    // Gives this name to the next item.
    pub(crate) fn mark(&mut self, name: &'t [u8], line: u32) -> Result<(), AsmFault>
        requires few { length self.old.items.items ≤ most }
        ensures free { OnOk result (mark_fault (known_as self.old.names.entries name.now) line ≡ None) }
        ensures seen { (trees : List Items) → OnOk result (open_seen trees self.new ≡ with_mark (open_seen trees self.old) name.now) }
        ensures good { (bodies : List Body) → IsGoodOpen bodies self.old → OnOk result (IsGoodOpen bodies self.new) }
        ensures fault { IfErr result (λ fault. FailsWith fault (mark_fault (known_as self.old.names.entries name.now) line)) }
    {
        if meaning_of(&self.names, name).is_some() {
            return Err(AsmFault::Twice { line });
        }
        let place = self.items.len() as u32;
        add_name(&mut self.names, name, Label::Place(place))?;
        Ok(())
    }

    // Adds an item, which expands to this many instructions.
    pub(crate) fn add(&mut self, kind: OpenKind<'t>, size: usize, line: u32) -> Result<(), AsmFault>
        requires small { self.old.size ≤ most }
        requires few { size ≤ most }
        ensures room { OnOk result (size_fault self.old.size size line ≡ None) }
        ensures seen { (trees : List Items) → item_size (kind_seen trees kind.entry) ≡ size → OnOk result (open_seen trees self.new ≡ with_line (open_seen trees self.old) line (kind_seen trees kind.entry)) }
        ensures good { (bodies : List Body) → IsGoodOpen bodies self.old → IsGoodKind bodies size kind.entry → OnOk result (IsGoodOpen bodies self.new) }
        ensures fault { IfErr result (λ fault. FailsWith fault (size_fault self.old.size size line)) }
    {
        if self.size + size > MOST_STATES {
            return Err(AsmFault::TooMany { line });
        }
        let start = self.size as u16;
        self.items.push(OpenItem { line, start, kind })?;
        self.size += size;
        Ok(())
    }
}

// The line of the first item of a body that names a label which the body doesn't have.
pub(crate) fn first_unknown(draft: &OpenBody) -> Option<u32>
    ensures { (trees : List Items) → result ≡ unknown_of (open_seen trees draft.now) }
{
    unknown_among(&draft.names, draft.items.as_slice())
}

// The line of the first of some items that names a label which its body doesn't have.
fn unknown_among(names: &Names, items: &[OpenItem]) -> Option<u32>
    ensures { (trees : List Items) → result ≡ unknown_in (known_as names.now.entries) (open_items trees items.now) }
{
    for item in items {
        if names_unknown(names, &item.kind) {
            return Some(item.line);
        }
    }
    None
}

// Whether an item names a label which its body doesn't have.
fn names_unknown(names: &Names, kind: &OpenKind) -> bool
    ensures { (trees : List Items) → result ≡ has_unknown (known_as names.now.entries) (labels_in (kind_seen trees kind.now)) }
{
    match kind {
        OpenKind::Do(action) => action_unknown(names, *action),
        OpenKind::Use { block: _, handed } => labels_unknown(names, handed.as_slice()),
    }
}

fn action_unknown(names: &Names, action: Action<Source>) -> bool
    ensures { result ≡ has_unknown (known_as names.now.entries) (labels_of (mapped seen action.entry)) }
{
    match action {
        Action::Sense {
            sight: _,
            met,
            unmet,
            cond: _,
        } => is_unknown(names, met) || is_unknown(names, unmet),
        Action::Mark { mark: _, on } => is_unknown(names, on),
        Action::Unmark { mark: _, on } => is_unknown(names, on),
        Action::PickUp { met, unmet } => is_unknown(names, met) || is_unknown(names, unmet),
        Action::Drop { on } => is_unknown(names, on),
        Action::Turn { side: _, on } => is_unknown(names, on),
        Action::Move { met, unmet } => is_unknown(names, met) || is_unknown(names, unmet),
        Action::Flip {
            bound: _,
            met,
            unmet,
        } => is_unknown(names, met) || is_unknown(names, unmet),
    }
}

#[tactic(auto, using(crate::proofs::OpenLemmas::any_seen))]
fn labels_unknown(names: &Names, labels: &[Source]) -> bool
    ensures { result ≡ has_unknown (known_as names.now.entries) (labels_seen labels.now) }
{
    any_unknown(names, labels)
}

fn any_unknown(names: &Names, labels: &[Source]) -> bool
    ensures { result ≡ list_any (λ label. is_none (way_of (known_as names.now.entries) (seen label))) labels.now }
{
    labels.iter().any(|label| is_unknown(names, *label))
}

// The items with the meanings of their labels.
pub(crate) fn resolved_items(
    alloc: Global,
    names: &Names,
    items: &[OpenItem],
) -> Result<Vec<Item>, OutOfMemory>
    ensures { IfOk result (λ made. map flat_of made.items ≡ map (flat_resolved (way_or_next (known_as names.now.entries))) items.now) }
{
    let mut made = Vec::with_capacity(alloc, items.len())?;
    for item in items {
        let one = resolved_item(alloc, names, &item.kind)?;
        made.push(one)?;
    }
    Ok(made)
}

fn resolved_item(alloc: Global, names: &Names, kind: &OpenKind) -> Result<Item, OutOfMemory>
    ensures { IfOk result (λ made. flat_of made ≡ flat_kind (way_or_next (known_as names.now.entries)) kind.now) }
{
    match kind {
        OpenKind::Do(action) => Ok(Item::Do(resolve(names, *action))),
        OpenKind::Use { block, handed } => {
            let handed = resolved_labels(alloc, names, handed.as_slice())?;
            Ok(Item::Use {
                block: *block,
                handed,
            })
        }
    }
}

fn resolved_labels(
    alloc: Global,
    names: &Names,
    labels: &[Source],
) -> Result<Vec<Label>, OutOfMemory>
    ensures { IfOk result (λ made. made.items ≡ map (λ label. way_or_next (known_as names.now.entries) (seen label)) labels.now) }
{
    let mut made = Vec::with_capacity(alloc, labels.len())?;
    for label in labels {
        made.push(way_or_next(names, *label))?;
    }
    Ok(made)
}

// How many instructions the items before each item expand to, and all of them.
pub(crate) fn starts_of(
    alloc: Global,
    items: &[OpenItem],
    size: usize,
) -> Result<Vec<u16>, OutOfMemory>
    requires small { size ≤ most }
    ensures { IfOk result (λ starts. starts.items ≡ map start_of items.now ++ size ∷ []) }
{
    let mut starts = Vec::with_capacity(alloc, items.len())?;
    for item in items {
        starts.push(item.start)?;
    }
    starts.push(size as u16)?;
    Ok(starts)
}

// The body, with the meanings of its labels.
pub(crate) fn close_body(alloc: Global, draft: &OpenBody) -> Result<Body, OutOfMemory>
    requires small { draft.now.size ≤ most }
    ensures { IfOk result (IsClosedAs draft.now) }
{
    let starts = starts_of(alloc, draft.items.as_slice(), draft.size)?;
    let items = resolved_items(alloc, &draft.names, draft.items.as_slice())?;
    Ok(Body {
        parameters: draft.parameters,
        items,
        starts,
    })
}
