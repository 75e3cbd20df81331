// The meanings of a body's names.
ghost use Rattle.std.specs.Prelude.{◌≡◌, ◌≤◌, [], length, is_none, OnOk};
ghost use Rattle.ant_asm.specs.Inner.Reading.{seen};
ghost use Rattle.ant_asm.specs.Inner.ReadLine.{names_seen};
ghost use Rattle.ant_asm.specs.Inner.Scopes.{known_as};
ghost use Rattle.ant_asm.specs.Standing.{mapped, parameter_names, way_of, way_or_next, with_name};

use crate::action::{Action, Label};
use crate::spelling::Source;
use hex_geometry::OutOfMemory;
use indexmap::IndexMap;

/// The meaning of each name of a body.
pub type Names<'t> = IndexMap<&'t [u8], Label>;

// The meaning of a name, if the body has it.
pub fn meaning_of(names: &Names, name: &[u8]) -> Option<Label>
    ensures { result ≡ known_as names.now.entries name.now }
{
    names.get(name).copied()
}

// The number of the block with a name, if it has ended.
pub(crate) fn block_named(blocks: &IndexMap<&[u8], usize>, name: &[u8]) -> Option<usize>
    ensures { result ≡ known_as blocks.now.entries name.now }
{
    blocks.get(name).copied()
}

// Adds one name.
pub fn add_name<'t>(names: &mut Names<'t>, name: &'t [u8], label: Label) -> Result<(), OutOfMemory>
    ensures { OnOk result (known_as names.new.entries ≡ with_name name.now label (known_as names.old.entries)) }
{
    names.insert(name, label)?;
    Ok(())
}

// Whether a label has no meaning.
pub(crate) fn is_unknown(names: &Names, label: Source) -> bool
    ensures { result ≡ is_none (way_of (known_as names.now.entries) (seen label.entry)) }
{
    match label {
        Source::Next => false,
        Source::Named(name) => meaning_of(names, name).is_none(),
    }
}

// The meaning of a label; the next item if the body doesn't have it.
pub(crate) fn way_or_next(names: &Names, label: Source) -> Label
    ensures { result ≡ way_or_next (known_as names.now.entries) (seen label.entry) }
{
    match label {
        Source::Next => Label::Next,
        Source::Named(name) => meaning_of(names, name).unwrap_or(Label::Next),
    }
}

// An instruction with the meanings of its labels.
pub(crate) fn resolve(names: &Names, action: Action<Source>) -> Action<Label>
    ensures { result ≡ mapped (λ label. way_or_next (known_as names.now.entries) (seen label)) action.entry }
{
    match action {
        Action::Sense {
            sight,
            met,
            unmet,
            cond,
        } => Action::Sense {
            sight,
            met: way_or_next(names, met),
            unmet: way_or_next(names, unmet),
            cond,
        },
        Action::Mark { mark, on } => Action::Mark {
            mark,
            on: way_or_next(names, on),
        },
        Action::Unmark { mark, on } => Action::Unmark {
            mark,
            on: way_or_next(names, on),
        },
        Action::PickUp { met, unmet } => Action::PickUp {
            met: way_or_next(names, met),
            unmet: way_or_next(names, unmet),
        },
        Action::Drop { on } => Action::Drop {
            on: way_or_next(names, on),
        },
        Action::Turn { side, on } => Action::Turn {
            side,
            on: way_or_next(names, on),
        },
        Action::Move { met, unmet } => Action::Move {
            met: way_or_next(names, met),
            unmet: way_or_next(names, unmet),
        },
        Action::Flip { bound, met, unmet } => Action::Flip {
            bound,
            met: way_or_next(names, met),
            unmet: way_or_next(names, unmet),
        },
    }
}

// Adds the names of parameters; there are no others yet.
pub(crate) fn add_parameters<'t>(
    names: &mut Names<'t>,
    parameters: &[&'t [u8]],
) -> Result<(), OutOfMemory>
    requires few { length parameters.now ≤ 8 }
    requires unnamed { names.old.entries ≡ [] }
    ensures { OnOk result (known_as names.new.entries ≡ parameter_names 0 (names_seen parameters.now)) }
{
    for i in (0..parameters.len()).rev() {
        add_name(names, parameters[i], Label::Parameter(i as u32))?;
    }
    Ok(())
}
