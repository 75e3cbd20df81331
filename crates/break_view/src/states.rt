// The states that breaks name, in a table for each colour.
ghost use Rattle.std.specs.Prelude.{◌≡◌, ℕ, true, slice_index_or};
ghost use Rattle.std.specs.List.{All};
ghost use Rattle.cell_world.specs.declared.ant.Colour.TheVariants.{Red, Black};
ghost use Rattle.break_view.specs.declared.breaks.Break as breaks;
ghost use Rattle.break_view.specs.Inner.Changes as changes;

use crate::breaks::Break;
use cell_world::{Ant, Colour};

// The breaks of a list, and the tables of the states that they name.
#[derive(Clone, Copy)]
pub(crate) struct Watch<'a> {
    pub(crate) items: &'a [Break],
    pub(crate) red: &'a [bool],
    pub(crate) black: &'a [bool],
}

// Adds the states that these breaks name to the table of each colour. A table counts every state beyond its length as
// named.
pub(crate) fn name_states(items: &[Break], red: &mut [bool], black: &mut [bool])
    ensures { All (changes.IsNamed red.new black.new) items.now }
{
    for item in items {
        name_state(*item, red, black);
    }
}

fn name_state(item: Break, red: &mut [bool], black: &mut [bool])
    ensures named { changes.IsNamed red.new black.new item }
    ensures kept { (other : breaks.Break) → changes.IsNamed red.old black.old other → changes.IsNamed red.new black.new other }
{
    if let Break::State { colour, state } = item {
        match colour {
            Colour::Red => name(red, state),
            Colour::Black => name(black, state),
        }
    }
}

// Adds a state to a table.
fn name(table: &mut [bool], state: u32)
    ensures named { slice_index_or table.new state true ≡ true }
    ensures kept { (other : ℕ) → slice_index_or table.old other true ≡ true → slice_index_or table.new other true ≡ true }
{
    let place = state as usize;
    if place < table.len() {
        table[place] = true;
    }
}

// Whether the tables name the state of an ant.
#[inline]
pub(crate) fn names_ant(red: &[bool], black: &[bool], ant: Option<Ant>) -> bool
    ensures { result ≡ changes.names_ant red.now black.now ant }
{
    match ant {
        Some(ant) => match ant.colour {
            Colour::Red => names(red, ant.state),
            Colour::Black => names(black, ant.state),
        },
        None => false,
    }
}

// Whether a table names a state.
#[inline]
fn names(table: &[bool], state: u16) -> bool
    ensures { result ≡ slice_index_or table.now state true }
{
    match table.get(usize::from(state)) {
        Some(named) => *named,
        None => true,
    }
}
