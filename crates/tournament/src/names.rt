// The names of a cup's players.
ghost use Rattle.std.specs.Prelude.{◌≡◌, ◌<◌, [], length, IfOk, OnOk, OnErr, if◌then◌else◌};
ghost use Rattle.ant_base.specs.Names.{has_name};
ghost use Rattle.tournament.specs.Names.{with_name, name_of};
ghost use Rattle.tournament.specs.declared.names.Added.TheVariants.{New, Known};

use hex_geometry::OutOfMemory;
use std::alloc::Global;
use std::marker::Model;

/// The result of adding a name.
#[derive(Clone, Copy, Debug, PartialEq, Eq)]
pub enum Added {
    /// The list didn't have it. It is the last name now.
    New,
    /// The list has it already. It keeps its place.
    Known,
}

/// A list of different names, beginning with that of player 0. Contracts see the list of the texts.
#[derive(Drop)]
pub struct Names {
    alloc: Global,
    names: Vec<String>,
}

impl Model for Names {
    ghost use Rattle.std.specs.Prelude.{List, ℕ};
    ghost use Rattle.tournament.specs.Names.{texts_of};

    ghost Value = { List (List ℕ) };

    ghost view = { λ names. texts_of names.names.items };
}

impl Names {
    /// The empty list. It takes no memory, and keeps the allocator for the names that are added.
    pub fn new(alloc: Global) -> Names
        ensures { result ≡ [] }
    {
        Names {
            alloc,
            names: Vec::new(alloc),
        }
    }

    /// Adds a name at the end and returns `New`. If the list has the name already, it returns `Known` and changes
    /// nothing. It fails only if memory runs out, and then changes nothing.
    pub fn add(&mut self, name: &str) -> Result<Added, OutOfMemory>
        ensures answer { IfOk result (λ added. added ≡ (if has_name self.old name.now then Known else New)) }
        ensures names { OnOk result (self.new ≡ with_name self.old name.now) }
        ensures refused { OnErr result (self.new ≡ self.old) }
    {
        if self.has(name) {
            return Ok(Added::Known);
        }
        let text = String::from_str(self.alloc, name)?;
        self.names.push(text)?;
        Ok(Added::New)
    }

    /// The number of names. It takes no memory.
    pub fn len(&self) -> usize
        ensures { result ≡ length self.now }
    {
        self.names.len()
    }

    fn has(&self, name: &str) -> bool
        ensures { result ≡ has_name self.now name.now }
    {
        for other in &self.names {
            if other.as_str() == name {
                return true;
            }
        }
        false
    }

    // The name of a player.
    pub(crate) fn of_player(&self, player: u32) -> &str
        requires { player < length self.now }
        ensures { result.now ≡ name_of self.now player }
    {
        self.names[player as usize].as_str()
    }
}
