// Names with bytes.
ghost use Rattle.std.specs.Prelude.{◌≡◌, ◌<◌, ◌≤◌, ◌+◌, ◌++◌, ◌⊎◌, [], ◌∷◌, OnOk, OnErr, length, option_copied};
ghost use Rattle.ant_base.specs.MemShelf.{content_of};

use crate::OutOfMemory;
use std::alloc::Global;
use std::marker::Model;

/// A list of names with bytes. If a name was added twice, the bytes that were added first count. Contracts see its
/// names with their bytes, and for how many more names and bytes it has room.
#[derive(Drop)]
pub struct Files {
    // Each name, followed by its bytes, end to end.
    texts: Vec<u8>,
    sizes: Vec<Sizes>,
}

// How many bytes a name has, and how many bytes were added under it.
#[derive(Clone, Copy, Drop)]
struct Sizes {
    name: usize,
    bytes: usize,
}

impl Model for Files {
    ghost use Rattle.std.specs.Prelude.{◌≡◌, ◌-◌, length, vec_len, vec_capacity};
    ghost use Rattle.ant_base.specs.MemShelf.{FileList};
    ghost use Rattle.ant_base.specs.Inner.Entries.{files_in, bytes_in};

    ghost Value = { FileList };

    ghost view = { λ files. record {
      files = files_in files.sizes.items files.texts.items;
      spare = vec_capacity files.sizes - vec_len files.sizes;
      room = vec_capacity files.texts - vec_len files.texts;
    } };

    ghost invariant = { λ files. bytes_in files.sizes.items ≡ length files.texts.items };
}

impl Files {
    /// An empty list. It takes no memory.
    pub fn new(alloc: Global) -> Self
        ensures { result ≡ record { files = []; spare = 0; room = 0 } }
    {
        Files {
            texts: Vec::new(alloc),
            sizes: Vec::new(alloc),
        }
    }

    /// Adds a name with its bytes at the end. It fails only if the list has no room for the name or the bytes and there
    /// is no memory for more. The list then keeps its names, its bytes and at least its room. An add uses no more room
    /// than it needs.
    pub fn add(&mut self, name: &str, bytes: &[u8]) -> Result<(), OutOfMemory>
        ensures added { OnOk result (self.new.files ≡ self.old.files ++ (name.now, bytes.now) ∷ []) }
        ensures refused { OnErr result (self.new.files ≡ self.old.files) }
        ensures kept { OnErr result ((self.old.spare ≤ self.new.spare) × (self.old.room ≤ self.new.room)) }
        ensures full { OnErr result ((self.old.spare ≡ 0) ⊎ (self.old.room < length name.now + length bytes.now)) }
        ensures spare { self.old.spare ≤ self.new.spare + 1 }
        ensures room { self.old.room ≤ self.new.room + (length name.now + length bytes.now) }
    {
        self.sizes.reserve(1)?;
        self.texts.reserve(name.len() + bytes.len())?;
        self.texts.extend_from_slice(name.as_bytes())?;
        self.texts.extend_from_slice(bytes)?;
        self.sizes.push(Sizes {
            name: name.len(),
            bytes: bytes.len(),
        })?;
        Ok(())
    }

    // The bytes that were added first under the name.
    pub(crate) fn content(&self, name: &str) -> Option<&[u8]>
        ensures { option_copied result ≡ content_of self.now.files name.now }
    {
        let mut rest = self.texts.as_slice();
        for sizes in &self.sizes {
            let (own, after) = rest.split_at(sizes.name);
            let (bytes, others) = after.split_at(sizes.bytes);
            if own == name.as_bytes() {
                return Some(bytes);
            }
            rest = others;
        }
        None
    }
}
