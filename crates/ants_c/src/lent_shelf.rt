// The caller's files, as a shelf.
ghost use Rattle.std.specs.Prelude.{◌≡◌, ◌≤◌, [], true, false, option_copied};
ghost use Rattle.ant_base.specs.Faults.{one_more};
ghost use Rattle.ant_base.specs.Fetched.{fetched};
ghost use Rattle.ant_base.specs.Lines.{lines_of};
ghost use Rattle.ant_base.specs.MemShelf.{IsCopyOf, content_of, shelf_of};
ghost use Rattle.ant_base.specs.Shelf.{Fetches};
ghost use Rattle.ants_c.specs.Called.{AreFiles, files_in};
ghost use Rattle.ant_base.specs.Inner.Noted.{noted};

use crate::fetch_log::FetchLog;
use ant_base::{FetchFault, LONGEST, Shelf, cut_line};
use std::alloc::Global;
use std::marker::Model;

/// Whether these lines are names in UTF-8, with a size for each, and the sizes add up to the number of bytes.
pub fn are_files(names: &[u8], sizes: &[u32], bytes: &[u8]) -> bool
    ensures all { result ≡ true → AreFiles (lines_of names.now) sizes.now bytes.now }
    ensures none { result ≡ false → AreFiles (lines_of names.now) sizes.now bytes.now → ⊥ }
{
    let mut lines = names;
    let mut bytes = bytes;
    for size in sizes {
        let size = *size as usize;
        if lines.is_empty() || bytes.len() < size {
            return false;
        }
        let (line, more) = cut_line(lines);
        let Ok(_) = str::from_utf8(line) else {
            return false;
        };
        let (_, others) = bytes.split_at(size);
        lines = more;
        bytes = others;
    }
    if !lines.is_empty() || !bytes.is_empty() {
        return false;
    }
    true
}

// The bytes of the first file with this name. The names are lines, and each file has the number of bytes that its size
// says.
fn content<'f>(names: &[u8], sizes: &[u32], bytes: &'f [u8], name: &str) -> Option<&'f [u8]>
    ensures { option_copied result ≡ content_of (files_in (lines_of names.now) sizes.now bytes.now) name.now }
{
    let mut lines = names;
    let mut bytes = bytes;
    for size in sizes {
        if lines.is_empty() {
            return None;
        }
        let (line, more) = cut_line(lines);
        let (own, others) = bytes.split_at((*size as usize).min(bytes.len()));
        if line == name.as_bytes() {
            return Some(own);
        }
        lines = more;
        bytes = others;
    }
    None
}

// A copy of a content that isn't too long.
fn copied(alloc: Global, content: &[u8]) -> Result<Vec<u8>, FetchFault>
    ensures { IsCopyOf content.now result }
{
    if content.len() > LONGEST {
        return Err(FetchFault::TooLong);
    }
    let mut copy = Vec::with_capacity(alloc, content.len())?;
    copy.extend_from_slice(content)?;
    Ok(copy)
}

/// A shelf of the caller's files (this project's own). It reads them in the caller's memory, and copies a file when it
/// is fetched. It is sure of each name that it has, and a fetch of any other name fails. The count of faults stays at
/// the largest `u64`.
#[derive(Drop)]
pub struct LentShelf<'f> {
    names: &'f [u8],
    sizes: &'f [u32],
    bytes: &'f [u8],
    faults: u64,
    log: FetchLog,
}

impl<'f> Model for LentShelf<'f> {
    ghost use Rattle.std.specs.Prelude.{[]};
    ghost use Rattle.ant_base.specs.Lines.{lines_of};
    ghost use Rattle.ant_base.specs.MemShelf.{MemShelfState};
    ghost use Rattle.ants_c.specs.Called.{files_in};

    ghost Value = { MemShelfState };

    ghost view = { λ s. record { files = files_in (lines_of s.names.now) s.sizes.now s.bytes.now; failing = []; calls = 0; faults = s.faults; log = s.log.fetches } };
}

impl<'f> LentShelf<'f> {
    /// A shelf with these files, from which nothing was fetched.
    pub fn new(names: &'f [u8], sizes: &'f [u32], bytes: &'f [u8]) -> Self
        ensures { result ≡ record { files = files_in (lines_of names.now) sizes.now bytes.now; failing = []; calls = 0; faults = 0; log = [] } }
    {
        LentShelf {
            names,
            sizes,
            bytes,
            faults: 0,
            log: FetchLog::new(),
        }
    }

    // Counts a fault.
    fn fault(&mut self) -> FetchFault
        ensures fault { result ≡ FetchFault.Failed }
        ensures counted { self.new ≡ record self.old { faults = one_more self.old.faults } }
        ensures later { self.old.faults ≤ self.new.faults }
    {
        self.faults = self.faults.saturating_add(1);
        FetchFault::Failed
    }

    // The answer to the next fetch of this name.
    fn answer(&mut self, alloc: Global, name: &str) -> Result<Vec<u8>, FetchFault>
        ensures shelf { Fetches (shelf_of self.old) (shelf_of (noted self.new (fetched name.now result))) name.now result }
        ensures kept { self.new ≡ record self.old { faults = self.new.faults } }
    {
        let Some(content) = content(self.names, self.sizes, self.bytes, name) else {
            return Err(self.fault());
        };
        copied(alloc, content)
    }
}

impl Shelf for LentShelf<'_> {
    ghost state = { shelf_of };

    fn fetch(&mut self, alloc: Global, name: &str) -> Result<Vec<u8>, FetchFault> {
        let answer = self.answer(alloc, name);
        self.log.note(name, &answer);
        answer
    }
}
