// A shelf of files.
ghost use Rattle.std.specs.Prelude.{◌≡◌, ◌≢◌, ◌<◌, ◌≤◌, ◌+◌, [], ℕ, List, Option, Result, IfOk, OnOk, OnErr, Ok, Err, true, length, vec_len, if◌then◌else◌};
ghost use Rattle.std.specs.Io.KnownBytes.{Consumes, IsAtEnd};
ghost use Rattle.std.specs.IoError.{error_kind};
ghost use Rattle.std.specs.declared.io.Error.{Error};
ghost use Rattle.ant_base.specs.Faults.{one_more};
ghost use Rattle.ant_base.specs.Inner.Answered.{ReadsOn, given_of};
ghost use Rattle.ant_base.specs.Shelf.{Fetches, is_failed, longest};
ghost use Rattle.ant_base.specs.Streams.{shelf_of_files};
ghost use Rattle.ant_base.specs.System.{IsMadeOf, IsMadeOfOpen, IsReadFrom, TakesAtMost, dash, fetch_fault_at};

use crate::shelf::LONGEST;
use crate::system_log::SystemLog;
use crate::{FetchFault, Shelf, SureReader, System};
use std::alloc::Global;
use std::io::{self, ErrorKind};
use std::marker::Model;

// The most bytes that one read requests.
const CHUNK: usize = 8192;

/// Files by their names, and standard input under the name `-`.
///
/// Contracts don't see the contents, and it is sure of no name. A second fetch of `-` returns what is left of standard
/// input, usually nothing. It reads at most 4,194,305 bytes. The count of faults rises by one at each fetch that
/// returns `Failed` and at no other, and stays at the largest `u64`.
#[derive(Drop)]
pub struct FileShelf<'r, R: System> {
    rt: &'r R,
    faults: u64,
    system_log: SystemLog,
}

impl<'r, R: System> Model for FileShelf<'r, R> {
    ghost use Rattle.ant_base.specs.Streams.{FileShelfState};

    ghost Value = { FileShelfState R };

    ghost view = { λ s. record { system = s.rt.now; faults = s.faults; log = s.system_log.fetches } };
}

impl<'r, R: System> FileShelf<'r, R> {
    /// The files and the standard input of this runtime, with a count of 0 faults.
    pub fn new(rt: &'r R) -> Self
        ensures { result ≡ record { system = rt.now; faults = 0; log = [] } }
    {
        FileShelf {
            rt,
            faults: 0,
            system_log: SystemLog::new(),
        }
    }

    /// The count of faults, from 0.
    pub fn faults(&self) -> u64
        ensures { result ≡ self.now.faults }
    {
        self.faults
    }
}

impl<R: System> Shelf for FileShelf<'_, R> {
    ghost state = { shelf_of_files };

    fn fetch(&mut self, alloc: Global, name: &str) -> Result<Vec<u8>, FetchFault>
        ensures shelf { Fetches (shelf_of_files self.old) (shelf_of_files self.new) name.now result }
        ensures count { self.new.faults ≡ (if is_failed result then one_more self.old.faults else self.old.faults) }
        ensures system { self.new.system ≡ self.old.system }
        // For any name except `-`, the file of exactly that name was opened, and the answer was read from it.
        ensures named { name.now ≢ dash → (answer : Result R.File Error) × R.opened self.old.system name.now answer × IsMadeOfOpen R.File.sure R.File.remaining R.File.closed answer result }
        // For `-`, the answer was read from standard input.
        ensures input { name.now ≡ dash → (input : R.Input) × R.standard self.old.system input × IsMadeOf R.Input.sure R.Input.remaining R.Input.closed input result }
    {
        let content = if name == "-" {
            fetch_input(self.rt, alloc)
        } else {
            fetch_named(self.rt, alloc, name)
        };
        if matches!(content, Err(FetchFault::Failed)) {
            self.faults = self.faults.saturating_add(1);
        }
        self.system_log.note_fetch(name, &content);
        content
    }
}

// What is left of standard input.
fn fetch_input<S: System>(system: &S, alloc: Global) -> Result<Vec<u8>, FetchFault>
    ensures short { IfOk result (λ content. length content.items ≤ longest) }
    ensures made { (input : S.Input) × S.standard system.now input × IsMadeOf S.Input.sure S.Input.remaining S.Input.closed input result }
{
    read_to_end(alloc, system.standard_input())
}

// The content of the file with this name.
fn fetch_named<S: System>(system: &S, alloc: Global, name: &str) -> Result<Vec<u8>, FetchFault>
    ensures short { IfOk result (λ content. length content.items ≤ longest) }
    ensures made { (answer : Result S.File Error) × S.opened system.now name.now answer × IsMadeOfOpen S.File.sure S.File.remaining S.File.closed answer result }
{
    read_opened(alloc, system.open(name))
}

// The content of an opened file, or why there is none.
fn read_opened<R: SureReader + Drop>(
    alloc: Global,
    opened: io::Result<R>,
) -> Result<Vec<u8>, FetchFault>
    ensures short { IfOk result (λ content. length content.items ≤ longest) }
    ensures made { IsMadeOfOpen R.sure R.remaining R.closed opened result }
{
    match opened {
        Ok(file) => read_to_end(alloc, file),
        Err(error) => Err(fault_of(error)),
    }
}

// What is left of a reader. It is closed afterwards.
fn read_to_end<R: SureReader + Drop>(alloc: Global, mut reader: R) -> Result<Vec<u8>, FetchFault>
    ensures short { IfOk result (λ content. length content.items ≤ longest) }
    ensures made { IsMadeOf R.sure R.remaining R.closed reader result }
{
    let content = read_content(alloc, &mut reader);
    reader.close();
    content
}

// What is left of a reader, if it isn't too long. At most one byte more than the longest content is read.
fn read_content<R: SureReader>(alloc: Global, reader: &mut R) -> Result<Vec<u8>, FetchFault>
    ensures short { IfOk result (λ content. length content.items ≤ longest) }
    ensures made { IsReadFrom (R.sure reader.old) (R.remaining reader.old) result }
    ensures taken { TakesAtMost (longest + 1) (R.remaining reader.old) (R.remaining reader.new) }
{
    let mut content = Vec::new(alloc);
    let mut chunk = [0; CHUNK];
    // The same number of turns as std's own loops: no clause says how often a read is interrupted.
    for _turn in 0..u64::MAX {
        if content.len() > LONGEST {
            return Err(FetchFault::TooLong);
        }
        let most = CHUNK.min(LONGEST + 1 - content.len());
        if read_more(reader, &mut content, &mut chunk[..most])? {
            return Ok(content);
        }
    }
    Err(FetchFault::Failed)
}

// Reads once into the chunk, appends what was read to the content, and returns whether the reader has nothing left.
fn read_more<R: SureReader>(
    reader: &mut R,
    content: &mut Vec<u8>,
    chunk: &mut [u8],
) -> Result<bool, FetchFault>
    requires some { 0 < length chunk.old }
    requires room { vec_len content.old + length chunk.old ≤ longest + 1 }
    ensures few { OnOk result (vec_len content.new ≤ longest + 1) }
    ensures taken { (start : Option (List ℕ)) → Consumes start (R.remaining reader.old) content.old.items →
        OnOk result (Consumes start (R.remaining reader.new) content.new.items) }
    ensures lost { (start : Option (List ℕ)) → Consumes start (R.remaining reader.old) content.old.items →
        OnErr result (TakesAtMost (longest + 1) start (R.remaining reader.new)) }
    ensures end { result ≡ Ok true → IsAtEnd (R.remaining reader.new) × (vec_len content.new ≡ vec_len content.old) }
    ensures no_length { result ≢ Err FetchFault.TooLong }
    ensures sure { length chunk.old ≤ R.sure reader.old → ReadsOn (R.sure reader.old) (R.sure reader.new) (vec_len content.old) (vec_len content.new) result }
{
    let Some(given) = given_by(reader.read_some(chunk))? else {
        return Ok(false);
    };
    content.extend_from_slice(&chunk[..given])?;
    Ok(given == 0)
}

// How many bytes a read returned; `None` if it was interrupted, which is not a fault.
fn given_by(answer: io::Result<usize>) -> Result<Option<usize>, FetchFault>
    ensures { result ≡ given_of answer }
{
    match answer {
        Ok(given) => Ok(Some(given)),
        Err(error) => match error.kind() {
            ErrorKind::Interrupted => Ok(None),
            _ => Err(fault_of(error)),
        },
    }
}

// Out of memory is distinguished from a failed open or read.
fn fault_of(error: io::Error) -> FetchFault
    ensures { result ≡ fetch_fault_at (error_kind error) }
{
    match error.kind() {
        ErrorKind::OutOfMemory => FetchFault::OutOfMemory,
        _ => FetchFault::Failed,
    }
}
