//! A depot in memory, for tests: it tells all that it holds, and fails at the calls it is told to.
ghost use Rattle.std.specs.Prelude.{◌≡◌, ◌≢◌, OnOk, OnErr, List, ℕ};
ghost use Rattle.std.specs.Option.{option_copied};
ghost use Rattle.hb_io.specs.Told.{Told, IsPiece, Holds, Missing};

use crate::calls::Calls;
use crate::{Depot, DepotFault};
use std::alloc::{AllocError, Global};

/// A file in memory.
#[derive(Drop)]
struct MemoryFile {
    name: String,
    bytes: Vec<u8>,
}

/// A depot in memory. Its calls of `read` and `save` are counted from 1, and those whose numbers are
/// in the list fail.
#[derive(Drop)]
pub struct MemoryDepot {
    alloc: Global,
    /// The newest first, so that the first of a name is its file.
    files: Vec<MemoryFile>,
    calls: Calls,
    absents: u64,
}

impl MemoryDepot {
    ghost use Rattle.hb_io.specs.Memory.{file_of, faults_of, absents_of, told_by};

    /// A depot without files that fails at the calls in the list, or, where `nothing_fails` is set, at
    /// none.
    pub fn new(alloc: Global, fails: Vec<u64>, nothing_fails: bool) -> MemoryDepot
        ensures empty { (n : List ℕ) → file_of result n ≡ Missing }
        ensures faults { faults_of result ≡ 0 }
        ensures absents { absents_of result ≡ 0 }
    {
        MemoryDepot {
            alloc,
            files: Vec::new(alloc),
            calls: Calls::new(fails, nothing_fails),
            absents: 0,
        }
    }

    /// Makes these the bytes of the named file, at no count of calls.
    pub fn put(&mut self, name: &str, bytes: &[u8]) -> Result<(), AllocError>
        ensures put { OnOk result (file_of self.new name.now ≡ Holds bytes.now) }
        ensures others { (n : List ℕ) → n ≢ name.now → file_of self.new n ≡ file_of self.old n }
        ensures unchanged { OnErr result ((n : List ℕ) → file_of self.new n ≡ file_of self.old n) }
        ensures faults { faults_of self.new ≡ faults_of self.old }
        ensures absents { absents_of self.new ≡ absents_of self.old }
    {
        let file = MemoryFile {
            name: String::from_str(self.alloc, name)?,
            bytes: Vec::from_slice(self.alloc, bytes)?,
        };
        self.files.insert(0, file)?;
        Ok(())
    }

    /// The bytes of the named file.
    fn bytes_of(&self, name: &str) -> Option<&[u8]>
        ensures { told_by (option_copied result) ≡ file_of self.now name.now }
    {
        for file in &self.files {
            if name == file.name.as_str() {
                return Some(file.bytes.as_slice());
            }
        }
        None
    }
}

impl Depot for MemoryDepot {
    ghost use Rattle.hb_io.specs.Memory.{file_of, faults_of, absents_of};

    ghost file = { file_of };

    ghost faults = { faults_of };

    ghost absents = { absents_of };

    fn read(&mut self, name: &str, place: u64, buf: &mut [u8]) -> Result<usize, DepotFault> {
        if self.calls.fails_now() {
            return Err(DepotFault::Failed);
        }
        match self.bytes_of(name) {
            Some(bytes) => Ok(copy_piece(bytes, place as usize, buf)),
            None => {
                self.absents = self.absents.saturating_add(1);
                Err(DepotFault::Absent)
            }
        }
    }

    fn save(&mut self, name: &str, bytes: &[u8]) -> Result<(), DepotFault> {
        if self.calls.fails_now() {
            return Err(DepotFault::Failed);
        }
        self.put(name, bytes)?;
        Ok(())
    }
}

/// Copies bytes from a place on into the buffer, and answers how many.
fn copy_piece(bytes: &[u8], place: usize, buf: &mut [u8]) -> usize
    ensures { IsPiece bytes.now place result buf.new }
{
    if place >= bytes.len() {
        return 0;
    }
    let rest = &bytes[place..];
    let count = rest.len().min(buf.len());
    buf[..count].copy_from_slice(&rest[..count]);
    count
}
