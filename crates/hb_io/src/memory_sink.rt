//! A sink in memory, for tests: it tells all that it took, and fails at the calls it is told to.
ghost use Rattle.std.specs.Prelude.{◌≡◌, ◌<◌, List, ℕ, Option, Some, []};

use crate::calls::Calls;
use crate::{Sink, SinkFault};
use std::alloc::Global;

/// A sink in memory. Its calls of `write` are counted from 1, and those whose numbers are in the list
/// fail; each of the others takes at most so many bytes.
#[derive(Drop)]
pub struct MemorySink {
    bytes: Vec<u8>,
    calls: Calls,
    most: usize,
    ghost moves: { 0 < most },
}

impl MemorySink {
    ghost use Rattle.hb_io.specs.MemorySink.{contents_of, faults_of};

    /// A sink without bytes that takes at most `most` bytes a call and fails at the calls in the list,
    /// or, where `nothing_fails` is set, at none.
    pub fn new(alloc: Global, fails: Vec<u64>, nothing_fails: bool, most: usize) -> MemorySink
        requires { 0 < most }
        ensures empty { contents_of result ≡ Some [] }
        ensures faults { faults_of result ≡ 0 }
    {
        MemorySink {
            bytes: Vec::new(alloc),
            calls: Calls::new(fails, nothing_fails),
            most,
        }
    }
}

impl Sink for MemorySink {
    ghost use Rattle.hb_io.specs.MemorySink.{contents_of, faults_of};

    ghost contents = { contents_of };

    ghost faults = { faults_of };

    fn write(&mut self, bytes: &[u8]) -> Result<usize, SinkFault> {
        if self.calls.fails_now() {
            return Err(SinkFault::Failed);
        }
        let count = bytes.len().min(self.most);
        self.bytes.extend_from_slice(&bytes[..count])?;
        Ok(count)
    }

    fn told(&self) -> Option<&[u8]> {
        Some(self.bytes.as_slice())
    }
}
