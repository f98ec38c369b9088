//! The sink into a real file.
ghost use Rattle.std.specs.Prelude.{◌≡◌, ◌≤◌, ℕ, Err, IfOk, length};
ghost use Rattle.hb_io.specs.Causes.{SinkCause};

use crate::{Sink, SinkFault};
use std::fs;
use std::io::{self, ErrorKind, Write};
use std::rt::Files;

/// A real file, by its path, which the first write makes or empties. It tells no bytes, and raises its
/// count at each error.
#[derive(Drop)]
pub struct FileSink<R: Files + Drop> {
    rt: R,
    name: String,
    file: Option<R::File>,
    faults: u64,
}

impl<R: Files + Drop> FileSink<R> {
    /// A sink into the file of the name, which isn't opened yet.
    pub fn new(rt: R, name: String) -> FileSink<R> {
        FileSink {
            rt,
            name,
            file: None,
            faults: 0,
        }
    }

    /// Opens the file where it isn't open, and writes.
    fn write_open(&mut self, bytes: &[u8]) -> io::Result<usize>
        ensures within { IfOk result (λ count. count ≤ length bytes.now) }
        ensures faults { self.new.faults ≡ self.old.faults }
    {
        if self.file.is_none() {
            self.file = Some(fs::create(&self.rt, self.name.as_str())?);
        }
        match &mut self.file {
            Some(file) => file.write(bytes),
            None => Ok(0),
        }
    }

    /// Counts an error.
    fn fault(&mut self) -> SinkFault
        ensures cause { SinkCause {T = ℕ} self.old.faults self.new.faults (Err result) }
        ensures failed { result ≡ SinkFault.Failed }
    {
        self.faults = self.faults.saturating_add(1);
        SinkFault::Failed
    }
}

impl<R: Files + Drop> Sink for FileSink<R> {
    ghost use Rattle.std.specs.Prelude.{None};

    ghost contents = { λ sink. None };

    ghost faults = { λ sink. sink.faults };

    fn write(&mut self, bytes: &[u8]) -> Result<usize, SinkFault> {
        match self.write_open(bytes) {
            Ok(count) if count > 0 || bytes.is_empty() => Ok(count),
            Err(error) if error.kind() == ErrorKind::OutOfMemory => Err(SinkFault::NoMemory),
            _ => Err(self.fault()),
        }
    }

    fn told(&self) -> Option<&[u8]> {
        None
    }
}
