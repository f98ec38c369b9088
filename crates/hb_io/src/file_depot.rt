//! The depot of the real files.
ghost use Rattle.std.specs.Prelude.{◌≤◌, ℕ, Err, IfOk, length};
ghost use Rattle.hb_io.specs.Causes.{DepotCause};

use crate::{Depot, DepotFault};
use std::fs;
use std::io::{self, ErrorKind, Read, Seek, SeekFrom};
use std::rt::Files;

/// The real files, by their paths. It tells no bytes, and raises a count at each error.
#[derive(Drop)]
pub struct FileDepot<'r, R: Files> {
    rt: &'r R,
    faults: u64,
    absents: u64,
}

impl<'r, R: Files> FileDepot<'r, R> {
    /// The files that the runtime reaches.
    pub fn new(rt: &'r R) -> FileDepot<'r, R> {
        FileDepot {
            rt,
            faults: 0,
            absents: 0,
        }
    }

    /// Counts an error, and answers what it is for a depot.
    fn fault(&mut self, error: &io::Error) -> DepotFault
        ensures cause { DepotCause {T = ℕ} self.old.faults self.new.faults self.old.absents self.new.absents (Err result) }
    {
        match error.kind() {
            ErrorKind::NotFound => {
                self.absents = self.absents.saturating_add(1);
                DepotFault::Absent
            }
            ErrorKind::OutOfMemory => DepotFault::NoMemory,
            _ => {
                self.faults = self.faults.saturating_add(1);
                DepotFault::Failed
            }
        }
    }
}

impl<'r, R: Files> Depot for FileDepot<'r, R> {
    ghost use Rattle.hb_io.specs.Told.{Untold};

    ghost file = { λ depot name. Untold };

    ghost faults = { λ depot. depot.faults };

    ghost absents = { λ depot. depot.absents };

    fn read(&mut self, name: &str, place: u64, buf: &mut [u8]) -> Result<usize, DepotFault> {
        match read_at(self.rt, name, place, buf) {
            Ok(count) => Ok(count),
            Err(error) => Err(self.fault(&error)),
        }
    }

    fn save(&mut self, name: &str, bytes: &[u8]) -> Result<(), DepotFault> {
        match fs::write(self.rt, name, bytes) {
            Ok(()) => Ok(()),
            // A name in a folder that isn't there can't be saved: that is a fault, and no absent file.
            Err(_) => {
                self.faults = self.faults.saturating_add(1);
                Err(DepotFault::Failed)
            }
        }
    }
}

/// One read of a file at a place.
fn read_at<R: Files>(rt: &R, name: &str, place: u64, buf: &mut [u8]) -> io::Result<usize>
    ensures { IfOk result (λ count. count ≤ length buf.new) }
{
    let mut file = fs::open(rt, name)?;
    if place > 0 {
        file.seek(SeekFrom::Start(place))?;
    }
    file.read(buf)
}
