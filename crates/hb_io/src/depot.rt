//! Where files are read and saved.
ghost use Rattle.std.specs.Prelude.{◌≡◌, ◌≢◌, ◌≤◌, List, ℕ, IfOk, OnOk, IsErrOf, length};
ghost use Rattle.hb_io.specs.Causes.{DepotCause};
ghost use Rattle.hb_io.specs.Told.{Told, ReadGives, TellsOnly};

use crate::DepotFault;
use std::alloc::Global;

/// A map of names to files' bytes, which may tell what it holds. Its counts of faults and of absents
/// never fall.
pub trait Depot {
    /// What is told of the file of a name.
    ghost file: { Self → List ℕ → Told };

    /// How often the device has failed.
    ghost faults: { Self → ℕ };

    /// How often a name was asked for that isn't there.
    ghost absents: { Self → ℕ };

    /// Reads bytes of the named file from `place` on into the buffer, and answers how many: the first
    /// so many bytes of `buf`. At a buffer that isn't empty 0 means that the file ends there.
    /// `Absent` where there is no file of the name, `Failed` where the device refused.
    fn read(&mut self, name: &str, place: u64, buf: &mut [u8]) -> Result<usize, DepotFault>
        ensures within { IfOk result (λ count. count ≤ length buf.new) }
        ensures bytes { ReadGives (file self.old name.now) place result buf.new }
        ensures same { (n : List ℕ) → file self.new n ≡ file self.old n }
        ensures cause { DepotCause (faults self.old) (faults self.new) (absents self.old) (absents self.new) result };

    /// Makes these the bytes of the named file. `Failed` where the device refused; of that name
    /// nothing is known then.
    fn save(&mut self, name: &str, bytes: &[u8]) -> Result<(), DepotFault>
        ensures saved { OnOk result (TellsOnly (file self.new name.now) bytes.now) }
        ensures others { (n : List ℕ) → n ≢ name.now → file self.new n ≡ file self.old n }
        ensures never_absent { IsErrOf result DepotFault.Absent → ⊥ }
        ensures cause { DepotCause (faults self.old) (faults self.new) (absents self.old) (absents self.new) result };
}
