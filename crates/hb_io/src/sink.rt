//! Where the report goes.
ghost use Rattle.std.specs.Prelude.{◌≡◌, ◌<◌, ◌≤◌, List, ℕ, Option, IfOk, OnOk, OnErr, length, take};
ghost use Rattle.std.specs.Option.{option_copied};
ghost use Rattle.hb_io.specs.Causes.{SinkCause};
ghost use Rattle.hb_io.specs.Told.{grown, GrewByFront};

use crate::SinkFault;

/// What takes bytes one after another, and may tell those that it has. Its count of faults never falls.
pub trait Sink {
    /// The bytes so far, where they are told.
    ghost contents: { Self → Option (List ℕ) };

    /// How often the device has failed.
    ghost faults: { Self → ℕ };

    /// Takes the first bytes of a piece, and answers how many: at least one where the piece isn't
    /// empty. `Failed` where the device refused, or took nothing of a piece that isn't empty.
    fn write(&mut self, bytes: &[u8]) -> Result<usize, SinkFault>
        ensures within { IfOk result (λ count. count ≤ length bytes.now) }
        ensures moves { IfOk result (λ count. 0 < length bytes.now → 0 < count) }
        ensures taken { IfOk result (λ count. contents self.new ≡ grown (contents self.old) (take count bytes.now)) }
        ensures unchanged { OnErr result (contents self.new ≡ contents self.old) }
        ensures cause { SinkCause (faults self.old) (faults self.new) result };

    /// The bytes so far, or `None` exactly where the sink doesn't tell them.
    fn told(&self) -> Option<&[u8]>
        ensures { option_copied result ≡ contents self.now };
}

/// Writes the whole piece. After a fault a proper front of it has gone out.
pub fn write_all<K: Sink>(sink: &mut K, bytes: &[u8]) -> Result<(), SinkFault>
    ensures all { OnOk result (K.contents sink.new ≡ grown (K.contents sink.old) bytes.now) }
    ensures front { OnErr result (GrewByFront (K.contents sink.old) (K.contents sink.new) bytes.now) }
    ensures cause { SinkCause (K.faults sink.old) (K.faults sink.new) result }
{
    let mut place = 0;
    while place < bytes.len() {
        place += sink.write(&bytes[place..])?;
    }
    Ok(())
}
