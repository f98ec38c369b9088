//! What takes entries.
ghost use Rattle.std.specs.Prelude.{◌≡◌, ℕ, Bool, false, List, Option, OnOk, OnErr};
ghost use Rattle.std.specs.Option.{option_copied};
ghost use Rattle.hb_env.specs.Plain.{plains};
ghost use Rattle.hb_io.specs.Told.{grown};
ghost use Rattle.hb_emit.specs.Emitting.{last_line, GrewByPart, FailsNow, FailsWhere};
ghost use Rattle.hb_writer.specs.Entries.{entry_text};
ghost use Rattle.hb_writer.specs.declared.kind.Kind.{Kind};

use crate::EmitFault;
use hb_base::Names;
use hb_env::{Entry, Env};
use hb_writer::Kind;
use std::alloc::Global;

/// What takes the accepted entries one after another and writes their texts, all of one kind. It may
/// tell what it has written. Its count of faults never falls.
pub trait Emitter: Drop {
    /// The kind of its texts.
    ghost kind_of: { Self → Kind };

    /// The text so far, where it is told.
    ghost text: { Self → Option (List ℕ) };

    /// Whether a call has answered `Failed`.
    ghost has_failed: { Self → Bool };

    /// How often the device under it has failed.
    ghost faults: { Self → ℕ };

    /// The kind of its texts, which never changes.
    fn kind(&self) -> Kind
        ensures { result ≡ kind_of self.now };

    /// Whether a call has answered `Failed`.
    fn failed(&self) -> bool
        ensures { result ≡ has_failed self.now };

    /// The text so far, or `None` exactly where it isn't told.
    fn told(&self) -> Option<&[u8]>
        ensures { option_copied result ≡ text self.now };

    /// Writes the text of an entry. After a fault a front of it has been written.
    fn declare(
        &mut self,
        alloc: Global,
        names: &Names,
        env: &Env,
        entry: &Entry,
    ) -> Result<(), EmitFault>
        requires { has_failed self.old ≡ false }
        ensures kind { kind_of self.new ≡ kind_of self.old }
        ensures whole { OnOk result (text self.new ≡ grown (text self.old) (entry_text (kind_of self.old) names.now env.now (plains entry.now.decls.items))) }
        ensures front { OnErr result (GrewByPart (text self.old) (text self.new) (entry_text (kind_of self.old) names.now env.now (plains entry.now.decls.items))) }
        ensures failed { FailsNow result (has_failed self.new) }
        ensures cause { FailsWhere (faults self.old) (faults self.new) result };

    /// Writes the last line. After a fault a front of it has been written.
    fn finish(&mut self) -> Result<(), EmitFault>
        requires { has_failed self.old ≡ false }
        ensures kind { kind_of self.new ≡ kind_of self.old }
        ensures whole { OnOk result (text self.new ≡ grown (text self.old) (last_line (kind_of self.old))) }
        ensures front { OnErr result (GrewByPart (text self.old) (text self.new) (last_line (kind_of self.old))) }
        ensures failed { FailsNow result (has_failed self.new) }
        ensures cause { FailsWhere (faults self.old) (faults self.new) result };
}
