//! Writing to the sink under an emitter.
ghost use Rattle.std.specs.Prelude.{◌≡◌, false, OnOk, OnErr};
ghost use Rattle.hb_env.specs.Plain.{plains};
ghost use Rattle.hb_io.specs.Told.{grown};
ghost use Rattle.hb_emit.specs.Emitting.{GrewByPart, FailsNow, FailsWhere};
ghost use Rattle.hb_writer.specs.Entries as entries;

use crate::EmitFault;
use hb_base::Names;
use hb_env::{Entry, Env};
use hb_io::{Sink, SinkFault, write_all};
use hb_writer::{Kind, entry_text};
use std::alloc::Global;

/// Writes the whole piece, and keeps whether the device failed.
pub(crate) fn send<K: Sink>(sink: &mut K, failed: &mut bool, bytes: &[u8]) -> Result<(), EmitFault>
    requires { failed.old ≡ false }
    ensures whole { OnOk result (K.contents sink.new ≡ grown (K.contents sink.old) bytes.now) }
    ensures front { OnErr result (GrewByPart (K.contents sink.old) (K.contents sink.new) bytes.now) }
    ensures failed { FailsNow result failed.new }
    ensures cause { FailsWhere (K.faults sink.old) (K.faults sink.new) result }
{
    match write_all(sink, bytes) {
        Ok(()) => Ok(()),
        Err(SinkFault::Failed) => {
            *failed = true;
            Err(EmitFault::Failed)
        }
        Err(SinkFault::NoMemory) => Err(EmitFault::NoMemory),
    }
}

/// Writes the text of an entry.
pub(crate) fn send_entry<K: Sink>(
    alloc: Global,
    sink: &mut K,
    failed: &mut bool,
    names: &Names,
    env: &Env,
    entry: &Entry,
    kind: Kind,
) -> Result<(), EmitFault>
    requires { failed.old ≡ false }
    ensures whole { OnOk result (K.contents sink.new ≡ grown (K.contents sink.old) (entries.entry_text kind names.now env.now (plains entry.now.decls.items))) }
    ensures front { OnErr result (GrewByPart (K.contents sink.old) (K.contents sink.new) (entries.entry_text kind names.now env.now (plains entry.now.decls.items))) }
    ensures failed { FailsNow result failed.new }
    ensures cause { FailsWhere (K.faults sink.old) (K.faults sink.new) result }
{
    let text = match entry_text(alloc, names, env, entry, kind) {
        Ok(text) => text,
        Err(error) => return Err(EmitFault::from(error)),
    };
    send(sink, failed, text.as_bytes())
}
