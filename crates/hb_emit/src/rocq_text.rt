//! Declarations as Rocq writes them.
ghost use Rattle.std.specs.Prelude.{◌≡◌, false};

use crate::send::{send, send_entry};
use crate::{EmitFault, Emitter};
use hb_base::Names;
use hb_env::{Entry, Env};
use hb_io::Sink;
use hb_writer::Kind;
use std::alloc::Global;

/// Writes the declarations of each entry as Rocq writes them, into a sink.
#[derive(Drop)]
pub struct RocqText<K: Sink + Drop> {
    sink: K,
    failed: bool,
}

impl<K: Sink + Drop> RocqText<K> {
    /// An emitter over the sink that hasn't failed.
    pub fn new(sink: K) -> RocqText<K>
        ensures { result ≡ record { sink = sink; failed = false } }
    {
        RocqText {
            sink,
            failed: false,
        }
    }
}

impl<K: Sink + Drop> Emitter for RocqText<K> {
    ghost use Rattle.hb_writer.specs.declared.kind.Kind.TheVariants.{Rocq};

    ghost kind_of = { λ emitter. Rocq };

    ghost text = { λ emitter. K.contents emitter.sink };

    ghost has_failed = { λ emitter. emitter.failed };

    ghost faults = { λ emitter. K.faults emitter.sink };

    fn kind(&self) -> Kind {
        Kind::Rocq
    }

    fn failed(&self) -> bool {
        self.failed
    }

    fn told(&self) -> Option<&[u8]> {
        self.sink.told()
    }

    fn declare(
        &mut self,
        alloc: Global,
        names: &Names,
        env: &Env,
        entry: &Entry,
    ) -> Result<(), EmitFault> {
        send_entry(
            alloc,
            &mut self.sink,
            &mut self.failed,
            names,
            env,
            entry,
            Kind::Rocq,
        )
    }

    fn finish(&mut self) -> Result<(), EmitFault> {
        send(&mut self.sink, &mut self.failed, b"(* end *)\n")
    }
}
