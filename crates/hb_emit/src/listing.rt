//! Listings.
ghost use Rattle.std.specs.Prelude.{◌≡◌, false};

use crate::send::{send, send_entry};
use crate::{EmitFault, Emitter};
use hb_base::Names;
use hb_env::{Entry, Env};
use hb_io::Sink;
use hb_writer::Kind;
use std::alloc::Global;

/// Writes the constants of each entry with their types, into a sink.
#[derive(Drop)]
pub struct Listing<K: Sink + Drop> {
    sink: K,
    failed: bool,
}

impl<K: Sink + Drop> Listing<K> {
    /// An emitter over the sink that hasn't failed.
    pub fn new(sink: K) -> Listing<K>
        ensures { result ≡ record { sink = sink; failed = false } }
    {
        Listing {
            sink,
            failed: false,
        }
    }
}

impl<K: Sink + Drop> Emitter for Listing<K> {
    ghost use Rattle.hb_writer.specs.declared.kind.Kind.TheVariants.{Listing};

    ghost kind_of = { λ emitter. Listing };

    ghost text = { λ emitter. K.contents emitter.sink };

    ghost has_failed = { λ emitter. emitter.failed };

    ghost faults = { λ emitter. K.faults emitter.sink };

    fn kind(&self) -> Kind {
        Kind::Listing
    }

    fn failed(&self) -> bool {
        self.failed
    }

    fn told(&self) -> Option<&[u8]> {
        self.sink.told()
    }

    fn declare(
        &mut self,
        alloc: Global,
        names: &Names,
        env: &Env,
        entry: &Entry,
    ) -> Result<(), EmitFault> {
        send_entry(
            alloc,
            &mut self.sink,
            &mut self.failed,
            names,
            env,
            entry,
            Kind::Listing,
        )
    }

    fn finish(&mut self) -> Result<(), EmitFault> {
        send(&mut self.sink, &mut self.failed, b"end\n")
    }
}
