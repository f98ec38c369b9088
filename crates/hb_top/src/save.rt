//! Saving libraries and certificates.
ghost use Rattle.std.specs.Prelude.{◌≡◌, ◌≤◌, IfErr, Err};
ghost use Rattle.hb_io.specs.Causes.{Rose};
ghost use Rattle.hb_session.specs.State.{state};
ghost use Rattle.hb_top.specs.Stops.{IsSourceFault, IsTellable};
ghost use Rattle.hb_top.specs.declared.stop.Stop.{Stop};
ghost use Rattle.hb_top.specs.Reported.{Saves};
ghost use Rattle.hb_top.specs.Stays.{OthersStay};

use crate::stop::Stop;
use crate::tell::write;
use hb_io::{Depot, DepotFault, Sink};
use hb_session::{Session, Stage};

/// Saves bytes under a name, which gets a number among the files of the session, and then tells it.
pub(crate) fn save<D: Depot, K: Sink>(
    session: &mut Session,
    depot: &mut D,
    out: &mut K,
    name: &str,
    bytes: &[u8],
    line: &str,
) -> Result<(), Stop>
    ensures depot_later { D.faults depot.old ≤ D.faults depot.new }
    ensures sink_later { K.faults out.old ≤ K.faults out.new }
    ensures source { IfErr result
        (λ stop. IsSourceFault stop → Rose (D.faults depot.old) (D.faults depot.new)) }
    ensures sink { result ≡ Err Stop.SinkFault → Rose (K.faults out.old) (K.faults out.new) }
    ensures printed { IfErr result IsTellable }
    ensures files { OthersStay name.now (D.file depot.old) (D.file depot.new) }
    ensures keeps { state session.new ≡ state session.old }
    ensures lines { session.new.files.lines ≡ session.old.files.lines }
    ensures saved { Saves (K.contents out.old) (K.contents out.new) line.now result }
{
    let file = session.files.begin(name, Stage::Other)?;
    match depot.save(name, bytes) {
        Ok(()) => write(out, line),
        Err(DepotFault::Failed) => Err(Stop::SourceFault(file)),
        Err(DepotFault::NoMemory) => Err(Stop::NoMemory),
        Err(DepotFault::Absent) => Err(Stop::NoMemory),
    }
}
