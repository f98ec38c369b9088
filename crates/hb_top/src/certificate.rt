//! Certificates: saved, and checked.
ghost use Rattle.std.specs.Prelude.{◌≡◌, ◌≤◌, IfOk, IfErr, Err, string_bytes};
ghost use Rattle.hb_io.specs.Causes.{Rose};
ghost use Rattle.hb_top.specs.Stops.{FilesStay, IsSourceFault, IsTellable};
ghost use Rattle.hb_session.specs.State.{state};
ghost use Rattle.hb_top.specs.Reported.{certified_line, Certifies};
ghost use Rattle.hb_top.specs.Stays.{OthersStay};

use crate::library::MOST_LIBRARY;
use crate::save::save;
use crate::settings::Settings;
use crate::source::read;
use crate::stop::{Stop, of_refusal};
use crate::tell::write;
use hb_io::{Depot, Sink};
use hb_session::{Session, Stage, verified};
use std::alloc::{AllocError, Global};

/// Saves the certificate of what the session declares, and tells it.
pub(crate) fn save_certificate<D: Depot, K: Sink>(
    settings: Settings,
    session: &mut Session,
    depot: &mut D,
    out: &mut K,
    name: &str,
) -> Result<(), Stop>
    ensures depot_later { D.faults depot.old ≤ D.faults depot.new }
    ensures sink_later { K.faults out.old ≤ K.faults out.new }
    ensures source { IfErr result
        (λ stop. IsSourceFault stop → Rose (D.faults depot.old) (D.faults depot.new)) }
    ensures sink { result ≡ Err Stop.SinkFault → Rose (K.faults out.old) (K.faults out.new) }
    ensures printed { IfErr result IsTellable }
    ensures files { OthersStay name.now (D.file depot.old) (D.file depot.new) }
    ensures keeps { state session.new ≡ state session.old }
    ensures lines { session.new.files.lines ≡ session.old.files.lines }
    ensures certified { Certifies (K.contents out.old) (K.contents out.new) name.now result }
{
    let file = session.files.begin(name, Stage::Other)?;
    let bytes = match session.certificate(file, &settings.limits) {
        Ok(certificate) => certificate,
        Err(refusal) => return Err(of_refusal(refusal)),
    };
    let decls = session.theory().env().len();
    let lines = bytes.lines;
    let line = certified_text(settings.alloc, name, decls, lines)?;
    save(
        session,
        depot,
        out,
        name,
        bytes.bytes.as_slice(),
        line.as_str(),
    )
}

/// The line of a certificate that was saved.
fn certified_text(alloc: Global, name: &str, decls: u32, lines: u64) -> Result<String, AllocError>
    ensures { IfOk result (λ t. string_bytes t ≡ certified_line name.now decls lines) }
{
    format!(in alloc; "certified {name}: declarations {decls} lines {lines}\n")
}

/// Checks a certificate, and tells what it declares.
pub(crate) fn verify_certificate<D: Depot, K: Sink>(
    settings: Settings,
    session: &mut Session,
    depot: &mut D,
    out: &mut K,
    name: &str,
) -> Result<(), Stop>
    ensures depot_later { D.faults depot.old ≤ D.faults depot.new }
    ensures sink_later { K.faults out.old ≤ K.faults out.new }
    ensures source { IfErr result
        (λ stop. IsSourceFault stop → Rose (D.faults depot.old) (D.faults depot.new)) }
    ensures sink { result ≡ Err Stop.SinkFault → Rose (K.faults out.old) (K.faults out.new) }
    ensures printed { IfErr result IsTellable }
    ensures files { FilesStay (D.file depot.old) (D.file depot.new) }
{
    let file = session.files.begin(name, Stage::Other)?;
    let bytes = match read(settings.alloc, depot, file, name, MOST_LIBRARY) {
        Ok(bytes) => bytes,
        Err(stop) => return Err(stop),
    };
    let found = match verified(settings.alloc, file, bytes.as_slice()) {
        Ok(found) => found,
        Err(refusal) => return Err(of_refusal(refusal)),
    };
    let decls = found.decls.len();
    let lines = found.lines;
    let line = format!(in settings.alloc; "verified {name}: declarations {decls} lines {lines}\n")?;
    write(out, line.as_str())
}
