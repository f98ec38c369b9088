//! Whether a rebuilt library keeps its old clients.
ghost use Rattle.std.specs.Prelude.{◌≡◌, ◌≤◌, IfErr, Err};
ghost use Rattle.hb_io.specs.Causes.{Rose};
ghost use Rattle.hb_top.specs.Report.{IsWork};
ghost use Rattle.hb_top.specs.Stops.{FilesStay, IsSourceFault, IsTellable};

use crate::client::keep_client;
use crate::compile::compile_file;
use crate::difference::{Difference, compared, tell_difference};
use crate::last::stopped;
use crate::settings::Settings;
use crate::status::Status;
use crate::stop::Stop;
use crate::tell::write;
use hb_emit::Emitter;
use hb_io::{Depot, Sink};
use hb_session::Session;

/// The two hierarchies of a comparison, and the clients.
#[derive(Clone, Copy)]
pub(crate) struct Comparison<'a> {
    pub(crate) old: &'a str,
    pub(crate) new: &'a str,
    pub(crate) clients: &'a [String],
}

/// Compiles both, compares them, and compiles each client over both. Answers the status after the last
/// line. The session ends with the entries of the new one.
pub(crate) fn refactor<D: Depot, K: Sink>(
    settings: Settings,
    session: &mut Session,
    depot: &mut D,
    out: &mut K,
    emitters: &mut Vec<Box<dyn Emitter>>,
    wanted: Comparison<'_>,
) -> Status
    ensures sink_later { K.faults out.old ≤ K.faults out.new }
    ensures source_fault { result ≡ Status.SourceFault →
        Rose (D.faults depot.old) (D.faults depot.new) }
    ensures sink_fault { result ≡ Status.SinkFault → Rose (K.faults out.old) (K.faults out.new) }
    ensures told { IsWork (K.contents out.new) result }
    ensures files { FilesStay (D.file depot.old) (D.file depot.new) }
{
    let Ok(mut before) = Session::new(settings.alloc) else {
        return Status::NoMemory;
    };
    match compile_library(settings, &mut before, depot, out, emitters, wanted.old) {
        Status::Done => refactor_from(settings, &mut before, session, depot, out, emitters, wanted),
        status => status,
    }
}

/// Compiles one of the two into a session, and tells why where it is refused.
fn compile_library<D: Depot, K: Sink>(
    settings: Settings,
    session: &mut Session,
    depot: &mut D,
    out: &mut K,
    emitters: &mut Vec<Box<dyn Emitter>>,
    name: &str,
) -> Status
    ensures depot_later { D.faults depot.old ≤ D.faults depot.new }
    ensures sink_later { K.faults out.old ≤ K.faults out.new }
    ensures source_fault { result ≡ Status.SourceFault →
        Rose (D.faults depot.old) (D.faults depot.new) }
    ensures sink_fault { result ≡ Status.SinkFault → Rose (K.faults out.old) (K.faults out.new) }
    ensures told { IsWork (K.contents out.new) result }
    ensures files { FilesStay (D.file depot.old) (D.file depot.new) }
{
    match compile_file(settings, session, depot, out, emitters, name) {
        Ok(()) => Status::Done,
        Err(stop) => stopped(settings.alloc, session, stop, out),
    }
}

/// Compiles the new one, compares it with the old one, and compiles each client over both.
fn refactor_from<D: Depot, K: Sink>(
    settings: Settings,
    before: &mut Session,
    session: &mut Session,
    depot: &mut D,
    out: &mut K,
    emitters: &mut Vec<Box<dyn Emitter>>,
    wanted: Comparison<'_>,
) -> Status
    ensures depot_later { D.faults depot.old ≤ D.faults depot.new }
    ensures sink_later { K.faults out.old ≤ K.faults out.new }
    ensures source_fault { result ≡ Status.SourceFault →
        Rose (D.faults depot.old) (D.faults depot.new) }
    ensures sink_fault { result ≡ Status.SinkFault → Rose (K.faults out.old) (K.faults out.new) }
    ensures told { IsWork (K.contents out.new) result }
    ensures files { FilesStay (D.file depot.old) (D.file depot.new) }
{
    match compile_library(settings, session, depot, out, emitters, wanted.new) {
        Status::Done => compare_both(settings, before, session, depot, out, emitters, wanted),
        status => status,
    }
}

/// Compares both, and compiles each client over both.
fn compare_both<D: Depot, K: Sink>(
    settings: Settings,
    before: &mut Session,
    session: &mut Session,
    depot: &mut D,
    out: &mut K,
    emitters: &mut Vec<Box<dyn Emitter>>,
    wanted: Comparison<'_>,
) -> Status
    ensures depot_later { D.faults depot.old ≤ D.faults depot.new }
    ensures sink_later { K.faults out.old ≤ K.faults out.new }
    ensures source_fault { result ≡ Status.SourceFault →
        Rose (D.faults depot.old) (D.faults depot.new) }
    ensures sink_fault { result ≡ Status.SinkFault → Rose (K.faults out.old) (K.faults out.new) }
    ensures told { IsWork (K.contents out.new) result }
    ensures files { FilesStay (D.file depot.old) (D.file depot.new) }
{
    match tell_compared(settings, before, session, out, wanted) {
        Status::Done => {
            keep_clients(
                settings,
                before,
                session,
                depot,
                out,
                emitters,
                wanted.clients,
            )
        }
        status => status,
    }
}

/// Writes that the two are equivalent, or the first difference.
fn tell_compared<K: Sink>(
    settings: Settings,
    before: &mut Session,
    session: &mut Session,
    out: &mut K,
    wanted: Comparison<'_>,
) -> Status
    ensures sink_later { K.faults out.old ≤ K.faults out.new }
    ensures source_fault { result ≡ Status.SourceFault → ⊥ }
    ensures sink_fault { result ≡ Status.SinkFault → Rose (K.faults out.old) (K.faults out.new) }
    ensures told { IsWork (K.contents out.new) result }
{
    match compared(before, session) {
        Ok(()) => tell_equivalent(settings, session, out, wanted),
        Err(Difference::InOld(what)) => tell_difference(settings, before, wanted.new, what, out),
        Err(Difference::InNew(what)) => tell_difference(settings, session, wanted.new, what, out),
    }
}

/// Writes that the two are equivalent.
fn tell_equivalent<K: Sink>(
    settings: Settings,
    session: &mut Session,
    out: &mut K,
    wanted: Comparison<'_>,
) -> Status
    ensures sink_later { K.faults out.old ≤ K.faults out.new }
    ensures source_fault { result ≡ Status.SourceFault → ⊥ }
    ensures sink_fault { result ≡ Status.SinkFault → Rose (K.faults out.old) (K.faults out.new) }
    ensures told { IsWork (K.contents out.new) result }
{
    match equivalent(settings, wanted.old, wanted.new, out) {
        Ok(()) => Status::Done,
        Err(stop) => stopped(settings.alloc, session, stop, out),
    }
}

/// Compiles each client over both, up to the first that isn't kept.
fn keep_clients<D: Depot, K: Sink>(
    settings: Settings,
    before: &mut Session,
    session: &mut Session,
    depot: &mut D,
    out: &mut K,
    emitters: &mut Vec<Box<dyn Emitter>>,
    clients: &[String],
) -> Status
    ensures depot_later { D.faults depot.old ≤ D.faults depot.new }
    ensures sink_later { K.faults out.old ≤ K.faults out.new }
    ensures source_fault { result ≡ Status.SourceFault →
        Rose (D.faults depot.old) (D.faults depot.new) }
    ensures sink_fault { result ≡ Status.SinkFault → Rose (K.faults out.old) (K.faults out.new) }
    ensures told { IsWork (K.contents out.new) result }
    ensures files { FilesStay (D.file depot.old) (D.file depot.new) }
{
    'clients: for client in clients {
        match keep_client(
            settings,
            before,
            session,
            depot,
            out,
            emitters,
            client.as_str(),
        ) {
            Status::Done => {}
            status => return status,
        }
    }
    Status::Done
}

/// Writes that the two are equivalent.
fn equivalent<K: Sink>(settings: Settings, old: &str, new: &str, out: &mut K) -> Result<(), Stop>
    ensures sink_later { K.faults out.old ≤ K.faults out.new }
    ensures source { IfErr result (λ stop. IsSourceFault stop → ⊥) }
    ensures sink { result ≡ Err Stop.SinkFault → Rose (K.faults out.old) (K.faults out.new) }
    ensures printed { IfErr result IsTellable }
{
    let line = format!(in settings.alloc; "refactor {old} {new}: equivalent\n")?;
    write(out, line.as_str())
}
