//! Clients of a library that is compared with a rebuilt one.
ghost use Rattle.std.specs.Prelude.{◌≡◌, ◌≤◌, IfOk, IfErr, Err, length};
ghost use Rattle.hb_io.specs.Causes.{Rose};
ghost use Rattle.hb_top.specs.Report.{IsWork};
ghost use Rattle.hb_top.specs.Stops.{FilesStay, IsSourceFault, IsTellable};

use crate::last::tell_stop;
use crate::settings::Settings;
use crate::source::{MOST_SOURCE, compile_bytes, read};
use crate::status::Status;
use crate::stop::{Stop, refused};
use crate::tell::write;
use hb_base::Count;
use hb_emit::Emitter;
use hb_env::What;
use hb_io::{Depot, Sink};
use hb_session::{Session, Stage, at_byte};

/// Compiles a client over both sessions, which are as before afterwards.
pub(crate) fn keep_client<D: Depot, K: Sink>(
    settings: Settings,
    before: &mut Session,
    session: &mut Session,
    depot: &mut D,
    out: &mut K,
    emitters: &mut Vec<Box<dyn Emitter>>,
    client: &str,
) -> Status
    ensures depot_later { D.faults depot.old ≤ D.faults depot.new }
    ensures sink_later { K.faults out.old ≤ K.faults out.new }
    ensures source_fault { result ≡ Status.SourceFault →
        Rose (D.faults depot.old) (D.faults depot.new) }
    ensures sink_fault { result ≡ Status.SinkFault → Rose (K.faults out.old) (K.faults out.new) }
    ensures told { IsWork (K.contents out.new) result }
    ensures files { FilesStay (D.file depot.old) (D.file depot.new) }
{
    let old_mark = before.mark();
    let new_mark = session.mark();
    let status = over_both(settings, before, session, depot, out, emitters, client);
    before.undo(old_mark);
    session.undo(new_mark);
    status
}

/// Compiles a client over the old session, then over the new one, and writes that it is kept.
fn over_both<D: Depot, K: Sink>(
    settings: Settings,
    before: &mut Session,
    session: &mut Session,
    depot: &mut D,
    out: &mut K,
    emitters: &mut Vec<Box<dyn Emitter>>,
    client: &str,
) -> Status
    ensures depot_later { D.faults depot.old ≤ D.faults depot.new }
    ensures sink_later { K.faults out.old ≤ K.faults out.new }
    ensures source_fault { result ≡ Status.SourceFault →
        Rose (D.faults depot.old) (D.faults depot.new) }
    ensures sink_fault { result ≡ Status.SinkFault → Rose (K.faults out.old) (K.faults out.new) }
    ensures told { IsWork (K.contents out.new) result }
    ensures files { FilesStay (D.file depot.old) (D.file depot.new) }
{
    let bytes = match begin(settings, before, depot, client) {
        Ok(bytes) => bytes,
        Err(stop) => return tell_stop(settings.alloc, before, &stop, out),
    };
    match over_old(settings, before, depot, out, emitters, bytes.as_slice()) {
        Ok(()) => {}
        Err(stop) => return tell_stop(settings.alloc, before, &stop, out),
    }
    match over_new(
        settings,
        session,
        depot,
        out,
        emitters,
        client,
        bytes.as_slice(),
    ) {
        Ok(()) => {}
        Err(stop) => return tell_stop(settings.alloc, session, &stop, out),
    }
    match kept(settings, client, out) {
        Ok(()) => Status::Done,
        Err(stop) => tell_stop(settings.alloc, session, &stop, out),
    }
}

/// Writes that a client is kept.
fn kept<K: Sink>(settings: Settings, client: &str, out: &mut K) -> Result<(), Stop>
    ensures sink_later { K.faults out.old ≤ K.faults out.new }
    ensures source { IfErr result (λ stop. IsSourceFault stop → ⊥) }
    ensures sink { result ≡ Err Stop.SinkFault → Rose (K.faults out.old) (K.faults out.new) }
    ensures printed { IfErr result IsTellable }
{
    let line = format!(in settings.alloc; "client {client}: kept\n")?;
    write(out, line.as_str())
}

/// The bytes of a client, which is begun in the old session.
fn begin<D: Depot>(
    settings: Settings,
    before: &mut Session,
    depot: &mut D,
    client: &str,
) -> Result<Vec<u8>, Stop>
    ensures depot_later { D.faults depot.old ≤ D.faults depot.new }
    ensures source { IfErr result
        (λ stop. IsSourceFault stop → Rose (D.faults depot.old) (D.faults depot.new)) }
    ensures sink { IfErr result (λ stop. stop ≡ Stop.SinkFault → ⊥) }
    ensures printed { IfErr result IsTellable }
    ensures fits { IfOk result (λ bytes. length bytes.items ≤ 1048576) }
    ensures files { FilesStay (D.file depot.old) (D.file depot.new) }
{
    let has_room = before.files.has_room();
    let file = before.files.begin(client, Stage::Reading)?;
    if !has_room {
        return Err(refused(at_byte(file, 0), What::TooMany(Count::Files)));
    }
    read(settings.alloc, depot, file, client, MOST_SOURCE)
}

/// Compiles the bytes of a client into the old session, where it was begun last.
fn over_old<D: Depot, K: Sink>(
    settings: Settings,
    before: &mut Session,
    depot: &mut D,
    out: &mut K,
    emitters: &mut Vec<Box<dyn Emitter>>,
    bytes: &[u8],
) -> Result<(), Stop>
    requires { length bytes.now ≤ 1048576 }
    ensures depot_later { D.faults depot.old ≤ D.faults depot.new }
    ensures sink_later { K.faults out.old ≤ K.faults out.new }
    ensures source { IfErr result
        (λ stop. IsSourceFault stop → Rose (D.faults depot.old) (D.faults depot.new)) }
    ensures sink { result ≡ Err Stop.SinkFault → Rose (K.faults out.old) (K.faults out.new) }
    ensures printed { IfErr result IsTellable }
    ensures files { FilesStay (D.file depot.old) (D.file depot.new) }
{
    let file = before.files.last();
    compile_bytes(settings, before, depot, out, emitters, file, bytes)
}

/// Compiles the bytes of a client into the new session, where it is begun.
fn over_new<D: Depot, K: Sink>(
    settings: Settings,
    session: &mut Session,
    depot: &mut D,
    out: &mut K,
    emitters: &mut Vec<Box<dyn Emitter>>,
    client: &str,
    bytes: &[u8],
) -> Result<(), Stop>
    requires { length bytes.now ≤ 1048576 }
    ensures depot_later { D.faults depot.old ≤ D.faults depot.new }
    ensures sink_later { K.faults out.old ≤ K.faults out.new }
    ensures source { IfErr result
        (λ stop. IsSourceFault stop → Rose (D.faults depot.old) (D.faults depot.new)) }
    ensures sink { result ≡ Err Stop.SinkFault → Rose (K.faults out.old) (K.faults out.new) }
    ensures printed { IfErr result IsTellable }
    ensures files { FilesStay (D.file depot.old) (D.file depot.new) }
{
    let has_room = session.files.has_room();
    let file = session.files.begin(client, Stage::Reading)?;
    if !has_room {
        return Err(refused(at_byte(file, 0), What::TooMany(Count::Files)));
    }
    compile_bytes(settings, session, depot, out, emitters, file, bytes)
}
