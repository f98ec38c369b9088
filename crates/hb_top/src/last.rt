//! The last line of a run that ended early.
ghost use Rattle.std.specs.Prelude.{◌≡◌, ◌≤◌, ◌⊎◌, true, IfOk, OnErr, IsSome, string_bytes};
ghost use Rattle.std.specs.Option.{option_map};
ghost use Rattle.hb_io.specs.Causes.{Rose};
ghost use Rattle.hb_session.specs.State.{state};
ghost use Rattle.hb_top.specs.Report as spec;
ghost use Rattle.hb_top.specs.Report.{IsToldIn, IsWork};
ghost use Rattle.hb_top.specs.Stops.{IsSourceFault, IsTellable};

use crate::finish::end;
use crate::status::Status;
use crate::stop::Stop;
use hb_env::What;
use hb_io::Sink;
use hb_report::{event_line, refused_line};
use hb_session::Session;
use std::alloc::{AllocError, Global};

/// Writes the last line of a run that ended so, where it has one, with the names of the session.
#[tactic(auto, using(crate::proofs::EndLemmas::told_work, crate::proofs::ReportLemmas::lost_line))]
pub(crate) fn tell_stop<K: Sink>(
    alloc: Global,
    session: &Session,
    stop: &Stop,
    out: &mut K,
) -> Status
    requires { IsTellable stop.now }
    ensures told { IsWork (K.contents out.new) result }
    ensures early { spec.is_early (spec.status_of stop.now) ≡ true }
    ensures cause { IsToldIn (state session.now) stop.now (K.contents out.old) (K.contents out.new)
        result }
    ensures sink { result ≡ Status.SinkFault →
        (stop.now ≡ Stop.SinkFault) ⊎ Rose (K.faults out.old) (K.faults out.new) }
    ensures source { result ≡ Status.SourceFault → IsSourceFault stop.now }
    ensures later { K.faults out.old ≤ K.faults out.new }
{
    let wanted = status_of(stop);
    let file = session.files.name(file_of(stop));
    match last_line(alloc, session, stop, file) {
        Ok(Some(line)) => end(line.as_bytes(), wanted, out),
        Ok(None) => wanted,
        Err(_) => Status::NoMemory,
    }
}

/// Tells that a run ended so, and keeps its refusal in the session, whose names and declarations it
/// speaks of.
pub(crate) fn stopped<K: Sink>(
    alloc: Global,
    session: &mut Session,
    stop: Stop,
    out: &mut K,
) -> Status
    requires { IsTellable stop }
    ensures told { IsWork (K.contents out.new) result }
    ensures keeps { state session.new ≡ state session.old }
    ensures early { spec.is_early (spec.status_of stop) ≡ true }
    ensures cause { IsToldIn (state session.new) stop (K.contents out.old) (K.contents out.new)
        result }
    ensures sink { result ≡ Status.SinkFault →
        (stop ≡ Stop.SinkFault) ⊎ Rose (K.faults out.old) (K.faults out.new) }
    ensures source { result ≡ Status.SourceFault → IsSourceFault stop }
    ensures later { K.faults out.old ≤ K.faults out.new }
{
    let status = tell_stop(alloc, session, &stop, out);
    keep_fault(session, stop);
    status
}

/// Keeps the refusal of a run that ended so.
fn keep_fault(session: &mut Session, stop: Stop)
    ensures { state session.new ≡ state session.old }
{
    match stop {
        Stop::Refused(refusal) => session.fault = Some(refusal),
        _ => {}
    }
}

/// The number of the file at which a run stopped.
fn file_of(stop: &Stop) -> u16 {
    match stop {
        Stop::Refused(refusal) => refusal.span.file,
        Stop::SourceFault(file) => *file,
        Stop::SinkFault => 0,
        Stop::NoMemory => 0,
    }
}

/// The status of a run that ended so.
fn status_of(stop: &Stop) -> Status
    ensures same { result ≡ spec.status_of stop.now }
    ensures early { spec.is_early result ≡ true }
{
    match stop {
        Stop::Refused(refusal) => refused_status(&refusal.what),
        Stop::SourceFault(_) => Status::SourceFault,
        Stop::SinkFault => Status::SinkFault,
        Stop::NoMemory => Status::NoMemory,
    }
}

/// The status of a refusal.
fn refused_status(what: &What) -> Status
    ensures same { result ≡ spec.refused_status what.now }
    ensures early { spec.is_early result ≡ true }
{
    match what {
        What::Spent(_) => Status::Spent,
        What::Moves => Status::Spent,
        _ => Status::Refused,
    }
}

/// The last line of a run that ended so.
fn last_line(
    alloc: Global,
    session: &Session,
    stop: &Stop,
    file: &str,
) -> Result<Option<String>, AllocError>
    ensures line { IfOk result (λ line. option_map string_bytes line
        ≡ spec.last_line (state session.now).back.names (state session.now).env file.now stop.now) }
    ensures due { OnErr result (IsSome
        (spec.last_line (state session.now).back.names (state session.now).env file.now stop.now)) }
{
    match stop {
        Stop::Refused(refusal) => {
            let env = session.theory().env();
            let names = &session.world().names;
            Ok(Some(refused_line(alloc, names, env, file, refusal)?))
        }
        Stop::SourceFault(_) => Ok(Some(event_line(alloc, "fault", file)?)),
        Stop::SinkFault => Ok(None),
        Stop::NoMemory => Ok(None),
    }
}
