//! Telling what was accepted: entries to the emitters, lines to the sink.
ghost use Rattle.std.specs.Prelude.{◌≡◌, ◌≤◌, IfErr, Err, IsTrue, OnOk};
ghost use Rattle.hb_io.specs.Causes.{Rose};
ghost use Rattle.hb_io.specs.Told.{grown};
ghost use Rattle.hb_session.specs.State.{state};
ghost use Rattle.hb_top.specs.Trace.{point, Tells};
ghost use Rattle.hb_top.specs.Stops.{IsOfSink, IsSourceFault, IsTellable};

use crate::settings::Settings;
use crate::stop::Stop;
use hb_emit::{EmitFault, Emitter};
use hb_events::{Event, event_count, event_text};
use hb_io::{Sink, SinkFault, write_all};
use hb_session::Session;
use std::alloc::Global;

/// Writes a text.
pub(crate) fn write<K: Sink>(out: &mut K, text: &str) -> Result<(), Stop>
    ensures sink_later { K.faults out.old ≤ K.faults out.new }
    ensures source { IfErr result (λ stop. IsSourceFault stop → ⊥) }
    ensures sink { result ≡ Err Stop.SinkFault → Rose (K.faults out.old) (K.faults out.new) }
    ensures printed { IfErr result IsTellable }
    ensures cut { IfErr result IsOfSink }
    ensures all { OnOk result (K.contents out.new ≡ grown (K.contents out.old) text.now) }
{
    match write_all(out, text.as_bytes()) {
        Ok(()) => Ok(()),
        Err(SinkFault::Failed) => Err(Stop::SinkFault),
        Err(SinkFault::NoMemory) => Err(Stop::NoMemory),
    }
}

/// Hands the last entry of the session to each emitter that hasn't failed.
pub(crate) fn emit(
    alloc: Global,
    session: &Session,
    emitters: &mut Vec<Box<dyn Emitter>>,
) -> Result<(), Stop>
    ensures { IfErr result (λ stop. stop ≡ Stop.NoMemory) }
{
    let Some(entry) = session.entries().last() else {
        return Ok(());
    };
    let names = &session.world().names;
    let env = session.theory().env();
    for emitter in emitters.iter_mut() {
        if !emitter.failed() {
            match emitter.declare(alloc, names, env, entry) {
                Ok(()) => {}
                Err(EmitFault::Failed) => {}
                Err(EmitFault::NoMemory) => return Err(Stop::NoMemory),
            }
        }
    }
    Ok(())
}

/// Writes the line of an event, where the run is aloud, and counts it.
pub(crate) fn tell<K: Sink>(
    settings: Settings,
    session: &mut Session,
    event: &Event,
    out: &mut K,
) -> Result<(), Stop>
    ensures sink_later { K.faults out.old ≤ K.faults out.new }
    ensures source { IfErr result (λ stop. IsSourceFault stop → ⊥) }
    ensures sink { result ≡ Err Stop.SinkFault → Rose (K.faults out.old) (K.faults out.new) }
    ensures printed { IfErr result IsTellable }
    ensures cut { IfErr result IsOfSink }
    ensures keeps { state session.new ≡ state session.old }
    ensures told { IsTrue settings.aloud → OnOk result (Tells
        (point session.old (K.contents out.old)) (point session.new (K.contents out.new)) event.now) }
{
    if !settings.aloud {
        return Ok(());
    }
    let text = event_text(
        settings.alloc,
        session.world(),
        session.theory().env(),
        event,
    )?;
    match write(out, text.as_str()) {
        Ok(()) => {}
        Err(stop) => return Err(stop),
    }
    session.files.lines = session.files.lines.saturating_add(event_count(event));
    Ok(())
}

/// Whether a command that reports this left an entry.
pub(crate) fn has_entry(event: &Event) -> bool {
    match event {
        Event::Join { .. }
        | Event::Find { .. }
        | Event::Given { .. }
        | Event::Howto { .. }
        | Event::About { .. } => false,
        _ => true,
    }
}

/// Tells an event: its entry to the emitters, then its line.
pub(crate) fn report<K: Sink>(
    settings: Settings,
    session: &mut Session,
    event: &Event,
    out: &mut K,
    emitters: &mut Vec<Box<dyn Emitter>>,
) -> Result<(), Stop>
    ensures sink_later { K.faults out.old ≤ K.faults out.new }
    ensures source { IfErr result (λ stop. IsSourceFault stop → ⊥) }
    ensures sink { result ≡ Err Stop.SinkFault → Rose (K.faults out.old) (K.faults out.new) }
    ensures printed { IfErr result IsTellable }
    ensures cut { IfErr result IsOfSink }
    ensures keeps { state session.new ≡ state session.old }
    ensures told { IsTrue settings.aloud → OnOk result (Tells
        (point session.old (K.contents out.old)) (point session.new (K.contents out.new)) event.now) }
{
    if settings.aloud && has_entry(event) {
        match emit(settings.alloc, session, emitters) {
            Ok(()) => {}
            Err(stop) => return Err(stop),
        }
    }
    tell(settings, session, event, out)
}
