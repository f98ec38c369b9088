//! The files of the command line, compiled in order into one session.
ghost use Rattle.std.specs.Prelude.{◌≡◌, ◌≤◌, ◌∷◌, [], map, string_bytes, IfErr, Err, IsTrue, OnOk};
ghost use Rattle.hb_io.specs.Causes.{Rose};
ghost use Rattle.hb_io.specs.Told.{grown};
ghost use Rattle.hb_top.specs.Agenda as task;
ghost use Rattle.hb_top.specs.Agenda.{files_then};
ghost use Rattle.hb_top.specs.Trace.{accepted_line, point, Accepts, Ends};
ghost use Rattle.hb_top.specs.Stops.{FilesStay, IsOfSink, IsSourceFault, IsTellable};

use crate::library::load;
use crate::settings::Settings;
use crate::source::compile_source;
use crate::stop::Stop;
use crate::tell::write;
use hb_emit::Emitter;
use hb_io::{Depot, Sink};
use hb_session::Session;

/// Compiles a file: a library by its ending, or a source.
pub(crate) fn compile_file<D: Depot, K: Sink>(
    settings: Settings,
    session: &mut Session,
    depot: &mut D,
    out: &mut K,
    emitters: &mut Vec<Box<dyn Emitter>>,
    name: &str,
) -> Result<(), Stop>
    ensures depot_later { D.faults depot.old ≤ D.faults depot.new }
    ensures sink_later { K.faults out.old ≤ K.faults out.new }
    ensures source { IfErr result
        (λ stop. IsSourceFault stop → Rose (D.faults depot.old) (D.faults depot.new)) }
    ensures sink { result ≡ Err Stop.SinkFault → Rose (K.faults out.old) (K.faults out.new) }
    ensures printed { IfErr result IsTellable }
    ensures files { FilesStay (D.file depot.old) (D.file depot.new) }
    ensures went { IsTrue settings.aloud → Ends (D.file depot.old)
        (task.file name.now ∷ []) (point session.old (K.contents out.old))
        [] (point session.new (K.contents out.new)) result }
{
    if name.as_bytes().ends_with(b".hbl") {
        load(settings, session, depot, out, emitters, name)
    } else {
        compile_source(settings, session, depot, out, emitters, name)
    }
}

/// Compiles the files in order, and writes how many lines there were.
pub(crate) fn compile_files<D: Depot, K: Sink>(
    settings: Settings,
    session: &mut Session,
    depot: &mut D,
    out: &mut K,
    emitters: &mut Vec<Box<dyn Emitter>>,
    names: &[String],
) -> Result<(), Stop>
    ensures depot_later { D.faults depot.old ≤ D.faults depot.new }
    ensures sink_later { K.faults out.old ≤ K.faults out.new }
    ensures source { IfErr result
        (λ stop. IsSourceFault stop → Rose (D.faults depot.old) (D.faults depot.new)) }
    ensures sink { result ≡ Err Stop.SinkFault → Rose (K.faults out.old) (K.faults out.new) }
    ensures printed { IfErr result IsTellable }
    ensures files { FilesStay (D.file depot.old) (D.file depot.new) }
    ensures told { IsTrue settings.aloud → Accepts (D.file depot.old)
        (files_then (map string_bytes names.now) []) (point session.old (K.contents out.old))
        (point session.new (K.contents out.new)) result }
{
    match compile_each(settings, session, depot, out, emitters, names) {
        Ok(()) => {}
        Err(stop) => return Err(stop),
    }
    accepted(settings, session, out)
}

/// Compiles the files in order.
fn compile_each<D: Depot, K: Sink>(
    settings: Settings,
    session: &mut Session,
    depot: &mut D,
    out: &mut K,
    emitters: &mut Vec<Box<dyn Emitter>>,
    names: &[String],
) -> Result<(), Stop>
    ensures depot_later { D.faults depot.old ≤ D.faults depot.new }
    ensures sink_later { K.faults out.old ≤ K.faults out.new }
    ensures source { IfErr result
        (λ stop. IsSourceFault stop → Rose (D.faults depot.old) (D.faults depot.new)) }
    ensures sink { result ≡ Err Stop.SinkFault → Rose (K.faults out.old) (K.faults out.new) }
    ensures printed { IfErr result IsTellable }
    ensures files { FilesStay (D.file depot.old) (D.file depot.new) }
    ensures went { IsTrue settings.aloud → Ends (D.file depot.old)
        (files_then (map string_bytes names.now) []) (point session.old (K.contents out.old))
        [] (point session.new (K.contents out.new)) result }
{
    'files: for name in names {
        match compile_file(settings, session, depot, out, emitters, name.as_str()) {
            Ok(()) => {}
            Err(stop) => return Err(stop),
        }
    }
    Ok(())
}

/// Writes the line of what was accepted: how many lines were before.
pub(crate) fn accepted<K: Sink>(
    settings: Settings,
    session: &Session,
    out: &mut K,
) -> Result<(), Stop>
    ensures sink_later { K.faults out.old ≤ K.faults out.new }
    ensures source { IfErr result (λ stop. IsSourceFault stop → ⊥) }
    ensures sink { result ≡ Err Stop.SinkFault → Rose (K.faults out.old) (K.faults out.new) }
    ensures printed { IfErr result IsTellable }
    ensures cut { IfErr result IsOfSink }
    ensures told { OnOk result (K.contents out.new ≡ grown (K.contents out.old)
        (accepted_line session.now.files.lines)) }
{
    let count = session.files.lines;
    let line = format!(in settings.alloc; "accepted {count}\n")?;
    write(out, line.as_str())
}
