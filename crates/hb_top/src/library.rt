//! Loading libraries and core texts.
ghost use Rattle.std.specs.Prelude.{◌≡◌, ◌≤◌, ◌∷◌, [], ℕ, List, true, IfOk, IfErr, Err, IsTrue, OnOk, Option};
ghost use Rattle.hb_env.specs.Plain.{plain};
ghost use Rattle.hb_io.specs.Causes.{Rose};
ghost use Rattle.hb_io.specs.Told.{Told};
ghost use Rattle.hb_session.specs.State.{state};
ghost use Rattle.hb_words.specs.Jobs.{is_library};
ghost use Rattle.hb_top.specs.Agenda as task;
ghost use Rattle.hb_top.specs.Trace.{library_line, name_of_decl, point, Ends, IsCoreEntry, Writes};
ghost use Rattle.hb_top.specs.Stops.{FilesStay, IsInner, IsOfSink, IsSourceFault, IsTellable};

use crate::settings::Settings;
use crate::source::read;
use crate::stop::{Stop, of_refusal};
use crate::tell::{emit, tell, write};
use hb_base::NameId;
use hb_emit::Emitter;
use hb_env::{Decl, Entry, Head, Places};
use hb_events::Event;
use hb_io::{Depot, Sink};
use hb_session::{Session, Stage};
use std::alloc::{AllocError, Global};

/// The most bytes of a library: 512 MiB.
pub(crate) const MOST_LIBRARY: usize = 536_870_912;

/// The most bytes of a core text: 64 MiB.
const MOST_CORE: usize = 67_108_864;

/// Loads a library into an empty session: each entry is taken as it was when it was saved.
#[tactic(auto, using(crate::proofs::TraceLemmas::refused_same, crate::proofs::TraceLemmas::refused_there))]
pub(crate) fn load<D: Depot, K: Sink>(
    settings: Settings,
    session: &mut Session,
    depot: &mut D,
    out: &mut K,
    emitters: &mut Vec<Box<dyn Emitter>>,
    name: &str,
) -> Result<(), Stop>
    ensures depot_later { D.faults depot.old ≤ D.faults depot.new }
    ensures sink_later { K.faults out.old ≤ K.faults out.new }
    ensures source { IfErr result
        (λ stop. IsSourceFault stop → Rose (D.faults depot.old) (D.faults depot.new)) }
    ensures sink { result ≡ Err Stop.SinkFault → Rose (K.faults out.old) (K.faults out.new) }
    ensures printed { IfErr result IsTellable }
    ensures files { FilesStay (D.file depot.old) (D.file depot.new) }
    ensures went { IsTrue settings.aloud → is_library name.now ≡ true → Ends (D.file depot.old)
        (task.file name.now ∷ []) (point session.old (K.contents out.old))
        [] (point session.new (K.contents out.new)) result }
{
    let file = session.files.begin(name, Stage::Other)?;
    let bytes = match read(settings.alloc, depot, file, name, MOST_LIBRARY) {
        Ok(bytes) => bytes,
        Err(stop) => return Err(stop),
    };
    let entries = match session.library(file, bytes.as_slice()) {
        Ok(entries) => entries,
        Err(refusal) => return Err(of_refusal(refusal)),
    };
    drop(bytes);
    let count = entries.len();
    'entries: for (entry, places) in entries {
        match load_entry(settings, session, emitters, entry, &places) {
            Ok(()) => {}
            Err(stop) => return Err(stop),
        }
    }
    tell_library(settings, session, out, name, count)
}

/// Writes the line of a library that was loaded, where the run is aloud, and counts it.
fn tell_library<K: Sink>(
    settings: Settings,
    session: &mut Session,
    out: &mut K,
    name: &str,
    count: usize,
) -> Result<(), Stop>
    ensures sink_later { K.faults out.old ≤ K.faults out.new }
    ensures source { IfErr result (λ stop. IsSourceFault stop → ⊥) }
    ensures sink { result ≡ Err Stop.SinkFault → Rose (K.faults out.old) (K.faults out.new) }
    ensures printed { IfErr result IsTellable }
    ensures cut { IfErr result IsOfSink }
    ensures keeps { state session.new ≡ state session.old }
    ensures told { IsTrue settings.aloud → OnOk result
        (Writes (point session.old (K.contents out.old)) (point session.new (K.contents out.new))
        (library_line name.now count) 1) }
{
    if !settings.aloud {
        return Ok(());
    }
    let line = format!(in settings.alloc; "library {name}: {count}\n")?;
    match write(out, line.as_str()) {
        Ok(()) => {}
        Err(stop) => return Err(stop),
    }
    session.files.lines = session.files.lines.saturating_add(1);
    Ok(())
}

/// Takes one entry of a library. A file that was required counts as compiled.
#[tactic(auto, using(crate::proofs::TraceLemmas::refused_there, crate::proofs::TraceLemmas::refused_same))]
fn load_entry(
    settings: Settings,
    session: &mut Session,
    emitters: &mut Vec<Box<dyn Emitter>>,
    entry: Entry,
    places: &Places,
) -> Result<(), Stop>
    ensures inner { IfErr result IsInner }
    ensures went { (F : List ℕ → Told) (o : Option (List ℕ)) → Ends F (task.entry entry ∷ [])
        (point session.old o) [] (point session.new o) result }
{
    let required = required_by(&entry);
    match session.replay(entry, places, &settings.limits) {
        Ok(()) => {}
        Err(refusal) => return Err(of_refusal(refusal)),
    }
    note_required(session, required)?;
    if settings.aloud {
        match emit(settings.alloc, session, emitters) {
            Ok(()) => {}
            Err(stop) => return Err(stop),
        }
    }
    Ok(())
}

/// Notes that a file was compiled into the library. Out of memory is the one error.
fn note_required(session: &mut Session, required: Option<NameId>) -> Result<(), AllocError>
    ensures keeps { state session.new ≡ state session.old }
    ensures lines { session.new.files.lines ≡ session.old.files.lines }
{
    match required {
        Some(name) => {
            let source = session.source_name(name)?;
            session.files.note(source)
        }
        None => Ok(()),
    }
}

/// The name that the entry requires.
fn required_by(entry: &Entry) -> Option<NameId> {
    match &entry.head {
        Head::Require { name } => Some(*name),
        _ => None,
    }
}

/// Reads a core text and adds its declarations in order, each as an entry of its own.
#[tactic(auto, using(crate::proofs::TraceLemmas::refused_same, crate::proofs::TraceLemmas::refused_there))]
pub(crate) fn core<D: Depot, K: Sink>(
    settings: Settings,
    session: &mut Session,
    depot: &mut D,
    out: &mut K,
    emitters: &mut Vec<Box<dyn Emitter>>,
    name: &str,
) -> Result<(), Stop>
    ensures depot_later { D.faults depot.old ≤ D.faults depot.new }
    ensures sink_later { K.faults out.old ≤ K.faults out.new }
    ensures source { IfErr result
        (λ stop. IsSourceFault stop → Rose (D.faults depot.old) (D.faults depot.new)) }
    ensures sink { result ≡ Err Stop.SinkFault → Rose (K.faults out.old) (K.faults out.new) }
    ensures printed { IfErr result IsTellable }
    ensures files { FilesStay (D.file depot.old) (D.file depot.new) }
    ensures went { IsTrue settings.aloud → Ends (D.file depot.old)
        (task.core_text name.now ∷ []) (point session.old (K.contents out.old))
        [] (point session.new (K.contents out.new)) result }
{
    let file = session.files.begin(name, Stage::Other)?;
    let bytes = match read(settings.alloc, depot, file, name, MOST_CORE) {
        Ok(bytes) => bytes,
        Err(stop) => return Err(stop),
    };
    let decls = match session.core_text(file, bytes.as_slice()) {
        Ok(decls) => decls,
        Err(refusal) => return Err(of_refusal(refusal)),
    };
    drop(bytes);
    'decls: for (decl, span) in decls {
        let declared = declared_by(&decl);
        let places = Places {
            span,
            count: span.from,
            decls: places_of(settings.alloc, span.from)?,
        };
        let entry = core_entry(settings.alloc, decl)?;
        match session.replay(entry, &places, &settings.limits) {
            Ok(()) => {}
            Err(refusal) => return Err(of_refusal(refusal)),
        }
        match emit(settings.alloc, session, emitters) {
            Ok(()) => {}
            Err(stop) => return Err(stop),
        }
        match tell(settings, session, &Event::Core(declared), out) {
            Ok(()) => {}
            Err(stop) => return Err(stop),
        }
    }
    Ok(())
}

/// The entry of a declaration of a core text.
fn core_entry(alloc: Global, decl: Decl) -> Result<Entry, AllocError>
    ensures { IfOk result (IsCoreEntry (plain decl)) }
{
    let mut decls = Vec::new(alloc);
    decls.push(decl)?;
    Ok(Entry {
        head: Head::Core,
        decls,
    })
}

/// One place.
fn places_of(alloc: Global, at: u32) -> Result<Vec<u32>, AllocError> {
    let mut places = Vec::new(alloc);
    places.push(at)?;
    Ok(places)
}

/// The declared name of a declaration.
fn declared_by(decl: &Decl) -> NameId
    ensures { name_of_decl (plain decl.now) ≡ result.0 }
{
    match decl {
        Decl::Axiom { name, .. } => *name,
        Decl::Def { name, .. } => *name,
        Decl::Record { name, .. } => *name,
    }
}
