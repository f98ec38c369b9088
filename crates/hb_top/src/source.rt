//! Compiling sources.
ghost use Rattle.std.specs.Prelude.{◌≡◌, ◌≤◌, ◌∷◌, [], ℕ, List, Some, false, reverse, IfOk, IfErr, IfSome, OnOk, Err, IsTrue, length};
ghost use Rattle.hb_io.specs.Causes.{Rose};
ghost use Rattle.hb_io.specs.Told.{Told, TellsOnly};
ghost use Rattle.hb_raw.specs.Views.{command as view, sentences};
ghost use Rattle.hb_session.specs.Reporting.{source_name};
ghost use Rattle.hb_session.specs.Source.{FormCause, IsSourceOf, MayHaveNotations};
ghost use Rattle.hb_session.specs.State.{state};
ghost use Rattle.hb_session.specs.Taking.{OnlyNames};
ghost use Rattle.hb_words.specs.Jobs.{is_library};
ghost use Rattle.hb_top.specs.Agenda as task;
ghost use Rattle.hb_top.specs.Stack.{reading_then, required_then, stack_then, IsReading, IsRequired};
ghost use Rattle.hb_top.specs.Trace.{point, Ends};
ghost use Rattle.hb_top.specs.Stops.{FilesStay, IsInner, IsSourceFault, IsTellable};

use crate::place::declared_place;
use crate::settings::Settings;
use crate::stop::{Stop, of_refusal, refused};
use crate::tell::report;
use hb_base::{Count, Span};
use hb_emit::Emitter;
use hb_env::{Refusal, What};
use hb_io::{Depot, DepotFault, Sink, Whole, read_whole};
use hb_raw::{Command, CommandKind, Word};
use hb_session::{Session, Stage, at_byte, stops_at_notation};
use std::alloc::{AllocError, Global};

/// The most bytes of a source: 1 MiB.
pub(crate) const MOST_SOURCE: usize = 1_048_576;

/// The most turns that the sources of a run take: one for each command, and one for the end of each source.
const MOST_TURNS: u64 = 64 * 1_048_577;

/// The bytes of the file with the number, at most so many.
pub(crate) fn read<D: Depot>(
    alloc: Global,
    depot: &mut D,
    file: u16,
    name: &str,
    most: usize,
) -> Result<Vec<u8>, Stop>
    ensures fits { IfOk result (λ bytes. length bytes.items ≤ most) }
    ensures told { IfOk result (λ bytes. TellsOnly (D.file depot.old name.now) bytes.items) }
    ensures depot_later { D.faults depot.old ≤ D.faults depot.new }
    ensures source { IfErr result
        (λ stop. IsSourceFault stop → Rose (D.faults depot.old) (D.faults depot.new)) }
    ensures sink { IfErr result (λ stop. stop ≡ Stop.SinkFault → ⊥) }
    ensures printed { IfErr result IsTellable }
    ensures files { FilesStay (D.file depot.old) (D.file depot.new) }
{
    match read_whole(alloc, depot, name, most) {
        Ok(Whole::Bytes(bytes)) => Ok(bytes),
        Ok(Whole::TooLong) => Err(refused(at_byte(file, 0), What::FileTooLong)),
        Err(DepotFault::Absent) => Err(refused(at_byte(file, 0), What::Absent)),
        Err(DepotFault::Failed) => Err(Stop::SourceFault(file)),
        Err(DepotFault::NoMemory) => Err(Stop::NoMemory),
    }
}

/// A source whose commands are being taken.
#[derive(Drop)]
struct Reading {
    file: u16,
    /// How many bytes it has.
    length: u32,
    /// The commands that are left, the next one last.
    rest: Vec<Command>,
    /// The name that asked for it, where a command did.
    required: Option<Word>,
}

/// Compiles a source of the command line into the session, and in place each source that it requires.
#[tactic(auto, using(crate::proofs::TraceLemmas::refused_same))]
pub(crate) fn compile_source<D: Depot, K: Sink>(
    settings: Settings,
    session: &mut Session,
    depot: &mut D,
    out: &mut K,
    emitters: &mut Vec<Box<dyn Emitter>>,
    name: &str,
) -> Result<(), Stop>
    ensures depot_later { D.faults depot.old ≤ D.faults depot.new }
    ensures sink_later { K.faults out.old ≤ K.faults out.new }
    ensures source { IfErr result
        (λ stop. IsSourceFault stop → Rose (D.faults depot.old) (D.faults depot.new)) }
    ensures sink { result ≡ Err Stop.SinkFault → Rose (K.faults out.old) (K.faults out.new) }
    ensures printed { IfErr result IsTellable }
    ensures files { FilesStay (D.file depot.old) (D.file depot.new) }
    ensures went { IsTrue settings.aloud → is_library name.now ≡ false → Ends (D.file depot.old)
        (task.file name.now ∷ []) (point session.old (K.contents out.old))
        [] (point session.new (K.contents out.new)) result }
{
    if !session.files.has_room() {
        let file = session.files.begin(name, Stage::Other)?;
        return Err(refused(at_byte(file, 0), What::TooMany(Count::Files)));
    }
    let file = session.files.begin(name, Stage::Reading)?;
    let bytes = match read(settings.alloc, depot, file, name, MOST_SOURCE) {
        Ok(bytes) => bytes,
        Err(stop) => return Err(stop),
    };
    compile_bytes(
        settings,
        session,
        depot,
        out,
        emitters,
        file,
        bytes.as_slice(),
    )
}

/// Compiles the bytes of a source that was begun, and in place each source that it requires.
#[tactic(auto, using(crate::proofs::TraceLemmas::refused_there, crate::proofs::TraceLemmas::refused_same))]
pub(crate) fn compile_bytes<D: Depot, K: Sink>(
    settings: Settings,
    session: &mut Session,
    depot: &mut D,
    out: &mut K,
    emitters: &mut Vec<Box<dyn Emitter>>,
    file: u16,
    bytes: &[u8],
) -> Result<(), Stop>
    requires { length bytes.now ≤ 1048576 }
    ensures depot_later { D.faults depot.old ≤ D.faults depot.new }
    ensures sink_later { K.faults out.old ≤ K.faults out.new }
    ensures source { IfErr result
        (λ stop. IsSourceFault stop → Rose (D.faults depot.old) (D.faults depot.new)) }
    ensures sink { result ≡ Err Stop.SinkFault → Rose (K.faults out.old) (K.faults out.new) }
    ensures printed { IfErr result IsTellable }
    ensures files { FilesStay (D.file depot.old) (D.file depot.new) }
    ensures went { IsTrue settings.aloud → (name : List ℕ) → is_library name ≡ false → TellsOnly (D.file depot.old name) bytes.now → Ends (D.file depot.old)
        (task.file name ∷ []) (point session.old (K.contents out.old))
        [] (point session.new (K.contents out.new)) result }
{
    let first = match read_source(session, file, bytes, None) {
        Ok(first) => first,
        Err(stop) => return Err(stop),
    };
    let mut stack = Vec::new(settings.alloc);
    stack.push(first)?;
    take_all(settings, session, depot, out, emitters, stack)
}

/// The commands of a source of the session, which is read whole.
fn read_source(
    session: &mut Session,
    file: u16,
    bytes: &[u8],
    required: Option<Word>,
) -> Result<Reading, Stop>
    requires { length bytes.now ≤ 1048576 }
    ensures opened { IfOk result
        (IsReading file bytes.now (state session.new).back.names required) }
    ensures inner { IfErr result IsInner }
    ensures only_names { OnlyNames (state session.old) (state session.new) }
    ensures lines { session.new.files.lines ≡ session.old.files.lines }
{
    let mut rest = match commands(session, file, bytes) {
        Ok(commands) => commands,
        Err(refusal) => return Err(of_refusal(refusal)),
    };
    rest.reverse();
    Ok(Reading {
        file,
        length: bytes.len() as u32,
        rest,
        required,
    })
}

/// The commands of a source, with or without notations.
fn commands(session: &mut Session, file: u16, bytes: &[u8]) -> Result<Vec<Command>, Refusal>
    requires { length bytes.now ≤ 1048576 }
    ensures source { IfOk result
        (λ cs. IsSourceOf file bytes.now (state session.new).back.names (sentences cs.items)) }
    ensures only_names { OnlyNames (state session.old) (state session.new) }
    ensures lines { session.new.files.lines ≡ session.old.files.lines }
{
    match session.commands(file, bytes) {
        Ok(commands) => Ok(commands),
        Err(refusal) => noted_commands(session, file, bytes, refusal),
    }
}

/// The commands of a source that was refused so without notations.
fn noted_commands(
    session: &mut Session,
    file: u16,
    bytes: &[u8],
    refusal: Refusal,
) -> Result<Vec<Command>, Refusal>
    requires form { FormCause file bytes.now (state session.old).back.names refusal.span refusal.what }
    ensures noted { OnOk result (MayHaveNotations file bytes.now) }
    ensures only_names { OnlyNames (state session.old) (state session.new) }
    ensures lines { session.new.files.lines ≡ session.old.files.lines }
{
    if stops_at_notation(bytes, &refusal) {
        session.noted_commands(file, bytes)
    } else {
        Err(refusal)
    }
}

/// Takes the commands of the sources of the stack, of which the last is read first.
#[tactic(auto, using(crate::proofs::TraceLemmas::no_step))]
fn take_all<D: Depot, K: Sink>(
    settings: Settings,
    session: &mut Session,
    depot: &mut D,
    out: &mut K,
    emitters: &mut Vec<Box<dyn Emitter>>,
    stack: Vec<Reading>,
) -> Result<(), Stop>
    ensures depot_later { D.faults depot.old ≤ D.faults depot.new }
    ensures sink_later { K.faults out.old ≤ K.faults out.new }
    ensures source { IfErr result
        (λ stop. IsSourceFault stop → Rose (D.faults depot.old) (D.faults depot.new)) }
    ensures sink { result ≡ Err Stop.SinkFault → Rose (K.faults out.old) (K.faults out.new) }
    ensures printed { IfErr result IsTellable }
    ensures files { FilesStay (D.file depot.old) (D.file depot.new) }
    ensures went { IsTrue settings.aloud → Ends (D.file depot.old)
        (stack_then stack.items []) (point session.old (K.contents out.old))
        [] (point session.new (K.contents out.new)) result }
{
    let mut stack = stack;
    'turns: for _ in 0..MOST_TURNS {
        let Some(now) = stack.pop() else {
            return Ok(());
        };
        match turn(settings, session, depot, out, emitters, &mut stack, now) {
            Ok(()) => {}
            Err(stop) => return Err(stop),
        }
    }
    Err(Stop::NoMemory)
}

/// Takes the next command of a source, or ends it; what is left of it, and what it requires, goes onto
/// the stack.
#[tactic(auto, using(crate::proofs::TraceLemmas::no_step))]
fn turn<D: Depot, K: Sink>(
    settings: Settings,
    session: &mut Session,
    depot: &mut D,
    out: &mut K,
    emitters: &mut Vec<Box<dyn Emitter>>,
    stack: &mut Vec<Reading>,
    now: Reading,
) -> Result<(), Stop>
    ensures depot_later { D.faults depot.old ≤ D.faults depot.new }
    ensures sink_later { K.faults out.old ≤ K.faults out.new }
    ensures source { IfErr result
        (λ stop. IsSourceFault stop → Rose (D.faults depot.old) (D.faults depot.new)) }
    ensures sink { result ≡ Err Stop.SinkFault → Rose (K.faults out.old) (K.faults out.new) }
    ensures printed { IfErr result IsTellable }
    ensures files { FilesStay (D.file depot.old) (D.file depot.new) }
    ensures went { IsTrue settings.aloud → Ends (D.file depot.old)
        (reading_then now (stack_then stack.old.items [])) (point session.old (K.contents out.old))
        (stack_then stack.new.items []) (point session.new (K.contents out.new)) result }
{
    let mut now = now;
    let Some(command) = now.rest.pop() else {
        return end(settings, session, out, emitters, &now);
    };
    stack.push(now)?;
    match &command.kind {
        CommandKind::Require { name } => {
            match require(settings, session, depot, command.span, *name) {
                Ok(Some(required)) => {
                    stack.push(required)?;
                    Ok(())
                }
                Ok(None) => take_required(settings, session, out, emitters, *name),
                Err(stop) => Err(stop),
            }
        }
        _ => take(settings, session, out, emitters, &command),
    }
}

/// Ends a source, and takes the command that required it. In a section it is refused at its end.
#[tactic(auto, using(crate::proofs::TraceLemmas::refused_same))]
fn end<K: Sink>(
    settings: Settings,
    session: &mut Session,
    out: &mut K,
    emitters: &mut Vec<Box<dyn Emitter>>,
    now: &Reading,
) -> Result<(), Stop>
    ensures sink_later { K.faults out.old ≤ K.faults out.new }
    ensures source { IfErr result (λ stop. IsSourceFault stop → ⊥) }
    ensures sink { result ≡ Err Stop.SinkFault → Rose (K.faults out.old) (K.faults out.new) }
    ensures printed { IfErr result IsTellable }
    ensures went { IsTrue settings.aloud → (F : List ℕ → Told) → Ends F
        (task.source_end ∷ required_then now.now.required []) (point session.old (K.contents out.old))
        [] (point session.new (K.contents out.new)) result }
{
    if session.is_in_section() {
        return Err(refused(at_byte(now.file, now.length), What::SectionOpen));
    }
    session.files.end(now.file);
    match now.required {
        Some(name) => take_required(settings, session, out, emitters, name),
        None => Ok(()),
    }
}

/// Takes a command that requires no file, and reports it.
#[tactic(auto, using(crate::proofs::TraceLemmas::refused_there, crate::proofs::TraceLemmas::refused_same, crate::proofs::TraceLemmas::halts_by_sink))]
fn take<K: Sink>(
    settings: Settings,
    session: &mut Session,
    out: &mut K,
    emitters: &mut Vec<Box<dyn Emitter>>,
    command: &Command,
) -> Result<(), Stop>
    ensures sink_later { K.faults out.old ≤ K.faults out.new }
    ensures source { IfErr result (λ stop. IsSourceFault stop → ⊥) }
    ensures sink { result ≡ Err Stop.SinkFault → Rose (K.faults out.old) (K.faults out.new) }
    ensures printed { IfErr result IsTellable }
    ensures went { IsTrue settings.aloud → (F : List ℕ → Told) → Ends F
        (task.command (view command.now) ∷ []) (point session.old (K.contents out.old))
        [] (point session.new (K.contents out.new)) result }
{
    let from = session.theory().env().len();
    match session.take(command, &settings.limits) {
        Ok(event) => {
            note_declared(session, from, command)?;
            report(settings, session, &event, out, emitters)
        }
        Err(refusal) => Err(of_refusal(refusal)),
    }
}

/// Notes where the declarations from a number on were commanded. Out of memory is the one error.
fn note_declared(session: &mut Session, from: u32, command: &Command) -> Result<(), AllocError>
    ensures keeps { state session.new ≡ state session.old }
    ensures lines { session.new.files.lines ≡ session.old.files.lines }
{
    let to = session.theory().env().len();
    if from < to {
        session.files.declare(from, to, declared_place(command))?;
    }
    Ok(())
}

/// Takes a command whose required file was compiled, and reports it.
#[tactic(auto, using(crate::proofs::TraceLemmas::refused_same, crate::proofs::TraceLemmas::halts_by_sink))]
fn take_required<K: Sink>(
    settings: Settings,
    session: &mut Session,
    out: &mut K,
    emitters: &mut Vec<Box<dyn Emitter>>,
    name: Word,
) -> Result<(), Stop>
    ensures sink_later { K.faults out.old ≤ K.faults out.new }
    ensures source { IfErr result (λ stop. IsSourceFault stop → ⊥) }
    ensures sink { result ≡ Err Stop.SinkFault → Rose (K.faults out.old) (K.faults out.new) }
    ensures printed { IfErr result IsTellable }
    ensures went { IsTrue settings.aloud → (F : List ℕ → Told) → Ends F
        (task.required name ∷ []) (point session.old (K.contents out.old))
        [] (point session.new (K.contents out.new)) result }
{
    match session.take_require(name) {
        Ok(event) => report(settings, session, &event, out, emitters),
        Err(refusal) => Err(of_refusal(refusal)),
    }
}

/// The source that a command requires, where it wasn't compiled before. In a section the command is
/// refused at its first word; a file that is being read, and one file too many, at the name.
fn require<D: Depot>(
    settings: Settings,
    session: &mut Session,
    depot: &mut D,
    span: Span,
    name: Word,
) -> Result<Option<Reading>, Stop>
    ensures depot_later { D.faults depot.old ≤ D.faults depot.new }
    ensures source { IfErr result
        (λ stop. IsSourceFault stop → Rose (D.faults depot.old) (D.faults depot.new)) }
    ensures sink { IfErr result (λ stop. stop ≡ Stop.SinkFault → ⊥) }
    ensures printed { IfErr result IsTellable }
    ensures files { FilesStay (D.file depot.old) (D.file depot.new) }
    ensures opened { IfOk result (λ opened. IfSome opened
        (IsRequired (D.file depot.old) (source_name (state session.old).back.names name.name.0)
        (state session.new).back.names name)) }
    ensures only_names { OnlyNames (state session.old) (state session.new) }
    ensures lines { session.new.files.lines ≡ session.old.files.lines }
{
    if session.is_in_section() {
        return Err(refused(span, What::SectionOpen));
    }
    let source = session.source_name(name.name)?;
    if session.files.is(source.as_str(), Stage::Reading) {
        return Err(refused(name.span, What::RequireCycle(name.name)));
    }
    if session.files.is(source.as_str(), Stage::Compiled) {
        return Ok(None);
    }
    if !session.files.has_room() {
        return Err(refused(name.span, What::TooMany(Count::Files)));
    }
    let file = session.files.begin(source.as_str(), Stage::Reading)?;
    let bytes = match read(settings.alloc, depot, file, source.as_str(), MOST_SOURCE) {
        Ok(bytes) => bytes,
        Err(stop) => return Err(stop),
    };
    match read_source(session, file, bytes.as_slice(), Some(name)) {
        Ok(required) => Ok(Some(required)),
        Err(stop) => Err(stop),
    }
}
