//! The top call.
ghost use Rattle.std.specs.Prelude.{◌≡◌, ◌≤◌, ◌∷◌, [], ℕ, List, IfErr, Err, IsTrue, map, string_bytes};
ghost use Rattle.hb_calculus.specs.Typing.{WellFormed};
ghost use Rattle.hb_io.specs.Causes.{Rose};
ghost use Rattle.hb_session.specs.Entries.{decls_of};
ghost use Rattle.hb_session.specs.State.{state};
ghost use Rattle.hb_top.specs.Joins.{HaveJoins};
ghost use Rattle.hb_top.specs.Report.{IsOutcome, IsWork};
ghost use Rattle.hb_top.specs.Stops.{FilesStay, IsSourceFault, IsTellable};
ghost use Rattle.hb_top.specs.Stays.{OthersStay, SourcesStay};
ghost use Rattle.hb_top.specs.Agenda.{agenda_of, core_text, files_then};
ghost use Rattle.hb_top.specs.Trace.{point};
ghost use Rattle.hb_top.specs.Reported.{beginning, certifying, compiling, is_aloud, asked_by, saving, HasReported, ReportsFrom, Works, WorksOut};
ghost use Rattle.hb_words.specs.Jobs.{word_of, IsAllowed};

use crate::certificate::{save_certificate, verify_certificate};
use crate::compile::{accepted, compile_files};
use crate::emitters::drop_failed;
use crate::finish::{finish_all, usage};
use crate::last::stopped;
use crate::library::core;
use crate::refactor::{Comparison, refactor};
use crate::sample::run_sample;
use crate::save::save;
use crate::settings::{Settings, limits_of};
use crate::show::show_file;
use crate::status::Status;
use crate::stop::Stop;
use hb_emit::Emitter;
use hb_io::{Depot, Sink};
use hb_order::joins_are_unique;
use hb_session::Session;
use hb_words::{Job, read_words};
use std::alloc::Global;

/// Does what the words ask for: empties the session, compiles the files into it in order, and writes the
/// report on `out`, a line for each accepted command and one for how the run ended. Answers the status
/// that the program ends with.
pub fn run<D: Depot, K: Sink>(
    alloc: Global,
    words: &[&str],
    depot: &mut D,
    out: &mut K,
    emitters: &mut Vec<Box<dyn Emitter>>,
    session: &mut Session,
) -> Status
    // What the accepted commands declare is well typed, and each declaration is one of their entries'.
    ensures well_formed { WellFormed (state session.new).env }
    ensures agree { (state session.new).env ≡ decls_of (state session.new).entries }

    // Two structures with a common heir have exactly one join.
    ensures joins { HaveJoins (state session.new).back.hier }

    // The faults of devices have their causes, and an early end is told in the last line.
    ensures source_fault { result ≡ Status.SourceFault →
        Rose (D.faults depot.old) (D.faults depot.new) }
    ensures sink_fault { result ≡ Status.SinkFault → Rose (K.faults out.old) (K.faults out.new) }
    ensures told { IsOutcome (K.contents out.old) (K.contents out.new) result }

    // The report of a run that compiles commands: the lines of those that were accepted, one after another, which made
    // the session what it is, and how it ended.
    ensures report { ReportsFrom (map (λ word. word.now) words.now) (D.file depot.old)
        (beginning (K.contents out.old)) (state session.new) (K.contents out.new) result }

    // At most one file has other bytes afterwards, and no source.
    ensures files { (name : List ℕ) × OthersStay name (D.file depot.old) (D.file depot.new) }
    ensures sources { SourcesStay (D.file depot.old) (D.file depot.new) }
{
    session.clear();
    drop_failed(emitters);
    let status = do_words(alloc, words, depot, out, emitters, session);
    let _theory = session.theory();
    session.world().hier.structures_are_allowed();
    joins_are_unique();
    status
}

/// Does what the words ask for.
#[tactic(auto, using(crate::proofs::ReportLemmas::usage_report, crate::proofs::ReportLemmas::job_report, crate::proofs::RunLemmas::usage_outcome, crate::proofs::RunLemmas::usage_reads_nothing, crate::proofs::RunLemmas::no_file_changes, crate::proofs::RunLemmas::no_source_changes))]
fn do_words<D: Depot, K: Sink>(
    alloc: Global,
    words: &[&str],
    depot: &mut D,
    out: &mut K,
    emitters: &mut Vec<Box<dyn Emitter>>,
    session: &mut Session,
) -> Status
    ensures source_fault { result ≡ Status.SourceFault →
        Rose (D.faults depot.old) (D.faults depot.new) }
    ensures sink_fault { result ≡ Status.SinkFault → Rose (K.faults out.old) (K.faults out.new) }
    ensures told { IsOutcome (K.contents out.old) (K.contents out.new) result }
    ensures files { (name : List ℕ) × OthersStay name (D.file depot.old) (D.file depot.new) }
    ensures sources { SourcesStay (D.file depot.old) (D.file depot.new) }
    ensures report { ReportsFrom (map (λ word. word.now) words.now) (D.file depot.old)
        (point session.old (K.contents out.old)) (state session.new) (K.contents out.new) result }
{
    match read_words(alloc, words) {
        Err(_) => Status::NoMemory,
        Ok(None) => usage(out),
        Ok(Some(job)) => do_job(alloc, &job, depot, out, emitters, session),
    }
}

/// Does a job, and ends the emitters' texts.
#[tactic(auto, using(crate::proofs::ReportLemmas::report_end, crate::proofs::EndLemmas::end_outcome, crate::proofs::RunLemmas::source_end))]
fn do_job<D: Depot, K: Sink>(
    alloc: Global,
    job: &Job,
    depot: &mut D,
    out: &mut K,
    emitters: &mut Vec<Box<dyn Emitter>>,
    session: &mut Session,
) -> Status
    requires { IsAllowed job.now }
    ensures source_fault { result ≡ Status.SourceFault →
        Rose (D.faults depot.old) (D.faults depot.new) }
    ensures sink_fault { result ≡ Status.SinkFault → Rose (K.faults out.old) (K.faults out.new) }
    ensures told { IsOutcome (K.contents out.old) (K.contents out.new) result }
    ensures files { (name : List ℕ) × OthersStay name (D.file depot.old) (D.file depot.new) }
    ensures sources { SourcesStay (D.file depot.old) (D.file depot.new) }
    ensures report { HasReported (asked_by (word_of job.now)) (D.file depot.old)
        (agenda_of job.now) (point session.old (K.contents out.old)) (state session.new)
        (K.contents out.new) result }
{
    let status = work_and_tell(alloc, job, depot, out, emitters, session);
    finish_all(alloc, status, out, emitters)
}

/// Does a job, up to the line that tells how it ended.
#[tactic(auto, using(crate::proofs::ReportLemmas::works_done, crate::proofs::ReportLemmas::works_stopped, crate::proofs::ReportLemmas::kind_memory, crate::proofs::StayLemmas::all_stay, crate::proofs::StayLemmas::none_changes))]
fn work_and_tell<D: Depot, K: Sink>(
    alloc: Global,
    job: &Job,
    depot: &mut D,
    out: &mut K,
    emitters: &mut Vec<Box<dyn Emitter>>,
    session: &mut Session,
) -> Status
    requires { IsAllowed job.now }
    ensures sink_later { K.faults out.old ≤ K.faults out.new }
    ensures source_fault { result ≡ Status.SourceFault →
        Rose (D.faults depot.old) (D.faults depot.new) }
    ensures sink_fault { result ≡ Status.SinkFault → Rose (K.faults out.old) (K.faults out.new) }
    ensures told { IsWork (K.contents out.new) result }
    ensures files { (name : List ℕ) × OthersStay name (D.file depot.old) (D.file depot.new) }
    ensures sources { SourcesStay (D.file depot.old) (D.file depot.new) }
    ensures report { HasReported (asked_by (word_of job.now)) (D.file depot.old)
        (agenda_of job.now) (point session.old (K.contents out.old)) (state session.new)
        (K.contents out.new) result }
{
    let settings = settings_of(alloc, job);
    match job {
        Job::Refactor {
            old,
            new,
            clients,
            ..
        } => {
            let wanted = Comparison {
                old: old.as_str(),
                new: new.as_str(),
                clients: clients.as_slice(),
            };
            refactor(settings, session, depot, out, emitters, wanted)
        }
        _ => {
            let ended = work(settings, job, depot, out, emitters, session);
            match ended {
                Ok(()) => Status::Done,
                Err(stop) => stopped(alloc, session, stop, out),
            }
        }
    }
}

/// How the commands of a job are taken.
fn settings_of(alloc: Global, job: &Job) -> Settings
    ensures { result.aloud ≡ is_aloud job.now }
{
    let (steps, aloud) = match job {
        Job::Compile { steps, .. } => (*steps, true),
        Job::Save { steps, .. } => (*steps, true),
        Job::Core { steps, .. } => (*steps, true),
        Job::Certify { steps, .. } => (*steps, true),
        Job::Refactor { steps, .. } => (*steps, false),
        Job::Sample { .. } | Job::Show { .. } | Job::Verify { .. } => (None, false),
    };
    Settings {
        alloc,
        limits: limits_of(steps),
        aloud,
    }
}

/// The work of a job of one session.
#[tactic(auto, using(crate::proofs::ReportLemmas::compiled, crate::proofs::StayLemmas::lib_stays, crate::proofs::StayLemmas::cert_stays, crate::proofs::StayLemmas::all_stay, crate::proofs::StayLemmas::none_changes))]
fn work<D: Depot, K: Sink>(
    settings: Settings,
    job: &Job,
    depot: &mut D,
    out: &mut K,
    emitters: &mut Vec<Box<dyn Emitter>>,
    session: &mut Session,
) -> Result<(), Stop>
    requires { IsAllowed job.now }
    ensures depot_later { D.faults depot.old ≤ D.faults depot.new }
    ensures sink_later { K.faults out.old ≤ K.faults out.new }
    ensures source { IfErr result
        (λ stop. IsSourceFault stop → Rose (D.faults depot.old) (D.faults depot.new)) }
    ensures sink { result ≡ Err Stop.SinkFault → Rose (K.faults out.old) (K.faults out.new) }
    ensures printed { IfErr result IsTellable }
    ensures files { (name : List ℕ) × OthersStay name (D.file depot.old) (D.file depot.new) }
    ensures sources { SourcesStay (D.file depot.old) (D.file depot.new) }
    ensures report { IsTrue settings.aloud → Works (asked_by (word_of job.now))
        (D.file depot.old) (agenda_of job.now) (point session.old (K.contents out.old))
        (point session.new (K.contents out.new)) result }
{
    match job {
        Job::Compile { files, .. } => {
            compile_files(settings, session, depot, out, emitters, files.as_slice())
        }
        Job::Save { lib, files, .. } => {
            save_library(settings, session, depot, out, emitters, lib.as_str(), files)
        }
        Job::Core { file, .. } => {
            add_core(settings, session, depot, out, emitters, file.as_str())
        }
        Job::Sample { number, size } => run_sample(settings, session, out, *number, *size),
        Job::Certify { cert, files, .. } => {
            certify_files(
                settings,
                session,
                depot,
                out,
                emitters,
                cert.as_str(),
                files,
            )
        }
        Job::Verify { cert } => verify_certificate(settings, session, depot, out, cert.as_str()),
        Job::Show { file } => show_file(settings, session, depot, out, file.as_str()),
        Job::Refactor { .. } => Ok(()),
    }
}

/// Compiles the files, and saves the library.
#[tactic(auto, using(crate::proofs::ReportLemmas::halted, crate::proofs::ReportLemmas::saved_behind))]
fn save_library<D: Depot, K: Sink>(
    settings: Settings,
    session: &mut Session,
    depot: &mut D,
    out: &mut K,
    emitters: &mut Vec<Box<dyn Emitter>>,
    lib: &str,
    files: &[String],
) -> Result<(), Stop>
    ensures depot_later { D.faults depot.old ≤ D.faults depot.new }
    ensures sink_later { K.faults out.old ≤ K.faults out.new }
    ensures source { IfErr result
        (λ stop. IsSourceFault stop → Rose (D.faults depot.old) (D.faults depot.new)) }
    ensures sink { result ≡ Err Stop.SinkFault → Rose (K.faults out.old) (K.faults out.new) }
    ensures printed { IfErr result IsTellable }
    ensures files { OthersStay lib.now (D.file depot.old) (D.file depot.new) }
    ensures report { IsTrue settings.aloud → WorksOut saving (D.file depot.old)
        (files_then (map string_bytes files.now) []) (point session.old (K.contents out.old))
        (point session.new (K.contents out.new)) result }
{
    match compile_files(settings, session, depot, out, emitters, files) {
        Ok(()) => {}
        Err(stop) => return Err(stop),
    }
    let bytes = session.library_bytes()?;
    let line = format!(in settings.alloc; "saved {lib}\n")?;
    save(session, depot, out, lib, bytes.as_slice(), line.as_str())
}

/// Compiles the files, and saves the certificate.
#[tactic(auto, using(crate::proofs::ReportLemmas::halted, crate::proofs::ReportLemmas::certified_behind))]
fn certify_files<D: Depot, K: Sink>(
    settings: Settings,
    session: &mut Session,
    depot: &mut D,
    out: &mut K,
    emitters: &mut Vec<Box<dyn Emitter>>,
    cert: &str,
    files: &[String],
) -> Result<(), Stop>
    ensures depot_later { D.faults depot.old ≤ D.faults depot.new }
    ensures sink_later { K.faults out.old ≤ K.faults out.new }
    ensures source { IfErr result
        (λ stop. IsSourceFault stop → Rose (D.faults depot.old) (D.faults depot.new)) }
    ensures sink { result ≡ Err Stop.SinkFault → Rose (K.faults out.old) (K.faults out.new) }
    ensures printed { IfErr result IsTellable }
    ensures files { OthersStay cert.now (D.file depot.old) (D.file depot.new) }
    ensures report { IsTrue settings.aloud → WorksOut certifying (D.file depot.old)
        (files_then (map string_bytes files.now) []) (point session.old (K.contents out.old))
        (point session.new (K.contents out.new)) result }
{
    match compile_files(settings, session, depot, out, emitters, files) {
        Ok(()) => {}
        Err(stop) => return Err(stop),
    }
    save_certificate(settings, session, depot, out, cert)
}

/// Adds the declarations of a core text, and tells how many there were.
#[tactic(auto, using(crate::proofs::ReportLemmas::halted, crate::proofs::ReportLemmas::compiled, crate::proofs::ReportLemmas::accepted_core))]
fn add_core<D: Depot, K: Sink>(
    settings: Settings,
    session: &mut Session,
    depot: &mut D,
    out: &mut K,
    emitters: &mut Vec<Box<dyn Emitter>>,
    file: &str,
) -> Result<(), Stop>
    ensures depot_later { D.faults depot.old ≤ D.faults depot.new }
    ensures sink_later { K.faults out.old ≤ K.faults out.new }
    ensures source { IfErr result
        (λ stop. IsSourceFault stop → Rose (D.faults depot.old) (D.faults depot.new)) }
    ensures sink { result ≡ Err Stop.SinkFault → Rose (K.faults out.old) (K.faults out.new) }
    ensures printed { IfErr result IsTellable }
    ensures files { FilesStay (D.file depot.old) (D.file depot.new) }
    ensures report { IsTrue settings.aloud → WorksOut compiling (D.file depot.old)
        (core_text file.now ∷ []) (point session.old (K.contents out.old))
        (point session.new (K.contents out.new)) result }
{
    match core(settings, session, depot, out, emitters, file) {
        Ok(()) => {}
        Err(stop) => return Err(stop),
    }
    accepted(settings, session, out)
}
