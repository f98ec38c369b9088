//! The program: the real files and standard output under the top call.
#![tactic(auto)]

use hb_emit::{Emitter, Listing, RocqText};
use hb_explain::{Setting, explain};
use hb_io::{FileDepot, FileSink, OutSink, Whole, read_whole, write_all};
use hb_top::{Session, Status, run, wanted_emitters};
use hb_writer::Kind;
use std::alloc::{AllocError, Global};
use std::env::VarError;
use std::io::IsTerminal;
use std::process::ExitCode;
use std::{env, io};

/// The most bytes of a file that is shown.
const MOST_SHOWN: usize = 1_048_576;

fn main(rt: HostRuntime) -> ExitCode {
    match run_words(&rt) {
        Ok(status) => ExitCode::from(status.number()),
        Err(AllocError) => ExitCode::from(Status::NoMemory.number()),
    }
}

/// Runs the words of the command line once, over a fresh session.
fn run_words(rt: &HostRuntime) -> Result<Status, AllocError> {
    let alloc = rt.alloc();
    let words = words(rt)?;
    let mut borrowed = Vec::new(alloc);
    for word in &words {
        borrowed.push(word.as_str())?;
    }
    let mut emitters: Vec<Box<dyn Emitter>> = Vec::new(alloc);
    for (kind, name) in wanted_emitters(alloc, borrowed.as_slice())? {
        let sink = FileSink::new(rt.clone()?, name);
        match kind {
            Kind::Rocq => emitters.push(Box::new(alloc, RocqText::new(sink))?)?,
            Kind::Listing => emitters.push(Box::new(alloc, Listing::new(sink))?)?,
        }
    }
    let mut depot = FileDepot::new(rt);
    let mut out = OutSink::new(io::writer(rt));
    let mut session = Session::new(alloc)?;
    let status = run(
        alloc,
        borrowed.as_slice(),
        &mut depot,
        &mut out,
        &mut emitters,
        &mut session,
    );
    tell_fault(rt, &mut depot, &session);
    Ok(status)
}

/// Writes the diagnosis of a run that was refused on standard error. What fails here changes nothing.
fn tell_fault(rt: &HostRuntime, depot: &mut FileDepot<'_, HostRuntime>, session: &Session) {
    let Some(refusal) = &session.fault else {
        return;
    };
    let alloc = rt.alloc();
    let file = session.files.name(refusal.span.file);
    let source = match read_whole(alloc, depot, file, MOST_SHOWN) {
        Ok(Whole::Bytes(bytes)) => Some(bytes),
        Ok(Whole::TooLong) => None,
        Err(_) => None,
    };
    let shown = match &source {
        Some(bytes) => Some(bytes.as_slice()),
        None => None,
    };
    let setting = Setting {
        alloc,
        world: session.world(),
        env: session.theory().env(),
        file,
    };
    match explain(setting, refusal, shown, is_coloured(rt)) {
        Ok(text) => {
            let mut out = OutSink::new(rt.stderr());
            let _ = write_all(&mut out, text.as_bytes());
        }
        Err(AllocError) => {}
    }
}

/// Whether standard error is coloured: it is a terminal, and `NO_COLOR` isn't set.
fn is_coloured(rt: &HostRuntime) -> bool {
    rt.stderr().is_terminal() && matches!(env::var(rt, "NO_COLOR"), Err(VarError::NotPresent))
}

/// The words after the program's name. Words that are no text are no words, which no row of the usage
/// text has.
fn words(rt: &HostRuntime) -> Result<Vec<String>, AllocError> {
    let alloc: Global = rt.alloc();
    let mut words = Vec::new(alloc);
    match env::args(rt) {
        Ok(args) => {
            for word in args.skip(1) {
                words.push(word)?;
            }
            Ok(words)
        }
        Err(error) if error.kind() == io::ErrorKind::OutOfMemory => Err(AllocError),
        Err(_) => Ok(words),
    }
}
