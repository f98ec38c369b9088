//! How a run is told to have ended.
ghost use Rattle.std.specs.Prelude.{◌≡◌, ◌≤◌, ◌⊎◌};
ghost use Rattle.hb_io.specs.Causes.{Rose};
ghost use Rattle.hb_top.specs.Report.{usage_text, EndsWith, IsTold, IsEndOf, IsWork};

use crate::status::Status;
use hb_emit::{EmitFault, Emitter};
use hb_io::{Sink, SinkFault, write_all};
use std::alloc::{AllocError, Global};

/// What is written where the words are in none of its rows.
const USAGE: &str = "usage: hbc compile [--steps N] [--rocq OUT] [--listing OUT] FILE..
       hbc save [--steps N] LIB FILE..
       hbc core [--steps N] FILE
       hbc refactor [--steps N] OLD NEW [CLIENT..]
       hbc sample NUMBER SIZE
       hbc show FILE
       hbc certify [--steps N] CERT FILE..
       hbc verify CERT
";

/// Writes the usage text.
pub(crate) fn usage<K: Sink>(out: &mut K) -> Status
    ensures ends { EndsWith usage_text Status.Usage (K.contents out.old) (K.contents out.new) result }
    ensures sink { result ≡ Status.SinkFault → Rose (K.faults out.old) (K.faults out.new) }
{
    end(USAGE.as_bytes(), Status::Usage, out)
}

/// Writes the last text of a run, and answers the wanted status, or that of the fault.
pub(crate) fn end<K: Sink>(text: &[u8], wanted: Status, out: &mut K) -> Status
    requires { IsTold wanted }
    ensures ends { EndsWith text.now wanted (K.contents out.old) (K.contents out.new) result }
    ensures sink { result ≡ Status.SinkFault → Rose (K.faults out.old) (K.faults out.new) }
    ensures later { K.faults out.old ≤ K.faults out.new }
{
    match write_all(out, text) {
        Ok(()) => wanted,
        Err(SinkFault::Failed) => Status::SinkFault,
        Err(SinkFault::NoMemory) => Status::NoMemory,
    }
}

/// Ends the texts of the emitters that haven't failed, unless memory was wanting, and tells how many
/// failed where the run was done.
#[tactic(auto, using(crate::proofs::EndLemmas::same_end))]
pub(crate) fn finish_all<K: Sink>(
    alloc: Global,
    status: Status,
    out: &mut K,
    emitters: &mut Vec<Box<dyn Emitter>>,
) -> Status
    requires { IsWork (K.contents out.old) status }
    ensures ends { IsEndOf status (K.contents out.old) (K.contents out.new) result }
    ensures sink { result ≡ Status.SinkFault →
        (status ≡ Status.SinkFault) ⊎ Rose (K.faults out.old) (K.faults out.new) }
    ensures later { K.faults out.old ≤ K.faults out.new }
{
    if status == Status::NoMemory {
        return status;
    }
    match finish_each(emitters) {
        Ok(()) => {}
        Err(AllocError) => return Status::NoMemory,
    }
    if status == Status::Done {
        tell_lost(alloc, lost(emitters), out)
    } else {
        status
    }
}

/// Ends the text of each emitter that hasn't failed. Out of memory is the one error.
fn finish_each(emitters: &mut Vec<Box<dyn Emitter>>) -> Result<(), AllocError> {
    for emitter in emitters.iter_mut() {
        if !emitter.failed() {
            match emitter.finish() {
                Ok(()) => {}
                Err(EmitFault::Failed) => {}
                Err(EmitFault::NoMemory) => return Err(AllocError),
            }
        }
    }
    Ok(())
}

/// Tells how many texts were lost at the end of a run that is done, if any were.
#[tactic(auto, using(crate::proofs::EndLemmas::lost_end))]
fn tell_lost<K: Sink>(alloc: Global, lost: u64, out: &mut K) -> Status
    ensures ends { IsEndOf Status.Done (K.contents out.old) (K.contents out.new) result }
    ensures sink { result ≡ Status.SinkFault → Rose (K.faults out.old) (K.faults out.new) }
    ensures later { K.faults out.old ≤ K.faults out.new }
{
    if lost == 0 {
        return Status::Done;
    }
    match format!(in alloc; "lost {lost}\n") {
        Ok(line) => end(line.as_bytes(), Status::EmitLost, out),
        Err(_) => Status::NoMemory,
    }
}

/// How many emitters have failed.
fn lost(emitters: &Vec<Box<dyn Emitter>>) -> u64 {
    let mut count: u64 = 0;
    for emitter in emitters {
        if emitter.failed() {
            count = count.saturating_add(1);
        }
    }
    count
}
