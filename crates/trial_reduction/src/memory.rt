//! The doubling alone: its steps, its time, its memory.
use crate::clock::{micros, now, report};
use crate::terms::{NODES, STEPS, closed, doubling, limits};
use hb_env::Env;
use hb_reduce::{ReduceRefused, nf};
use std::{fs, io};

/// The bytes that one node of a term may take at the most: three times what it takes alone.
const BYTES: u64 = 216;

/// The most kilobytes that the process has held so far, as the system tells them.
fn peak(rt: &HostRuntime) -> io::Result<u64> {
    let text = fs::read_to_string(rt, "/proc/self/status")?;
    for line in text.lines() {
        if let Some(rest) = line.strip_prefix("VmHWM:") {
            let number = rest.trim().split(' ').next().unwrap_or("");
            return Ok(number.parse::<u64>().unwrap_or(0));
        }
    }
    Ok(0)
}

/// Measures the doubling.
pub(crate) fn trial(rt: &HostRuntime, env: &Env) -> io::Result<()> {
    let alloc = rt.alloc();
    let term = closed(doubling(alloc)?)?;
    let before = peak(rt)?;
    let start = now(rt)?;
    let answer = nf(alloc, env, &term, &limits(STEPS));
    let time = micros(start, now(rt)?);
    let after = peak(rt)?;
    let whole = match answer {
        Ok(form) => form.term().nodes() == NODES,
        Err(_) => false,
    };
    let short = nf(alloc, env, &term, &limits(STEPS - 1));
    let spent = matches!(short, Err(ReduceRefused::Spent(_)));
    let bytes = after.saturating_sub(before).saturating_mul(1_024) / NODES;
    eprintln!(rt; "doubling: {time} us, {bytes} bytes a node of the largest term")?;
    report(
        rt,
        "the doubling takes 262142 steps and no fewer",
        whole && spent,
    )?;
    report(rt, "in less than a second", time < 1_000_000)?;
    report(
        rt,
        "in a small multiple of its normal form's memory",
        bytes > 0 && bytes < BYTES,
    )
}
