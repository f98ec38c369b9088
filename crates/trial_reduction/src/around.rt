//! The doubling inside of larger terms.
use crate::clock::{micros, now, report};
use crate::terms::{STEPS, closed, doubling, limits, pairs, repeated};
use hb_env::Env;
use hb_reduce::nf;
use hb_term::{Scoped, Term};
use plain_reduction::{NEXT, PAIR, constant};
use std::alloc::{AllocError, Global};
use std::io;

/// The doubling beside so many levels of pairs.
fn beside(alloc: Global, levels: u32) -> Result<Scoped, AllocError> {
    let first = Term::app(alloc, constant(PAIR), pairs(alloc, levels)?)?;
    closed(Term::app(alloc, first, doubling(alloc)?)?)
}

/// The doubling inside of so many applications.
fn inside(alloc: Global, levels: u32) -> Result<Scoped, AllocError> {
    closed(repeated(alloc, NEXT, levels, doubling(alloc)?)?)
}

/// The least time of three reductions of the term, in microseconds; nothing if one has no normal form.
fn time(rt: &HostRuntime, env: &Env, term: &Scoped) -> io::Result<Option<u128>> {
    let alloc = rt.alloc();
    let mut least = u128::MAX;
    for _turn in 0..3u32 {
        let start = now(rt)?;
        let answer = nf(alloc, env, term, &limits(STEPS));
        if answer.is_err() {
            return Ok(None);
        }
        least = least.min(micros(start, now(rt)?));
    }
    Ok(Some(least))
}

/// Says whether the term takes at most twice the time.
fn compare(rt: &HostRuntime, env: &Env, term: &Scoped, alone: u128, aim: &str) -> io::Result<()> {
    match time(rt, env, term)? {
        Some(time) => {
            eprintln!(rt; "{aim}: {time} us, {alone} us alone")?;
            report(rt, aim, time <= alone.saturating_mul(2))
        }
        None => report(rt, aim, false),
    }
}

/// Measures the doubling with other terms around it.
pub(crate) fn trial(rt: &HostRuntime, env: &Env) -> io::Result<()> {
    let alloc = rt.alloc();
    let alone = time(rt, env, &inside(alloc, 0)?)?.unwrap_or(0);
    let small = beside(alloc, 11)?;
    compare(
        rt,
        env,
        &small,
        alone,
        "with 8189 nodes around, within twice the time",
    )?;
    let large = beside(alloc, 15)?;
    compare(
        rt,
        env,
        &large,
        alone,
        "with 131069 nodes around, within twice the time",
    )?;
    let deep = inside(alloc, 1_000)?;
    compare(
        rt,
        env,
        &deep,
        alone,
        "at depth 1000, within twice the time",
    )
}
