//! The terms of the trials.
use hb_base::Limits;
use hb_term::{Scoped, Term};
use plain_reduction::{DOUBLE, ONE, PAIR, constant};
use std::alloc::{AllocError, Global};

/// How deep the doubling is nested.
pub(crate) const NESTED: u32 = 17;

/// The steps that it takes.
pub(crate) const STEPS: u64 = 262_142;

/// The nodes of its normal form.
pub(crate) const NODES: u64 = 524_285;

/// Limits with so many steps, and room enough.
pub(crate) fn limits(steps: u64) -> Limits {
    Limits {
        steps,
        nodes: 4_000_000,
        depth: 4_000,
    }
}

/// The function applied so many times.
pub(crate) fn repeated(
    alloc: Global,
    function: u32,
    times: u32,
    to: Term,
) -> Result<Term, AllocError> {
    let mut term = to;
    for _time in 0..times {
        term = Term::app(alloc, constant(function), term)?;
    }
    Ok(term)
}

/// The doubling.
pub(crate) fn doubling(alloc: Global) -> Result<Term, AllocError> {
    repeated(alloc, DOUBLE, NESTED, constant(ONE))
}

/// The closed term.
pub(crate) fn closed(term: Term) -> Result<Scoped, AllocError> {
    Scoped::new(term, 0).ok_or(AllocError)
}

/// Pairs of pairs, so many levels deep, no two of which are shared: four times two to the level, less three
/// nodes.
pub(crate) fn pairs(alloc: Global, levels: u32) -> Result<Term, AllocError> {
    if levels == 0 {
        return Ok(constant(ONE));
    }
    let first = Term::app(alloc, constant(PAIR), pairs(alloc, levels - 1)?)?;
    Term::app(alloc, first, pairs(alloc, levels - 1)?)
}
