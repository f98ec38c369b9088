//! Terms and limits of the tests.
use crate::{COUPLE, constant, maker};
use hb_base::Limits;
use hb_reduce::ReduceRefused;
use hb_term::{RecId, Scoped, Term};
use std::alloc::{AllocError, Global};

/// Limits of small numbers.
pub(crate) fn limits(steps: u32, nodes: u32, depth: u16) -> Limits {
    Limits {
        steps: u64::from(steps),
        nodes: u64::from(nodes),
        depth: u32::from(depth),
    }
}

/// The closed term.
pub(crate) fn closed(term: Term) -> Result<Scoped, AllocError> {
    Scoped::new(term, 0).ok_or(AllocError)
}

/// The function applied so many times to the term.
pub(crate) fn repeated(
    alloc: Global,
    function: u32,
    times: u32,
    to: Term,
) -> Result<Term, AllocError> {
    let mut term = to;
    for _time in 0..times {
        term = Term::app(alloc, constant(function), term)?;
    }
    Ok(term)
}

/// A record's maker applied to so many arguments, each the constant.
pub(crate) fn built(alloc: Global, of: u32, arguments: u32, each: u32) -> Result<Term, AllocError> {
    let mut term = maker(of);
    for _argument in 0..arguments {
        term = Term::app(alloc, term, constant(each))?;
    }
    Ok(term)
}

/// The field of a couple.
pub(crate) fn field(alloc: Global, number: u16, of: Term) -> Result<Term, AllocError> {
    Term::proj(alloc, RecId(COUPLE), number, of)
}

/// The nodes of an answer; `None` where it is `Spent` and keeps the term.
pub(crate) fn nodes_of(
    answer: Result<Scoped, ReduceRefused>,
    of: &Scoped,
) -> Result<Option<u64>, &'static str> {
    match answer {
        Ok(form) => Ok(Some(form.term().nodes())),
        Err(ReduceRefused::Spent(kept)) => {
            if kept.term().same(of.term()) && kept.depth() == of.depth() {
                Ok(None)
            } else {
                Err("another term is kept")
            }
        }
        Err(ReduceRefused::NoMemory) => Err("out of memory"),
    }
}
