//! Small work on terms.

use hb_term::{Scoped, Term, View};
use std::alloc::{AllocError, Global};

/// The term in a scope of `depth` variables. A variable that is too great is out of memory: no rule makes one.
pub fn scoped(term: Term, depth: u32) -> Result<Scoped, AllocError> {
    Scoped::new(term, depth).ok_or(AllocError)
}

/// The function applied to the terms in order.
pub fn apply_terms(alloc: Global, function: Term, terms: &[Term]) -> Result<Term, AllocError> {
    let mut made = function;
    for term in terms {
        made = Term::app(alloc, made, term.copy()?)?;
    }
    Ok(made)
}

/// The type of a value of a product at the terms.
pub fn type_after(alloc: Global, ty: Term, terms: &[Term]) -> Result<Term, AllocError> {
    let mut now = ty;
    for term in terms {
        now = match now.view() {
            View::Pi(_, codomain) => codomain.try_subst(alloc, term)?,
            _ => return Ok(now),
        };
    }
    Ok(now)
}
