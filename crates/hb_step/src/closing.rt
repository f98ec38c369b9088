//! Terms closed over the context of a section.
ghost use Rattle.std.specs.Prelude.{◌≡◌, ◌↔◌, map, IfOk, IsTrue};
ghost use Rattle.hb_term.specs.Meaning.{tree};
ghost use Rattle.hb_step.specs.Closing as spec;
ghost use Rattle.hb_step.specs.Closing.{IsClosedOver};

use hb_term::{Term, View};
use std::alloc::{AllocError, Global};

/// The product over the types, each under those before it.
pub fn closed_type(alloc: Global, context: &[Term], ty: Term) -> Result<Term, AllocError>
    ensures { IfOk result (λ t. tree t ≡ spec.closed_type (map tree context.now) (tree ty)) }
{
    match context {
        [] => Ok(ty),
        [domain, rest @ ..] => {
            let under = closed_type(alloc, rest, ty)?;
            Term::pi(alloc, domain.copy()?, under)
        }
    }
}

/// The function over the types, each under those before it.
pub fn closed_body(alloc: Global, context: &[Term], body: Term) -> Result<Term, AllocError>
    ensures { IfOk result (λ t. tree t ≡ spec.closed_body (map tree context.now) (tree body)) }
{
    match context {
        [] => Ok(body),
        [domain, rest @ ..] => {
            let under = closed_body(alloc, rest, body)?;
            Term::lam(alloc, domain.copy()?, under)
        }
    }
}

/// Whether a type is a product, and a body a function, over exactly the types.
pub fn is_closed_over(context: &[Term], ty: &Term, body: &Term) -> bool
    ensures { IsTrue result ↔ IsClosedOver (map tree context.now) (tree ty.now) (tree body.now) }
{
    let [domain, rest @ ..] = context else {
        return true;
    };
    let View::Pi(a, codomain) = ty.view() else {
        return false;
    };
    let View::Lam(b, inner) = body.view() else {
        return false;
    };
    domain.same(a) && domain.same(b) && is_closed_over(rest, codomain, inner)
}
