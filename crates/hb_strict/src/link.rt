//! Links of a chain of types.
ghost use Rattle.std.specs.Prelude.{◌≡◌, ◌↔◌, Some, IfOk, IsTrue};
ghost use Rattle.hb_term.specs.Meaning.{tree};
ghost use Rattle.hb_calculus.specs.Contraction.{next, next_eta};
ghost use Rattle.hb_calculus.specs.Conversion.{Ordered};
ghost use Rattle.hb_strict.specs.Strict.{IsLinked};

use crate::shape::is_below;
use hb_env::Env;
use hb_term::{Part, Term};
use plain_reduction::{eta_step, step};
use std::alloc::{AllocError, Global};

/// How a type follows from the one before it: by the leftmost outermost step, or such a step leads back; the same of
/// the leftmost outermost eta contraction; or the two are in order.
#[derive(Clone, Copy, Debug, PartialEq, Eq)]
pub enum Link {
    Step,
    StepBack,
    Eta,
    EtaBack,
    Order,
}

impl Link {
    /// The link of the number.
    pub fn of(number: u8) -> Option<Link> {
        match number {
            0 => Some(Link::Step),
            1 => Some(Link::StepBack),
            2 => Some(Link::Eta),
            3 => Some(Link::EtaBack),
            4 => Some(Link::Order),
            _ => None,
        }
    }

    /// The number of the link.
    pub fn number(self) -> u8 {
        match self {
            Link::Step => 0,
            Link::StepBack => 1,
            Link::Eta => 2,
            Link::EtaBack => 3,
            Link::Order => 4,
        }
    }
}

/// Whether the second term follows from the first by the link.
pub fn is_linked(
    alloc: Global,
    env: &Env,
    link: Link,
    from: &Term,
    to: &Term,
) -> Result<bool, AllocError>
    ensures { IfOk result (λ b. IsTrue b → IsLinked env.now link (tree from.now) (tree to.now)) }
{
    match link {
        Link::Step => is_step(alloc, env, from, to),
        Link::StepBack => is_step(alloc, env, to, from),
        Link::Eta => is_eta(alloc, env, from, to),
        Link::EtaBack => is_eta(alloc, env, to, from),
        Link::Order => Ok(is_ordered(from, to)),
    }
}

/// Whether the leftmost outermost step leads from the first term to the second.
fn is_step(alloc: Global, env: &Env, from: &Term, to: &Term) -> Result<bool, AllocError>
    ensures { IfOk result (λ b. IsTrue b → next env.now (tree from.now) ≡ Some (tree to.now)) }
{
    let part = Part::new(alloc, from.copy()?)?;
    match step(alloc, env, &part)? {
        None => Ok(false),
        Some(made) => Ok(made.as_ref().same(to)),
    }
}

/// Whether the leftmost outermost eta contraction leads from the first term to the second.
fn is_eta(alloc: Global, env: &Env, from: &Term, to: &Term) -> Result<bool, AllocError>
    ensures { IfOk result (λ b. IsTrue b → next_eta env.now (tree from.now) ≡ Some (tree to.now)) }
{
    let part = Part::new(alloc, from.copy()?)?;
    match eta_step(alloc, env, &part)? {
        None => Ok(false),
        Some(made) => Ok(made.as_ref().same(to)),
    }
}

/// Whether the two are the same, sorts in their order, or products with the same domain and codomains in order.
pub fn is_ordered(a: &Term, b: &Term) -> bool
    ensures { IsTrue result ↔ Ordered (tree a.now) (tree b.now) }
{
    match (a, b) {
        (Term::Sort(s), Term::Sort(t)) => is_below(*s, *t),
        (Term::Pi(a, b), Term::Pi(c, d)) => a.same(c) && is_ordered(b.as_ref(), d.as_ref()),
        _ => a.same(b),
    }
}
