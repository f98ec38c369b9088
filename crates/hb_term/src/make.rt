//! Makers of terms, and copies.
ghost use Rattle.std.specs.Prelude.{◌≡◌, IfOk};
ghost use Rattle.hb_tree.specs.Tree.{pi, lam, app, proj};
ghost use Rattle.hb_term.specs.Meaning.{tree};

use crate::term::{Part, Term};
use hb_tree::RecId;
use std::alloc::{AllocError, Global};

impl Term {
    /// The product of `domain` and, under one binder, `codomain`.
    pub fn pi(alloc: Global, domain: Term, codomain: Term) -> Result<Term, AllocError>
        ensures { IfOk result (λ t. tree t ≡ pi (tree domain) (tree codomain)) }
    {
        Ok(Term::Pi(Part::new(alloc, domain)?, Part::new(alloc, codomain)?))
    }

    /// The function on `domain` to, under one binder, `body`.
    pub fn lam(alloc: Global, domain: Term, body: Term) -> Result<Term, AllocError>
        ensures { IfOk result (λ t. tree t ≡ lam (tree domain) (tree body)) }
    {
        Ok(Term::Lam(Part::new(alloc, domain)?, Part::new(alloc, body)?))
    }

    /// The function applied to the argument.
    pub fn app(alloc: Global, function: Term, argument: Term) -> Result<Term, AllocError>
        ensures { IfOk result (λ t. tree t ≡ app (tree function) (tree argument)) }
    {
        Ok(Term::App(Part::new(alloc, function)?, Part::new(alloc, argument)?))
    }

    /// The field of the number `field` of `of`, a value of the record `rec`.
    pub fn proj(alloc: Global, rec: RecId, field: u16, of: Term) -> Result<Term, AllocError>
        ensures { IfOk result (λ t. tree t ≡ proj rec field (tree of)) }
    {
        Ok(Term::Proj(rec, field, Part::new(alloc, of)?))
    }

    /// The same term once more. Its parts are shared: it takes no walk.
    pub fn copy(&self) -> Result<Term, AllocError>
        ensures { IfOk result (λ t. t ≡ self.now) }
    {
        match self {
            Term::Sort(s) => Ok(Term::Sort(*s)),
            Term::Rel(v) => Ok(Term::Rel(*v)),
            Term::Pi(a, b) => Ok(Term::Pi(a.share()?, b.share()?)),
            Term::Lam(a, b) => Ok(Term::Lam(a.share()?, b.share()?)),
            Term::App(f, a) => Ok(Term::App(f.share()?, a.share()?)),
            Term::Const(c) => Ok(Term::Const(*c)),
            Term::Proj(r, i, t) => Ok(Term::Proj(*r, *i, t.share()?)),
            Term::Hole(h) => Ok(Term::Hole(*h)),
        }
    }
}
