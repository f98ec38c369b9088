//! Lifting.
ghost use Rattle.std.specs.Prelude.{◌≡◌, ◌<◌, ◌^◌, IfOk};
ghost use Rattle.hb_tree.specs.Tree.{lift};
ghost use Rattle.hb_term.specs.Fits.{LiftFits};
ghost use Rattle.hb_term.specs.Meaning.{tree};

use crate::term::{Part, Term};
use std::alloc::{AllocError, Global};

impl Term {
    /// The term where `by` more variables stand just outside the innermost `from`: variables of at
    /// least `from` grow by `by`.
    pub fn lift(&self, alloc: Global, by: u32, from: u32) -> Result<Term, AllocError>
        requires fits { LiftFits (tree self.now) by from }
        ensures { IfOk result (λ t. tree t ≡ lift (tree self.now) by from) }
    {
        self.try_lift(alloc, by, from)
    }

    /// As `lift`, and without its condition: a variable that would pass `u32::MAX` is out of memory.
    pub fn try_lift(&self, alloc: Global, by: u32, from: u32) -> Result<Term, AllocError>
        ensures { IfOk result (λ t. tree t ≡ lift (tree self.now) by from) }
    {
        self.lift_at(alloc, by, u64::from(from))
    }
}

impl Part {
    /// The part where `by` more variables stand just outside the innermost `from`. A part without a
    /// variable from further out is shared. A variable that would pass `u32::MAX` is out of memory.
    #[cycle(lift)]
    #[tactic(auto, using(hb_tree::proofs::Closed::lift_closed))]
    pub fn lift(&self, alloc: Global, by: u32, from: u64) -> Result<Part, AllocError>
        ensures { IfOk result (λ p. p ≡ lift self.now by from) }
    {
        if self.loose() <= from {
            return self.share();
        }
        Part::new(alloc, self.as_ref().lift_at(alloc, by, from)?)
    }
}

impl Term {
    #[cycle(lift)]
    pub(crate) fn lift_at(&self, alloc: Global, by: u32, from: u64) -> Result<Term, AllocError>
        requires { from < 2 ^ 32 }
        ensures { IfOk result (λ t. tree t ≡ lift (tree self.now) by from) }
    {
        match self {
            Term::Sort(s) => Ok(Term::Sort(*s)),
            Term::Rel(v) if u64::from(*v) < from => Ok(Term::Rel(*v)),
            Term::Rel(v) => Ok(Term::Rel(v.checked_add(by).ok_or(AllocError)?)),
            Term::Pi(a, b) => Ok(Term::Pi(a.lift(alloc, by, from)?, b.lift(alloc, by, from + 1)?)),
            Term::Lam(a, b) => Ok(Term::Lam(
                a.lift(alloc, by, from)?,
                b.lift(alloc, by, from + 1)?,
            )),
            Term::App(f, a) => Ok(Term::App(f.lift(alloc, by, from)?, a.lift(alloc, by, from)?)),
            Term::Const(c) => Ok(Term::Const(*c)),
            Term::Proj(r, i, t) => Ok(Term::Proj(*r, *i, t.lift(alloc, by, from)?)),
            Term::Hole(h) => Ok(Term::Hole(*h)),
        }
    }
}
