//! Substitution.
ghost use Rattle.std.specs.Prelude.{◌≡◌, ◌<◌, ◌^◌, IfOk};
ghost use Rattle.hb_tree.specs.Tree.{subst_at};
ghost use Rattle.hb_term.specs.Fits.{SubstFits};
ghost use Rattle.hb_term.specs.Meaning.{tree};

use crate::term::{Part, Term};
use std::alloc::{AllocError, Global};

impl Term {
    /// The term with `value` for variable 0; the other variables fall by one. Under binders the value is
    /// lifted.
    pub fn subst(&self, alloc: Global, value: &Term) -> Result<Term, AllocError>
        requires fits { SubstFits (tree self.now) (tree value.now) 0 }
        ensures { IfOk result (λ t. tree t ≡ subst_at (tree self.now) (tree value.now) 0) }
    {
        self.try_subst(alloc, value)
    }

    /// As `subst`, and without its condition: a variable that would pass `u32::MAX` is out of memory.
    pub fn try_subst(&self, alloc: Global, value: &Term) -> Result<Term, AllocError>
        ensures { IfOk result (λ t. tree t ≡ subst_at (tree self.now) (tree value.now) 0) }
    {
        let value = Part::new(alloc, value.copy()?)?;
        self.subst_at(alloc, &value, 0)
    }
}

impl Part {
    /// The part with `value` for the variable `at`, lifted past the `at` innermost; the variables above
    /// fall by one. What has no such variable is shared, and so is a value at place 0. A variable of
    /// the value that would pass `u32::MAX` is out of memory.
    #[cycle(subst)]
    #[tactic(auto, using(hb_tree::proofs::Closed::subst_closed))]
    pub fn subst(&self, alloc: Global, value: &Part, at: u64) -> Result<Part, AllocError>
        ensures { IfOk result (λ p. p ≡ subst_at self.now value.now at) }
    {
        if self.loose() <= at {
            return self.share();
        }
        if let Term::Rel(v) = self.as_ref() {
            if u64::from(*v) == at {
                return value.lift(alloc, *v, 0);
            }
        }
        Part::new(alloc, self.as_ref().subst_at(alloc, value, at)?)
    }
}

impl Term {
    #[cycle(subst)]
    fn subst_at(&self, alloc: Global, value: &Part, at: u64) -> Result<Term, AllocError>
        requires { at < 2 ^ 32 }
        ensures { IfOk result (λ t. tree t ≡ subst_at (tree self.now) value.now at) }
    {
        match self {
            Term::Sort(s) => Ok(Term::Sort(*s)),
            Term::Rel(v) if u64::from(*v) < at => Ok(Term::Rel(*v)),
            Term::Rel(v) if u64::from(*v) == at => value.as_ref().lift_at(alloc, *v, 0),
            Term::Rel(v) => Ok(Term::Rel(*v - 1)),
            Term::Pi(a, b) => Ok(Term::Pi(
                a.subst(alloc, value, at)?,
                b.subst(alloc, value, at + 1)?,
            )),
            Term::Lam(a, b) => Ok(Term::Lam(
                a.subst(alloc, value, at)?,
                b.subst(alloc, value, at + 1)?,
            )),
            Term::App(f, a) => Ok(Term::App(
                f.subst(alloc, value, at)?,
                a.subst(alloc, value, at)?,
            )),
            Term::Const(c) => Ok(Term::Const(*c)),
            Term::Proj(r, i, t) => Ok(Term::Proj(*r, *i, t.subst(alloc, value, at)?)),
            Term::Hole(h) => Ok(Term::Hole(*h)),
        }
    }
}
