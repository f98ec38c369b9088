//! One look at a term.
ghost use Rattle.std.specs.Prelude.{◌≡◌};
ghost use Rattle.hb_term.specs.Meaning.{tree};
ghost use Rattle.hb_term.specs.Shown.{shown};

use crate::term::Term;
use hb_tree::{ConstId, RecId, Sort};

/// What stands at the root of a term, and its parts. It tells nothing of how parts are kept.
#[derive(Clone, Copy, Drop)]
pub enum View<'a> {
    Sort(Sort),
    Rel(u32),
    Pi(&'a Term, &'a Term),
    Lam(&'a Term, &'a Term),
    App(&'a Term, &'a Term),
    Const(ConstId),
    Proj(RecId, u16, &'a Term),
    Hole(u32),
}

impl Term {
    /// The root of the term, with its parts.
    pub fn view(&self) -> View<'_>
        ensures { shown result ≡ tree self.now }
    {
        match self {
            Term::Sort(s) => View::Sort(*s),
            Term::Rel(v) => View::Rel(*v),
            Term::Pi(a, b) => View::Pi(a.as_ref(), b.as_ref()),
            Term::Lam(a, b) => View::Lam(a.as_ref(), b.as_ref()),
            Term::App(f, a) => View::App(f.as_ref(), a.as_ref()),
            Term::Const(c) => View::Const(*c),
            Term::Proj(r, i, t) => View::Proj(*r, *i, t.as_ref()),
            Term::Hole(h) => View::Hole(*h),
        }
    }
}
