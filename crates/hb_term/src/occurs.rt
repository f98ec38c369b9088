//! Occurrence of a variable.
ghost use Rattle.std.specs.Prelude.{◌≡◌, ◌<◌, ◌^◌};
ghost use Rattle.hb_tree.specs.Tree.{occurs};
ghost use Rattle.hb_term.specs.Meaning.{tree};

use crate::term::{Part, Term};

impl Term {
    /// Whether the variable `rel` stands in the term. A part that can't have it is not walked.
    pub fn occurs(&self, rel: u32) -> bool
        ensures { result ≡ occurs (tree self.now) rel }
    {
        self.occurs_at(u64::from(rel))
    }

    #[cycle(occurs)]
    fn occurs_at(&self, rel: u64) -> bool
        requires { rel < 2 ^ 32 }
        ensures { result ≡ occurs (tree self.now) rel }
    {
        match self {
            Term::Sort(_) => false,
            Term::Rel(v) => u64::from(*v) == rel,
            Term::Pi(a, b) => a.occurs(rel) || b.occurs(rel + 1),
            Term::Lam(a, b) => a.occurs(rel) || b.occurs(rel + 1),
            Term::App(f, a) => f.occurs(rel) || a.occurs(rel),
            Term::Const(_) => false,
            Term::Proj(_, _, t) => t.occurs(rel),
            Term::Hole(_) => false,
        }
    }
}

impl Part {
    /// Whether the variable `rel` stands in the part.
    #[cycle(occurs)]
    #[tactic(auto, using(hb_tree::proofs::Closed::occurs_closed))]
    pub fn occurs(&self, rel: u64) -> bool
        ensures { result ≡ occurs self.now rel }
    {
        if self.loose() <= rel {
            return false;
        }
        self.as_ref().occurs_at(rel)
    }
}
