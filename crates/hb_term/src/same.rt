//! Comparison of terms.
ghost use Rattle.std.specs.Prelude.{◌≡◌, ◌≢◌, ◌↔◌, IsTrue};
ghost use Rattle.hb_term.specs.Meaning.{tree};

use crate::term::{Part, Term};

impl Term {
    /// Whether both are the same term. Parts with different counts are not walked, and a long spine takes
    /// no stack.
    #[cycle(same)]
    pub fn same(&self, other: &Term) -> bool
        ensures { IsTrue result ↔ (tree self.now ≡ tree other.now) }
    {
        let mut left = self;
        let mut right = other;
        loop {
            match (left, right) {
                (Term::Sort(s), Term::Sort(t)) => return s == t,
                (Term::Rel(v), Term::Rel(w)) => return v == w,
                (Term::Pi(a, b), Term::Pi(c, d)) => {
                    if !a.same(c) || b.differs(d) {
                        return false;
                    }
                    left = b.as_ref();
                    right = d.as_ref();
                }
                (Term::Lam(a, b), Term::Lam(c, d)) => {
                    if !a.same(c) || b.differs(d) {
                        return false;
                    }
                    left = b.as_ref();
                    right = d.as_ref();
                }
                (Term::App(f, a), Term::App(g, b)) => {
                    if !a.same(b) || f.differs(g) {
                        return false;
                    }
                    left = f.as_ref();
                    right = g.as_ref();
                }
                (Term::Const(c), Term::Const(d)) => return c == d,
                (Term::Proj(r, i, t), Term::Proj(s, j, u)) => {
                    if r != s || i != j || t.differs(u) {
                        return false;
                    }
                    left = t.as_ref();
                    right = u.as_ref();
                }
                (Term::Hole(h), Term::Hole(k)) => return h == k,
                _ => return false,
            }
        }
    }
}

impl Part {
    /// Whether both are the same term. Parts with different counts are not walked.
    #[cycle(same)]
    pub fn same(&self, other: &Part) -> bool
        ensures { IsTrue result ↔ (self.now ≡ other.now) }
    {
        !self.differs(other) && self.as_ref().same(other.as_ref())
    }

    /// Whether the counts tell the two apart.
    fn differs(&self, other: &Part) -> bool
        ensures { IsTrue result → self.now ≢ other.now }
    {
        self.loose() != other.loose()
            || self.nodes() != other.nodes()
            || self.depth() != other.depth()
    }
}
