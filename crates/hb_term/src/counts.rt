//! The counts of a term, from those of its parts.
ghost use Rattle.std.specs.Prelude.{◌≡◌, ◌≤◌, ◌-◌, ◌^◌, min};
ghost use Rattle.hb_tree.specs.Tree.{loose, nodes, depth, has_hole};
ghost use Rattle.hb_term.specs.Meaning.{tree};

use crate::term::Term;

impl Term {
    /// One more than the greatest variable that isn't bound inside; 0 without one. At most 2^32.
    pub fn loose(&self) -> u64
        ensures count { result ≡ loose (tree self.now) }
        ensures fits { result ≤ 2 ^ 32 }
    {
        match self {
            Term::Sort(_) => 0,
            Term::Rel(v) => u64::from(*v) + 1,
            Term::Pi(a, b) => a.loose().max(b.loose().saturating_sub(1)),
            Term::Lam(a, b) => a.loose().max(b.loose().saturating_sub(1)),
            Term::App(f, a) => f.loose().max(a.loose()),
            Term::Const(_) => 0,
            Term::Proj(_, _, t) => t.loose(),
            Term::Hole(_) => 0,
        }
    }

    /// The nodes of the term as written out: a shared part counts at each place. `u64::MAX` where there
    /// are more.
    pub fn nodes(&self) -> u64
        ensures { result ≡ min (nodes (tree self.now)) (2 ^ 64 - 1) }
    {
        match self {
            Term::Sort(_) => 1,
            Term::Rel(_) => 1,
            Term::Pi(a, b) => a.nodes().saturating_add(b.nodes()).saturating_add(1),
            Term::Lam(a, b) => a.nodes().saturating_add(b.nodes()).saturating_add(1),
            Term::App(f, a) => f.nodes().saturating_add(a.nodes()).saturating_add(1),
            Term::Const(_) => 1,
            Term::Proj(_, _, t) => t.nodes().saturating_add(1),
            Term::Hole(_) => 1,
        }
    }

    /// The nodes on the longest way down; a leaf has depth 1. `u32::MAX` where it is deeper.
    pub fn depth(&self) -> u32
        ensures { result ≡ min (depth (tree self.now)) (2 ^ 32 - 1) }
    {
        match self {
            Term::Sort(_) => 1,
            Term::Rel(_) => 1,
            Term::Pi(a, b) => a.depth().max(b.depth()).saturating_add(1),
            Term::Lam(a, b) => a.depth().max(b.depth()).saturating_add(1),
            Term::App(f, a) => f.depth().max(a.depth()).saturating_add(1),
            Term::Const(_) => 1,
            Term::Proj(_, _, t) => t.depth().saturating_add(1),
            Term::Hole(_) => 1,
        }
    }
    /// Whether a hole stands in the term. It looks at the parts alone, and takes no walk.
    pub fn has_hole(&self) -> bool
        ensures { result ≡ has_hole (tree self.now) }
    {
        match self {
            Term::Sort(_) => false,
            Term::Rel(_) => false,
            Term::Pi(a, b) => a.has_hole() || b.has_hole(),
            Term::Lam(a, b) => a.has_hole() || b.has_hole(),
            Term::App(f, a) => f.has_hole() || a.has_hole(),
            Term::Const(_) => false,
            Term::Proj(_, _, t) => t.has_hole(),
            Term::Hole(_) => true,
        }
    }
}
