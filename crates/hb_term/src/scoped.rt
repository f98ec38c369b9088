//! Terms with their scope.
ghost use Rattle.std.specs.Prelude.{◌≡◌, ◌≤◌, ◌↔◌, IfSome, IsSome};
ghost use Rattle.hb_tree.specs.Tree.{loose};
ghost use Rattle.hb_term.specs.Meaning.{tree};

use crate::term::Term;

/// A term with a depth: each variable is below its binders plus the depth.
#[derive(Drop)]
pub struct Scoped {
    term: Term,
    depth: u32,
    ghost in_scope: { loose (tree term) ≤ depth },
}

impl Scoped {
    /// The term in a scope of `depth` variables. `None` exactly where one of its variables is too great.
    pub fn new(term: Term, depth: u32) -> Option<Scoped>
        ensures in_scope { IsSome result ↔ (loose (tree term) ≤ depth) }
        ensures kept { IfSome result (λ s. (s.term ≡ term) × (s.depth ≡ depth)) }
    {
        if term.loose() <= u64::from(depth) {
            Some(Scoped { term, depth })
        } else {
            None
        }
    }

    /// The term.
    pub fn term(&self) -> &Term
        ensures value { result.now ≡ self.now.term }
        ensures in_scope { loose (tree result.now) ≤ self.now.depth }
    {
        &self.term
    }

    /// How many variables there are outside of the term.
    pub fn depth(&self) -> u32
        ensures { result ≡ self.now.depth }
    {
        self.depth
    }

    /// The term alone.
    pub fn into_term(self) -> Term
        ensures value { result ≡ self.term }
        ensures in_scope { loose (tree result) ≤ self.depth }
    {
        self.term
    }
}
