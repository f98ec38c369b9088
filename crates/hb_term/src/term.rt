//! Terms, whose parts are shared.
ghost use Rattle.std.specs.Prelude.{◌≡◌, ◌≤◌, ◌-◌, ◌^◌, min, IfOk};
ghost use Rattle.hb_tree.specs.Tree.{loose, nodes, depth, has_hole};
ghost use Rattle.hb_term.specs.Meaning.{tree};

use hb_tree::{ConstId, RecId, Sort};
use std::alloc::{AllocError, Global};
use std::marker::Model;
use std::rc::Rc;

/// A part of a term, which several terms may share. It knows its counts.
#[cycle(term)]
pub struct Part {
    node: Rc<Node>,
}

/// A term with its counts: one more than its greatest variable that isn't bound inside, its nodes and
/// its depth, the last two up to the greatest number of their types; and whether it has a hole.
#[cycle(term)]
#[derive(Drop)]
struct Node {
    term: Term,
    loose: u64,
    nodes: u64,
    depth: u32,
    has_hole: bool,
}

/// A term (Rocq manual, "Terms"). A variable is the number of binders between it and its own. The
/// second part of a product and of a function stands under its binder; no names are stored.
#[cycle(term)]
#[derive(Drop)]
pub enum Term {
    Sort(Sort),
    Rel(u32),
    Pi(Part, Part),
    Lam(Part, Part),
    App(Part, Part),
    Const(ConstId),
    Proj(RecId, u16, Part),
    Hole(u32),
}

impl Model for Part {
    ghost use Rattle.hb_tree.specs.Tree.{Tree};
    ghost use Rattle.hb_tree.specs.Code.{coded_tree};

    ghost Value = { Tree };

    ghost coded = { coded_tree };

    ghost use Rattle.hb_tree.specs.Tree.{depth};
    ghost use Rattle.hb_term.specs.Counts.{Counts};
    ghost use Rattle.hb_term.specs.Meaning.{tree};

    ghost view = { λ p. tree p.node.value.term };

    ghost invariant = { λ p. Counts (tree p.node.value.term) p.node.value.loose p.node.value.nodes p.node.value.depth p.node.value.has_hole };

    ghost size = { depth };
}

impl Drop for Part {
    /// Goes down the last part of each node by a loop, so that a long spine takes no stack.
    #[cycle(term)]
    fn drop(mut self) {
        loop {
            let Part { node } = self;
            match Rc::into_inner(node) {
                None => return,
                Some(last) => {
                    let Node {
                        term,
                        loose: _,
                        nodes: _,
                        depth: _,
                        has_hole: _,
                    } = last;
                    match term {
                        Term::Sort(_s) => return,
                        Term::Rel(_v) => return,
                        Term::Const(_c) => return,
                        Term::Hole(_h) => return,
                        Term::Pi(a, b) => {
                            drop(a);
                            self = b;
                        }
                        Term::Lam(a, b) => {
                            drop(a);
                            self = b;
                        }
                        Term::App(f, a) => {
                            drop(a);
                            self = f;
                        }
                        Term::Proj(_r, _i, t) => {
                            self = t;
                        }
                    }
                }
            }
        }
    }
}

impl Part {
    /// The term as a part. Out of memory is the one error.
    pub fn new(alloc: Global, term: Term) -> Result<Part, AllocError>
        ensures { IfOk result (λ p. p ≡ tree term) }
    {
        let loose = term.loose();
        let nodes = term.nodes();
        let depth = term.depth();
        let has_hole = term.has_hole();
        let node = Node {
            term,
            loose,
            nodes,
            depth,
            has_hole,
        };
        Ok(Part {
            node: Rc::new(alloc, node).map_err(AllocError::from)?,
        })
    }

    /// The same part once more: one count, and no walk.
    pub fn share(&self) -> Result<Part, AllocError>
        ensures { IfOk result (λ p. p ≡ self.now) }
    {
        Ok(Part {
            node: self.node.clone()?,
        })
    }

    /// The term itself.
    pub fn as_ref(&self) -> &Term
        ensures { tree result.now ≡ self.now }
    {
        &self.node.term
    }

    /// One more than the greatest variable that isn't bound inside; 0 without one.
    pub fn loose(&self) -> u64
        ensures count { result ≡ loose self.now }
        ensures fits { result ≤ 2 ^ 32 }
    {
        self.node.loose
    }

    /// The nodes of the term as written out, up to `u64::MAX`.
    pub fn nodes(&self) -> u64
        ensures { result ≡ min (nodes self.now) (2 ^ 64 - 1) }
    {
        self.node.nodes
    }

    /// The depth, up to `u32::MAX`. A leaf has depth 1.
    pub fn depth(&self) -> u32
        ensures { result ≡ min (depth self.now) (2 ^ 32 - 1) }
    {
        self.node.depth
    }
    /// Whether a hole stands inside. No walk.
    pub fn has_hole(&self) -> bool
        ensures { result ≡ has_hole self.now }
    {
        self.node.has_hole
    }
}
