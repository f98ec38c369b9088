//! What a look may use.
ghost use Rattle.std.specs.Prelude.{◌≡◌, ◌≤◌, ◌<◌, ◌+◌, ◌-◌, ◌^◌, IsTrue};
ghost use Rattle.hb_tree.specs.Tree.{nodes, depth};

use hb_base::Limits;
use hb_term::Part;

/// The most pairs of terms that one look compares.
const PAIRS: u64 = 20_000;

/// The most steps that one look takes.
const STEPS: u64 = 5_000;

/// The most pairs that stand inside one another in a look.
const LEVELS: u32 = 4_000;

/// What a look may still use: so many pairs of terms, so many steps, and in each term that it makes at
/// most so many nodes and so much depth.
#[derive(Drop)]
pub(crate) struct Allowance {
    pairs: u64,
    steps: u64,
    nodes: u64,
    depth: u32,
    ghost nodes_fit: { nodes < 2 ^ 64 - 1 },
    ghost depth_fit: { depth < 2 ^ 32 - 1 },
}

impl Allowance {
    /// What a look within the limits may use.
    pub(crate) fn new(limits: &Limits) -> Allowance
        ensures steps { result.steps ≤ limits.now.steps }
        ensures nodes { result.nodes ≡ limits.now.nodes }
        ensures depth { result.depth ≡ limits.now.depth }
    {
        Allowance {
            pairs: PAIRS,
            steps: limits.steps.min(STEPS),
            nodes: limits.nodes,
            depth: limits.depth,
        }
    }

    /// How many pairs may stand inside one another.
    pub(crate) fn levels(&self) -> u32
        ensures { result ≤ self.now.depth }
    {
        self.depth.min(LEVELS)
    }

    /// Takes one pair away, if one is left.
    pub(crate) fn take_pair(&mut self) -> bool
        ensures { IsTrue result → self.old.pairs ≡ self.new.pairs + 1 }
    {
        if self.pairs == 0 {
            return false;
        }
        self.pairs -= 1;
        true
    }

    /// Takes one step away, if one is left.
    pub(crate) fn take_step(&mut self) -> bool
        ensures { IsTrue result → self.old.steps ≡ self.new.steps + 1 }
    {
        if self.steps == 0 {
            return false;
        }
        self.steps -= 1;
        true
    }

    /// Whether the term is small enough.
    pub(crate) fn holds(&self, part: &Part) -> bool
        ensures { IsTrue result → (nodes part.now ≤ self.now.nodes) × (depth part.now ≤ self.now.depth) }
    {
        part.nodes() <= self.nodes && part.depth() <= self.depth
    }
}
