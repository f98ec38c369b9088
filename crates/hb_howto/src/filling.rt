//! Which candidates fill the structure, and which are a least list that does.
ghost use Rattle.std.specs.Prelude.{◌≡◌, ◌≢◌, ◌∷◌, [], IsTrue, false};
ghost use Rattle.hb_sets.specs.Set.{is_subset};
ghost use Rattle.hb_howto.specs.Ways.{IsWay};
ghost use Rattle.hb_howto.specs.Filling.{AreDifferent};
ghost use Rattle.hb_howto.specs.Tried.{IsCandidate, reaches, neither_reaches, no_order_reaches, no_pair_reaches, no_part_reaches};

use crate::candidate::Candidate;
use crate::search::Search;
use hb_sets::MixSet;

impl Search<'_> {
    /// Whether one fills the structure on a carrier that has this.
    #[tactic(auto, unfolding(crate::specs::Tried::reaches))]
    fn fills_one(&self, held: &MixSet, a: &Candidate) -> bool
        ensures { result ≡ reaches self.now.wanted.now held.now (a.now ∷ []) }
    {
        a.required.subset(held) && self.wanted.subset(&held.union(&a.provided))
    }

    /// Whether two fill it in this order.
    #[tactic(auto, unfolding(crate::specs::Tried::reaches))]
    fn fills_two(&self, held: &MixSet, a: &Candidate, b: &Candidate) -> bool
        ensures { result ≡ reaches self.now.wanted.now held.now (a.now ∷ b.now ∷ []) }
    {
        a.required.subset(held) && self.fills_one(&held.union(&a.provided), b)
    }

    /// Whether three fill it in this order.
    #[tactic(auto, unfolding(crate::specs::Tried::reaches))]
    fn fills_three(&self, held: &MixSet, a: &Candidate, b: &Candidate, c: &Candidate) -> bool
        ensures { result ≡ reaches self.now.wanted.now held.now (a.now ∷ b.now ∷ c.now ∷ []) }
    {
        a.required.subset(held) && self.fills_two(&held.union(&a.provided), b, c)
    }

    /// Whether one is a least list.
    pub fn is_way_of_one(&self, a: &Candidate) -> bool
        requires missing { is_subset self.now.wanted.now self.now.given.now ≡ false }
        requires first { IsCandidate self.now.hier.now a.now }
        ensures { IsTrue result
            → IsWay self.now.hier.now self.now.wanted.now self.now.given.now (a.now.name ∷ []) }
    {
        self.fills_one(self.given, a)
    }

    /// Whether two are a least list in this order.
    pub fn is_way_of_two(&self, a: &Candidate, b: &Candidate) -> bool
        requires missing { is_subset self.now.wanted.now self.now.given.now ≡ false }
        requires first { IsCandidate self.now.hier.now a.now }
        requires second { IsCandidate self.now.hier.now b.now }
        ensures { IsTrue result → IsWay self.now.hier.now self.now.wanted.now self.now.given.now
            (a.now.name ∷ b.now.name ∷ []) }
    {
        differ(a, b) && self.fills_two(self.given, a, b) && self.neither_fills(a, b)
    }

    /// Whether two don't fill it alone.
    #[tactic(auto, unfolding(crate::specs::Tried::neither_reaches))]
    fn neither_fills(&self, a: &Candidate, b: &Candidate) -> bool
        ensures { result ≡ neither_reaches self.now.wanted.now self.now.given.now a.now b.now }
    {
        !self.fills_one(self.given, a) && !self.fills_one(self.given, b)
    }

    /// Whether two fill it in no order.
    #[tactic(auto, unfolding(crate::specs::Tried::no_order_reaches))]
    fn no_order_fills(&self, a: &Candidate, b: &Candidate) -> bool
        ensures { result ≡ no_order_reaches self.now.wanted.now self.now.given.now a.now b.now }
    {
        !self.fills_two(self.given, a, b) && !self.fills_two(self.given, b, a)
    }

    /// Whether two fill it in this order alone, or in both and this comes first.
    pub fn is_first_of_two(&self, a: &Candidate, b: &Candidate) -> bool {
        a.at < b.at || !self.fills_two(self.given, b, a)
    }

    /// Whether three are a least list in this order.
    pub fn is_way_of_three(&self, a: &Candidate, b: &Candidate, c: &Candidate) -> bool
        requires missing { is_subset self.now.wanted.now self.now.given.now ≡ false }
        requires first { IsCandidate self.now.hier.now a.now }
        requires second { IsCandidate self.now.hier.now b.now }
        requires third { IsCandidate self.now.hier.now c.now }
        ensures { IsTrue result → IsWay self.now.hier.now self.now.wanted.now self.now.given.now
            (a.now.name ∷ b.now.name ∷ c.now.name ∷ []) }
    {
        are_different(a, b, c)
            && self.fills_three(self.given, a, b, c)
            && self.is_least_of_three(a, b, c)
    }

    /// Whether no proper part of three fills it.
    #[tactic(auto, unfolding(crate::specs::Tried::no_part_reaches))]
    fn is_least_of_three(&self, a: &Candidate, b: &Candidate, c: &Candidate) -> bool
        ensures { result ≡ no_part_reaches self.now.wanted.now self.now.given.now a.now b.now c.now }
    {
        self.neither_fills(a, b) && !self.fills_one(self.given, c) && self.no_pair_fills(a, b, c)
    }

    /// Whether no two of three fill it in any order.
    #[tactic(auto, unfolding(crate::specs::Tried::no_pair_reaches))]
    fn no_pair_fills(&self, a: &Candidate, b: &Candidate, c: &Candidate) -> bool
        ensures { result ≡ no_pair_reaches self.now.wanted.now self.now.given.now a.now b.now c.now }
    {
        self.no_order_fills(a, b) && self.no_order_fills(a, c) && self.no_order_fills(b, c)
    }

    /// Whether three fill it in no order that comes before this.
    pub fn is_first_of_three(&self, a: &Candidate, b: &Candidate, c: &Candidate) -> bool {
        (a.at < b.at || self.neither_order_fills(b, a, c))
            && (a.at < c.at || self.neither_order_fills(c, a, b))
            && (b.at < c.at || !self.fills_three(self.given, a, c, b))
    }

    /// Whether three fill it neither in this order nor with the last two exchanged.
    fn neither_order_fills(&self, a: &Candidate, b: &Candidate, c: &Candidate) -> bool {
        !self.fills_three(self.given, a, b, c) && !self.fills_three(self.given, a, c, b)
    }
}

/// Whether two are not the same mixin or factory.
fn differ(a: &Candidate, b: &Candidate) -> bool
    ensures { IsTrue result → a.now.known ≢ b.now.known }
{
    a.known != b.known
}

/// Whether no two of three are the same mixin or factory.
fn are_different(a: &Candidate, b: &Candidate, c: &Candidate) -> bool
    ensures { IsTrue result → AreDifferent (a.now.known ∷ b.now.known ∷ c.now.known ∷ []) }
{
    a.known != b.known && a.known != c.known && b.known != c.known
}
