//! What the set of a new structure meets among those that are declared.
ghost use Rattle.std.specs.Prelude.{ℕ, ◌<◌, ◌↔◌, length, IsTrue, IsNone, IfSome};
ghost use Rattle.hb_sets.specs.Set.{Inside};
ghost use Rattle.hb_order.specs.Heirs.{mix};
ghost use Rattle.hb_order.specs.Allowed.{IsAllowed, IsMissing, IsFirstSame, NoneSame, IsFirstAbove, NoneAbove, NoneMissingWith, IsFirstMissing};
ghost use Rattle.hb_joins.specs.Pairs.{IsFirstWith};

use crate::joins::Joins;
use hb_order::StructId;
use hb_sets::MixSet;

impl Joins {
    /// Whether a structure with the set may be declared: the set isn't empty, it is inside the set of no
    /// structure, and it holds the join of any two structures that it holds.
    pub fn allows(&self, set: &MixSet) -> bool
        ensures { IsTrue result ↔ IsAllowed self.now set.now }
    {
        if set.same(&MixSet::empty()) {
            return false;
        }
        if self.first_above(set).is_some() {
            return false;
        }
        self.first_missing(set).is_none()
    }

    /// The first structure that has the set.
    pub fn first_same(&self, set: &MixSet) -> Option<StructId>
        ensures found { IfSome result (λ s. IsFirstSame self.now set.now s.0) }
        ensures none { IsNone result → NoneSame self.now set.now }
    {
        for at in 0..self.len() {
            if self.set(StructId(at)).same(set) {
                return Some(StructId(at));
            }
        }
        None
    }

    /// The first structure whose set the given one is inside.
    pub fn first_above(&self, set: &MixSet) -> Option<StructId>
        ensures found { IfSome result (λ s. IsFirstAbove self.now set.now s.0) }
        ensures none { IsNone result → NoneAbove self.now set.now }
    {
        for at in 0..self.len() {
            if set.subset(self.set(StructId(at))) {
                return Some(StructId(at));
            }
        }
        None
    }

    /// The first two structures, in the order of the first and then of the second, whose join the set
    /// misses, with the join.
    pub fn first_missing(&self, set: &MixSet) -> Option<(StructId, StructId, StructId)>
        ensures found { IfSome result (λ r. IsFirstMissing self.now set.now r.0.0 r.1.0 r.2.0) }
        ensures none { IsNone result
            → (a : ℕ) → a < length self.now → NoneMissingWith self.now set.now a (length self.now) }
    {
        for at in 0..self.len() {
            if let Some((b, j)) = self.first_missing_with(StructId(at), set) {
                return Some((StructId(at), b, j));
            }
        }
        None
    }

    /// The first later structure whose join with `a` the set misses, with the join. There is none where
    /// the set doesn't hold `a`.
    fn first_missing_with(&self, a: StructId, set: &MixSet) -> Option<(StructId, StructId)>
        requires { a.0 < length self.now }
        ensures found { IfSome result (λ r. IsFirstWith self.now set.now a.0 r.0.0 r.1.0) }
        ensures none { IsNone result → NoneMissingWith self.now set.now a.0 (length self.now) }
    {
        if self.set(a).subset(set) {
            self.first_missing_from(a, set)
        } else {
            None
        }
    }

    /// The same, where the set holds `a`.
    fn first_missing_from(&self, a: StructId, set: &MixSet) -> Option<(StructId, StructId)>
        requires declared { a.0 < length self.now }
        requires inside { Inside (mix self.now a.0) set.now }
        ensures found { IfSome result (λ r. IsFirstWith self.now set.now a.0 r.0.0 r.1.0) }
        ensures none { IsNone result → NoneMissingWith self.now set.now a.0 (length self.now) }
    {
        let count = self.len();
        for at in a.0 + 1..count {
            if let Some(j) = self.missing_join(a, StructId(at), set) {
                return Some((StructId(at), j));
            }
        }
        None
    }

    /// The join of `a` and `b`, where the set holds both and misses it.
    fn missing_join(&self, a: StructId, b: StructId, set: &MixSet) -> Option<StructId>
        requires left { a.0 < length self.now }
        requires right { b.0 < length self.now }
        requires inside { Inside (mix self.now a.0) set.now }
        ensures found { IfSome result (λ j. IsMissing self.now set.now a.0 b.0 j.0) }
        ensures none { IsNone result → (j : ℕ) → ¬ (IsMissing self.now set.now a.0 b.0 j) }
    {
        if !self.set(b).subset(set) {
            return None;
        }
        self.structures_are_allowed();
        let j = self.join_of(a, b)?;
        if self.set(j).subset(set) {
            None
        } else {
            Some(j)
        }
    }
}
