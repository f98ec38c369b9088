//! Heirs and joins of structures (after Sakaguchi, "Validating Mathematical Structures", IJCAR 2020).
ghost use Rattle.std.specs.Prelude.{◌≡◌, ℕ, ◌<◌, ◌↔◌, length, IsTrue, IsNone, IfSome};
ghost use Rattle.hb_order.specs.Heirs.{IsHeir, IsCommonHeir, IsJoin};
ghost use Rattle.hb_order.specs.Allowed.{AllAllowed};
ghost use Rattle.hb_joins.specs.Holding.{structures_with};
ghost use Rattle.hb_hier.specs.Hierarchy.{sets};

use crate::hier::Hier;
use hb_order::{MixinId, StructId};

impl Hier {
    /// Whether `a` is an heir of `b`: it has each mixin that `b` has.
    pub fn heir(&self, a: StructId, b: StructId) -> bool
        requires left { a.0 < length self.now.structures }
        requires right { b.0 < length self.now.structures }
        ensures { IsTrue result ↔ IsHeir (sets self.now) a.0 b.0 }
    {
        self.joins().heir(a, b)
    }

    /// The join of `a` and `b`: their common heir whose mixins every common heir has. None exactly where
    /// they have no common heir.
    pub fn join_of(&self, a: StructId, b: StructId) -> Option<StructId>
        requires left { a.0 < length self.now.structures }
        requires right { b.0 < length self.now.structures }
        ensures found { IfSome result (λ j. IsJoin (sets self.now) a.0 b.0 j.0) }
        ensures none { IsNone result → (j : ℕ) → ¬ (IsCommonHeir (sets self.now) a.0 b.0 j) }
    {
        self.joins().join_of(a, b)
    }

    /// The structures that have the mixin, in the order of declaration.
    pub fn structures_with(&self, m: MixinId) -> &[StructId]
        requires { m.0 < length self.now.mixins }
        ensures { result.now ≡ structures_with (sets self.now) m.0 }
    {
        self.joins.structures_with(m)
    }

    /// The law: each structure was allowed after those before it.
    pub fn structures_are_allowed(&self)
        ensures { AllAllowed (sets self.now) }
    {
        self.joins().structures_are_allowed();
    }
}
