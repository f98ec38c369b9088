//! Heirs and joins of structures (after Sakaguchi, "Validating Mathematical Structures", IJCAR 2020).
ghost use Rattle.std.specs.Prelude.{ℕ, ◌<◌, ◌↔◌, length, IsTrue, IsNone, IfSome};
ghost use Rattle.hb_order.specs.Heirs.{IsHeir, IsCommonHeir, IsJoin};

use crate::joins::Joins;
use crate::table::entry_of;
use hb_order::StructId;

impl Joins {
    /// Whether `a` is an heir of `b`: it has each mixin that `b` has.
    pub fn heir(&self, a: StructId, b: StructId) -> bool
        requires left { a.0 < length self.now }
        requires right { b.0 < length self.now }
        ensures { IsTrue result ↔ IsHeir self.now a.0 b.0 }
    {
        self.set(b).subset(self.set(a))
    }

    /// The join of `a` and `b`: their common heir whose mixins every common heir has. None exactly where
    /// they have no common heir.
    pub fn join_of(&self, a: StructId, b: StructId) -> Option<StructId>
        requires left { a.0 < length self.now }
        requires right { b.0 < length self.now }
        ensures found { IfSome result (λ j. IsJoin self.now a.0 b.0 j.0) }
        ensures none { IsNone result → (j : ℕ) → ¬ (IsCommonHeir self.now a.0 b.0 j) }
    {
        if a.0 <= b.0 {
            entry_of(&self.rows, a, b)
        } else {
            entry_of(&self.rows, b, a)
        }
    }
}
