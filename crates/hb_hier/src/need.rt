//! What a carrier needs of its arguments, to have the mixins of a set.
ghost use Rattle.std.specs.Prelude.{◌≡◌, ℕ, ◌<◌, ◌↔◌, length, IsTrue, IfSome, None, Some};
ghost use Rattle.std.specs.Option.{option_map};
ghost use Rattle.hb_sets.specs.Set.{contains};
ghost use Rattle.hb_order.specs.Givings.{width, condition, binder};
ghost use Rattle.hb_order.specs.Needs.{Takes, IsNeed};
ghost use Rattle.hb_hier.specs.Hierarchy.{sets};
ghost use Rattle.hb_givings.specs.Givings.{givings_at};
ghost use Rattle.hb_hier.specs.Least.{HasNeed, IsFound, IsNeedBelow, IsFoundAnd, IsFoundAfter};

use crate::hier::Hier;
use hb_order::{MixinId, StructId};
use hb_sets::MixSet;
use hb_tree::ConstId;

/// What was found for one place of the binders.
#[derive(Clone, Copy)]
pub(crate) enum Need {
    /// No structure was asked.
    Nothing,
    /// The structure with the least set that holds those that were asked.
    Least(StructId),
    /// No structure holds those that were asked.
    Missing,
}

impl Hier {
    /// Whether the carrier was given the set, and each of its arguments has a need for it: no structure
    /// was asked of the argument for these mixins, or a declared one holds those that were.
    pub fn takes(&self, carrier: ConstId, set: &MixSet) -> bool
        ensures { IsTrue result ↔ Takes (sets self.now) (givings_at self.now.givings carrier) set.now }
    {
        if !set.subset(self.given(carrier)) {
            return false;
        }
        for at in 0..self.width(carrier) {
            if !self.has_need(carrier, set, at) {
                return false;
            }
        }
        true
    }

    /// The structure that the argument at the place needs for the set: the one with the least set that
    /// holds those that were asked for its mixins. None where no structure was asked.
    pub fn need(&self, carrier: ConstId, set: &MixSet, at: u16) -> Option<StructId>
        requires takes { Takes (sets self.now) (givings_at self.now.givings carrier) set.now }
        requires within { at < width (givings_at self.now.givings carrier) }
        ensures { IsNeed (sets self.now) (givings_at self.now.givings carrier) set.now at
            (option_map (λ s. s.0) result) }
    {
        match self.need_at(carrier, set, at) {
            Need::Least(s) => Some(s),
            Need::Nothing => None,
            Need::Missing => None,
        }
    }

    /// Whether there is a need at the place.
    fn has_need(&self, carrier: ConstId, set: &MixSet, at: u16) -> bool
        ensures { IsTrue result ↔ HasNeed (sets self.now) (givings_at self.now.givings carrier) set.now at }
    {
        match self.need_at(carrier, set, at) {
            Need::Least(_s) => true,
            Need::Nothing => true,
            Need::Missing => false,
        }
    }

    /// How many binders the instances at the carrier have.
    fn width(&self, carrier: ConstId) -> u16
        ensures { result ≡ width (givings_at self.now.givings carrier) }
    {
        self.binders(carrier).unwrap_or(0)
    }

    /// The need at one place.
    fn need_at(&self, carrier: ConstId, set: &MixSet, at: u16) -> Need
        ensures { IsFound (sets self.now) (givings_at self.now.givings carrier) set.now at result }
    {
        set.members_are_small();
        self.asked_are_declared(carrier);
        let mut need = Need::Nothing;
        for m in 0..1024u16 {
            need = self.need_after(need, carrier, set, MixinId(m), at);
        }
        need
    }

    /// The need, where the set has `m` too.
    fn need_after(&self, need: Need, carrier: ConstId, set: &MixSet, m: MixinId, at: u16) -> Need
        requires { IsNeedBelow (length self.now.structures) need }
        ensures found { IsFoundAfter (sets self.now) (contains set.now m.0)
            (binder (condition (givings_at self.now.givings carrier) m.0) at) need result }
        ensures declared { IsNeedBelow (length self.now.structures) result }
    {
        if !set.has(m.0) {
            return need;
        }
        match self.asked_at(carrier, m, at) {
            Some(t) => self.need_and(need, t),
            None => need,
        }
    }

    /// The structure that was asked at the place where `m` was given.
    fn asked_at(&self, carrier: ConstId, m: MixinId, at: u16) -> Option<StructId>
        ensures value { option_map (λ s. s.0) result
            ≡ binder (condition (givings_at self.now.givings carrier) m.0) at }
        ensures declared { IfSome result (λ s. s.0 < length self.now.structures) }
    {
        let asked = self.condition(carrier, m);
        binder_of(asked, usize::from(at))
    }

    /// The need, where structure `t` is asked too.
    fn need_and(&self, need: Need, t: StructId) -> Need
        requires need { IsNeedBelow (length self.now.structures) need }
        requires asked { t.0 < length self.now.structures }
        ensures found { IsFoundAnd (sets self.now) need t result }
        ensures declared { IsNeedBelow (length self.now.structures) result }
    {
        match need {
            Need::Nothing => Need::Least(t),
            Need::Least(s) => match self.join_of(s, t) {
                Some(j) => Need::Least(j),
                None => Need::Missing,
            },
            Need::Missing => Need::Missing,
        }
    }
}

/// The structure that the binders ask at the place.
pub(crate) fn binder_of(binders: &[Option<StructId>], at: usize) -> Option<StructId>
    ensures { option_map (λ s. s.0) result ≡ binder binders.now at }
{
    match binders.get(at) {
        Some(Some(s)) => Some(*s),
        _ => None,
    }
}
