//! Instances at carriers.
ghost use Rattle.std.specs.Prelude.{◌≡◌, ℕ, ◌<◌, ◌-◌, ◌^◌, ◌↔◌, ◌++◌, ◌∷◌, [], length, None, Some, IsTrue, IsNone, IfSome, IfOk, IfErr, OnOk, OnErr};
ghost use Rattle.std.specs.Option.{ForSome, option_map};
ghost use Rattle.hb_sets.specs.Set.{Set, In, contains, difference};
ghost use Rattle.hb_order.specs.Heirs.{IsHeir};
ghost use Rattle.hb_order.specs.Givings.{given, condition, binder};
ghost use Rattle.hb_hier.specs.declared.known.Known.TheVariants.{Mixin};
ghost use Rattle.hb_hier.specs.Hierarchy.{IsDeclared, known_as, sets, required, provided};
ghost use Rattle.hb_givings.specs.Givings.{givings_at, binder_count};
ghost use Rattle.hb_hier.specs.Giving.{BindersBelow, Met, MetAt, IsReady, AllReady, MetIfGiven, AllMetIfGiven, IsFirstUnready, IsFirstUnmet, IsFirstUnmetPair, NewAreMet, giving_fault, provided_or_none, required_or_none, IsGivingAllowed, GivingRefusal, with_giving};
ghost use Rattle.hb_hier.specs.Undoing.{Grew};

use crate::error::HierRefused;
use crate::hier::Hier;
use crate::known::Known;
use crate::need::binder_of;
use hb_base::NameId;
use hb_order::{MixinId, StructId};
use hb_sets::MixSet;
use hb_tree::ConstId;

impl Hier {
    /// Gives a mixin, or what an ended factory provides, to the carrier under the binders: what is asked
    /// of each of its arguments, a structure or nothing. Answers the mixins that the carrier hadn't. The
    /// refusals come in the order of `HierRefused`.
    #[tactic(auto, using(crate::proofs::GrewLemmas::grew_same, crate::proofs::GrewLemmas::grew_giving))]
    pub fn give(
        &mut self,
        carrier: ConstId,
        binders: &[Option<StructId>],
        factory: NameId,
    ) -> Result<MixSet, HierRefused>
        requires room { length self.old.givings < 2 ^ 32 - 1 }
        requires declared { BindersBelow (length self.old.structures) binders.now }
        requires alike { ForSome (binder_count (givings_at self.old.givings carrier))
            (λ n. n ≡ length binders.now) }
        requires few { length binders.now < 2 ^ 16 }
        ensures added { OnOk result
            (self.new
            ≡ with_giving self.old carrier binders.now (provided_or_none self.old (known_as self.old factory))) }
        ensures fresh { IfOk result
            (λ s. s
            ≡ difference (provided_or_none self.old (known_as self.old factory))
            (given (givings_at self.old.givings carrier))) }
        ensures allowed { OnOk result (IsGivingAllowed self.old carrier binders.now factory) }
        ensures refused { IfErr result (λ e. GivingRefusal self.old carrier binders.now factory e) }
        ensures grew { Grew self.old self.new }
        ensures unchanged { OnErr result (self.new ≡ self.old) }
    {
        let gives = self.check_giving(carrier, binders, factory)?;
        let fresh = gives.minus(self.given(carrier));
        self.store_giving(carrier, binders, gives)?;
        Ok(fresh)
    }

    /// What the giving would give, where it is allowed. The refusals are those of `give`.
    pub fn check_giving(
        &self,
        carrier: ConstId,
        binders: &[Option<StructId>],
        factory: NameId,
    ) -> Result<MixSet, HierRefused>
        requires { BindersBelow (length self.now.structures) binders.now }
        ensures gives { IfOk result (λ s. s ≡ provided_or_none self.now (known_as self.now factory)) }
        ensures allowed { OnOk result (IsGivingAllowed self.now carrier binders.now factory) }
        ensures refused { IfErr result (λ e. GivingRefusal self.now carrier binders.now factory e) }
    {
        let k = self.known_to_give(factory)?;
        if let Some(m) = self.first_unready(carrier, binders, &self.req(k)) {
            return Err(HierRefused::MissingMixin(m));
        }
        let gives = self.prov(k);
        if let Some((m, d)) = self.first_unmet_pair(carrier, binders, &gives) {
            return Err(HierRefused::Unmet(m, d));
        }
        Ok(gives)
    }

    /// The mixin or ended factory of the name.
    fn known_to_give(&self, name: NameId) -> Result<Known, HierRefused>
        ensures known { IfOk result (λ k. known_as self.now name ≡ Some k) }
        ensures declared { IfOk result (IsDeclared self.now) }
        ensures usable { OnOk result (giving_fault self.now name ≡ None) }
        ensures refused { IfErr result (λ e. giving_fault self.now name ≡ Some e) }
    {
        match self.known(name) {
            None => Err(HierRefused::UnknownFactory(name)),
            Some(Known::Structure(_)) => Err(HierRefused::UnknownFactory(name)),
            Some(Known::Mixin(m)) => Ok(Known::Mixin(m)),
            Some(Known::Factory(f)) => {
                if self.ended(f) {
                    Ok(Known::Factory(f))
                } else {
                    Err(HierRefused::Unfinished(name))
                }
            }
        }
    }

    /// The first mixin of the set that wasn't given, or isn't met.
    fn first_unready(
        &self,
        carrier: ConstId,
        binders: &[Option<StructId>],
        set: &MixSet,
    ) -> Option<MixinId>
        requires { BindersBelow (length self.now.structures) binders.now }
        ensures found { IfSome result
            (λ m. IsFirstUnready (sets self.now) (givings_at self.now.givings carrier) binders.now set.now m.0) }
        ensures none { IsNone result
            → AllReady (sets self.now) (givings_at self.now.givings carrier) binders.now set.now }
    {
        set.members_are_small();
        for m in 0..1024u16 {
            if set.has(m) && !self.is_ready(carrier, binders, MixinId(m)) {
                return Some(MixinId(m));
            }
        }
        None
    }

    /// Whether the carrier was given `m` under a condition that the binders meet.
    fn is_ready(&self, carrier: ConstId, binders: &[Option<StructId>], m: MixinId) -> bool
        requires { BindersBelow (length self.now.structures) binders.now }
        ensures { IsTrue result
            ↔ IsReady (sets self.now) (givings_at self.now.givings carrier) binders.now m.0 }
    {
        self.given(carrier).has(m.0) && self.is_met(binders, self.condition(carrier, m))
    }

    /// Whether the binders have an heir of each structure that is asked.
    fn is_met(&self, binders: &[Option<StructId>], asked: &[Option<StructId>]) -> bool
        requires binders { BindersBelow (length self.now.structures) binders.now }
        requires asked { BindersBelow (length self.now.structures) asked.now }
        ensures { IsTrue result ↔ Met (sets self.now) binders.now asked.now }
    {
        for at in 0..asked.len() {
            if !self.is_met_at(binders, asked, at) {
                return false;
            }
        }
        true
    }

    /// Whether they have one at the place.
    fn is_met_at(&self, binders: &[Option<StructId>], asked: &[Option<StructId>], at: usize) -> bool
        requires binders { BindersBelow (length self.now.structures) binders.now }
        requires asked { BindersBelow (length self.now.structures) asked.now }
        ensures { IsTrue result ↔ MetAt (sets self.now) binders.now asked.now at }
    {
        match (binder_of(asked, at), binder_of(binders, at)) {
            (None, _) => true,
            (Some(t), Some(s)) => self.heir(s, t),
            (Some(_), None) => false,
        }
    }

    /// The first mixin of the set that would be new and requires a mixin that was given and isn't met,
    /// and the first such.
    fn first_unmet_pair(
        &self,
        carrier: ConstId,
        binders: &[Option<StructId>],
        set: &MixSet,
    ) -> Option<(MixinId, MixinId)>
        requires { BindersBelow (length self.now.structures) binders.now }
        ensures found { IfSome result
            (λ r. IsFirstUnmetPair self.now (givings_at self.now.givings carrier) binders.now set.now r.0.0 r.1.0) }
        ensures none { IsNone result
            → (n : ℕ) → NewAreMet self.now (givings_at self.now.givings carrier) binders.now set.now n }
    {
        set.members_are_small();
        for m in 0..1024u16 {
            if set.has(m) && !self.given(carrier).has(m) {
                if let Some(d) = self.first_unmet(carrier, binders, &self.required_of(MixinId(m))) {
                    return Some((MixinId(m), d));
                }
            }
        }
        None
    }

    /// What the mixin requires. Nothing where it isn't declared.
    fn required_of(&self, m: MixinId) -> MixSet
        ensures { result ≡ required self.now (Mixin m) }
    {
        if m.0 < self.mixins() {
            self.req(Known::Mixin(m))
        } else {
            MixSet::empty()
        }
    }

    /// The first mixin of the set that was given and isn't met.
    fn first_unmet(
        &self,
        carrier: ConstId,
        binders: &[Option<StructId>],
        set: &MixSet,
    ) -> Option<MixinId>
        requires { BindersBelow (length self.now.structures) binders.now }
        ensures found { IfSome result
            (λ d. IsFirstUnmet (sets self.now) (givings_at self.now.givings carrier) binders.now set.now d.0) }
        ensures none { IsNone result
            → AllMetIfGiven (sets self.now) (givings_at self.now.givings carrier) binders.now set.now }
    {
        set.members_are_small();
        for d in 0..1024u16 {
            if set.has(d) && !self.is_met_if_given(carrier, binders, MixinId(d)) {
                return Some(MixinId(d));
            }
        }
        None
    }

    /// Whether the binders meet the condition of `d`, where it was given.
    fn is_met_if_given(&self, carrier: ConstId, binders: &[Option<StructId>], d: MixinId) -> bool
        requires { BindersBelow (length self.now.structures) binders.now }
        ensures { IsTrue result
            ↔ MetIfGiven (sets self.now) (givings_at self.now.givings carrier) binders.now d.0 }
    {
        !self.given(carrier).has(d.0) || self.is_met(binders, self.condition(carrier, d))
    }
}
