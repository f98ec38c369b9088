//! The structures that hold each mixin.
ghost use Rattle.std.specs.Prelude.{◌≡◌, ℕ, ◌<◌, [], ◌∷◌, ◌++◌, length, slice_set, IfOk, OnOk, OnErr};
ghost use Rattle.hb_joins.specs.Changes.{IsChanged};
ghost use Rattle.hb_joins.specs.Lists.{held, held_before, held_after, is_before, AllBefore, IsAdded, IsCutBefore};

use hb_order::{MixinId, StructId};
use hb_sets::MixSet;
use std::alloc::{AllocError, Global};
use std::marker::Model;

/// The structures that hold a mixin, in the order of declaration.
#[derive(Drop)]
struct Holding {
    structures: Vec<StructId>,
}

impl Model for Holding {
    ghost use Rattle.std.specs.Prelude.{List};
    ghost use Rattle.hb_order.specs.declared.ids.StructId.{StructId};

    ghost Value = { List StructId };

    ghost view = { λ h. h.structures.items };
}

/// A list of structures for each of 1,024 mixins.
#[derive(Drop)]
pub(crate) struct Holders {
    lists: Vec<Holding>,
}

impl Model for Holders {
    ghost use Rattle.std.specs.Prelude.{◌≡◌, List, length};
    ghost use Rattle.hb_order.specs.declared.ids.StructId.{StructId};

    ghost Value = { List (List StructId) };

    ghost view = { λ h. h.lists.items };

    ghost invariant = { λ h. length h.lists.items ≡ 1024 };
}

impl Holders {
    /// Lists without structures.
    pub(crate) fn new(alloc: Global) -> Result<Holders, AllocError>
        ensures { IfOk result (λ h. (m : ℕ) → held h m ≡ []) }
    {
        let mut lists = Vec::new(alloc);
        for _ in 0..1024u16 {
            let structures = Vec::new(alloc);
            lists.push(Holding { structures })?;
        }
        Ok(Holders { lists })
    }

    /// The structures that hold the mixin.
    pub(crate) fn of(&self, m: MixinId) -> &[StructId]
        requires { m.0 < 1024 }
        ensures { result.now ≡ held self.now m.0 }
    {
        &self.lists[usize::from(m.0)].structures
    }

    /// Adds the structure to the list of each mixin of its set.
    pub(crate) fn add(&mut self, s: StructId, set: &MixSet) -> Result<(), AllocError>
        requires { AllBefore s.0 self.old }
        ensures added { OnOk result (IsAdded s set.now self.old self.new) }
        ensures unchanged { OnErr result (self.new ≡ self.old) }
    {
        let added = add_to_lists(&mut self.lists, s, set);
        if added.is_err() {
            cut_lists(&mut self.lists, s.0);
        }
        added
    }

    /// Takes the structures from number `n` on out of all lists.
    pub(crate) fn cut(&mut self, n: u16)
        ensures { IsCutBefore n self.old self.new }
    {
        cut_lists(&mut self.lists, n);
    }
}

impl Holding {
    /// Adds the structure at the end.
    fn push(&mut self, s: StructId) -> Result<(), AllocError>
        ensures added { OnOk result (self.new ≡ self.old ++ s ∷ []) }
        ensures unchanged { OnErr result (self.new ≡ self.old) }
    {
        self.structures.push(s)?;
        Ok(())
    }

    /// Takes out the structures from number `n` on.
    fn cut(&mut self, n: u16)
        ensures { self.new ≡ held_before n self.old }
    {
        self.structures.retain(|s| s.0 < n);
    }
}

/// Adds the structure to the list of each mixin of its set. Earlier structures stay where memory fails.
fn add_to_lists(lists: &mut Vec<Holding>, s: StructId, set: &MixSet) -> Result<(), AllocError>
    requires { length lists.old.items ≡ 1024 }
    ensures long { length lists.new.items ≡ 1024 }
    ensures added { OnOk result (IsAdded s set.now lists.old.items lists.new.items) }
    ensures earlier { (m : ℕ) → held_before s.0 (held lists.new.items m) ≡ held_before s.0 (held lists.old.items m) }
{
    for m in 0..1024u16 {
        add_to_list(lists, m, s, set)?;
    }
    Ok(())
}

/// Adds the structure to the list of the mixin, where its set has it.
fn add_to_list(
    lists: &mut Vec<Holding>,
    m: u16,
    s: StructId,
    set: &MixSet,
) -> Result<(), AllocError>
    requires { m < length lists.old.items }
    ensures added { OnOk result
        (lists.new.items ≡ slice_set lists.old.items m (held_after s set.now m (held lists.old.items m))) }
    ensures unchanged { OnErr result (lists.new.items ≡ lists.old.items) }
{
    if set.has(m) {
        lists[usize::from(m)].push(s)?;
    }
    Ok(())
}

/// Takes the structures from number `n` on out of all lists.
fn cut_lists(lists: &mut Vec<Holding>, n: u16)
    ensures { IsChanged (λ m was is. is ≡ held_before n was) [] lists.old.items lists.new.items
        (length lists.old.items) }
{
    for m in 0..lists.len() {
        lists[m].cut(n);
    }
}
