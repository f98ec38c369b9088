//! The tables of a session.
ghost use Rattle.std.specs.Prelude.{◌≡◌, ◌<◌, ◌-◌, ◌^◌, ◌++◌, ◌∷◌, [], None, length, IfOk, OnOk, OnErr};
ghost use Rattle.std.specs.Option.{option_map};
ghost use Rattle.indexmap.specs.IndexMap.{get};
ghost use Rattle.hb_tree.specs.Tree.{const};
ghost use Rattle.hb_term.specs.Meaning.{tree};
ghost use Rattle.hb_tables.specs.Maps.{Maps, none, records_of, structure_of, coercion_of, entry_of, mixin_of, operation_of, builder_of, with_structure, mark_of, cut};
ghost use Rattle.hb_tables.specs.Growing.{IsWhole, Grew};

use crate::marks::TablesMark;
use hb_order::{FactoryId, MixinId, StructId};
use hb_term::Term;
use hb_tree::{ConstId, RecId};
use indexmap::IndexMap;
use std::alloc::{AllocError, Global};
use std::hash::Hash;
use std::marker::Model;

/// What was declared for structures, carriers, operations and factories, as finite maps.
#[derive(Drop)]
pub struct Tables {
    structures: IndexMap<StructId, (RecId, RecId)>,
    packs: IndexMap<RecId, StructId>,
    coercions: IndexMap<(StructId, StructId), ConstId>,
    entries: IndexMap<(StructId, ConstId), ConstId>,
    mixins: IndexMap<(ConstId, MixinId), ConstId>,
    operations: IndexMap<ConstId, StructId>,
    builders: IndexMap<(FactoryId, MixinId), ConstId>,
}

impl Model for Tables {
    ghost use Rattle.hb_tables.specs.Maps.{Maps};

    ghost Value = { Maps };

    ghost view = { λ t.
        record {
          structures = t.structures.entries;
          packs = t.packs.entries;
          coercions = t.coercions.entries;
          entries = t.entries.entries;
          mixins = t.mixins.entries;
          operations = t.operations.entries;
          builders = t.builders.entries;
        } };

    ghost use Rattle.hb_tables.specs.Kept.{IsKept};

    ghost invariant = { IsKept };
}

impl Tables {
    /// The tables without pairs.
    pub fn new(alloc: Global) -> Result<Tables, AllocError>
        ensures { IfOk result (λ t. t ≡ none) }
    {
        Ok(Tables {
            structures: IndexMap::new(alloc),
            packs: IndexMap::new(alloc),
            coercions: IndexMap::new(alloc),
            entries: IndexMap::new(alloc),
            mixins: IndexMap::new(alloc),
            operations: IndexMap::new(alloc),
            builders: IndexMap::new(alloc),
        })
    }

    /// The class and the package record of the structure. None exactly where none was added.
    pub fn records(&self, s: StructId) -> Option<(RecId, RecId)>
        ensures { result ≡ records_of self.now s }
    {
        self.structures.get(&s).copied()
    }

    /// The structure whose package record this is. None exactly where none was added.
    pub fn structure_of(&self, pack: RecId) -> Option<StructId>
        ensures { result ≡ structure_of self.now pack }
    {
        self.packs.get(&pack).copied()
    }

    /// The constant of the coercion from `a` to `b`. None exactly where none was added.
    pub fn coercion(&self, a: StructId, b: StructId) -> Option<ConstId>
        ensures { result ≡ coercion_of self.now a b }
    {
        self.coercions.get(&(a, b)).copied()
    }

    /// The coercion from `a` to `b` as a term. None exactly where none was added, as where `a` is `b`.
    pub fn path(&self, a: StructId, b: StructId) -> Result<Option<Term>, AllocError>
        ensures { IfOk result (λ t. option_map tree t ≡ option_map const (coercion_of self.now a b)) }
    {
        Ok(self.coercion(a, b).map(Term::Const))
    }

    /// The constant of the instance of the structure at the carrier. None exactly where none was added.
    pub fn entry(&self, s: StructId, carrier: ConstId) -> Option<ConstId>
        ensures { result ≡ entry_of self.now s carrier }
    {
        self.entries.get(&(s, carrier)).copied()
    }

    /// The constant of the mixin at the carrier. None exactly where none was added.
    pub fn mixin(&self, carrier: ConstId, m: MixinId) -> Option<ConstId>
        ensures { result ≡ mixin_of self.now carrier m }
    {
        self.mixins.get(&(carrier, m)).copied()
    }

    /// The structure of the operation. None exactly where none was added.
    pub fn operation(&self, c: ConstId) -> Option<StructId>
        ensures { result ≡ operation_of self.now c }
    {
        self.operations.get(&c).copied()
    }

    /// The constant that builds the mixin for the factory. None exactly where none was added.
    pub fn builder(&self, f: FactoryId, m: MixinId) -> Option<ConstId>
        ensures { result ≡ builder_of self.now f m }
    {
        self.builders.get(&(f, m)).copied()
    }

    /// Adds the coercion from `a` to `b`.
    #[tactic(auto, using(crate::proofs::GrowLemmas::grew_same, crate::proofs::GrowLemmas::grew_coercions))]
    pub fn add_coercion(&mut self, a: StructId, b: StructId, c: ConstId) -> Result<(), AllocError>
        requires new { coercion_of self.old a b ≡ None }
        requires room { length self.old.coercions < 2 ^ 32 - 1 }
        ensures added { OnOk result
            (self.new ≡ record self.old { coercions = self.old.coercions ++ ((a, b), c) ∷ [] }) }
        ensures grew { Grew self.old self.new }
        ensures unchanged { OnErr result (self.new ≡ self.old) }
    {
        add(&mut self.coercions, (a, b), c)
    }

    /// Adds the instance of the structure at the carrier.
    #[tactic(auto, using(crate::proofs::GrowLemmas::grew_same, crate::proofs::GrowLemmas::grew_entries))]
    pub fn add_entry(&mut self, s: StructId, carrier: ConstId, c: ConstId) -> Result<(), AllocError>
        requires new { entry_of self.old s carrier ≡ None }
        requires room { length self.old.entries < 2 ^ 32 - 1 }
        ensures added { OnOk result
            (self.new ≡ record self.old { entries = self.old.entries ++ ((s, carrier), c) ∷ [] }) }
        ensures grew { Grew self.old self.new }
        ensures unchanged { OnErr result (self.new ≡ self.old) }
    {
        add(&mut self.entries, (s, carrier), c)
    }

    /// Adds the mixin at the carrier.
    #[tactic(auto, using(crate::proofs::GrowLemmas::grew_same, crate::proofs::GrowLemmas::grew_mixins))]
    pub fn add_mixin(&mut self, carrier: ConstId, m: MixinId, c: ConstId) -> Result<(), AllocError>
        requires new { mixin_of self.old carrier m ≡ None }
        requires room { length self.old.mixins < 2 ^ 32 - 1 }
        ensures added { OnOk result
            (self.new ≡ record self.old { mixins = self.old.mixins ++ ((carrier, m), c) ∷ [] }) }
        ensures grew { Grew self.old self.new }
        ensures unchanged { OnErr result (self.new ≡ self.old) }
    {
        add(&mut self.mixins, (carrier, m), c)
    }

    /// Adds the operation of the structure.
    #[tactic(auto, using(crate::proofs::GrowLemmas::grew_same, crate::proofs::GrowLemmas::grew_operations))]
    pub fn add_operation(&mut self, c: ConstId, s: StructId) -> Result<(), AllocError>
        requires new { operation_of self.old c ≡ None }
        requires room { length self.old.operations < 2 ^ 32 - 1 }
        ensures added { OnOk result
            (self.new ≡ record self.old { operations = self.old.operations ++ (c, s) ∷ [] }) }
        ensures grew { Grew self.old self.new }
        ensures unchanged { OnErr result (self.new ≡ self.old) }
    {
        add(&mut self.operations, c, s)
    }

    /// Adds the constant that builds the mixin for the factory.
    #[tactic(auto, using(crate::proofs::GrowLemmas::grew_same, crate::proofs::GrowLemmas::grew_builders))]
    pub fn add_builder(&mut self, f: FactoryId, m: MixinId, c: ConstId) -> Result<(), AllocError>
        requires new { builder_of self.old f m ≡ None }
        requires room { length self.old.builders < 2 ^ 32 - 1 }
        ensures added { OnOk result
            (self.new ≡ record self.old { builders = self.old.builders ++ ((f, m), c) ∷ [] }) }
        ensures grew { Grew self.old self.new }
        ensures unchanged { OnErr result (self.new ≡ self.old) }
    {
        add(&mut self.builders, (f, m), c)
    }

    /// Adds the class and the package record of the structure.
    #[tactic(auto, using(crate::proofs::GrowLemmas::grew_same, crate::proofs::GrowLemmas::grew_structures))]
    pub fn add_structure(
        &mut self,
        s: StructId,
        class: RecId,
        pack: RecId,
    ) -> Result<(), AllocError>
        requires new { records_of self.old s ≡ None }
        requires new_pack { structure_of self.old pack ≡ None }
        requires room { length self.old.structures < 2 ^ 32 - 1 }
        ensures added { OnOk result (self.new ≡ with_structure self.old s class pack) }
        ensures grew { Grew self.old self.new }
        ensures unchanged { OnErr result (self.new ≡ self.old) }
    {
        let before = self.packs.len();
        add(&mut self.packs, pack, s)?;
        match add(&mut self.structures, s, (class, pack)) {
            Ok(()) => Ok(()),
            Err(refused) => {
                self.packs.truncate(before);
                Err(refused)
            }
        }
    }

    /// The lengths of the tables.
    pub fn mark(&self) -> TablesMark
        ensures lengths { result ≡ mark_of self.now }
        ensures whole { IsWhole self.now }
    {
        TablesMark {
            structures: self.structures.len() as u32,
            coercions: self.coercions.len() as u32,
            entries: self.entries.len() as u32,
            mixins: self.mixins.len() as u32,
            operations: self.operations.len() as u32,
            builders: self.builders.len() as u32,
        }
    }

    /// Cuts the tables back to the lengths of the mark.
    #[tactic(auto, using(crate::proofs::GrowLemmas::gone_back))]
    pub fn undo(&mut self, mark: TablesMark)
        ensures cut { self.new ≡ cut self.old mark }
        ensures back { (old : Maps) → IsWhole old → mark ≡ mark_of old → Grew old self.old
            → self.new ≡ old }
    {
        self.structures.truncate(mark.structures as usize);
        self.packs.truncate(mark.structures as usize);
        self.coercions.truncate(mark.coercions as usize);
        self.entries.truncate(mark.entries as usize);
        self.mixins.truncate(mark.mixins as usize);
        self.operations.truncate(mark.operations as usize);
        self.builders.truncate(mark.builders as usize);
    }
}

/// Adds the pair after all others.
fn add<K: Hash + Eq + Copy, V: Copy>(
    map: &mut IndexMap<K, V>,
    key: K,
    value: V,
) -> Result<(), AllocError>
    requires { get K.eq map.old key ≡ None }
    ensures added { OnOk result (map.new.entries ≡ map.old.entries ++ (key, value) ∷ []) }
    ensures unchanged { OnErr result (map.new.entries ≡ map.old.entries) }
{
    map.insert(key, value)?;
    Ok(())
}
