//! The sets of the declared structures, with their joins and the holders of each mixin.
ghost use Rattle.std.specs.Prelude.{◌≡◌, ◌<◌, ◌≤◌, [], ◌∷◌, ◌++◌, length, take, IfOk, OnOk, OnErr};
ghost use Rattle.hb_order.specs.Heirs.{mix};
ghost use Rattle.hb_order.specs.Allowed.{IsAllowed, AllAllowed};
ghost use Rattle.hb_joins.specs.Holding.{structures_with};

use crate::holders::Holders;
use crate::table::{Row, cut_rows, fill_rows, new_row};
use hb_order::{MixinId, StructId};
use hb_sets::MixSet;
use std::alloc::{AllocError, Global};
use std::marker::Model;

/// The sets of the declared structures, in the order of declaration. Each was allowed after those
/// before it.
#[derive(Drop)]
pub struct Joins {
    alloc: Global,
    pub(crate) sets: Vec<MixSet>,
    pub(crate) rows: Vec<Row>,
    holders: Holders,
}

impl Model for Joins {
    ghost use Rattle.std.specs.Prelude.{List};
    ghost use Rattle.std.specs.Coded.{coded_list};
    ghost use Rattle.hb_sets.specs.Set.{Set, set_code};

    ghost Value = { List Set };

    ghost coded = { coded_list set_code };

    ghost use Rattle.hb_joins.specs.Kept.{IsKept};

    ghost view = { λ j. j.sets.items };

    ghost invariant = { IsKept };
}

impl Joins {
    /// No structures.
    pub fn new(alloc: Global) -> Result<Joins, AllocError>
        ensures { IfOk result (λ j. j ≡ []) }
    {
        let holders = Holders::new(alloc)?;
        Ok(Joins {
            alloc,
            sets: Vec::new(alloc),
            rows: Vec::new(alloc),
            holders,
        })
    }

    /// How many structures are declared, at most 1,024.
    pub fn len(&self) -> u16
        ensures count { result ≡ length self.now }
        ensures bound { result ≤ 1024 }
    {
        self.sets.len() as u16
    }

    /// The mixins of a structure.
    pub fn set(&self, s: StructId) -> &MixSet
        requires { s.0 < length self.now }
        ensures { result.now ≡ mix self.now s.0 }
    {
        &self.sets[usize::from(s.0)]
    }

    /// The structures whose sets have the mixin, in the order of declaration.
    pub fn structures_with(&self, m: MixinId) -> &[StructId]
        requires { m.0 < 1024 }
        ensures { result.now ≡ structures_with self.now m.0 }
    {
        self.holders.of(m)
    }

    /// Declares a structure with the set, and answers its number.
    pub fn add(&mut self, set: MixSet) -> Result<StructId, AllocError>
        requires allowed { IsAllowed self.old set }
        requires few { length self.old < 1024 }
        ensures added { OnOk result (self.new ≡ self.old ++ set ∷ []) }
        ensures place { IfOk result (λ s. s.0 ≡ length self.old) }
        ensures unchanged { OnErr result (self.new ≡ self.old) }
    {
        let s = StructId(self.len());
        let row = new_row(self.alloc, &self.sets, &set)?;
        self.sets.reserve(1)?;
        self.rows.reserve(1)?;
        self.holders.add(s, &set)?;
        fill_rows(&mut self.rows, &row);
        self.rows.push_reserved(row);
        self.sets.push_reserved(set);
        Ok(s)
    }

    /// Keeps the first `n` structures.
    pub fn cut(&mut self, n: u16)
        ensures { self.new ≡ take n self.old }
    {
        self.sets.truncate(n as usize);
        self.rows.truncate(n as usize);
        cut_rows(&mut self.rows, n);
        self.holders.cut(n);
    }

    /// The law: each structure was allowed after those before it.
    pub fn structures_are_allowed(&self)
        ensures { AllAllowed self.now }
    {
        let _ = &self.sets;
    }
}
