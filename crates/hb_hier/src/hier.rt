//! The hierarchy of a session.
ghost use Rattle.std.specs.Prelude.{◌≡◌, ℕ, ◌<◌, ◌≤◌, [], length, IfOk};
ghost use Rattle.hb_hier.specs.Hierarchy.{Hierarchy, MOST, nothing, sets};

use crate::known::Known;
use crate::records::{Declaration, Ending, Structure};
use hb_givings::Givings;
use hb_joins::Joins;
use std::alloc::{AllocError, Global};
use std::marker::Model;

/// The mixins, factories and structures that were declared, the ends of the factories' sections, and
/// the instances, each in its order. Each structure was allowed when it was declared.
#[derive(Drop)]
pub struct Hier {
    pub(crate) alloc: Global,
    pub(crate) order: Vec<Known>,
    pub(crate) mixins: Vec<Declaration>,
    pub(crate) factories: Vec<Declaration>,
    pub(crate) endings: Vec<Ending>,
    pub(crate) structures: Vec<Structure>,
    pub(crate) joins: Joins,
    pub(crate) givings: Givings,
}

impl Model for Hier {
    ghost use Rattle.hb_hier.specs.Hierarchy.{Hierarchy};
    ghost use Rattle.std.specs.Coded.{codes};
    ghost use Rattle.hb_sets.specs.Set.{set_code};

    ghost Value = { Hierarchy };

    ghost coded = { Prim.hlevel (codes, set_code) };

    ghost use Rattle.hb_hier.specs.Kept.{IsKept};

    ghost view = { λ h.
        record {
          order = h.order.items;
          mixins = h.mixins.items;
          factories = h.factories.items;
          endings = h.endings.items;
          structures = h.structures.items;
          givings = h.givings;
        } };

    ghost invariant = { IsKept };
}

impl Hier {
    /// The hierarchy in which nothing was declared.
    pub fn new(alloc: Global) -> Result<Hier, AllocError>
        ensures { IfOk result (λ h. h ≡ nothing) }
    {
        let joins = Joins::new(alloc)?;
        let givings = Givings::new(alloc)?;
        Ok(Hier {
            alloc,
            order: Vec::new(alloc),
            mixins: Vec::new(alloc),
            factories: Vec::new(alloc),
            endings: Vec::new(alloc),
            structures: Vec::new(alloc),
            joins,
            givings,
        })
    }

    /// How many mixins are declared, at most 1,024.
    pub fn mixins(&self) -> u16
        ensures count { result ≡ length self.now.mixins }
        ensures bound { result ≤ MOST }
    {
        self.mixins.len() as u16
    }

    /// How many factories are declared, at most 1,024.
    pub fn factories(&self) -> u16
        ensures count { result ≡ length self.now.factories }
        ensures bound { result ≤ MOST }
    {
        self.factories.len() as u16
    }

    /// How many structures are declared, at most 1,024.
    pub fn structures(&self) -> u16
        ensures count { result ≡ length self.now.structures }
        ensures bound { result ≤ MOST }
    {
        self.structures.len() as u16
    }

    /// The joins of the structures.
    pub(crate) fn joins(&self) -> &Joins
        ensures sets { result.now ≡ sets self.now }
        ensures count { length result.now ≡ length self.now.structures }
    {
        &self.joins
    }
}
