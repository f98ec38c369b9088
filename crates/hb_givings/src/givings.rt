//! The instances in order, with what is looked up by carrier and by mixin.
ghost use Rattle.std.specs.Prelude.{◌≡◌, ◌<◌, ◌^◌, [], length, slice_index_or, IfOk};
ghost use Rattle.hb_order.specs.Givings.{given, condition};
ghost use Rattle.hb_givings.specs.Givings.{ungiven, givings_at, carriers_of, binder_count};

use crate::binders::binders_at;
use crate::records::{Instance, Summary, Tally};
use hb_order::{MixinId, StructId};
use hb_sets::MixSet;
use hb_tree::ConstId;
use indexmap::IndexMap;
use std::alloc::{AllocError, Global};
use std::marker::Model;

/// The instances, in the order of adding. Each question about a carrier is one look-up, however many
/// instances there are.
#[derive(Drop)]
pub struct Givings {
    pub(crate) alloc: Global,
    pub(crate) instances: Vec<Instance>,
    pub(crate) tallies: Vec<Tally>,
    pub(crate) carriers: Vec<ConstId>,
    /// What each carrier has.
    pub(crate) summaries: IndexMap<ConstId, Summary>,
    /// The place of the first instance that gave the mixin to the carrier.
    pub(crate) sources: IndexMap<(ConstId, MixinId), u32>,
    pub(crate) nothing: MixSet,
}

impl Model for Givings {
    ghost use Rattle.hb_givings.specs.Givings.{Given};
    ghost use Rattle.std.specs.Prelude.{List};
    ghost use Rattle.std.specs.Coded.{codes, coded_list};
    ghost use Rattle.hb_sets.specs.Set.{set_code};

    ghost Value = { List Given };

    ghost coded = { coded_list (Prim.hlevel (codes, set_code)) };

    ghost view = { λ g. g.instances.items };

    ghost use Rattle.hb_givings.specs.Kept.{IsKept};

    ghost invariant = { IsKept };
}

impl Givings {
    /// No instances.
    pub fn new(alloc: Global) -> Result<Givings, AllocError>
        ensures { IfOk result (λ g. g ≡ []) }
    {
        Ok(Givings {
            alloc,
            instances: Vec::new(alloc),
            tallies: Vec::new(alloc),
            carriers: Vec::new(alloc),
            summaries: IndexMap::new(alloc),
            sources: IndexMap::new(alloc),
            nothing: MixSet::empty(),
        })
    }

    /// How many instances there are.
    pub fn len(&self) -> u32
        ensures count { result ≡ length self.now }
    {
        self.instances.len() as u32
    }

    /// The carriers, in the order of their first instances.
    pub fn carriers(&self) -> &[ConstId]
        ensures { result.now ≡ carriers_of self.now }
    {
        &self.carriers
    }

    /// The mixins that the carrier was given. Empty where nothing was given.
    pub fn given(&self, carrier: ConstId) -> &MixSet
        ensures { result.now ≡ given (givings_at self.now carrier) }
    {
        match self.summaries.get(&carrier) {
            Some(summary) => &summary.given,
            None => &self.nothing,
        }
    }

    /// How many binders the first instance at the carrier has, at most 65,535. None exactly where nothing
    /// was given.
    pub fn binders(&self, carrier: ConstId) -> Option<u16>
        ensures { result ≡ binder_count (givings_at self.now carrier) }
    {
        match self.summaries.get(&carrier) {
            Some(summary) => Some(summary.binders()),
            None => None,
        }
    }

    /// The binders of the instance at the place.
    pub fn asked(&self, at: u32) -> &[Option<StructId>]
        requires { at < length self.now }
        ensures { result.now ≡ (slice_index_or self.now at ungiven).giving.binders }
    {
        binders_at(&self.instances, at as usize)
    }

    /// The binders of the first instance at the carrier that gave `m`. Empty where none did.
    pub fn condition(&self, carrier: ConstId, m: MixinId) -> &[Option<StructId>]
        ensures { result.now ≡ condition (givings_at self.now carrier) m.0 }
    {
        match self.sources.get(&(carrier, m)) {
            Some(at) => binders_at(&self.instances, *at as usize),
            None => &[],
        }
    }
}
