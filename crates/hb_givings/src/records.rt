//! An instance as it is kept, and what is kept beside it.
ghost use Rattle.std.specs.Prelude.{◌≡◌};

use hb_order::StructId;
use hb_sets::MixSet;
use hb_tree::ConstId;
use std::marker::Model;

/// An instance at a carrier: what it asks of the carrier's arguments, and what it gives.
#[derive(Drop)]
pub(crate) struct Instance {
    pub(crate) carrier: ConstId,
    pub(crate) binders: Vec<Option<StructId>>,
    pub(crate) gives: MixSet,
}

impl Model for Instance {
    ghost use Rattle.hb_givings.specs.Givings.{Given};
    ghost use Rattle.std.specs.Coded.{codes};
    ghost use Rattle.hb_sets.specs.Set.{set_code};

    ghost Value = { Given };

    ghost coded = { Prim.hlevel (codes, set_code) };

    ghost view = { λ g.
        record { carrier = g.carrier; giving = record { binders = g.binders.items; gives = g.gives } } };
}

/// What a carrier has: how many binders its instances have, and the mixins that they gave.
#[derive(Drop)]
pub(crate) struct Summary {
    pub(crate) binders: u16,
    pub(crate) given: MixSet,
}

impl Summary {
    /// How many binders they have.
    pub(crate) fn binders(&self) -> u16
        ensures { result ≡ self.now.binders }
    {
        self.binders
    }
}

/// What was there before an instance: what its carrier had, and how many pairs of a carrier and a
/// mixin had been given.
#[derive(Drop)]
pub(crate) struct Tally {
    pub(crate) before: Option<Summary>,
    pub(crate) sources: usize,
}
