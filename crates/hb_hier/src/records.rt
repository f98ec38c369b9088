//! What was declared and ended, as it is kept.
use hb_base::NameId;
use hb_order::FactoryId;
use hb_sets::MixSet;
use std::marker::Model;

/// A mixin or a factory, with the mixins that it requires and the names of its fields.
#[derive(Drop)]
pub(crate) struct Declaration {
    pub(crate) name: NameId,
    pub(crate) required: MixSet,
    pub(crate) fields: Vec<NameId>,
}

impl Model for Declaration {
    ghost use Rattle.hb_hier.specs.Hierarchy.{Declared};
    ghost use Rattle.std.specs.Coded.{codes};
    ghost use Rattle.hb_sets.specs.Set.{set_code};

    ghost Value = { Declared };

    ghost coded = { Prim.hlevel (codes, set_code) };

    ghost view = { λ d. record { name = d.name; required = d.required; fields = d.fields.items } };
}

/// The end of a factory's section, with the mixins that it provides.
#[derive(Drop)]
pub(crate) struct Ending {
    pub(crate) factory: FactoryId,
    pub(crate) provided: MixSet,
}

/// A structure, with its mixins.
#[derive(Drop)]
pub(crate) struct Structure {
    pub(crate) name: NameId,
    pub(crate) mixins: MixSet,
}

impl Model for Ending {
    ghost use Rattle.hb_hier.specs.Hierarchy.{Ended};
    ghost use Rattle.std.specs.Coded.{codes};
    ghost use Rattle.hb_sets.specs.Set.{set_code};

    ghost Value = { Ended };

    ghost coded = { Prim.hlevel (codes, set_code) };

    ghost view = { λ e. record { factory = e.factory; provided = e.provided } };
}

impl Model for Structure {
    ghost use Rattle.hb_hier.specs.Hierarchy.{Grouped};
    ghost use Rattle.std.specs.Coded.{codes};
    ghost use Rattle.hb_sets.specs.Set.{set_code};

    ghost Value = { Grouped };

    ghost coded = { Prim.hlevel (codes, set_code) };

    ghost view = { λ s. record { name = s.name; mixins = s.mixins } };
}
