//! The sets of what was declared, and of what a list brings.
ghost use Rattle.std.specs.Prelude.{◌≡◌, ◌==◌, ◌<◌, length, slice_index_or};
ghost use Rattle.hb_order.specs.Heirs.{mix};
ghost use Rattle.hb_hier.specs.Hierarchy.{IsDeclared, unended, known_as, sets, provision, required, provided, full, full_or_none, brought};

use crate::hier::Hier;
use crate::known::Known;
use crate::records::Ending;
use hb_base::NameId;
use hb_order::{FactoryId, StructId};
use hb_sets::MixSet;

impl Hier {
    /// The mixins that a mixin or factory requires. A structure requires none.
    pub fn req(&self, k: Known) -> MixSet
        requires { IsDeclared self.now k }
        ensures { result ≡ required self.now k }
    {
        match k {
            Known::Mixin(m) => self.mixins[usize::from(m.0)].required.copy(),
            Known::Factory(f) => self.factories[usize::from(f.0)].required.copy(),
            Known::Structure(_) => MixSet::empty(),
        }
    }

    /// The mixins that it provides: a mixin itself, a factory what its ended section gave, and nothing
    /// before that, a structure its own.
    pub fn prov(&self, k: Known) -> MixSet
        requires { IsDeclared self.now k }
        ensures { result ≡ provided self.now k }
    {
        match k {
            Known::Mixin(m) => MixSet::empty().with(m.0),
            Known::Factory(f) => provision(&self.endings, f),
            Known::Structure(s) => self.structures[usize::from(s.0)].mixins.copy(),
        }
    }

    /// The mixins of a structure.
    pub fn mix(&self, s: StructId) -> &MixSet
        requires { s.0 < length self.now.structures }
        ensures { result.now ≡ mix (sets self.now) s.0 }
    {
        &self.structures[usize::from(s.0)].mixins
    }

    /// What it stands for in a list: what it requires together with what it provides.
    fn full(&self, k: Known) -> MixSet
        requires { IsDeclared self.now k }
        ensures { result ≡ full self.now k }
    {
        self.req(k).union(&self.prov(k))
    }

    /// What the name stands for in a list. Nothing where it isn't known.
    fn full_named(&self, name: NameId) -> MixSet
        ensures { result ≡ full_or_none self.now (known_as self.now name) }
    {
        match self.known(name) {
            Some(k) => self.full(k),
            None => MixSet::empty(),
        }
    }

    /// The mixins that a list of names brings.
    pub fn brought(&self, items: &[NameId]) -> MixSet
        ensures { result ≡ brought self.now items.now }
    {
        let mut all = MixSet::empty();
        for name in items {
            all = all.union(&self.full_named(*name));
        }
        all
    }
}

/// What the section of the factory provides. Nothing before its end.
fn provision(endings: &Vec<Ending>, f: FactoryId) -> MixSet
    ensures { result ≡ provision endings.now.items f.0 }
{
    for at in 0..endings.len() {
        if is_ending_of(endings, at, f) {
            return provided_by(endings, at);
        }
    }
    MixSet::empty()
}

/// Whether the ending at the place is that of the factory's section.
fn is_ending_of(endings: &Vec<Ending>, at: usize, f: FactoryId) -> bool
    requires { at < length endings.now.items }
    ensures { result ≡ ((slice_index_or endings.now.items at unended).factory.0 == f.0) }
{
    let e = &endings[at];
    e.factory.0 == f.0
}

/// What the ending at the place provides.
fn provided_by(endings: &Vec<Ending>, at: usize) -> MixSet
    requires { at < length endings.now.items }
    ensures { result ≡ (slice_index_or endings.now.items at unended).provided }
{
    let e = &endings[at];
    e.provided.copy()
}
