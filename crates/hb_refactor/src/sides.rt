//! The old library and the new one, whose names are compared by their texts.
ghost use Rattle.std.specs.Prelude.{◌≡◌, Some, IfSome, slice_get};
ghost use Rattle.hb_hier.specs.Hierarchy as hierarchy;
ghost use Rattle.hb_hier.specs.Hierarchy.{IsDeclared};
ghost use Rattle.hb_refactor.specs.Keeping as spec;
ghost use Rattle.hb_refactor.specs.Sides.{both};

use hb_base::{NameId, Names};
use hb_hier::{Hier, Known};
use hb_order::MixinId;
use hb_sets::MixSet;

/// The old library and the new one.
#[derive(Clone, Copy)]
pub(crate) struct Sides<'a> {
    pub old_names: &'a Names,
    pub old: &'a Hier,
    pub new_names: &'a Names,
    pub new: &'a Hier,
}

impl Sides<'_> {
    /// What the new library has under the text of an old name.
    pub fn renewed(&self, name: NameId) -> Option<Known>
        ensures renewed { result ≡ spec.renewed (both self.now) (Some name) }
        ensures declared { IfSome result (IsDeclared self.now.new.now) }
    {
        if usize::from(name.0) >= self.old_names.len() {
            return None;
        }
        match self.found(self.old_names.text(name)) {
            Some(name) => self.new.known(name),
            None => None,
        }
    }

    /// The number that the new library has for a text.
    fn found(&self, text: &str) -> Option<NameId>
        ensures { result ≡ spec.number_in self.now.new_names.now (Some text.now) }
    {
        self.new_names.find(text)
    }

    /// The mixin or ended factory that the new library has under the text of an old name.
    pub fn usable(&self, name: NameId) -> Option<Known>
        ensures usable { result ≡ spec.usable (both self.now) (Some name) }
        ensures declared { IfSome result (IsDeclared self.now.new.now) }
    {
        let found = self.renewed(name)?;
        if is_usable(self.new, found) {
            Some(found)
        } else {
            None
        }
    }

    /// What the new library stands for in a list.
    pub fn full(&self, k: Known) -> MixSet
        requires { IsDeclared self.now.new.now k }
        ensures { result ≡ hierarchy.full self.now.new.now k }
    {
        self.new.req(k).union(&self.new.prov(k))
    }

    /// What an old set brings in the new library: what its mixins stand for there. A mixin that is lost
    /// brings nothing.
    pub fn translated(&self, set: &MixSet) -> MixSet
        ensures { result ≡ spec.translated (both self.now) set.now }
    {
        let mut all = MixSet::empty();
        for m in 0..self.old.mixins() {
            if set.has(m) {
                all = all.union(&self.brought(MixinId(m)));
            }
        }
        all
    }

    /// What an old mixin brings.
    fn brought(&self, m: MixinId) -> MixSet
        ensures { result ≡ spec.brought_by (both self.now) m.0 }
    {
        match self.old.name(Known::Mixin(m)) {
            Some(name) => match self.usable(name) {
                Some(k) => self.full(k),
                None => MixSet::empty(),
            },
            None => MixSet::empty(),
        }
    }

    /// Whether field names have the same texts in order.
    pub fn same_fields(&self, old: &[NameId], new: &[NameId]) -> bool
        ensures { result ≡ spec.same_fields (both self.now) old.now new.now }
    {
        match old {
            [] => match new {
                [] => true,
                [_, ..] => false,
            },
            [a, old @ ..] => match new {
                [] => false,
                [b, new @ ..] => self.same_text(*a, *b) && self.same_fields(old, new),
            },
        }
    }

    /// Whether an old name and a new one have one text.
    fn same_text(&self, old: NameId, new: NameId) -> bool
        ensures { result ≡ spec.same_text (slice_get self.now.old_names.now old.0) (slice_get self.now.new_names.now new.0) }
    {
        usize::from(old.0) < self.old_names.len()
            && usize::from(new.0) < self.new_names.len()
            && self.old_names.text(old) == self.new_names.text(new)
    }
}

/// Whether it may stand in a list: a factory only once its section was ended.
pub(crate) fn is_usable(hier: &Hier, k: Known) -> bool
    requires { IsDeclared hier.now k }
    ensures { result ≡ spec.usable_in hier.now k }
{
    match k {
        Known::Mixin(_) => true,
        Known::Factory(f) => hier.ended(f),
        Known::Structure(_) => false,
    }
}
