//! What a name stands for, and what was declared under it.
ghost use Rattle.std.specs.Prelude.{◌≡◌, ◌==◌, ◌<◌, ◌≤◌, IfSome, length, slice_get, slice_index_or, position};
ghost use Rattle.hb_hier.specs.Hierarchy.{MOST, IsDeclared, undeclared, ungrouped, known_as, name_of, fields_of, ended};
ghost use Rattle.hb_hier.specs.Undoing.{AllListed};

use crate::hier::Hier;
use crate::known::Known;
use crate::records::{Declaration, Structure};
use hb_base::NameId;
use hb_order::{FactoryId, MixinId, StructId};

impl Hier {
    /// What was declared under the name. None exactly where nothing was.
    pub fn known(&self, name: NameId) -> Option<Known>
        ensures found { result ≡ known_as self.now name }
        ensures declared { IfSome result (IsDeclared self.now) }
    {
        if let Some(at) = place_of_declaration(&self.mixins, name) {
            return Some(Known::Mixin(MixinId(at)));
        }
        if let Some(at) = place_of_declaration(&self.factories, name) {
            return Some(Known::Factory(FactoryId(at)));
        }
        let at = place_of_structure(&self.structures, name)?;
        Some(Known::Structure(StructId(at)))
    }

    /// The name of what was declared. None exactly where the number wasn't declared.
    pub fn name(&self, k: Known) -> Option<NameId>
        ensures { result ≡ name_of self.now k }
    {
        match k {
            Known::Mixin(m) => self.mixins.get(usize::from(m.0)).map(|d| d.name),
            Known::Factory(f) => self.factories.get(usize::from(f.0)).map(|d| d.name),
            Known::Structure(s) => self.structures.get(usize::from(s.0)).map(|d| d.name),
        }
    }

    /// The names of its fields, in order. A structure has none.
    pub fn fields(&self, k: Known) -> &[NameId]
        requires { IsDeclared self.now k }
        ensures { result.now ≡ fields_of self.now k }
    {
        match k {
            Known::Mixin(m) => &self.mixins[usize::from(m.0)].fields,
            Known::Factory(f) => &self.factories[usize::from(f.0)].fields,
            Known::Structure(_) => &[],
        }
    }

    /// The mixins and factories, numbered together from 0 as declared. None exactly beyond the last.
    #[tactic(auto, using(crate::proofs::GrewLemmas::listed_declared))]
    pub fn known_at(&self, i: u16) -> Option<Known>
        ensures at { result ≡ slice_get self.now.order i }
        ensures declared { IfSome result (IsDeclared self.now) }
    {
        self.order_is_declared();
        self.entry_at(i)
    }

    /// The mixin or factory at the place of the order.
    fn entry_at(&self, i: u16) -> Option<Known>
        ensures { result ≡ slice_get self.now.order i }
    {
        self.order.get(usize::from(i)).copied()
    }

    /// The law: what is in the order is declared.
    fn order_is_declared(&self)
        ensures { AllListed (length self.now.mixins) (length self.now.factories) (length self.now.structures) self.now.order }
    {
        let _ = &self.order;
    }

    /// Whether the factory's section was ended.
    pub fn ended(&self, f: FactoryId) -> bool
        requires { f.0 < length self.now.factories }
        ensures { result ≡ ended self.now.endings f.0 }
    {
        self.endings.iter().any(|e| e.factory.0 == f.0)
    }
}

/// The place of the first declaration of the name.
fn place_of_declaration(list: &Vec<Declaration>, name: NameId) -> Option<u16>
    requires { length list.now.items ≤ MOST }
    ensures { result ≡ position (λ d. d.name.0 == name.0) list.now.items }
{
    for at in 0..list.len() {
        if is_declared_as(list, at, name) {
            return Some(at as u16);
        }
    }
    None
}

/// Whether the declaration at the place has the name.
fn is_declared_as(list: &Vec<Declaration>, at: usize, name: NameId) -> bool
    requires { at < length list.now.items }
    ensures { result ≡ ((slice_index_or list.now.items at undeclared).name.0 == name.0) }
{
    let d = &list[at];
    d.name.0 == name.0
}

/// The place of the first structure of the name.
fn place_of_structure(list: &Vec<Structure>, name: NameId) -> Option<u16>
    requires { length list.now.items ≤ MOST }
    ensures { result ≡ position (λ d. d.name.0 == name.0) list.now.items }
{
    for at in 0..list.len() {
        if is_grouped_as(list, at, name) {
            return Some(at as u16);
        }
    }
    None
}

/// Whether the structure at the place has the name.
fn is_grouped_as(list: &Vec<Structure>, at: usize, name: NameId) -> bool
    requires { at < length list.now.items }
    ensures { result ≡ ((slice_index_or list.now.items at ungrouped).name.0 == name.0) }
{
    let d = &list[at];
    d.name.0 == name.0
}
