//! Where instances stand, and what they give.
ghost use Rattle.std.specs.Prelude.{◌≡◌, ℕ, ◌<◌, ◌↔◌, Some, length, IsTrue};
ghost use Rattle.std.specs.Option.{option_map};
ghost use Rattle.hb_order.specs.Givings.{binder};
ghost use Rattle.hb_hier.specs.Giving.{BindersBelow};

use hb_base::NameId;
use hb_hier::{FactoryId, Hier, Known, StructId};
use hb_pack::Place;
use hb_sets::MixSet;
use hb_term::{ConstId, Term};
use hb_world::Section;
use std::vec::Vec;

/// Where an instance stands: at a constant under binders, or in the section of a factory.
#[derive(Drop)]
pub(crate) enum Target {
    Constant(ConstId, Vec<Option<StructId>>),
    Local(FactoryId),
}

/// An instance that the hierarchy allows: where it stands, what it is of, and what it gives.
#[derive(Drop)]
pub(crate) struct Allowed {
    pub target: Target,
    pub factory: NameId,
    pub known: Known,
    pub carrier: NameId,
    pub gives: MixSet,
}

impl Allowed {
    /// The place of the instance, whose section is the open one.
    pub(crate) fn place<'a>(&'a self, section: &'a Option<Section>) -> Place<'a> {
        match &self.target {
            Target::Constant(k, binders) => Place::Constant(*k, binders),
            Target::Local(factory) => Place::Local(*factory, context_of(section)),
        }
    }
}

/// The types of the section's variables.
fn context_of(section: &Option<Section>) -> &[Term] {
    match section {
        Some(section) => &section.context,
        None => &[],
    }
}

/// Whether each structure of the binders is declared.
pub(crate) fn are_structures(hier: &Hier, binders: &[Option<StructId>]) -> bool
    ensures { IsTrue result → BindersBelow (length hier.now.structures) binders.now }
{
    let count = hier.structures();
    for at in 0..binders.len() {
        if !is_below(binder_of(binders, at), count) {
            return false;
        }
    }
    true
}

/// The structure that the binders ask at the place.
fn binder_of(binders: &[Option<StructId>], at: usize) -> Option<StructId>
    ensures { option_map (λ s. s.0) result ≡ binder binders.now at }
{
    match binders.get(at) {
        Some(Some(s)) => Some(*s),
        _ => None,
    }
}

/// Whether the structure, if there is one, is before the number.
fn is_below(asked: Option<StructId>, structures: u16) -> bool
    ensures { IsTrue result ↔ ((t : ℕ) → option_map (λ s. s.0) asked ≡ Some t → t < structures) }
{
    match asked {
        Some(s) => s.0 < structures,
        None => true,
    }
}
