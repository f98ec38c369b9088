//! The comparison of structures.
ghost use Rattle.std.specs.Prelude.{◌≡◌, ◌<◌, OnOk, IfErr, IfSome, IsNone, length};
ghost use Rattle.hb_hier.specs.Hierarchy.{IsDeclared, name_of};
ghost use Rattle.hb_hier.specs.declared.known.Known.TheVariants.{Structure};
ghost use Rattle.hb_refactor.specs.Keeping.{AllStructuresKept, FirstLostStructure, KeepsStructure, LostStructure, apart, renewed};
ghost use Rattle.hb_refactor.specs.Sides.{both};
ghost use Rattle.hb_sets.specs.Set.{Inside, IsFirstOutside, empty};

use crate::error::RefactorRefused;
use crate::sides::Sides;
use hb_hier::Known;
use hb_order::{MixinId, StructId};
use hb_sets::MixSet;

impl Sides<'_> {
    /// Compares the structures of the old library.
    pub fn compare_structures(&self) -> Result<(), RefactorRefused>
        ensures kept { OnOk result (AllStructuresKept (both self.now) (length self.now.old.now.structures)) }
        ensures refused { IfErr result (λ e. FirstLostStructure (both self.now) e) }
    {
        for at in 0..self.old.structures() {
            match self.compare_structure(StructId(at)) {
                Ok(()) => {}
                Err(refused) => return Err(refused),
            }
        }
        Ok(())
    }

    /// Compares a structure of the old library with that of the same name in the new one.
    fn compare_structure(&self, structure: StructId) -> Result<(), RefactorRefused>
        requires { structure.0 < length self.now.old.now.structures }
        ensures kept { OnOk result (KeepsStructure (both self.now) structure) }
        ensures refused { IfErr result (λ e. LostStructure (both self.now) structure e) }
    {
        match self.renewed_structure(structure) {
            Some(Known::Structure(new)) => {
                let brought = self.translated(self.old.mix(structure));
                match first_difference(&brought, self.new.mix(new)) {
                    Some(mixin) => Err(RefactorRefused::StructureChanged { structure, mixin }),
                    None => Ok(()),
                }
            }
            _ => Err(RefactorRefused::StructureLost(structure)),
        }
    }

    /// What the new library has under the name of an old structure.
    fn renewed_structure(&self, structure: StructId) -> Option<Known>
        ensures renewed { result ≡ renewed (both self.now) (name_of self.now.old.now (Structure structure)) }
        ensures declared { IfSome result (IsDeclared self.now.new.now) }
    {
        match self.old.name(Known::Structure(structure)) {
            Some(name) => self.renewed(name),
            None => None,
        }
    }
}

/// The first mixin that is in just one of the two sets.
fn first_difference(a: &MixSet, b: &MixSet) -> Option<MixinId>
    ensures none { IsNone result → Inside (apart a.now b.now) empty }
    ensures first { IfSome result (λ m. IsFirstOutside (apart a.now b.now) empty m.0) }
{
    let both = a.minus(b).union(&b.minus(a));
    match both.first_outside(&MixSet::empty()) {
        Some(m) => Some(MixinId(m)),
        None => None,
    }
}
