//! The comparison of two libraries.
ghost use Rattle.std.specs.Prelude.{◌≡◌, true, Some, OnOk, IfErr, length};
ghost use Rattle.hb_hier.specs.Hierarchy.{IsDeclared, name_of};
ghost use Rattle.hb_refactor.specs.Keeping.{Equivalent, FirstFault, AllKept, FirstLost, Keeps, KeepsUsable, Lost, usable, usable_in};
ghost use Rattle.hb_refactor.specs.Sides.{both};

use crate::error::RefactorRefused;
use crate::sides::{Sides, is_usable};
use hb_base::{NameId, Names};
use hb_hier::{Hier, Known};
use hb_order::MixinId;

/// How many places the order of mixins and factories can have.
const PLACES: u32 = 65_536;

/// Whether the new library keeps what clients of the old one had: each old mixin and ended factory, in
/// the order of declaration, is one with the same fields, requires no more and gives no less; then each
/// old structure is one with the mixins that its old ones bring. The first that isn't so is refused. It
/// takes no memory.
pub fn compare(
    old_names: &Names,
    old: &Hier,
    new_names: &Names,
    new: &Hier,
) -> Result<(), RefactorRefused>
    ensures equivalent { OnOk result (Equivalent (record { old_names = old_names.now; old = old.now; new_names = new_names.now; new = new.now })) }
    ensures refused { IfErr result (λ e. FirstFault (record { old_names = old_names.now; old = old.now; new_names = new_names.now; new = new.now }) e) }
{
    let sides = Sides {
        old_names,
        old,
        new_names,
        new,
    };
    match sides.compare_names() {
        Ok(()) => sides.compare_structures(),
        Err(refused) => Err(refused),
    }
}

impl Sides<'_> {
    /// Compares the mixins and factories of the old library.
    fn compare_names(&self) -> Result<(), RefactorRefused>
        ensures kept { OnOk result (AllKept (both self.now) 65536) }
        ensures refused { IfErr result (λ e. FirstLost (both self.now) e) }
    {
        for at in 0..PLACES {
            match self.old.known_at(at as u16) {
                Some(k) => match self.compare_known(k) {
                    Ok(()) => {}
                    Err(refused) => return Err(refused),
                },
                None => return Ok(()),
            }
        }
        Ok(())
    }

    /// Compares a mixin or a factory of the old library.
    fn compare_known(&self, k: Known) -> Result<(), RefactorRefused>
        requires { IsDeclared self.now.old.now k }
        ensures kept { OnOk result (Keeps (both self.now) k) }
        ensures refused { IfErr result (λ e. Lost (both self.now) k e) }
    {
        if !is_usable(self.old, k) {
            return Ok(());
        }
        match self.old.name(k) {
            Some(name) => match self.usable(name) {
                None => Err(RefactorRefused::LostName(name)),
                Some(new) => self.compare_with(name, k, new),
            },
            None => unreachable!(),
        }
    }

    /// Compares a mixin or a factory with that of the same name in the new library.
    fn compare_with(&self, name: NameId, old: Known, new: Known) -> Result<(), RefactorRefused>
        requires old { IsDeclared self.now.old.now old }
        requires new { IsDeclared self.now.new.now new }
        requires usable { usable_in self.now.old.now old ≡ true }
        requires name { name_of self.now.old.now old ≡ Some name }
        requires found { usable (both self.now) (Some name) ≡ Some new }
        ensures kept { OnOk result (KeepsUsable (both self.now) old) }
        ensures refused { IfErr result (λ e. Lost (both self.now) old e) }
    {
        if !self.same_fields(self.old.fields(old), self.new.fields(new)) {
            return Err(RefactorRefused::FieldsChanged(name));
        }
        let needed = self.translated(&self.old.req(old));
        if let Some(m) = self.new.req(new).first_outside(&needed) {
            let mixin = MixinId(m);
            return Err(RefactorRefused::NeedsMore { name, mixin });
        }
        let given = self.translated(&self.old.prov(old));
        if let Some(m) = given.first_outside(&needed.union(&self.full(new))) {
            let mixin = MixinId(m);
            return Err(RefactorRefused::GivesLess { name, mixin });
        }
        Ok(())
    }
}
