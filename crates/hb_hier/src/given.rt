//! What was given to a carrier, and under which conditions.
ghost use Rattle.std.specs.Prelude.{◌≡◌, length};
ghost use Rattle.hb_order.specs.Givings.{given, condition};
ghost use Rattle.hb_order.specs.Needs.{AskedDeclared};
ghost use Rattle.hb_givings.specs.Givings.{givings_at, carriers_of, binder_count};
ghost use Rattle.hb_hier.specs.Hierarchy.{sets};
ghost use Rattle.hb_hier.specs.Giving.{BindersBelow};

use crate::hier::Hier;
use hb_order::{MixinId, StructId};
use hb_sets::MixSet;
use hb_tree::ConstId;

impl Hier {
    /// The carriers, in the order of their first givings.
    pub fn carriers(&self) -> &[ConstId]
        ensures { result.now ≡ carriers_of self.now.givings }
    {
        self.givings.carriers()
    }

    /// The mixins that the carrier was given. Empty where nothing was given.
    pub fn given(&self, carrier: ConstId) -> &MixSet
        ensures { result.now ≡ given (givings_at self.now.givings carrier) }
    {
        self.givings.given(carrier)
    }

    /// The binders of the first instance at the carrier that gave `m`. Empty where none did.
    pub fn condition(&self, carrier: ConstId, m: MixinId) -> &[Option<StructId>]
        ensures first { result.now ≡ condition (givings_at self.now.givings carrier) m.0 }
        ensures declared { BindersBelow (length self.now.structures) result.now }
    {
        self.givings.condition(carrier, m)
    }

    /// How many binders the instances at the carrier have, at most 65,535. None exactly where nothing
    /// was given.
    pub fn binders(&self, carrier: ConstId) -> Option<u16>
        ensures { result ≡ binder_count (givings_at self.now.givings carrier) }
    {
        self.givings.binders(carrier)
    }

    /// The law: each structure that was asked of an argument is declared.
    pub fn asked_are_declared(&self, carrier: ConstId)
        ensures { AskedDeclared (sets self.now) (givings_at self.now.givings carrier) }
    {
        let _ = &self.structures;
    }
}
