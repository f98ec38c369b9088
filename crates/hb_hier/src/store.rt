//! A new instance.
ghost use Rattle.std.specs.Prelude.{◌≡◌, ◌<◌, ◌-◌, ◌^◌, length, OnOk, OnErr, IfErr};
ghost use Rattle.hb_hier.specs.Giving.{BindersBelow, with_giving};
ghost use Rattle.hb_hier.specs.declared.error.HierRefused.TheVariants.{NoMemory};

use crate::error::HierRefused;
use crate::hier::Hier;
use hb_order::StructId;
use hb_sets::MixSet;
use hb_tree::ConstId;

impl Hier {
    /// Adds the instance after all others.
    pub(crate) fn store_giving(
        &mut self,
        carrier: ConstId,
        binders: &[Option<StructId>],
        gives: MixSet,
    ) -> Result<(), HierRefused>
        requires room { length self.old.givings < 2 ^ 32 - 1 }
        requires declared { BindersBelow (length self.old.structures) binders.now }
        requires few { length binders.now < 2 ^ 16 }
        ensures added { OnOk result (self.new ≡ with_giving self.old carrier binders.now gives) }
        ensures refused { IfErr result (λ e. e ≡ NoMemory) }
        ensures unchanged { OnErr result (self.new ≡ self.old) }
    {
        self.givings.push(carrier, binders, gives)?;
        Ok(())
    }
}
