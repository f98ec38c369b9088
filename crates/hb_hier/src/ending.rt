//! The ends of the factories' sections.
ghost use Rattle.std.specs.Prelude.{◌≡◌, ◌<◌, length, false, Some, OnOk, OnErr, IfErr};
ghost use Rattle.hb_hier.specs.Hierarchy.{ended, name_of};
ghost use Rattle.hb_hier.specs.declared.known.Known.TheVariants.{Factory};
ghost use Rattle.hb_hier.specs.Declaring.{EndRefusal, with_ending};
ghost use Rattle.hb_hier.specs.Undoing.{Grew};

use crate::error::HierRefused;
use crate::hier::Hier;
use crate::records::Ending;
use hb_base::NameId;
use hb_order::FactoryId;
use hb_sets::MixSet;

impl Hier {
    /// Ends the factory's section: from here on it provides `prov`. Refused as Finished, with its name,
    /// where the section was ended before.
    #[tactic(auto, using(crate::proofs::GrewLemmas::grew_same, crate::proofs::GrewLemmas::grew_ending))]
    pub fn finish_factory(&mut self, f: FactoryId, prov: &MixSet) -> Result<(), HierRefused>
        requires { f.0 < length self.old.factories }
        ensures added { OnOk result (self.new ≡ with_ending self.old f prov.now) }
        ensures fresh { OnOk result (ended self.old.endings f.0 ≡ false) }
        ensures refused { IfErr result (λ e. EndRefusal self.old f e) }
        ensures grew { Grew self.old self.new }
        ensures unchanged { OnErr result (self.new ≡ self.old) }
    {
        if self.ended(f) {
            return Err(HierRefused::Finished(self.factory_name(f)));
        }
        let provided = prov.copy();
        self.endings.push(Ending {
            factory: f,
            provided,
        })?;
        Ok(())
    }

    /// The name of the factory.
    fn factory_name(&self, f: FactoryId) -> NameId
        requires { f.0 < length self.now.factories }
        ensures { name_of self.now (Factory f) ≡ Some result }
    {
        let d = &self.factories[usize::from(f.0)];
        d.name
    }
}
