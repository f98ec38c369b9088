//! New mixins and factories, and the ends of the factories' sections.
ghost use Rattle.std.specs.Prelude.{◌≡◌, ◌<◌, ◌++◌, ◌∷◌, [], length, None, Some, IfOk, IfErr, OnOk, OnErr};
ghost use Rattle.hb_base.specs.declared.count.Count.TheVariants.{Mixins, Factories};
ghost use Rattle.hb_hier.specs.Hierarchy.{MOST, known_as};
ghost use Rattle.hb_hier.specs.Declaring.{fault, NoFault, IsFirstFault, DeclareRefusal, with_mixin, with_factory};
ghost use Rattle.hb_hier.specs.Undoing.{Grew};

use crate::error::HierRefused;
use crate::hier::Hier;
use crate::known::Known;
use crate::records::Declaration;
use hb_base::{Count, NameId};
use hb_order::{FactoryId, MixinId};

impl Hier {
    /// Declares a mixin that requires the mixins that the items bring, and answers its number. The
    /// first item that is nothing or an unended factory is refused, then the 1,025th mixin.
    #[tactic(auto, using(crate::proofs::GrewLemmas::grew_same, crate::proofs::GrewLemmas::grew_mixin))]
    pub fn add_mixin(
        &mut self,
        name: NameId,
        items: &[NameId],
        fields: &[NameId],
    ) -> Result<MixinId, HierRefused>
        requires unknown { known_as self.old name ≡ None }
        ensures added { OnOk result (self.new ≡ with_mixin self.old name items.now fields.now) }
        ensures place { IfOk result (λ m. m.0 ≡ length self.old.mixins) }
        ensures usable { OnOk result (NoFault self.old items.now (length items.now)) }
        ensures room { OnOk result (length self.old.mixins < MOST) }
        ensures refused { IfErr result
            (λ e. DeclareRefusal self.old items.now Mixins (length self.old.mixins) e) }
        ensures grew { Grew self.old self.new }
        ensures unchanged { OnErr result (self.new ≡ self.old) }
    {
        self.check_items(items)?;
        let at = self.mixins();
        if at == 1024 {
            return Err(HierRefused::TooMany(Count::Mixins));
        }
        let required = self.brought(items);
        let fields = Vec::from_slice(self.alloc, fields)?;
        self.order.reserve(1)?;
        self.mixins.push(Declaration {
            name,
            required,
            fields,
        })?;
        self.order.push_reserved(Known::Mixin(MixinId(at)));
        Ok(MixinId(at))
    }

    /// Declares a factory, in the same way.
    #[tactic(auto, using(crate::proofs::GrewLemmas::grew_same, crate::proofs::GrewLemmas::grew_factory))]
    pub fn add_factory(
        &mut self,
        name: NameId,
        items: &[NameId],
        fields: &[NameId],
    ) -> Result<FactoryId, HierRefused>
        requires unknown { known_as self.old name ≡ None }
        ensures added { OnOk result (self.new ≡ with_factory self.old name items.now fields.now) }
        ensures place { IfOk result (λ f. f.0 ≡ length self.old.factories) }
        ensures usable { OnOk result (NoFault self.old items.now (length items.now)) }
        ensures room { OnOk result (length self.old.factories < MOST) }
        ensures refused { IfErr result
            (λ e. DeclareRefusal self.old items.now Factories (length self.old.factories) e) }
        ensures grew { Grew self.old self.new }
        ensures unchanged { OnErr result (self.new ≡ self.old) }
    {
        self.check_items(items)?;
        let at = self.factories.len() as u16;
        if at == 1024 {
            return Err(HierRefused::TooMany(Count::Factories));
        }
        let required = self.brought(items);
        let fields = Vec::from_slice(self.alloc, fields)?;
        self.order.reserve(1)?;
        self.factories.push(Declaration {
            name,
            required,
            fields,
        })?;
        self.order.push_reserved(Known::Factory(FactoryId(at)));
        Ok(FactoryId(at))
    }

    /// Whether each name may stand in a list; else the fault of the first that may not.
    pub fn check_items(&self, items: &[NameId]) -> Result<(), HierRefused>
        ensures usable { OnOk result (NoFault self.now items.now (length items.now)) }
        ensures refused { IfErr result (λ e. IsFirstFault self.now items.now e) }
    {
        for name in items {
            self.check_item(*name)?;
        }
        Ok(())
    }

    /// Whether the name may stand in a list; else its fault.
    pub fn check_item(&self, name: NameId) -> Result<(), HierRefused>
        ensures usable { OnOk result (fault self.now name ≡ None) }
        ensures refused { IfErr result (λ e. fault self.now name ≡ Some e) }
    {
        match self.known(name) {
            None => Err(HierRefused::UnknownFactory(name)),
            Some(Known::Factory(f)) if !self.ended(f) => Err(HierRefused::Unfinished(name)),
            Some(_) => Ok(()),
        }
    }
}
