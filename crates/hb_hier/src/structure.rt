//! New structures.
ghost use Rattle.std.specs.Prelude.{◌≡◌, ◌<◌, length, None, IfOk, IfErr, OnOk, OnErr};
ghost use Rattle.hb_order.specs.Allowed.{IsAllowed};
ghost use Rattle.hb_hier.specs.Hierarchy.{MOST, known_as, sets, brought};
ghost use Rattle.hb_hier.specs.Declaring.{NoFault, SetRefusal, StructureRefusal, with_structure};
ghost use Rattle.hb_hier.specs.Undoing.{Grew};

use crate::error::HierRefused;
use crate::hier::Hier;
use crate::records::Structure;
use hb_base::{Count, NameId};
use hb_joins::Joins;
use hb_order::StructId;
use hb_sets::MixSet;

impl Hier {
    /// Declares a structure with the mixins that the items bring, and answers its number. The refusals
    /// come in the order of `HierRefused`.
    #[tactic(auto, using(crate::proofs::GrewLemmas::grew_same, crate::proofs::GrewLemmas::grew_structure))]
    pub fn add_structure(&mut self, name: NameId, items: &[NameId]) -> Result<StructId, HierRefused>
        requires unknown { known_as self.old name ≡ None }
        ensures added { OnOk result (self.new ≡ with_structure self.old name items.now) }
        ensures place { IfOk result (λ s. s.0 ≡ length self.old.structures) }
        ensures usable { OnOk result (NoFault self.old items.now (length items.now)) }
        ensures allowed { OnOk result (IsAllowed (sets self.old) (brought self.old items.now)) }
        ensures room { OnOk result (length self.old.structures < MOST) }
        ensures refused { IfErr result (λ e. StructureRefusal self.old items.now e) }
        ensures grew { Grew self.old self.new }
        ensures unchanged { OnErr result (self.new ≡ self.old) }
    {
        self.check_items(items)?;
        let mixins = self.brought(items);
        self.check_structure(&mixins)?;
        self.structures.reserve(1)?;
        let s = self.joins.add(mixins.copy())?;
        self.structures.push_reserved(Structure { name, mixins });
        Ok(s)
    }

    /// Whether a structure with the mixins may be declared.
    pub fn check_structure(&self, mixins: &MixSet) -> Result<(), HierRefused>
        ensures allowed { OnOk result (IsAllowed (sets self.now) mixins.now) }
        ensures room { OnOk result (length self.now.structures < MOST) }
        ensures refused { IfErr result (λ e. SetRefusal (sets self.now) mixins.now e) }
    {
        check_set(self.joins(), mixins)
    }
}

/// Whether a structure with the set may be declared.
fn check_set(joins: &Joins, set: &MixSet) -> Result<(), HierRefused>
    ensures allowed { OnOk result (IsAllowed joins.now set.now) }
    ensures room { OnOk result (length joins.now < MOST) }
    ensures refused { IfErr result (λ e. SetRefusal joins.now set.now e) }
{
    if set.same(&MixSet::empty()) {
        return Err(HierRefused::EmptyStructure);
    }
    if let Some(s) = joins.first_same(set) {
        return Err(HierRefused::SameStructure(s));
    }
    if let Some(s) = joins.first_above(set) {
        return Err(HierRefused::AboveDeclared(s));
    }
    if let Some((a, b, j)) = joins.first_missing(set) {
        return Err(HierRefused::MissingJoin(a, b, j));
    }
    if joins.len() == 1024 {
        return Err(HierRefused::TooMany(Count::Structures));
    }
    Ok(())
}
