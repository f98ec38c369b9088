//! The law of the sets that a hierarchy keeps: they are those of the lists that were declared.
#![tactic(auto)]

ghost use Rattle.hb_hier_laws.specs.Acts.{SetsAreComputedAnew};

/// What a hierarchy keeps for a mixin, a factory or a structure is what its list brings, computed
/// anew from the lists after all later calls.
pub fn sets_are_computed_anew()
    ensures { SetsAreComputedAnew }
{}
