//! Sections of builders.
use hb_base::NameId;
use hb_order::FactoryId;
use hb_sets::MixSet;
use hb_tables::Carrier;
use hb_term::Term;

/// An open section of builders. Its context has the carrier, a variable for each mixin that the factory
/// requires, in declared order, and the factory's value.
#[derive(Drop)]
pub struct Section {
    pub factory: FactoryId,
    /// The name of the local carrier.
    pub carrier: NameId,
    /// The name of the factory's value, where it has one.
    pub var: Option<NameId>,
    /// The types of the context's variables, outermost first, each under those before it.
    pub context: Vec<Term>,
    /// The local carrier with what it has: what the factory requires, and what the section's instances
    /// gave so far.
    pub own: Carrier,
    /// The mixins that the section's instances gave so far.
    pub provided: MixSet,
    /// The names that the section's definitions and instances declared, in order.
    pub definitions: Vec<NameId>,
}
