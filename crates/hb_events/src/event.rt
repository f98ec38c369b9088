//! What accepted commands report.
use hb_base::NameId;
use hb_hier::Known;
use hb_order::{FactoryId, StructId};
use hb_sets::MixSet;
use hb_term::Scoped;

/// What a carrier had before an instance.
#[derive(Drop)]
pub enum Had {
    /// The structures whose instances at the constant stand in the first so many declarations.
    Declared(u32),
    /// The mixins of the section's local carrier.
    Local(MixSet),
}

/// What an accepted command or query reports: a line, or several.
#[derive(Drop)]
pub enum Event {
    Axiom(NameId),
    Definition(NameId),
    Mixin(NameId),
    Factory(NameId),
    /// A section of builders of the factory begins.
    Builders(NameId),
    /// The section of the factory ended.
    End(FactoryId),
    Structure(StructId),
    /// An instance of the factory at the carrier, with what this had before.
    Instance {
        factory: NameId,
        carrier: NameId,
        had: Had,
    },
    /// A declaration of a core text.
    Core(NameId),
    /// A required file was compiled, now or before.
    Require(NameId),
    /// The join of two structures, if they have one.
    Join {
        a: NameId,
        b: NameId,
        join: Option<StructId>,
    },
    /// The key of a type that has the structure, if it has one.
    Find {
        structure: NameId,
        key: Option<Scoped>,
    },
    /// The carrier was given the structure.
    Given {
        structure: NameId,
        carrier: NameId,
    },
    /// The least lists of mixins and factories that give the carrier the structure.
    Howto {
        structure: NameId,
        carrier: NameId,
        lists: Vec<Vec<NameId>>,
    },
    /// What is declared under a name.
    About {
        name: NameId,
        known: Known,
    },
}
