//! Heirs, joins and needs of structures: the definitions, and the laws that hold of every hierarchy
//! whose structures were allowed.
#![tactic(auto)]

mod ids;
mod laws;

pub use ids::{FactoryId, MixinId, StructId};
pub use laws::{
    heirs_need_less, joins_are_unique, later_givings_keep_needs, later_structures_keep_needs,
};
