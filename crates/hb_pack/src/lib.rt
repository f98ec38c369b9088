//! The declarations that commands on the hierarchy make.
#![tactic(auto)]

mod arguments;
mod coercions;
mod dependent;
mod error;
mod given;
mod layout;
mod lists;
mod look;
mod mixin;
mod names;
mod naming;
mod need;
mod operations;
mod place;
mod records;
mod roles;
mod shape;
mod structure;
mod taken;
mod terms;

pub use arguments::asked_types;
pub use dependent::parameters as mixin_params;
pub use error::PackRefused;
pub use given::given_decls;
pub use layout::Layout;
pub use lists::listed;
pub use look::{provided_by, required_by};
pub use mixin::mixin_decl;
pub use names::StructureNames;
pub use place::{Place, carrier_of, context_at, has_at, section_context, term_at, wanted_at};
pub use roles::{Made, Role, enter};
pub use shape::shape_roles;
pub use structure::shape_decls;
pub use taken::taken_decls;
