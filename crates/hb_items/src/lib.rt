//! What commands on the hierarchy share: the items of their lists, the refusals of the hierarchy, and
//! declarations of a library beside those that are generated.
#![tactic(auto)]

mod compare;
mod hierarchy;
mod items;

pub use compare::{bad_library, not_made, same_decl, same_params};
pub use hierarchy::{mixin_name, of_hierarchy, structure_name};
pub use items::{check_items, check_names, item_names};
