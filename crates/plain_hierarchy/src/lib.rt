//! A hierarchy in the plain way, by scans of lists: the yardstick of `hb_hier`, with the contracts of the
//! definitions themselves. hb_hier_tests runs both.
#![tactic(auto)]

mod allowed;
mod givings;
mod heirs;
mod needs;

pub use allowed::check_set;
pub use givings::{Giving, are_declared, binder_count, condition, given};
pub use heirs::{is_heir, join_of};
pub use needs::{need, takes};
