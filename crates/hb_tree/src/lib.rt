//! Terms of the calculus as plain trees: what every definition, contract and law speaks of.
#![tactic(auto)]

mod laws;
mod leaves;

pub use laws::lift_laws;
pub use leaves::{ConstId, RecId, Sort};
