//! Structures.
#![tactic(auto)]

mod checking;
mod command;
mod declaring;
mod replaying;

pub use command::apply;
pub use replaying::replay;
