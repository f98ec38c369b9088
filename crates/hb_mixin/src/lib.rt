//! Mixins and factories.
#![tactic(auto)]

mod command;
mod declaring;
mod fields;
mod naming;
mod replaying;

pub use command::apply;
pub use replaying::replay;
