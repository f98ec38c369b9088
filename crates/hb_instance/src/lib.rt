//! Instances: of mixins and of factories, at constants under binders and at the carriers of sections.
#![tactic(auto)]

mod allowing;
mod carrier;
mod coherent;
mod command;
mod giving;
mod keeping;
mod replaying;
mod target;

pub use command::apply;
pub use replaying::replay;
