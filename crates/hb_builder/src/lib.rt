//! Sections of builders: where they begin, and where they end.
#![tactic(auto)]

mod begin;
mod command;
mod end;
mod replaying;

pub use command::apply;
pub use replaying::replay;
