//! Plain commands: axioms, definitions, and the queries for joins and instances.
#![tactic(auto)]

mod axiom;
mod command;
mod definition;
mod query;
mod replaying;

pub use command::apply;
pub use query::{join_of, structure_of};
pub use replaying::replay;

#[cfg(test)]
mod tests;
