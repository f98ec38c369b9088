//! The structures of a hierarchy by their sets of mixins: heirs, a table of joins, and for each mixin
//! the structures that hold it.
#![tactic(auto)]

mod candidate;
mod heirs;
mod holders;
mod joins;
mod table;
#[cfg(test)]
mod tests;

pub use joins::Joins;
