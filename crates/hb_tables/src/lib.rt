//! The tables of a session: coercions, instances, operations, builders and records, as finite maps.
#![tactic(auto)]

mod carrier;
mod marks;
mod tables;
#[cfg(test)]
mod tests;

pub use carrier::Carrier;
pub use marks::{Key, TablesMark};
pub use tables::Tables;
