//! Types of makers and of projections of records.
#![tactic(auto)]

mod maker;
mod projection;

pub use maker::maker_type;
pub use projection::projection_type;

#[cfg(test)]
mod tests;
