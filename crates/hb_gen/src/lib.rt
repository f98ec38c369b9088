//! Samples: hierarchies of any size that are accepted, from a number.
#![tactic(auto)]

mod commands;
mod draws;
mod error;
mod maker;
mod whole;

pub use error::SampleRefused;
pub use whole::sample;

#[cfg(test)]
mod tests;
