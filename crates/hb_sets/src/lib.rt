//! Finite sets of numbers below 1,024, as the sets of mixins of a hierarchy.
#![tactic(auto)]

mod mix_set;
#[cfg(test)]
mod tests;

pub use mix_set::MixSet;
