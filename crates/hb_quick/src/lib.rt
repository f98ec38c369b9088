//! A cheap look that finds most terms convertible that are, with no normal form.
#![tactic(auto)]

mod allowance;
mod look;
mod maker;
mod unfold;

pub use look::looks_convertible;

#[cfg(test)]
mod tests;
