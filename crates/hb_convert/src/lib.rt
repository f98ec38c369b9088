//! Conversion and cumulativity of terms, by their normal forms.
#![tactic(auto)]

mod convert;
mod verdict;

pub use convert::{below, convertible};
pub use verdict::Verdict;

#[cfg(test)]
mod tests;
