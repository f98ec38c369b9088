//! The ways to give a carrier a structure.
#![tactic(auto)]

mod candidate;
mod error;
mod filling;
mod lists;
mod search;

pub use error::HowtoRefused;
pub use lists::howto;

#[cfg(test)]
mod tests;
