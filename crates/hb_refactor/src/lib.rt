//! Whether a rebuilt library keeps what clients of the old one had.
#![tactic(auto)]

mod comparison;
mod error;
mod sides;
mod structures;

pub use comparison::compare;
pub use error::RefactorRefused;

#[cfg(test)]
mod tests;
