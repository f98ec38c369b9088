//! Infix and prefix notations of sources, and their list.
#![tactic(auto)]

mod notation;
mod notations;
#[cfg(test)]
mod tests;

pub use notation::{Notation, Sentence, Side};
pub use notations::{NotationRefused, Notations};
