//! Texts of terms.
#![tactic(auto)]

mod declaration;
mod kind;
mod names;
mod piece;
mod stack;
mod term;

pub use declaration::entry_text;
pub use kind::Kind;
pub use piece::Piece;
pub use term::{term_front, term_text};

#[cfg(test)]
mod tests;
