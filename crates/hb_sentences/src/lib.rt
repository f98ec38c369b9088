//! Tokens and sentences of sources with infix and prefix notations, read over the grammar without them.
#![tactic(auto)]

mod chain;
mod commands;
mod header;
mod kinds;
mod lexing;
mod marker;
mod operands;
mod plain;
mod rebuild;
mod refused;
mod runs;
mod sizes;
mod whole;

pub use lexing::tokens;
pub use refused::SentencesRefused;
pub use whole::sentences;
