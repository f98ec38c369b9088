//! Tokens of sources: a text has at most one list of tokens, and a fault stands at the first byte
//! that has no way on.
#![tactic(auto)]

mod class;
mod error;
mod laws;
mod lexer;
mod state;
#[cfg(test)]
mod tests;
mod token;
mod word;

pub use error::LexRefused;
pub use laws::one_reading;
pub use lexer::tokens;
pub use token::{Token, TokenKind};
