//! The grammar of sources over a file's tokens.
#![tactic(auto)]

mod error;
mod file;
mod laws;
mod level;
mod mark;
mod number;
mod piece;
mod turn;

pub use error::ParseRefused;
pub use file::parse;
pub use laws::numbering_exists;
