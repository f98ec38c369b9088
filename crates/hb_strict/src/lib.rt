//! Strict typing, and tables of lines that are its derivations.
#![tactic(auto)]

mod link;
mod shape;
mod table;

pub use link::Link;
pub use shape::is_below;
pub use table::{Context, Line, Table};
