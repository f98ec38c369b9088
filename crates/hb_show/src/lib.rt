//! The sentences of a source as text.
#![tactic(auto)]

mod command;
mod force;
mod line;
mod piece;
mod sentence;
mod stack;
mod term;
mod write;

pub use sentence::show;
