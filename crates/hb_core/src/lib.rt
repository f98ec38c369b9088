//! Core texts: lists of declarations as they are written for Rocq, read back.
#![tactic(auto)]

mod atom;
mod draft;
mod error;
mod file;
mod level;
mod mark;
mod name;
mod reader;
mod scope;
mod state;
mod table;
mod term;

pub use error::CoreRefused;
pub use file::read_core;

#[cfg(test)]
mod tests;
