//! Declarations and environments: what a session has declared, and its look-ups by name.
#![tactic(auto)]

mod copy;
mod decl;
mod entry;
mod env;
mod error;
mod named;
mod names;
mod refusal;
mod types;

pub use decl::Decl;
pub use entry::{Entry, Head, Places};
pub use env::{Env, MAX_DECLARATIONS, MAX_FIELDS, MAX_NODES};
pub use error::EnvRefused;
pub use named::Named;
pub use refusal::{Refusal, What};

#[cfg(test)]
mod tests;
