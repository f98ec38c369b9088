//! The instances of a session, and what each carrier has by them.
#![tactic(auto)]

mod binders;
mod givings;
mod push;
mod records;
mod sources;
#[cfg(test)]
mod tests;
mod undo;

pub use givings::Givings;
