//! The equation machine.
#![tactic(auto)]

mod act;
mod fields;
mod form;
mod giving;
mod hole;
mod inference;
mod join;
mod machine;
mod normal;
mod parts;
mod problem;
mod refused;
mod sorts;
mod taking;
mod unfold;
mod weakening;

pub use act::{Act, Cause, Goal, Made, Sides, SortOf, Taken, Unfolded, Value};
pub use inference::{KeyFound, found};
pub use machine::{Machine, solve};
pub use problem::{Equation, Problem, Work};
pub use refused::UnifyRefused;

#[cfg(test)]
mod tests;
