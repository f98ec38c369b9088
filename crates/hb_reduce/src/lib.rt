//! Weak head forms and normal forms, within a budget.
#![tactic(auto)]

mod budget;
mod contract;
mod error;
mod eta;
mod former;
mod frames;
mod head;
mod normal;
mod reduce;
mod rule;
mod settle;
mod side;
mod spine;
mod step;
mod walk;

pub use contract::{beta, projection};
pub use error::ReduceRefused;
pub use reduce::{nf, whnf};
pub use spine::{is_built, sizes};
pub use step::head_step;

#[cfg(test)]
mod tests;
