//! Reduction in the plain way, step by step on whole terms: the yardstick of `hb_reduce`, with the same
//! contracts. Its tests run both.
#![tactic(auto)]

mod contract;
mod eta;
mod generate;
mod reduce;
mod samples;
mod spine;
mod stage;

pub use generate::{Lots, generated};
pub use reduce::{nf, whnf};
pub use samples::{
    COUPLE, DOUBLE, EMPTY, ITSELF, NATURAL, NEXT, ONE, OTHER, PAIR, SAME, World, ZERO, constant,
    maker,
};
pub use stage::{eta_step, step};

#[cfg(test)]
mod tests;
