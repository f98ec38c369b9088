//! Terms of the calculus: shared parts with cached counts, lifting, substitution, comparison.
#![tactic(auto)]

mod counts;
mod lift;
mod make;
mod occurs;
mod same;
mod scoped;
mod subst;
mod term;
mod view;

pub use hb_tree::{ConstId, RecId, Sort};
pub use scoped::Scoped;
pub use term::{Part, Term};
pub use view::View;

#[cfg(test)]
mod tests;
