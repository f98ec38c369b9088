//! The grammar of sources: a relation between tokens and at most one list of sentences.
#![tactic(auto)]

mod laws;
mod mark;

pub use laws::{each_has_answer, one_reading};
pub use mark::{Mark, Second};
