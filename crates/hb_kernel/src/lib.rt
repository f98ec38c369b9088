//! The kernel: a theory, which is a well formed environment, and the types of terms in it.
#![tactic(auto)]

mod accept;
mod admit;
mod arguments;
mod ask;
mod compare;
mod error;
mod fault;
mod infer;
mod judge;
mod known;
mod leaf;
mod names;
mod scope;
mod size;
mod sort;
mod telescope;
mod theory;

pub use error::KernelRefused;
pub use theory::Theory;
