//! The keys of carriers, and the first one that has a set.
#![tactic(auto)]

mod asking;
mod ends;
mod frames;
mod key;
mod looking;
mod needs;
mod reads;
mod spine;
mod terms;
mod walking;

pub use ends::{End, Stop};
pub use key::{Key, value_at};
pub use reads::Reads;
pub use walking::walk;
