//! The holes of a command, and their values.
#![tactic(auto)]

mod filling;
mod slot;
mod value;

pub use filling::{fill, shallow};
pub use slot::Slot;
pub use value::{depth_of, value_for};
