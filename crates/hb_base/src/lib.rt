//! Places in files, limits, counts and numbered names: what every crate speaks of.
#![tactic(auto)]

mod count;
mod limits;
mod name_id;
mod names;
mod span;

pub use count::Count;
pub use limits::Limits;
pub use name_id::NameId;
pub use names::{MOST_NAMES, Names, NamesRefused};
pub use span::Span;

#[cfg(test)]
mod tests;
