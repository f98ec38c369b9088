//! What a session knows beside its declarations: names, the hierarchy, the tables, the open section.
#![tactic(auto)]

mod done;
mod section;
mod world;

pub use done::{Done, Typed};
pub use section::Section;
pub use world::World;
