//! The hierarchy of a session: its mixins, factories and structures, and what was given to each
//! carrier.
#![tactic(auto)]

mod declare;
mod ending;
mod error;
mod give;
mod given;
mod hier;
mod join;
mod known;
mod look;
mod need;
mod records;
mod sets;
mod store;
mod structure;
mod undo;

pub use error::HierRefused;
pub use hb_order::{FactoryId, MixinId, StructId};
pub use hier::Hier;
pub use known::{HierMark, Known};
