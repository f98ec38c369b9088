//! What the rules of elaboration share: names, faults, the holes of a command, and what rules ask of types.
#![tactic(auto)]

mod ask;
mod carried;
mod conforming;
mod desk;
mod equating;
mod fault;
mod found;
mod local;
mod names;
mod scene;
mod sorting;
mod terms;

pub use ask::{head, product_parts, record_params, size_fault};
pub use carried::carried_terms;
pub use conforming::conform;
pub use desk::{Desk, Work};
pub use equating::equate;
pub use fault::{ElabFault, ElabRefused, at};
pub use found::find_key;
pub use local::Local;
pub use names::{brings, constant_of, name_of, operation_at, projected};
pub use scene::Scene;
pub use sorting::{TypeOf, sorted};
pub use terms::{apply_terms, scoped, type_after};
