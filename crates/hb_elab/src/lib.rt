//! Elaboration: the terms and types of raw terms.
#![tactic(auto)]

mod cycle;
mod definition;
mod function;
mod leaf;
mod product;
mod rules;

pub use definition::{elab, elab_definition, elab_type};
pub use hb_elab_terms::{ElabFault, ElabRefused, Local, Work};
pub use hb_world::Typed;
