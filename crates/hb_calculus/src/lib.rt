//! The calculus as definitions over plain trees: declarations, steps, conversion, typing, reduction
//! sequences, inferred types. Its functions have no body: their contracts are laws of the definitions.
#![tactic(auto)]

mod environment_laws;
mod examples;
mod moved_laws;
mod step_laws;
mod typing_laws;

pub use environment_laws::{longer_environment_laws, well_formed_laws};
pub use examples::{example_sequences, example_terms};
pub use moved_laws::conversion_moves;
pub use step_laws::{form_laws, rule_laws, sequence_laws};
pub use typing_laws::{inferred_type_laws, typed_term_laws};
