//! The lines of the report.
#![tactic(auto)]

mod cut;
mod lines;
mod refusals;
mod values;

pub use lines::{event_line, list_line, refused_line};
pub use refusals::{Value, values as refused_values};
pub use values::{count_word, name_text};

#[cfg(test)]
mod tests;
