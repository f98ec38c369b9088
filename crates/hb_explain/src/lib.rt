//! The diagnosis of a refusal, for a person's eye.
#![tactic(auto)]

mod behind;
mod diagnosis;
mod differ;
mod joins;
mod paint;
mod place;
mod sentences;
mod setting;
mod told;
mod ways;

pub use diagnosis::explain;
pub use setting::Setting;
