//! Certificates: for each declaration the lines of a derivation by strict typing, written and checked.
#![tactic(auto)]

mod certifying;
mod chain;
mod ends;
mod fault;
mod index;
mod lines;
mod recipe;
mod refused;
mod verifying;

pub use certifying::{Certificate, certify};
pub use fault::CertifyRefused;
pub use hb_strict::Link;
pub use refused::VerifyRefused;
pub use verifying::{Verified, verify};

#[cfg(test)]
mod tests;
