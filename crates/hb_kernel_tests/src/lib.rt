//! Tests of the kernel on whole declarations.
#![tactic(auto)]

#[cfg(test)]
mod library;
#[cfg(test)]
mod refusals;
#[cfg(test)]
mod types;
#[cfg(test)]
mod want;
#[cfg(test)]
mod write;
