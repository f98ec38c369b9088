//! Tests of the reader of tokens against its definitions, decided by trying all ways.
#![tactic(auto)]

#[cfg(test)]
mod spelled;
#[cfg(test)]
mod tests;
#[cfg(test)]
mod ways;
