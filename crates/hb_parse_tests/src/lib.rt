//! Tests of the grammar on the tokens of whole files.
#![tactic(auto)]

#[cfg(test)]
mod answer;
#[cfg(test)]
mod cuts;
#[cfg(test)]
mod forms;
#[cfg(test)]
mod places;
