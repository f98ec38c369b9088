//! Tests of a hierarchy against the plain lists, on worked and on generated ones.
#![tactic(auto)]

#[cfg(test)]
mod algebra;
#[cfg(test)]
mod both;
#[cfg(test)]
mod generated;
#[cfg(test)]
mod limits;
#[cfg(test)]
mod ways;
#[cfg(test)]
mod worked;
