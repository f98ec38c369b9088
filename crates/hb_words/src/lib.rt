//! The words of the command line, and the job that they ask for.
#![tactic(auto)]

mod commands;
mod files;
mod job;
mod jobs;
mod numbers;
mod read;
mod row;

pub use job::Job;
pub use read::{read_words, wanted_emitters};
