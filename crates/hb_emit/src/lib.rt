//! Emitters: what each accepted entry is handed to, to be written as text.
#![tactic(auto)]

mod emitter;
mod fault;
mod listed;
mod listing;
mod rocq_text;
mod send;

pub use emitter::Emitter;
pub use fault::EmitFault;
pub use listed::drop_failed;
pub use listing::Listing;
pub use rocq_text::RocqText;

#[cfg(test)]
mod tests;
