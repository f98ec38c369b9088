//! What accepted commands report, and its lines.
#![tactic(auto)]

mod about;
mod event;
mod howto;
mod lines;
mod listing;
mod news;

pub use event::{Event, Had};
pub use lines::{event_count, event_text};
