//! Raw terms and commands: what the grammar of sources reads, before names have a meaning.
#![tactic(auto)]

mod command;
mod raw;
mod word;

pub use command::{Command, CommandKind};
pub use raw::{Binder, Raw, RawKind};
pub use word::{Field, Item, Word};
