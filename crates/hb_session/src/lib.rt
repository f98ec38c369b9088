//! Sessions: names, declarations and the hierarchy, with the entries of the accepted commands.
#![tactic(auto)]

mod certificates;
mod families;
mod files;
mod formats;
mod mark;
mod operator;
mod queries;
mod read;
mod refusing;
mod replay;
mod session;
mod take;

pub use certificates::verified;
pub use files::{Files, FilesMark, Stage};
pub use mark::SessionMark;
pub use operator::stops_at_notation;
pub use refusing::at_byte;
pub use session::Session;
