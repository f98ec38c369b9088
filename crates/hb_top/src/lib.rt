//! The top call: sources in, checked declarations and a report out.
#![tactic(auto)]

mod certificate;
mod client;
mod compile;
mod difference;
mod emitters;
mod finish;
mod last;
mod library;
mod place;
mod refactor;
mod sample;
mod save;
mod settings;
mod show;
mod source;
mod status;
mod stop;
mod tell;
mod top;

pub use hb_session::Session;
pub use hb_words::wanted_emitters;
pub use status::Status;
pub use stop::Stop;
pub use top::run;
