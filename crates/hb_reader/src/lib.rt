//! The reader of sentences: the machine of the grammar, token by token.
#![tactic(auto)]

mod argument;
mod begin;
mod binder;
mod builders;
mod carrier;
mod closing;
mod following;
mod fork;
mod frame;
mod groups;
mod heads;
mod instance;
mod kind;
mod listing;
mod marks;
mod measure;
mod need;
mod part;
mod places;
mod queries;
mod row;
mod sign;
mod spine;
mod stack;
mod state;
mod structures;
mod term;

pub use need::Need;
pub use sign::Sign;
pub use state::State;
