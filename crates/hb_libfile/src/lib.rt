//! Library files: the entries of a session as bytes, and back.
#![tactic(auto)]

mod declaration;
mod entry;
mod error;
mod head;
mod item;
mod name;
mod order;
mod put;
mod reader;
mod reading;
mod term;
mod writing;

pub use declaration::Wanted;
pub use error::LibRefused;
pub use item::Decoder;
pub use order::Order;
pub use put::{put_byte, put_count, put_number, put_short};
pub use reader::Reader;
pub use reading::decode;
pub use writing::{encode, put_decl, put_names};

#[cfg(test)]
mod tests;
