//! The outside of a run: where files are read and saved, and where the report goes.
#![tactic(auto)]

mod calls;
mod depot;
mod faults;
mod file_depot;
mod file_sink;
mod memory_depot;
mod memory_sink;
mod out_sink;
mod sink;
mod whole;

pub use depot::Depot;
pub use faults::{DepotFault, SinkFault};
pub use file_depot::FileDepot;
pub use file_sink::FileSink;
pub use memory_depot::MemoryDepot;
pub use memory_sink::MemorySink;
pub use out_sink::OutSink;
pub use sink::{Sink, write_all};
pub use whole::{Whole, read_whole};

#[cfg(test)]
mod tests;
