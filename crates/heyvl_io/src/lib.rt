//! The devices: sources of bytes to read and sinks to write to, in memory and real ones.
//!
//! `AllocError` means that memory ran out.
#![tactic(auto)]

mod failures;
mod file_sources;
mod files;
mod logs;
mod mem_sinks;
mod mem_sources;
mod order_laws;
mod reader;
mod sinks;
mod sources;
mod stdout_sinks;
mod sure_sources;
mod writer;

pub use failures::Failed;
pub use file_sources::FileSource;
pub use logs::Log;
pub use mem_sinks::MemSink;
pub use mem_sources::MemSource;
pub use order_laws::names_in_order;
pub use reader::{ReadStop, read_all};
pub use sinks::Sink;
pub use sources::Source;
pub use stdout_sinks::StdoutSink;
pub use sure_sources::SureSource;
pub use writer::{Cut, write_all};
