//! The outside of Seagrynt: where its input comes from, where its output goes, and a gate that
//! its running workers pass.
//!
//! A [`Source`] gives bytes and a [`Sink`] takes them. Each counts its own faults, so that a
//! caller that reports a fault can show that one came in its own call. The memory forms tell
//! their bytes, and fail at the calls that they are told; they serve tests and programs that run
//! over memory. The standard forms stand over standard input and output and tell nothing of
//! content: they are the trusted edge. A [`Gate`] promises nothing.
#![tactic(auto)]

mod errors;
mod gates;
mod memory_sinks;
mod memory_sources;
mod sinks;
mod sources;
mod standard;

pub use errors::{Failed, NoMemory};
pub use gates::{Gate, NoGate};
pub use memory_sinks::MemSink;
pub use memory_sources::MemSource;
pub use sinks::Sink;
pub use sources::Source;
pub use standard::{StdSink, StdSource};
