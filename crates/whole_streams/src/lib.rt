//! Whole streams: a source is read to its end, and a whole text is written to a sink.
//!
//! [`read_all`] gives all bytes of a source, at most [`MOST_BYTES`], and [`write_all`] writes a whole
//! text. Each says what it took or wrote where it fails, and that a fault came in its own call.
#![tactic(auto)]

mod reading;
mod writing;

pub use f77_lines::MOST_BYTES;
pub use reading::{ReadTrouble, read_all};
pub use writing::write_all;
