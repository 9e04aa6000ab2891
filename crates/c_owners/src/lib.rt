//! Owners in emitted C, and what is written of a processor's own cells: in front of its trips of a
//! loop, and behind them.
//!
//! - [`layout`]: for whom it is written.
//! - [`places`]: places as sums.
//! - [`owners`]: the owners that anchors name.
//! - [`phases`]: phases behind their waits.
//! - [`closings`]: own cells, and who gives them to all.
#![tactic(auto)]

pub mod closings;
pub mod layout;
pub mod owners;
pub mod phases;
pub mod places;

pub use closings::{Given, Own};
pub use layout::Layout;
pub use phases::Phase;
pub use places::Spot;
