//! The arithmetic of certificates: what decides about the numbers of a certificate's rows.
//!
//! - [`narrow`]: what keeps numbers at most 2 ^ 126 in size.
//! - [`terms`]: whether terms name rows that stand and have multipliers of at least 0, and a sum
//!   with one product more.
//! - [`divisors`]: the greatest common divisor.
//! - [`division`]: division by a common divisor, and with rounding.
//! - [`counting`]: units of work, counted.
#![tactic(auto)]

pub mod counting;
pub mod division;
pub mod divisors;
pub mod narrow;
pub mod terms;

pub use counting::Steps;
