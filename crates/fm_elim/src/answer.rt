// What elimination answers.

use farkas_cert::{Certificate, Row};
use std::alloc::AllocError;
use thiserror::Error;

/// What elimination says of a system.
#[derive(Drop)]
pub enum Answer {
    /// The system has no whole solution: this certificate is good for it.
    Infeasible(Certificate),
    /// No level keeps a contradiction. The system has a rational solution, and may have a whole one.
    Open,
    /// At this level, from 1, the least combination of these two rows of the level before it has
    /// a product or a sum past 2 ^ 126 in size.
    Wide { level: u32, upper: Row, lower: Row },
    /// This level, from 1, has so many rows or more. It is the first count past the limit.
    Many { level: u32, count: u64 },
    /// The levels up to this one, from 1, are formed of so many pairs of rows in all. It is the first
    /// sum past the limit.
    Work { level: u32, pairs: u128 },
}

/// Memory ran out. It says nothing of the system.
#[derive(Clone, Copy, Debug, PartialEq, Eq, Error)]
#[error("out of memory")]
pub struct NoMemory;

impl From<AllocError> for NoMemory {
    fn from(_error: AllocError) -> NoMemory {
        NoMemory
    }
}
