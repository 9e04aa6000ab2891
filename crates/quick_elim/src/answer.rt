// What settling a system comes to, and the work that may be spent on it.

use crate::point::Point;
use farkas_cert::Certificate;
use std::alloc::AllocError;
use thiserror::Error;

/// What was found of a system.
#[derive(Drop)]
pub enum Settled {
    /// It has no whole solution: this certificate is good for it.
    Refuted(Certificate),
    /// This is a whole solution of it.
    Solved(Point),
    /// Neither was found within the budget. It says nothing of the system.
    Unknown,
}

/// Memory ran out. It says nothing of the system.
#[derive(Clone, Copy, Debug, PartialEq, Eq, Error)]
#[error("out of memory")]
pub struct NoMemory;

impl From<AllocError> for NoMemory {
    fn from(_error: AllocError) -> NoMemory {
        NoMemory
    }
}

/// How much work may be spent on a system. Where more is needed it is Unknown.
#[derive(Clone, Copy, Debug)]
pub struct Budget {
    /// The most variables.
    pub vars: usize,
    /// The most rows that stand at once.
    pub rows: usize,
    /// The most rows that are made, and kept.
    pub made: usize,
    /// The most combinations of two rows.
    pub sums: usize,
    /// The most values that are tried in all.
    pub steps: usize,
    /// The most values that are tried for one variable at a time.
    pub values: usize,
    /// The most orders of removal that are tried one after the other, each with all of the above.
    pub orders: u32,
}

impl Default for Budget {
    /// Three times what the systems of a thousand programs needed in one order.
    fn default() -> Budget {
        Budget {
            vars: 200,
            rows: 200,
            made: 400,
            sums: 1000,
            steps: 500,
            values: 6,
            orders: 200,
        }
    }
}
