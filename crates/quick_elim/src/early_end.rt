// Why the removal of variables stops.

use std::alloc::{AllocError, AllocFailed};

/// Why the removal of variables stops before its end.
#[derive(Clone, Copy)]
pub(crate) enum EarlyEnd {
    /// The row of this number is a contradiction.
    Contradiction(usize),
    /// The budget or 64 bits don't do.
    GivenUp,
    /// Memory ran out.
    NoMemory,
}

impl From<AllocError> for EarlyEnd {
    fn from(_error: AllocError) -> EarlyEnd {
        EarlyEnd::NoMemory
    }
}

impl<T: Drop> From<AllocFailed<T>> for EarlyEnd {
    fn from(_failed: AllocFailed<T>) -> EarlyEnd {
        EarlyEnd::NoMemory
    }
}
