// How a barrier is passed.

/// How processors pass a barrier.
#[derive(Clone, Copy, Debug, PartialEq, Eq)]
pub enum Style {
    /// Each awaits the counters of all others, so that their arrivals can be gathered.
    Arrive,
    /// In rounds: in each one a processor sets its signal, and awaits that of the processor that
    /// stands a power of two before it.
    Dissemination,
}
