/// What a running worker passes on its way.
///
/// A gate promises nothing, so nothing that is proved rests on one. It may hold a worker, as a
/// test does to see that two workers run at once.
pub trait Gate {
    /// Worker `p`, counted from 0, comes to phase `e`, counted from 1. A worker calls this once
    /// for each phase, before its first instance there and also where it has none.
    fn pass(&self, p: u32, e: u64);
}

/// The gate that lets every worker pass at once.
#[derive(Clone, Copy, Debug, PartialEq, Eq)]
pub struct NoGate;

impl Gate for NoGate {
    fn pass(&self, _p: u32, _e: u64) {}
}
