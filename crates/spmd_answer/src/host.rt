// What a run is given by its caller.

use std::alloc::Global;

/// What a run is given by its caller: the threads that its workers go on, memory, and the gate that
/// each of them passes once in each phase.
#[derive(Drop)]
pub struct Host<'a, R, G> {
    /// Starts threads, and waits for them.
    pub rt: &'a R,
    /// Where memory comes from.
    pub alloc: Global,
    /// What each worker passes once in each phase.
    pub gate: &'a G,
}
