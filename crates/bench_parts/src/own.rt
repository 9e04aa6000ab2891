// The instances of all phases, one by one.

use nest_tree::{Affine, Pairs, Program};
use owner_partition::{Anchor, Cut, Dist, PhaseCursor, own_iterations};
use std::alloc::Global;

// How many instances of the phases have the one processor as their owner, by own iterations: all.
pub(crate) fn count(alloc: Global, program: &Program, cut: &Cut) -> u64 {
    let anchor = Anchor {
        form: Affine::new(0, Pairs::new(alloc), Pairs::new(alloc)),
        dist: Dist::Cyclic,
    };
    let mut count = 0u64;
    let mut phases = PhaseCursor::new(program, cut);
    'phases: while let Some(phase) = phases.next() {
        let mut own = own_iterations(program, cut, &anchor, &phase, 0, 1);
        'own: while let Some(instance) = own.next() {
            // each is looked at: no instance has the number 0
            count = count.wrapping_add(u64::from(instance.statement.min(1)));
        }
    }
    count
}
