// A phase of a plan.

ghost use Rattle.std.specs.Prelude.{◌≤◌};

use comm_system::phase::Phase;
use nest_tree::Program;
use sync_plan::Plan;

/// A phase of a plan of a program, with its number from 1.
#[derive(Clone, Copy)]
pub(crate) struct Site<'b, 'a> {
    pub(crate) program: &'b Program,
    pub(crate) plan: &'b Plan,
    pub(crate) number: u32,
    pub(crate) phase: &'b Phase<'a>,
    ghost some: { 1 ≤ plan.now.workers },
}
