// What is counted: a program with a plan, a phase of it, and two phases.

use comm_system::level::Level;
use nest_tree::Program;
use owner_partition::StaticPhase;
use sync_plan::Plan;

// A program with a plan.
#[derive(Clone, Copy)]
pub(crate) struct Scene<'x> {
    pub(crate) program: &'x Program,
    pub(crate) plan: &'x Plan,
}

// A static phase, by its number.
#[derive(Clone, Copy)]
pub(crate) struct Second<'x, 'a> {
    pub(crate) scene: Scene<'x>,
    pub(crate) t: u32,
    pub(crate) phase: &'x StaticPhase<'a>,
}

// A first phase with a second one.
#[derive(Clone, Copy)]
pub(crate) struct Both<'x, 'a> {
    pub(crate) second: Second<'x, 'a>,
    pub(crate) s: u32,
    pub(crate) first: &'x StaticPhase<'a>,
}

impl<'x, 'a> Both<'x, 'a> {
    ghost use Rattle.std.specs.Prelude.{◌≡◌};
    ghost use Rattle.comm_system.specs.SlotViews.{level_seen};
    ghost use Rattle.obligation_numbers.specs.SlotViews.{slot_at};

    // The two at a level.
    pub(crate) fn at(&self, level: usize) -> Level<'x, 'a>
        ensures { level_seen result ≡ slot_at self.now level }
    {
        Level {
            s: self.s,
            first: self.first,
            t: self.second.t,
            second: self.second.phase,
            level,
        }
    }
}
