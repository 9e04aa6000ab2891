// Where the anchor of a static phase is looked for.

ghost use Rattle.std.specs.Prelude.{◌≡◌};
ghost use Rattle.sync_plan.specs.Shape.{is_good_anchor};

use nest_tree::Program;
use owner_partition::{Anchor, StaticPhase};
use plan_shape::is_good_anchor;

// A static phase of a program: the Outer loops round it, and the loop that is dealt where it is a
// Doall loop.
#[derive(Clone, Copy)]
pub(crate) struct Scope<'b, 'a> {
    pub(crate) program: &'b Program,
    pub(crate) phase: &'b StaticPhase<'a>,
    pub(crate) own: Option<u32>,
    pub(crate) workers: u32,
}

// What of an assignment is sought: the element that it stores, or the first that it loads whose
// anchor names the loop with this number.
#[derive(Clone, Copy)]
pub(crate) enum Sought {
    Stored,
    Loaded(u32),
}

impl Scope<'_, '_> {
    ghost use Rattle.maker_anchors.specs.Scopes.{constants_at, loops_at};

    /// Whether an anchor names only what the phase's may, and has a block of a length.
    pub(crate) fn is_good_anchor(&self, anchor: &Anchor) -> bool
        ensures { result ≡ is_good_anchor (constants_at self.now) (loops_at self.now) anchor.now }
    {
        is_good_anchor(self.program.params.len(), self.phase, self.own, anchor)
    }
}
