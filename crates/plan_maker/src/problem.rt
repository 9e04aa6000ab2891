// A plan in front of whose phases the weakest kinds are looked for.

ghost use Rattle.std.specs.Prelude.{◌≡◌, None};
ghost use Rattle.nest_tree.specs.View.{tree_of};
ghost use Rattle.sync_plan.specs.Shape.{wrong_field};

use nest_tree::Program;
use sync_plan::Plan;

/// A program with a plan of it of a fitting shape. Nothing is looked at of its kinds.
#[derive(Clone, Copy)]
pub(crate) struct Problem<'b> {
    pub(crate) program: &'b Program,
    pub(crate) plan: &'b Plan,
    ghost shape: { wrong_field (tree_of program.now) plan.now ≡ None },
}
