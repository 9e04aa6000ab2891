// Where an access stands.

ghost use Rattle.std.specs.Prelude.{IsTrue};
ghost use Rattle.nest_rows.specs.Views.{heads_of};
ghost use Rattle.conflict_rules.specs.SmallSteps.{are_small_steps};

use nest_rows::Around;
use nest_tree::Guard;

// The loops round an access, its statement's comparison and line.
#[derive(Clone, Copy)]
pub(crate) struct Place<'b, 'a> {
    pub(crate) around: &'b [Around<'a>],
    pub(crate) guard: Option<&'a Guard>,
    pub(crate) line: u32,
    ghost steps: { IsTrue (are_small_steps (heads_of around.now)) },
}
