// The accesses of a phase.

ghost use Rattle.std.specs.Prelude.{IsTrue};
ghost use Rattle.nest_rows.specs.Views.{heads_of};
ghost use Rattle.conflict_rules.specs.SmallSteps.{are_small_steps};

use nest_rows::Around;
use nest_tree::{Access, Guard};

/// What an access names.
#[derive(Clone, Copy)]
pub enum Target<'a> {
    /// A scalar or an element.
    Element(&'a Access),
    /// An array that is printed whole, by its variable.
    Whole(u32),
}

impl Target<'_> {
    ghost use Rattle.std.specs.Prelude.{◌≡◌};
    ghost use Rattle.conflict_rules.specs.References.{variable_of};
    ghost use Rattle.conflict_rules.specs.Seen.{target_seen};

    /// The variable, from 1.
    pub fn variable(&self) -> u32
        ensures { result ≡ variable_of (target_seen self.now) }
    {
        match self {
            Target::Element(access) => access.variable,
            Target::Whole(variable) => *variable,
        }
    }
}

/// An access of a phase.
#[derive(Drop)]
pub struct Reference<'a> {
    pub target: Target<'a>,
    /// Whether it stores.
    pub stores: bool,
    /// All loops round it, from the outermost.
    pub around: Vec<Around<'a>>,
    /// Its statement's comparison.
    pub guard: Option<&'a Guard>,
    /// Its statement's line, from 1.
    pub line: u32,
    ghost steps: { IsTrue (are_small_steps (heads_of around.items)) },
}
