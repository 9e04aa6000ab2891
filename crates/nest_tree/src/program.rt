// A program: its statements, its named constants and its variables.

ghost use Rattle.nest_tree.specs.Limits.{IsWithinLimits};
ghost use Rattle.nest_tree.specs.Nodes.{tree_with};
ghost use Rattle.nest_tree.specs.WellFormed.{IsWellFormed};

use crate::limits::{Limit, draft_limits};
use crate::tree::{Item, Parameter, Variable};

/// A program as it was read, which may pass limits. What it holds is what a [`Program`] holds.
#[derive(Drop)]
pub struct Draft {
    pub items: Vec<Item>,
    pub params: Vec<Parameter>,
    pub variables: Vec<Variable>,
}

/// A program, well formed and within its limits: its statements, its named constants and its
/// variables, the latter two numbered from 1 as they stand here. Variables stand in the order of
/// their cells.
#[derive(Drop)]
pub struct Program {
    pub items: Vec<Item>,
    pub params: Vec<Parameter>,
    pub variables: Vec<Variable>,
    pub ghost formed: { IsWellFormed (tree_with items.items params.items variables.items) },
    pub ghost limits: { IsWithinLimits (tree_with items.items params.items variables.items) },
}

impl Draft {
    ghost use Rattle.std.specs.Prelude.{◌≡◌, IfOk};
    ghost use Rattle.std.specs.Result.{result_err};
    ghost use Rattle.nest_tree.specs.Limits.{first_limit};
    ghost use Rattle.nest_tree.specs.View.{tree_of, tree_of_draft};

    /// The program of the draft, or the first limit that it passes: of its forms in text order, the
    /// low end before the high one; then of the work; then of the cells. It takes no memory.
    pub fn limited(self) -> Result<Program, Limit>
        requires { IsWellFormed (tree_of_draft self) }
        ensures program { IfOk result (λ p. tree_of p ≡ tree_of_draft self) }
        ensures limit { result_err result ≡ first_limit (tree_of_draft self) }
    {
        draft_limits(&self)?;
        Ok(Program {
            items: self.items,
            params: self.params,
            variables: self.variables,
        })
    }
}
