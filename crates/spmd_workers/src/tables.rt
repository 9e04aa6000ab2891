// What all workers of a program look up.

ghost use Rattle.std.specs.Prelude.{◌≡◌, IfOk, Some};
ghost use Rattle.nest_tree.specs.View.{tree_of};
ghost use Rattle.nest_model.specs.Ranges.{IsInRange};
ghost use Rattle.sync_plan.specs.Fit.{IsFit};

use crate::patience::Round;
use instance_runs::{longest_output, open_printing};
use nest_tree::Program;
use nest_walk::CellTable;
use spmd_model::Style;
use std::alloc::{AllocError, Global};
use std::marker::Model;
use sync_plan::Plan;

// The most statements that a program has, and so the most loops.
const MOST_STATEMENTS: usize = 400;

/// What all workers of a program under a plan look up: how its barriers are passed, the cells of the
/// program's accesses, the values of its named constants, how long its output can be, and what the legs
/// of a round see of one another.
#[derive(Drop)]
pub struct Tables<'a> {
    pub(crate) program: &'a Program,
    pub(crate) plan: &'a Plan,
    pub(crate) style: Style,
    pub(crate) cells: CellTable,
    pub(crate) params: Vec<i64>,
    pub(crate) room: usize,
    pub(crate) round: Round,
}

impl<'a> Model for Tables<'a> {
    ghost use Rattle.std.specs.Prelude.{Option, Some};
    ghost use Rattle.nest_tree.specs.View.{tree_of};
    ghost use Rattle.shared_words.specs.Codes.{given_code};
    ghost use Rattle.shared_words.specs.Homes.{Subject};
    ghost use Rattle.spmd_workers.specs.Tables.{AreTables};

    ghost Value = { Option Subject };

    ghost coded = { given_code };

    ghost view = { λ t. Some (t.program.now, (t.plan.now, t.style)) };

    ghost invariant = { λ t. AreTables
        (tree_of t.program.now) t.plan.now t.cells t.params.items t.room };
}

impl<'a> Tables<'a> {
    /// The tables of a program under a plan whose barriers are passed in a style.
    pub fn new(
        alloc: Global,
        program: &'a Program,
        plan: &'a Plan,
        style: Style,
    ) -> Result<Self, AllocError>
        requires ranges { IsInRange (tree_of program.now) }
        requires fits { IsFit (tree_of program.now) plan.now }
        ensures given { IfOk result (λ t. t ≡ Some (program.now, (plan.now, style))) }
    {
        let cells = CellTable::new(alloc, program)?;
        let mut params = Vec::with_capacity(alloc, program.params.len())?;
        for parameter in &program.params {
            params.push(parameter.value)?;
        }
        let mut closed = vec![in alloc; true; MOST_STATEMENTS]?;
        open_printing(&program.items, &mut closed);
        let room = longest_output(program, &closed).ok_or(AllocError)?;
        Ok(Tables {
            program,
            plan,
            style,
            cells,
            params,
            room,
            round: Round::new(),
        })
    }
}
