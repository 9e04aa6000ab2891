// That a run of the machine has come to its end.

ghost use Rattle.std.specs.Prelude.{◌≡◌, take};
ghost use Rattle.nest_tree.specs.View.{tree_of};
ghost use Rattle.nest_model.specs.Memory.{last_memory};
ghost use Rattle.sync_plan.specs.Ordered.{IsOrdered};
ghost use Rattle.spmd_model.specs.Runs.{IsEnded};
ghost use Rattle.spmd_machine.specs.Ends.{HasRun};
ghost use Rattle.spmd_machine.specs.Views.{model_at, shared_at, tree_at};

use crate::machine::Machine;
use crate::parts::Parts;
use nest_tree::Program;
use proof_note::Note;
use seq_meaning::Output;
use spmd_model::Style;
use std::marker::Model;
use sync_plan::Plan;

/// That a program was run under a plan in a style until all processors had done all their acts;
/// with the memory that this left. None is made but of a machine at its end.
#[derive(Drop)]
pub struct Receipt {
    program: Note<Program>,
    plan: Note<Plan>,
    style: Style,
    memory: Vec<i64>,
}

impl Model for Receipt {
    ghost use Rattle.spmd_machine.specs.Ends.{End, HasRun, end_code};

    ghost Value = { End };

    ghost coded = { end_code };

    ghost view = { λ r.
        record {
          program = r.program.value;
          plan = r.plan.value;
          style = r.style;
          memory = r.memory.items;
        } };

    ghost invariant = { λ r. HasRun
        (record {
          program = r.program.value;
          plan = r.plan.value;
          style = r.style;
          memory = r.memory.items;
        }) };
}

impl Receipt {
    /// The receipt of a machine whose processors have all ended, and what they printed.
    pub fn of(machine: Machine<'_>) -> (Receipt, Output)
        requires ended { IsEnded (model_at machine) machine.state }
        ensures program { tree_of result.0.program ≡ tree_at machine.entry }
        ensures plan { result.0.plan ≡ machine.entry.plan }
        ensures style { result.0.style ≡ machine.entry.style }
        ensures memory { result.0.memory
            ≡ take (shared_at machine.entry) machine.entry.state.memory }
        ensures last { IsOrdered (tree_at machine.entry) machine.entry.plan
            → result.0.memory ≡ last_memory (tree_at machine.entry) }
        ensures run { HasRun result.0 }
        ensures output { result.1.bytes ≡ machine.entry.state.output }
    {
        let Machine { parts } = machine;
        let Parts {
            program,
            plan,
            style,
            table: _,
            codes: _,
            params: _,
            loops: _,
            code_registers: _,
            processors: _,
            memory,
            output,
        } = parts;
        let program = Note::of(program);
        let plan = Note::of(plan);
        let receipt = Receipt {
            program,
            plan,
            style,
            memory,
        };
        (receipt, output)
    }

    /// The last memory, by cells, of those that all share.
    pub fn memory(&self) -> &[i64]
        ensures memory { result.now ≡ self.now.memory }
        ensures run { HasRun self.now }
    {
        self.memory.as_slice()
    }
}
