// That a run by fork and join has come to its end.

ghost use Rattle.std.specs.Prelude.{◌≡◌, length};
ghost use Rattle.nest_tree.specs.View.{tree_of};
ghost use Rattle.nest_model.specs.Memory.{last_memory, output_of};
ghost use Rattle.owner_partition.specs.Phases.{phases};
ghost use Rattle.fork_join.specs.Ends.{IsLast};
ghost use Rattle.fork_join.specs.Joins.{IsSafe};
ghost use Rattle.fork_join.specs.Workers.{AreAt};

use crate::worker::{Lent, Worker};
use crossbeam_utils::CachePadded;
use nest_tree::Program;
use proof_note::Note;
use seq_meaning::Output;
use std::marker::Model;
use sync_plan::Plan;

/// That a program was run under a plan by fork and join; with the sequential program's last memory,
/// which this left. None is made but of workers that all stand behind the last phase.
#[derive(Drop)]
pub struct Receipt {
    program: Note<Program>,
    plan: Note<Plan>,
    memory: Vec<i64>,
}

impl Model for Receipt {
    ghost use Rattle.fork_join.specs.Ends.{End, IsLast, end_code};

    ghost Value = { End };

    ghost coded = { end_code };

    ghost view = { λ r.
        record { program = r.program.value; plan = r.plan.value; memory = r.memory.items } };

    ghost invariant = { λ r. IsLast
        (record { program = r.program.value; plan = r.plan.value; memory = r.memory.items }) };
}

impl Receipt {
    // The receipt of workers behind the last phase with what they left in memory, and what the first
    // of them printed.
    pub(crate) fn of(
        lent: Lent,
        mut workers: Vec<CachePadded<Worker>>,
        memory: Vec<i64>,
    ) -> (Receipt, Output)
        requires safe { IsSafe (tree_of lent.program.now) lent.plan.now }
        requires count { length workers.items ≡ lent.plan.now.workers }
        requires at { AreAt (tree_of lent.program.now) lent.plan.now
            (length (phases (tree_of lent.program.now) lent.plan.now.cut.marks)) workers.items }
        requires memory { memory.items ≡ last_memory (tree_of lent.program.now) }
        ensures program { result.0.program ≡ lent.entry.program.now }
        ensures plan { result.0.plan ≡ lent.entry.plan.now }
        ensures memory { result.0.memory ≡ memory.items }
        ensures output { result.1.bytes ≡ output_of (tree_of lent.entry.program.now) }
    {
        let output = workers.swap_remove(0).into_inner().into_output();
        let program = Note::of(lent.program);
        let plan = Note::of(lent.plan);
        let receipt = Receipt {
            program,
            plan,
            memory,
        };
        (receipt, output)
    }

    /// The last memory, by cells.
    pub fn memory(&self) -> &[i64]
        ensures memory { result.now ≡ self.now.memory }
        ensures last { IsLast self.now }
    {
        self.memory.as_slice()
    }
}
