// The run.

ghost use Rattle.std.specs.Prelude.{◌≡◌, ◌<◌, suc, IfOk, length};
ghost use Rattle.nest_tree.specs.View.{tree_of};
ghost use Rattle.nest_tree.specs.Tree.{param_values};
ghost use Rattle.nest_model.specs.Memory.{first_memory, last_memory, output_of};
ghost use Rattle.nest_walk.specs.Tables.{IsCellTable};
ghost use Rattle.owner_partition.specs.Phases.{phases};
ghost use Rattle.instance_runs.specs.Rooms.{longest_output};
ghost use Rattle.crossbeam_utils.specs.Padded.{padded_value};
ghost use Rattle.fork_join.specs.Joins.{IsSafe, begun, in_front, protocol};
ghost use Rattle.fork_join.specs.Workers.{AreAt, HasWorked, HaveWorked, IsAt, plan_in, tree_in};
ghost use Rattle.nest_model.specs.Ranges.{IsInRange};
ghost use Rattle.sync_plan.specs.Fit.{IsFit};
ghost use Rattle.sync_plan.specs.Ordered.{IsOrdered};

use crate::receipt::Receipt;
use crate::worker::{Lent, Worker};
use crossbeam_utils::CachePadded;
use instance_runs::{longest_output, open_printing};
use nest_tree::Program;
use nest_walk::CellTable;
use owner_partition::PhaseCursor;
use seq_meaning::Output;
use spmd_model::{laws_in_styles, own_cells_in_styles, values_in_styles};
use spmd_ports::Gate;
use std::alloc::{AllocError, Global};
use std::thread;
use std::thread::Threads;
use sync_plan::Plan;

// The most statements that a program has, and so the most loops.
const MOST_STATEMENTS: usize = 400;

/// Runs a program under an ordered plan by fork and join, from a memory of zeros: the receipt, with
/// the last memory, and the whole output. For each phase the plan's workers are forked, each by
/// halves in a thread of its own where one can be made; each passes the gate, once for each phase,
/// before its first instance there and also where it has none. `AllocError` comes where memory runs
/// out, which all is asked for before the first fork.
pub fn run_join<R: Threads + Sync, G: Gate + Sync>(
    rt: &R,
    alloc: Global,
    program: &Program,
    plan: &Plan,
    gate: &G,
) -> Result<(Receipt, Output), AllocError>
    requires ranges { IsInRange (tree_of program.now) }
    requires fits { IsFit (tree_of program.now) plan.now }
    requires ordered { IsOrdered (tree_of program.now) plan.now }
    ensures program { IfOk result (λ end. end.0.program ≡ program.now) }
    ensures plan { IfOk result (λ end. end.0.plan ≡ plan.now) }
    ensures memory { IfOk result (λ end. end.0.memory ≡ last_memory (tree_of program.now)) }
    ensures output { IfOk result (λ end. end.1.bytes ≡ output_of (tree_of program.now)) }
{
    laws_in_styles();
    values_in_styles();
    own_cells_in_styles();
    let table = CellTable::new(alloc, program)?;
    let params = params_of(alloc, program)?;
    let lent = Lent {
        program,
        plan,
        table: &table,
        params: &params,
    };
    let mut workers = workers_of(alloc, lent)?;
    let mut memory = vec![in alloc; 0; program.cell_count() as usize]?;
    execute(rt, lent, &mut workers, &mut memory, gate);
    Ok(Receipt::of(lent, workers, memory))
}

// The values of a program's named constants.
fn params_of(alloc: Global, program: &Program) -> Result<Vec<i64>, AllocError>
    ensures { IfOk result (λ v. v.items ≡ param_values (tree_of program.now)) }
{
    let mut params = Vec::with_capacity(alloc, program.params.len())?;
    for parameter in &program.params {
        params.push(parameter.value)?;
    }
    Ok(params)
}

// The plan's workers, each in front of its first phase. The first, which prints, has room for the
// whole output.
fn workers_of<'a>(alloc: Global, lent: Lent<'a>) -> Result<Vec<CachePadded<Worker<'a>>>, AllocError>
    requires safe { IsSafe (tree_of lent.program.now) lent.plan.now }
    requires table { IsCellTable (tree_of lent.program.now) lent.table.now }
    requires params { lent.params.now ≡ param_values (tree_of lent.program.now) }
    ensures count { IfOk result (λ v. length v.items ≡ lent.entry.plan.now.workers) }
    ensures at { IfOk result
        (λ v. AreAt (tree_of lent.entry.program.now) lent.entry.plan.now 0 v.items) }
{
    let most = most_output(alloc, lent.program)?;
    let mut workers = Vec::with_capacity(alloc, lent.plan.workers as usize)?;
    for p in 0..lent.plan.workers {
        let room = if p == 0 { most } else { 0 };
        workers.push(CachePadded::new(Worker::new(alloc, lent, p, room)?))?;
    }
    Ok(workers)
}

// The greatest number of bytes that a program can print.
fn most_output(alloc: Global, program: &Program) -> Result<usize, AllocError>
    ensures { IfOk result (λ n. n ≡ longest_output (tree_of program.now)) }
{
    let mut closed = vec![in alloc; true; MOST_STATEMENTS]?;
    open_printing(&program.items, &mut closed);
    let room = longest_output(program, &closed).ok_or(AllocError)?;
    Ok(room)
}

// All phases, one behind another.
fn execute<R: Threads + Sync, G: Gate + Sync>(
    rt: &R,
    lent: Lent,
    workers: &mut [CachePadded<Worker>],
    memory: &mut [i64],
    gate: &G,
)
    requires safe { IsSafe (tree_of lent.program.now) lent.plan.now }
    requires count { length workers.old ≡ lent.plan.now.workers }
    requires at { AreAt (tree_of lent.program.now) lent.plan.now 0 workers.old }
    requires memory { memory.old ≡ first_memory (tree_of lent.program.now) }
    ensures count { length workers.new ≡ length workers.old }
    ensures at { AreAt (tree_of lent.entry.program.now) lent.entry.plan.now
        (length (phases (tree_of lent.entry.program.now) lent.entry.plan.now.cut.marks))
        workers.new }
    ensures memory { memory.new ≡ last_memory (tree_of lent.entry.program.now) }
{
    let mut left = PhaseCursor::new(lent.program, &lent.plan.cut);
    let mut behind = 0;
    while let Some(phase) = left.next() {
        fork(rt, lent, workers, memory, behind, gate);
        lay_in(lent, workers, memory, behind);
        behind = phase.number;
    }
}

// The phase behind so many: each worker its part.
fn fork<R: Threads + Sync, G: Gate + Sync>(
    rt: &R,
    lent: Lent,
    workers: &mut [CachePadded<Worker>],
    memory: &[i64],
    behind: u64,
    gate: &G,
)
    requires safe { IsSafe (tree_of lent.program.now) lent.plan.now }
    requires some { behind < length (phases (tree_of lent.program.now) lent.plan.now.cut.marks) }
    requires count { length workers.old ≡ lent.plan.now.workers }
    requires at { AreAt (tree_of lent.program.now) lent.plan.now behind workers.old }
    requires lawful { ∥ (protocol (tree_of lent.program.now) lent.plan.now).lawful memory.now
        (begun (tree_of lent.program.now) lent.plan.now behind) ∥₁ }
    ensures count { length workers.new ≡ length workers.old }
    ensures worked { HaveWorked
        (tree_of lent.entry.program.now) lent.entry.plan.now behind workers.new }
{
    let count = workers.len();
    thread::for_each_mut(
        rt,
        workers,
        count,
        &|p: usize, worker: &mut CachePadded<Worker>|
            requires safe { IsSafe (tree_in worker.now) (plan_in worker.now) }
            requires some { behind < length
                (phases (tree_in worker.now) (plan_in worker.now).cut.marks) }
            requires below { p < (plan_in worker.now).workers }
            requires at { IsAt (tree_in worker.now) (plan_in worker.now) behind p
                (padded_value worker.now) }
            requires lawful { ∥
                (protocol (tree_in worker.now) (plan_in worker.now)).lawful memory.now
                (begun (tree_in worker.now) (plan_in worker.now) behind) ∥₁ }
            ensures { HasWorked (tree_in worker.entry.now) (plan_in worker.entry.now) behind p
                (padded_value worker.exit.now) }
        { worker.phase(behind, memory, gate) },
    );
}

// The workers' stores of the phase behind so many into memory, and what their own cells hold, worker
// by worker.
fn lay_in(lent: Lent, workers: &mut [CachePadded<Worker>], memory: &mut [i64], behind: u64)
    requires safe { IsSafe (tree_of lent.program.now) lent.plan.now }
    requires count { length workers.old ≡ lent.plan.now.workers }
    requires worked { HaveWorked (tree_of lent.program.now) lent.plan.now behind workers.old }
    requires lawful { ∥ (protocol (tree_of lent.program.now) lent.plan.now).lawful memory.old
        (begun (tree_of lent.program.now) lent.plan.now behind) ∥₁ }
    ensures count { length workers.new ≡ length workers.old }
    ensures at { AreAt (tree_of lent.entry.program.now) lent.entry.plan.now
        (suc behind) workers.new }
    ensures lawful { ∥
        (protocol (tree_of lent.entry.program.now) lent.entry.plan.now).lawful memory.new
        (in_front (tree_of lent.entry.program.now) lent.entry.plan.now (suc behind)) ∥₁ }
{
    for p in 0..workers.len() {
        workers[p].lay_in(behind, memory);
    }
}
