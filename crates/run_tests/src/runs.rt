// Accepted plans run on threads of the caller's: what they print and leave, and where legs end.

ghost use Rattle.std.specs.Prelude.{◌≡◌, ◌≤◌, ◌<◌, IfOk, length};
ghost use Rattle.nest_model.specs.Ranges.{IsInRange};
ghost use Rattle.nest_tree.specs.View.{tree_of};
ghost use Rattle.sync_plan.specs.Fit.{IsFit};
ghost use Rattle.sync_plan.specs.Ordered.{IsOrdered};
ghost use Rattle.crossbeam_utils.specs.Padded.{padded_value};
ghost use Rattle.shared_words.specs.Calls.{AreAllEnded};
ghost use Rattle.spmd_workers.specs.Teams.{AreWorkersOf};

use crate::plans::{MIRROR, ROUNDING};
use bstr::ByteSlice;
use crossbeam_utils::CachePadded;
use f77_lines::MOST_BYTES;
use nest_tree::Program;
use plan_checker::check;
use plan_checker::laws::accepted_plans_are_ordered;
use plan_input::{read_fitting, read_source};
use range_check::check_ranges;
use shared_words::{Cells, CloseRefused, Closed, MainSeat};
use spmd_model::Style;
use spmd_ports::NoGate;
use spmd_workers::run::{gathered, have_ended, workers_of};
use spmd_workers::{Leg, Tables, Worker};
use std::alloc::Global;
use std::test::Fail;
use std::thread::{self, Threads};
use sync_plan::Plan;

// So many legs a worker has.
const MOST_LEGS: u32 = 10_000_000;

// The cells of the two arrays, one behind the other, of which one is the other back to front.
const MIRRORED_CELLS: &[i64] = &[1, 2, 3, 4, 5, 6, 6, 5, 4, 3, 2, 1];

// The program of a source, whose subscripts are in range, and the plan behind it, which is accepted.
pub(crate) fn case_of<R: Threads + Sync>(
    rt: &R,
    alloc: Global,
    bytes: &[u8],
) -> Result<(Program, Plan), Fail>
    ensures ranges { IfOk result (λ r. IsInRange (tree_of r.0)) }
    ensures fits { IfOk result (λ r. IsFit (tree_of r.0) r.1) }
    ensures ordered { IfOk result (λ r. IsOrdered (tree_of r.0) r.1) }
{
    if bytes.len() > MOST_BYTES {
        return Err(Fail::new("the text is too long"));
    }
    let Ok((program, rest)) = read_source(alloc, bytes) else {
        return Err(Fail::new("no program is read"));
    };
    if check_ranges(alloc, &program).is_err() {
        return Err(Fail::new("a subscript is out of range"));
    }
    let plan = accepted(rt, alloc, &program, &bytes[rest..])?;
    Ok((program, plan))
}

// The plan whose text the bytes are, which is accepted and so is ordered.
fn accepted<R: Threads + Sync>(
    rt: &R,
    alloc: Global,
    program: &Program,
    bytes: &[u8],
) -> Result<Plan, Fail>
    requires ranges { IsInRange (tree_of program.now) }
    requires short { length bytes.now ≤ MOST_BYTES }
    ensures fits { IfOk result (IsFit (tree_of program.now)) }
    ensures ordered { IfOk result (IsOrdered (tree_of program.now)) }
{
    let Ok(plan) = read_fitting(alloc, program, bytes) else {
        return Err(Fail::new("no plan is read that fits"));
    };
    let Ok(()) = check(rt, alloc, program, &plan) else {
        return Err(Fail::new("the plan is refused"));
    };
    accepted_plans_are_ordered();
    Ok(plan)
}

// What a run leaves: its memory and what it prints.
pub(crate) type Left = (Vec<i64>, Vec<u8>);

// The legs of a worker, until it has ended.
fn to_the_end(cells: &Cells<'_>, worker: &mut Worker<'_>)
    requires own { worker.old.seat.home ≡ cells.now }
    ensures home { worker.new.seat.home ≡ worker.old.seat.home }
    ensures processor { worker.new.seat.processor ≡ worker.old.seat.processor }
{
    for _ in 0..MOST_LEGS {
        if worker.leg(cells, &NoGate) == Leg::Ended {
            return;
        }
    }
}

// Each worker to its end, in a thread of its own.
fn all_to_the_end<R: Threads + Sync>(
    rt: &R,
    cells: &Cells<'_>,
    workers: &mut [CachePadded<Worker<'_>>],
)
    requires workers { AreWorkersOf cells.now workers.old }
    ensures workers { AreWorkersOf cells.now workers.new }
{
    let count = workers.len();
    if count == 0 {
        return;
    }
    thread::for_each_mut(
        rt,
        workers,
        count,
        &|_: usize, worker: &mut CachePadded<Worker>|
            requires own { (padded_value worker.now).seat.home ≡ cells.now }
            ensures home { (padded_value worker.exit.now).seat.home
                ≡ (padded_value worker.entry.now).seat.home }
            ensures processor { (padded_value worker.exit.now).seat.processor
                ≡ (padded_value worker.entry.now).seat.processor }
        { to_the_end(cells, worker) },
    );
}

// The table closed; where memory is refused, what comes back is closed.
fn closed_at_last(alloc: Global, cells: Cells<'_>, main: MainSeat) -> Result<Closed, Fail>
    requires own { main.home ≡ cells }
    requires ended { AreAllEnded main }
{
    match cells.close(alloc, main) {
        Ok(closed) => Ok(closed),
        Err(CloseRefused { cells, seat }) => match cells.close(alloc, seat) {
            Ok(closed) => Ok(closed),
            Err(_) => Err(Fail::new("the table is not closed")),
        },
    }
}

// What workers on threads of the caller's leave, each of which goes to its end.
fn left_by_own<R: Threads + Sync>(
    rt: &R,
    alloc: Global,
    program: &Program,
    plan: &Plan,
) -> Result<Left, Fail>
    requires ranges { IsInRange (tree_of program.now) }
    requires fits { IsFit (tree_of program.now) plan.now }
    requires ordered { IsOrdered (tree_of program.now) plan.now }
{
    let tables = Tables::new(alloc, program, plan, Style::Arrive)?;
    let (cells, mut main) = Cells::new(alloc, program, plan)?;
    let mut workers = workers_of(alloc, &tables, &cells, &mut main)?;
    all_to_the_end(rt, &cells, &mut workers);
    if !have_ended(&workers) {
        return Err(Fail::new("a worker has not ended"));
    }
    let output = gathered(&cells, &mut main, workers);
    let closed = closed_at_last(alloc, cells, main)?;
    Ok((
        closed.memory().to_vec(alloc)?,
        output.as_slice().to_vec(alloc)?,
    ))
}

// Three workers.
#[test]
fn workers_may_be_ones_own(rt: HostRuntime) -> Result<(), Fail> {
    let alloc = rt.alloc();
    let (program, plan) = case_of(&rt, alloc, MIRROR)?;
    let (memory, output) = left_by_own(&rt, alloc, &program, &plan)?;
    assert_eq!(rt; output.as_slice(), b" 6\n".as_slice());
    assert_eq!(rt; memory.as_slice(), MIRRORED_CELLS);
    Ok(())
}

// A leg of one of the workers.
fn leg_of(cells: &Cells<'_>, workers: &mut [CachePadded<Worker<'_>>], p: usize) -> Leg
    requires workers { AreWorkersOf cells.now workers.old }
    requires inside { p < length workers.old }
    ensures workers { AreWorkersOf cells.now workers.new }
{
    workers[p].leg(cells, &NoGate)
}

// Legs of the workers of a plan, one leg after the other on one thread, end so.
fn legs_are(
    alloc: Global,
    program: &Program,
    plan: &Plan,
    rows: &[(usize, Leg)],
) -> Result<(), Fail>
    requires ranges { IsInRange (tree_of program.now) }
    requires fits { IsFit (tree_of program.now) plan.now }
    requires ordered { IsOrdered (tree_of program.now) plan.now }
{
    let tables = Tables::new(alloc, program, plan, Style::Arrive)?;
    let (cells, mut main) = Cells::new(alloc, program, plan)?;
    let mut workers = workers_of(alloc, &tables, &cells, &mut main)?;
    legs_end_so(&cells, &mut workers, rows)
}

fn legs_end_so(
    cells: &Cells<'_>,
    workers: &mut [CachePadded<Worker<'_>>],
    rows: &[(usize, Leg)],
) -> Result<(), Fail>
    requires workers { AreWorkersOf cells.now workers.old }
{
    for &(p, wanted) in rows {
        if p >= workers.len() {
            return Err(Fail::new("there are too few workers"));
        }
        if leg_of(cells, workers, p) != wanted {
            return Err(Fail::new("a leg ends otherwise"));
        }
    }
    Ok(())
}

// Two workers: two barriers and a join.
#[test]
fn legs_end_at_joins(rt: HostRuntime) -> Result<(), Fail> {
    let alloc = rt.alloc();
    let text = ROUNDING.replacen(alloc, b"3 BARRIER", b"3 JOIN", 1)?;
    let (program, plan) = case_of(&rt, alloc, text.as_slice())?;
    let waits = |wanted, seen| Leg::Waiting {
        on: 2,
        wanted,
        seen,
    };
    let rows = [
        (0, waits(2, 1)),
        (1, waits(4, 3)),
        (0, Leg::Joined(3)),
        (1, Leg::Joined(3)),
        (0, Leg::Ended),
        (1, Leg::Ended),
    ];
    legs_are(alloc, &program, &plan, &rows)
}
