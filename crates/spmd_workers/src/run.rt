// All workers of a plan, on threads.

ghost use Rattle.std.specs.Prelude.{◌≡◌, ◌≤◌, false, true, IfOk, OnOk, Some, length};
ghost use Rattle.nest_tree.specs.View.{tree_of};
ghost use Rattle.nest_model.specs.Memory.{output_of};
ghost use Rattle.nest_model.specs.Ranges.{IsInRange};
ghost use Rattle.sync_plan.specs.Fit.{IsFit};
ghost use Rattle.sync_plan.specs.Ordered.{IsOrdered};
ghost use Rattle.spmd_model.specs.declared.style.Style.TheVariants.{Arrive};
ghost use Rattle.crossbeam_utils.specs.Padded.{padded_value};
ghost use Rattle.shared_words.specs.Calls.{AreAllEnded, main_seat};
ghost use Rattle.shared_words.specs.Ends.{HasEnded, IsLast};
ghost use Rattle.shared_words.specs.Homes.{IsSameTable, protocol_at};
ghost use Rattle.spmd_workers.specs.Teams.{AreInside, AreOut, AreOver, AreSeatedIn, AreWorkersOf, HasTold, IsGoing, WentAll, WentOn};
ghost use Rattle.spmd_workers.specs.Workers.{IsInside};

use crate::laws::laws_of;
use crate::tables::Tables;
use crate::worker::Worker;
use crossbeam_utils::CachePadded;
use nest_tree::Program;
use seq_meaning::Output;
use shared_words::{Cells, Closed, MainSeat, rounds_leave_less};
use spmd_model::Style;
use spmd_ports::Gate;
use std::alloc::{AllocError, Global};
use std::thread;
use std::thread::Threads;
use sync_plan::Plan;

/// Runs a program under a plan whose barriers are passed by arrivals: the same as
/// [`run_spmd_with`] in that style.
pub fn run_spmd<R: Threads + Sync, G: Gate + Sync>(
    rt: &R,
    alloc: Global,
    program: &Program,
    plan: &Plan,
    gate: &G,
) -> Result<(Closed, Output), AllocError>
    requires ranges { IsInRange (tree_of program.now) }
    requires fits { IsFit (tree_of program.now) plan.now }
    requires ordered { IsOrdered (tree_of program.now) plan.now }
    ensures given { IfOk result (λ r. r.0.given ≡ Some (program.now, (plan.now, Arrive))) }
    ensures ended { IfOk result (λ r. HasEnded r.0) }
    ensures last { IfOk result (λ r. IsLast r.0) }
    ensures output { IfOk result (λ r. r.1.bytes ≡ output_of (tree_of program.now)) }
{
    run_spmd_with(rt, alloc, program, plan, gate, Style::Arrive)
}

/// Runs a program under a plan, each processor by a worker of its own, over words that all share,
/// and cells of its own for own scalars, with the plan's barriers passed in a style: the table at
/// its end, which has the sequential program's last memory, and its output. The workers are forked
/// by halves and joined, in rounds of one leg each, until all have ended: in each round one makes an
/// act or ends, so there are at most as many as acts and workers.
pub fn run_spmd_with<R: Threads + Sync, G: Gate + Sync>(
    rt: &R,
    alloc: Global,
    program: &Program,
    plan: &Plan,
    gate: &G,
    style: Style,
) -> Result<(Closed, Output), AllocError>
    requires ranges { IsInRange (tree_of program.now) }
    requires fits { IsFit (tree_of program.now) plan.now }
    requires ordered { IsOrdered (tree_of program.now) plan.now }
    ensures given { IfOk result (λ r. r.0.given ≡ Some (program.now, (plan.now, style))) }
    ensures ended { IfOk result (λ r. HasEnded r.0) }
    ensures last { IfOk result (λ r. IsLast r.0) }
    ensures output { IfOk result (λ r. r.1.bytes ≡ output_of (tree_of program.now)) }
{
    let tables = Tables::new(alloc, program, plan, style)?;
    let (mut cells, mut main) = Cells::new_with(alloc, program, plan, style)?;
    let mut workers = workers_of(alloc, &tables, &cells, &mut main)?;
    while !have_ended(&workers) {
        laws_of(&cells);
        rounds_leave_less();
        tell(&cells, &mut main, &mut workers);
        tell(&cells, &mut main, &mut workers);
        cells.renew(&main);
        tables.round.begin(going(&workers));
        round(rt, &cells, &mut workers, gate);
    }
    let output = gathered(&cells, &mut main, workers);
    match cells.close(alloc, main) {
        Ok(closed) => Ok((closed, output)),
        Err(_) => Err(AllocError),
    }
}

/// A worker for each processor, in order, none of which has done anything.
pub fn workers_of<'a>(
    alloc: Global,
    tables: &'a Tables<'a>,
    cells: &Cells<'_>,
    main: &mut MainSeat,
) -> Result<Vec<CachePadded<Worker<'a>>>, AllocError>
    requires given { cells.now.given ≡ tables.now }
    requires main { main.old ≡ main_seat cells.now }
    ensures workers { IfOk result (λ v. AreWorkersOf cells.now v.items) }
    ensures out { OnOk result (AreOut main.new) }
    ensures home { main.new.home ≡ main.old.home }
{
    let mut workers = Vec::with_capacity(alloc, tables.plan.workers as usize)?;
    for p in 0..tables.plan.workers {
        let seat = cells.seat_for(main, p);
        let Ok(worker) = Worker::new(alloc, tables, cells, seat) else {
            return Err(AllocError);
        };
        workers.push(CachePadded::new(worker))?;
    }
    Ok(workers)
}

// The main seat learns where each worker is, and tells it the places that it knows: all of them, the
// second time.
fn tell(cells: &Cells<'_>, main: &mut MainSeat, workers: &mut Vec<CachePadded<Worker<'_>>>)
    requires home { IsSameTable main.old.home cells.now }
    requires workers { AreSeatedIn main.old.home workers.old.items }
    requires long { length workers.old.items ≤ length main.old.home.known }
    ensures { HasTold main.old main.new workers.old.items workers.new.items
        (length workers.old.items) }
{
    for p in 0..workers.len() {
        workers[p].note(cells, main);
    }
}

// A leg of each worker that hasn't ended, side by side.
fn round<R: Threads + Sync, G: Gate + Sync>(
    rt: &R,
    cells: &Cells<'_>,
    workers: &mut [CachePadded<Worker<'_>>],
    gate: &G,
)
    requires workers { AreWorkersOf cells.now workers.old }
    requires inside { AreInside workers.old }
    ensures workers { AreWorkersOf cells.now workers.new }
    ensures inside { AreInside workers.new }
    ensures went { WentAll workers.old workers.new }
{
    let count = workers.len();
    if count == 0 {
        return;
    }
    thread::for_each_mut(
        rt,
        workers,
        count,
        &|_: usize, worker: &mut CachePadded<Worker>|
            requires own { (padded_value worker.now).seat.home ≡ cells.now }
            requires inside { IsInside (padded_value worker.now).seat }
            ensures home { (padded_value worker.exit.now).seat.home
                ≡ (padded_value worker.entry.now).seat.home }
            ensures processor { (padded_value worker.exit.now).seat.processor
                ≡ (padded_value worker.entry.now).seat.processor }
            ensures inside { IsInside (padded_value worker.exit.now).seat }
            ensures went { WentOn (padded_value worker.entry.now) (padded_value worker.exit.now) }
        {
            if !worker.has_ended() {
                worker.leg(cells, gate);
            }
        },
    );
}

/// Whether all workers have ended.
pub fn have_ended(workers: &[CachePadded<Worker<'_>>]) -> bool
    ensures over { result ≡ true → AreOver workers.now }
    ensures going { result ≡ false → IsGoing workers.now }
{
    for worker in workers {
        if !worker.has_ended() {
            return false;
        }
    }
    true
}

// How many workers haven't ended.
fn going(workers: &[CachePadded<Worker<'_>>]) -> u64 {
    workers.iter().filter(|worker| !worker.has_ended()).count() as u64
}

/// The seats of all workers, which have ended, are taken in; what processor 0 has printed.
pub fn gathered(
    cells: &Cells<'_>,
    main: &mut MainSeat,
    mut workers: Vec<CachePadded<Worker<'_>>>,
) -> Output
    requires home { main.old.home ≡ cells.now }
    requires out { AreOut main.old }
    requires workers { AreWorkersOf cells.now workers.items }
    requires over { AreOver workers.items }
    ensures home { main.new.home ≡ main.old.home }
    ensures ended { AreAllEnded main.new }
    ensures output { result.bytes ≡ (protocol_at cells.entry.now).output }
{
    laws_of(cells);
    let mut first = None;
    while let Some(worker) = workers.pop() {
        let (seat, output) = worker.into_inner().into_parts();
        cells.take_in(main, seat);
        first = Some(output);
    }
    let Some(output) = first else { unreachable!() };
    output
}
