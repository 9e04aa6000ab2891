// Words that two threads share.

ghost use Rattle.std.specs.Prelude.{◌≡◌, true};
ghost use Rattle.nest_tree.specs.View.{tree_of};
ghost use Rattle.shared_words.specs.Calls.{ArrivesNext, GathersNext};
ghost use Rattle.shared_words.specs.Homes.{gone, through};
ghost use Rattle.house_tests.specs.StraightLine.{barriers, line, plan_with};

use crate::straight_line::{line, plan_with};
use nest_tree::Program;
use shared_words::{CellSeat, Cells, Poll};
use std::alloc::{AllocError, Global};
use std::thread::{Threads, join, yield_now};
use sync_plan::{Kind, Plan};

/// One thread's part: it arrives at the barrier in front of the first phase, and looks until all
/// have arrived there. False where it has looked 2^32 - 1 times.
fn meet(cells: &Cells, seat: &mut CellSeat) -> bool
    requires own { seat.old.home ≡ cells.now }
    requires arrives { ArrivesNext seat.old 0 }
    requires gathers { GathersNext (gone seat.old) 0 }
    ensures { result ≡ true → seat.new ≡ through (gone seat.old) }
{
    cells.arrive(seat, 1);
    for _ in 0..u32::MAX {
        if let Poll::Ready = cells.poll_arrivals(seat, 1) {
            return true;
        }
        yield_now();
    }
    false
}

/// Two threads meet at the barrier in front of the first phase; what each of them says.
pub(crate) fn two_threads<R: Threads>(
    rt: &R,
    alloc: Global,
    program: &Program,
    plan: &Plan,
) -> Result<(bool, bool), AllocError>
    requires line { tree_of program.now ≡ line }
    requires plan { plan.now ≡ plan_with barriers }
{
    let (cells, mut main) = Cells::new(alloc, program, plan)?;
    let mut first = cells.seat_for(&mut main, 0);
    let mut second = cells.seat_for(&mut main, 1);
    let one = || meet(&cells, &mut first);
    let other = || meet(&cells, &mut second);
    Ok(join(rt, one, other))
}

/// What two threads say that meet in a straight line with a barrier in front of each phase.
pub(crate) fn met<R: Threads>(rt: &R, alloc: Global) -> Result<(bool, bool), AllocError> {
    let program = line(alloc)?;
    let kinds = vec![in alloc; Kind::Barrier, Kind::Barrier, Kind::Barrier]?;
    let plan = plan_with(alloc, kinds)?;
    two_threads(rt, alloc, &program, &plan)
}
