// The instances of a phase, one behind another.

ghost use Rattle.std.specs.Prelude.{◌≡◌, ◌<◌, ◌≤◌, suc, true, false, length};
ghost use Rattle.nest_tree.specs.View.{tree_of};
ghost use Rattle.owner_partition.specs.Phases.{phases};
ghost use Rattle.turns.specs.TurnsLeft.{turns_own, turns_place};
ghost use Rattle.turns.specs.declared.turns.NextOrPhase.{NextOrPhase};
ghost use Rattle.turns.specs.declared.turns.Next.{Next};
ghost use Rattle.fork_join.specs.Cursors.{ComesNext, cursor_left};
ghost use Rattle.fork_join.specs.Joins.{IsSafe};
ghost use Rattle.fork_join.specs.Workers.{HasExecuted, IsOverlay, IsWalking, Runs, turns_begun, turns_behind};

use crate::cursor::Cursor;
use crate::overlay::Overlay;
use crate::phase_overlay::PhaseOverlay;
use crate::places::{NoOwn, Places, SomeOwn};
use instance_runs::Executor;
use nest_walk::Stop;
use std::marker::PhantomData;
use std::snapshot::Snapshot;
use turns::{Next, NextOrPhase};

/// All instances of a phase that come next, over these cells.
pub(crate) fn execute<'a>(
    turns: &mut Cursor<'a>,
    executor: &mut Executor<'a>,
    overlay: &mut Overlay,
)
    requires safe { IsSafe (tree_of overlay.old.program.now) overlay.old.plan.now }
    requires some { overlay.old.behind < length
        (phases (tree_of overlay.old.program.now) overlay.old.plan.now.cut.marks) }
    requires runs { Runs
        (tree_of overlay.old.program.now) overlay.old.plan.now overlay.old.processor
        (turns_begun (tree_of overlay.old.program.now) overlay.old.plan.now overlay.old.behind
        overlay.old.processor) overlay.old.done.done turns.old executor.old }
    ensures kept { IsOverlay
        (tree_of overlay.old.program.now) overlay.old.plan.now overlay.old.behind
        overlay.old.processor overlay.old.memory.now overlay.new }
    ensures runs { Runs (tree_of overlay.old.program.now) overlay.old.plan.now overlay.old.processor
        (turns_behind (tree_of overlay.old.program.now) overlay.old.plan.now
        (suc overlay.old.behind) overlay.old.processor) overlay.new.done.done turns.new
        executor.new }
{
    repeat_next(turns, executor, overlay);
    while execute_next(turns, executor, overlay) {
        repeat_next(turns, executor, overlay);
    }
}

// The trips of a loop round one assignment, where they come next.
#[inline(always)]
fn repeat_next<'a>(turns: &mut Cursor<'a>, executor: &mut Executor<'a>, overlay: &mut Overlay)
    requires safe { IsSafe (tree_of overlay.old.program.now) overlay.old.plan.now }
    requires walks { IsWalking
        (tree_of overlay.old.program.now) overlay.old.plan.now overlay.old.behind
        overlay.old.processor overlay.old.done.done turns.old executor.old }
    ensures kept { IsOverlay
        (tree_of overlay.old.program.now) overlay.old.plan.now overlay.old.behind
        overlay.old.processor overlay.old.memory.now overlay.new }
    ensures walks { IsWalking
        (tree_of overlay.old.program.now) overlay.old.plan.now overlay.old.behind
        overlay.old.processor overlay.new.done.done turns.new executor.new }
    ensures nearer { length (cursor_left turns.new) ≤ length (cursor_left turns.old) }
{
    let phase = Snapshot::of(&*turns);
    if let Some(strip) = turns.strip() {
        let mut seen = PhaseOverlay::<NoOwn> {
            overlay,
            own: turns.own_cells(),
            turns: &phase,
            by: PhantomData,
        };
        executor.repeat(strip, &mut seen);
    }
}

// The instance that comes next, if there is one.
#[inline(always)]
fn execute_next<'a>(
    turns: &mut Cursor<'a>,
    executor: &mut Executor<'a>,
    overlay: &mut Overlay,
) -> bool
    requires safe { IsSafe (tree_of overlay.old.program.now) overlay.old.plan.now }
    requires walks { IsWalking
        (tree_of overlay.old.program.now) overlay.old.plan.now overlay.old.behind
        overlay.old.processor overlay.old.done.done turns.old executor.old }
    ensures kept { IsOverlay
        (tree_of overlay.old.program.now) overlay.old.plan.now overlay.old.behind
        overlay.old.processor overlay.old.memory.now overlay.new }
    ensures walks { IsWalking
        (tree_of overlay.old.program.now) overlay.old.plan.now overlay.old.behind
        overlay.old.processor overlay.new.done.done turns.new executor.new }
    ensures nearer { result ≡ true
        → length (cursor_left turns.new) < length (cursor_left turns.old) }
    ensures end { result ≡ false
        → Runs (tree_of overlay.old.program.now) overlay.old.plan.now overlay.old.processor
        (turns_behind (tree_of overlay.old.program.now) overlay.old.plan.now
        (suc overlay.old.behind) overlay.old.processor) overlay.new.done.done turns.new
        executor.new }
{
    let NextOrPhase::Turn(next) = turns.peek() else {
        return false;
    };
    let Next::Work(stop) = next else {
        return false;
    };
    execute_here(turns, executor, overlay, stop);
    turns.pass(Next::Work(stop));
    true
}

// The instance that comes next, at this stop.
#[inline(always)]
fn execute_here<'a>(
    turns: &Cursor<'a>,
    executor: &mut Executor<'a>,
    overlay: &mut Overlay,
    stop: Stop<'a>,
)
    requires safe { IsSafe (tree_of overlay.old.program.now) overlay.old.plan.now }
    requires walks { IsWalking
        (tree_of overlay.old.program.now) overlay.old.plan.now overlay.old.behind
        overlay.old.processor overlay.old.done.done turns.now executor.old }
    requires next { ComesNext turns.now (NextOrPhase.Turn (Next.Work stop)) }
    ensures kept { IsOverlay
        (tree_of overlay.old.program.now) overlay.old.plan.now overlay.old.behind
        overlay.old.processor overlay.old.memory.now overlay.new }
    ensures executed { HasExecuted
        (tree_of overlay.old.program.now) overlay.old.plan.now overlay.old.processor
        overlay.old.done.done overlay.new.done.done turns.now executor.old executor.new }
{
    if turns.own_cells().is_empty() {
        execute_by::<NoOwn>(turns, executor, overlay, stop);
    } else {
        execute_by::<SomeOwn>(turns, executor, overlay, stop);
    }
}

// The same by a way to look for own scalars that fits the phase.
#[inline(always)]
fn execute_by<'a, P: Places>(
    turns: &Cursor<'a>,
    executor: &mut Executor<'a>,
    overlay: &mut Overlay,
    stop: Stop<'a>,
)
    requires safe { IsSafe (tree_of overlay.old.program.now) overlay.old.plan.now }
    requires walks { IsWalking
        (tree_of overlay.old.program.now) overlay.old.plan.now overlay.old.behind
        overlay.old.processor overlay.old.done.done turns.now executor.old }
    requires next { ComesNext turns.now (NextOrPhase.Turn (Next.Work stop)) }
    requires fits { P.Fits (turns_own turns.now.turns)
        (tree_of overlay.old.program.now) overlay.old.plan.now (turns_place turns.now.turns) }
    ensures kept { IsOverlay
        (tree_of overlay.old.program.now) overlay.old.plan.now overlay.old.behind
        overlay.old.processor overlay.old.memory.now overlay.new }
    ensures executed { HasExecuted
        (tree_of overlay.old.program.now) overlay.old.plan.now overlay.old.processor
        overlay.old.done.done overlay.new.done.done turns.now executor.old executor.new }
{
    let phase = Snapshot::of(turns);
    let mut seen = PhaseOverlay::<P> {
        overlay,
        own: turns.own_cells(),
        turns: &phase,
        by: PhantomData,
    };
    executor.execute(stop, turns.path(), &mut seen);
}
