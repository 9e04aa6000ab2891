// One worker of a run by fork and join.

ghost use Rattle.std.specs.Prelude.{◌≡◌, ◌<◌, ◌≤◌, ℕ, suc, IfOk, length};
ghost use Rattle.nest_tree.specs.Tree.{param_values};
ghost use Rattle.nest_tree.specs.View.{tree_of};
ghost use Rattle.nest_walk.specs.Tables.{IsCellTable};
ghost use Rattle.owner_partition.specs.Phases.{phases};
ghost use Rattle.instance_runs.specs.Executors.{executor_output};
ghost use Rattle.instance_runs.specs.Rooms.{longest_output};
ghost use Rattle.fork_join.specs.Joins.{IsSafe, begun, joined, protocol};

use crate::cursor::Cursor;
use crate::overlay::Overlay;
use crate::stores::Stores;
use crate::walk::execute;
use instance_runs::{Executor, Progress};
use nest_tree::Program;
use nest_walk::CellTable;
use own_cells::{OWN_PLACES, is_sum_place};
use seq_meaning::Output;
use spmd_ports::Gate;
use std::alloc::{AllocError, Global};
use std::mem;
use sync_plan::Plan;
use turns::{Next, NextOrPhase};

/// What all workers are lent: the program under its plan, its cells, and the values of its named
/// constants.
#[derive(Clone, Copy)]
pub(crate) struct Lent<'a> {
    pub program: &'a Program,
    pub plan: &'a Plan,
    pub table: &'a CellTable,
    pub params: &'a [i64],
}

/// A worker: its cursor, its registers and its output, its stores since the phase began, its own
/// cells, by places of own scalars, and how many of its deeds are done.
#[derive(Drop)]
pub(crate) struct Worker<'a> {
    alloc: Global,
    program: &'a Program,
    plan: &'a Plan,
    processor: u32,
    turns: Cursor<'a>,
    executor: Executor<'a>,
    stores: Stores,
    own: [i64; OWN_PLACES],
    done: Progress,
}

impl<'a> Worker<'a> {
    ghost use Rattle.std.specs.Prelude.{nat_le, true, false};
    ghost use Rattle.turns.specs.declared.turns.NextOrPhase.{NextOrPhase};
    ghost use Rattle.turns.specs.declared.turns.Next.{Next};
    ghost use Rattle.fork_join.specs.Cursors.{ComesNext, IsShut, cursor_left, cursor_turns};
    ghost use Rattle.fork_join.specs.Workers.{HasBegun, HasWorked, IsAt, IsBeginning, IsClosing};

    /// A worker in front of its first phase, with room for so many bytes of output.
    pub fn new(
        alloc: Global,
        lent: Lent<'a>,
        processor: u32,
        room: usize,
    ) -> Result<Self, AllocError>
        requires safe { IsSafe (tree_of lent.program.now) lent.plan.now }
        requires table { IsCellTable (tree_of lent.program.now) lent.table.now }
        requires params { lent.params.now ≡ param_values (tree_of lent.program.now) }
        requires below { processor < lent.plan.now.workers }
        requires room { processor ≡ 0 → longest_output (tree_of lent.program.now) ≤ room }
        ensures { IfOk result
            (λ w. IsAt (tree_of lent.entry.program.now) lent.entry.plan.now 0 processor w) }
    {
        let Lent {
            program,
            plan,
            table,
            params,
        } = lent;
        Ok(Worker {
            alloc,
            program,
            plan,
            processor,
            turns: Cursor::new(program, plan, processor),
            executor: Executor::new(alloc, program, table, params, room)?,
            stores: Stores::new(alloc, program.cell_count() as u32)?,
            own: [0; OWN_PLACES],
            done: Progress::new(),
        })
    }

    /// The next phase, behind so many: past its boundary, through the gate, and through its own
    /// instances.
    pub fn phase<G: Gate>(&mut self, behind: u64, memory: &[i64], gate: &G)
        requires safe { IsSafe (tree_of self.old.program.now) self.old.plan.now }
        requires below { self.old.processor < self.old.plan.now.workers }
        requires some { behind < length
            (phases (tree_of self.old.program.now) self.old.plan.now.cut.marks) }
        requires at { IsAt
            (tree_of self.old.program.now) self.old.plan.now behind self.old.processor self.old }
        requires lawful { ∥
            (protocol (tree_of self.old.program.now) self.old.plan.now).lawful memory.now
            (begun (tree_of self.old.program.now) self.old.plan.now behind) ∥₁ }
        ensures { HasWorked
            (tree_of self.old.program.now) self.old.plan.now behind self.old.processor self.new }
    {
        let phase = self.begin(behind);
        gate.pass(self.processor, phase);
        self.work(behind, memory);
    }

    // Past the boundary, and into the phase, whose number it is.
    fn begin(&mut self, behind: u64) -> u64
        requires safe { IsSafe (tree_of self.old.program.now) self.old.plan.now }
        requires some { behind < length
            (phases (tree_of self.old.program.now) self.old.plan.now.cut.marks) }
        requires below { self.old.processor < self.old.plan.now.workers }
        requires at { IsAt
            (tree_of self.old.program.now) self.old.plan.now behind self.old.processor self.old }
        ensures begun { HasBegun
            (tree_of self.old.program.now) self.old.plan.now behind self.old.processor self.new }
        ensures number { result ≡ suc behind }
    {
        loop {
            match self.turns.peek() {
                NextOrPhase::Turn(next) => self.pass_wait(behind, next),
                NextOrPhase::Phase(phase) => {
                    self.turns.begin();
                    return phase;
                }
            }
        }
    }

    // Past a post or an await at the boundary.
    fn pass_wait(&mut self, behind: u64, next: Next<'a>)
        requires safe { IsSafe (tree_of self.old.program.now) self.old.plan.now }
        requires below { self.old.processor < self.old.plan.now.workers }
        requires at { IsBeginning
            (tree_of self.old.program.now) self.old.plan.now behind self.old.processor self.old }
        requires next { ComesNext self.old.turns (NextOrPhase.Turn next) }
        ensures at { IsBeginning
            (tree_of self.old.program.now) self.old.plan.now behind self.old.processor self.new }
        ensures nearer { length (cursor_left self.new.turns) < length (cursor_left self.old.turns) }
    {
        match next {
            Next::Post(_) | Next::Await { .. } => self.turns.pass(next),
            Next::Signal(_) | Next::AwaitSignal { .. } => unreachable!(),
            Next::Work(_) | Next::Close(_) | Next::End => unreachable!(),
        }
        self.done = self.done.further();
    }

    // The own instances of the phase.
    fn work(&mut self, behind: u64, memory: &[i64])
        requires safe { IsSafe (tree_of self.old.program.now) self.old.plan.now }
        requires below { self.old.processor < self.old.plan.now.workers }
        requires begun { HasBegun
            (tree_of self.old.program.now) self.old.plan.now behind self.old.processor self.old }
        requires some { behind < length
            (phases (tree_of self.old.program.now) self.old.plan.now.cut.marks) }
        requires lawful { ∥
            (protocol (tree_of self.old.program.now) self.old.plan.now).lawful memory.now
            (begun (tree_of self.old.program.now) self.old.plan.now behind) ∥₁ }
        ensures { HasWorked
            (tree_of self.old.program.now) self.old.plan.now behind self.old.processor self.new }
    {
        let mut overlay = Overlay {
            program: self.program,
            plan: self.plan,
            processor: self.processor,
            behind,
            memory,
            stores: mem::replace(&mut self.stores, Stores::away(self.alloc)),
            own: self.own,
            done: mem::replace(&mut self.done, Progress::new()),
        };
        execute(&mut self.turns, &mut self.executor, &mut overlay);
        let Overlay {
            stores,
            own,
            done,
            ..
        } = overlay;
        self.stores = stores;
        self.own = own;
        self.done = done;
    }

    /// Lays its stores of the phase behind so many into memory, and closes the own scalars: what its
    /// own cells hold goes to the cells that all share.
    pub fn lay_in(&mut self, behind: u64, memory: &mut [i64])
        requires safe { IsSafe (tree_of self.old.program.now) self.old.plan.now }
        requires below { self.old.processor < self.old.plan.now.workers }
        requires worked { HasWorked
            (tree_of self.old.program.now) self.old.plan.now behind self.old.processor self.old }
        requires lawful { ∥
            (protocol (tree_of self.old.program.now) self.old.plan.now).lawful memory.old
            (joined (tree_of self.old.program.now) self.old.plan.now behind self.old.processor) ∥₁ }
        ensures at { IsAt (tree_of self.old.program.now) self.old.plan.now
            (suc behind) self.old.processor self.new }
        ensures lawful { ∥
            (protocol (tree_of self.old.program.now) self.old.plan.now).lawful memory.new
            (joined (tree_of self.old.program.now) self.old.plan.now behind
            (suc self.old.processor)) ∥₁ }
    {
        self.stores.lay_in(memory);
        while self.close_next(behind, memory) {}
    }

    // The closing that comes next, if there is one.
    fn close_next(&mut self, behind: u64, memory: &mut [i64]) -> bool
        requires safe { IsSafe (tree_of self.old.program.now) self.old.plan.now }
        requires below { self.old.processor < self.old.plan.now.workers }
        requires closing { IsClosing
            (tree_of self.old.program.now) self.old.plan.now behind self.old.processor memory.old
            self.old }
        ensures closing { IsClosing
            (tree_of self.old.program.now) self.old.plan.now behind self.old.processor memory.new
            self.new }
        ensures nearer { result ≡ true
            → length (cursor_turns self.new.turns) < length (cursor_turns self.old.turns) }
        ensures ended { result ≡ false → IsShut self.new.turns }
    {
        let NextOrPhase::Turn(next) = self.turns.peek() else {
            return false;
        };
        let Next::Close(place) = next else {
            return false;
        };
        self.close(behind, place, memory);
        true
    }

    // The closing of the own scalar with this place, which comes next.
    fn close(&mut self, behind: u64, place: usize, memory: &mut [i64])
        requires safe { IsSafe (tree_of self.old.program.now) self.old.plan.now }
        requires below { self.old.processor < self.old.plan.now.workers }
        requires closing { IsClosing
            (tree_of self.old.program.now) self.old.plan.now behind self.old.processor memory.old
            self.old }
        requires next { ComesNext self.old.turns (NextOrPhase.Turn (Next.Close place)) }
        ensures closing { IsClosing
            (tree_of self.old.program.now) self.old.plan.now behind self.old.processor memory.new
            self.new }
        ensures nearer { length (cursor_turns self.new.turns) < length
            (cursor_turns self.old.turns) }
    {
        if is_sum_place(place) {
            self.add_total(behind, place, memory);
        } else {
            self.keep_value(behind, place, memory);
        }
    }

    // The closing of a private scalar.
    fn keep_value(&mut self, behind: u64, place: usize, memory: &mut [i64])
        requires safe { IsSafe (tree_of self.old.program.now) self.old.plan.now }
        requires below { self.old.processor < self.old.plan.now.workers }
        requires closing { IsClosing
            (tree_of self.old.program.now) self.old.plan.now behind self.old.processor memory.old
            self.old }
        requires next { ComesNext self.old.turns (NextOrPhase.Turn (Next.Close place)) }
        requires private { nat_le 16 place ≡ false }
        ensures closing { IsClosing
            (tree_of self.old.program.now) self.old.plan.now behind self.old.processor memory.new
            self.new }
        ensures nearer { length (cursor_turns self.new.turns) < length
            (cursor_turns self.old.turns) }
    {
        let cell = self.turns.own_cells().cell(place) as usize;
        memory[cell] = self.own[place];
        self.done = self.done.further().further();
        self.turns.pass(Next::Close(place));
    }

    // The closing of a sum scalar.
    fn add_total(&mut self, behind: u64, place: usize, memory: &mut [i64])
        requires safe { IsSafe (tree_of self.old.program.now) self.old.plan.now }
        requires below { self.old.processor < self.old.plan.now.workers }
        requires closing { IsClosing
            (tree_of self.old.program.now) self.old.plan.now behind self.old.processor memory.old
            self.old }
        requires next { ComesNext self.old.turns (NextOrPhase.Turn (Next.Close place)) }
        requires sum { nat_le 16 place ≡ true }
        ensures closing { IsClosing
            (tree_of self.old.program.now) self.old.plan.now behind self.old.processor memory.new
            self.new }
        ensures nearer { length (cursor_turns self.new.turns) < length
            (cursor_turns self.old.turns) }
    {
        let cell = self.turns.own_cells().cell(place) as usize;
        memory[cell] = memory[cell].wrapping_add(self.own[place]);
        self.own[place] = 0;
        self.done = self.done.further().further().further();
        self.turns.pass(Next::Close(place));
    }

    /// Its output so far.
    pub fn into_output(self) -> Output
        ensures { result.bytes ≡ executor_output self.entry.executor }
    {
        self.executor.into_output()
    }
}
