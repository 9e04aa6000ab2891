// The machine: a program run under a plan, one act of one processor at a time.

ghost use Rattle.std.specs.Prelude.{◌≡◌, ◌<◌, ◌++◌, ℕ, All, IfOk, List, Some, fold, slice_get, take};
ghost use Rattle.nest_tree.specs.View.{tree_of};
ghost use Rattle.nest_model.specs.Memory.{cell_value, last_memory, output_of};
ghost use Rattle.nest_model.specs.Ranges.{IsInRange};
ghost use Rattle.sync_plan.specs.Fit.{IsFit};
ghost use Rattle.sync_plan.specs.Ordered.{IsOrdered};
ghost use Rattle.spmd_model.specs.Acts.{load};
ghost use Rattle.spmd_model.specs.Machines.{timeline_by};
ghost use Rattle.spmd_model.specs.Quiet.{first_turn, turned};
ghost use Rattle.spmd_model.specs.Runs.{IsEnded};
ghost use Rattle.spmd_model.specs.Sequential.{memory_at};
ghost use Rattle.spmd_model.specs.States.{next_act};
ghost use Rattle.spmd_model.specs.Timelines.{Job, job};
ghost use Rattle.spmd_machine.specs.Machines.{IsReached, step_answer};
ghost use Rattle.spmd_machine.specs.Promises.{FindsSequential, rounds};
ghost use Rattle.spmd_machine.specs.Views.{HasSettled, IsSameSubject, model_at, shared_at, tree_at};

use crate::answer::StepAnswer;
use crate::parts::Parts;
use nest_tree::Program;
use seq_meaning::Output;
use spmd_model::Style;
use std::alloc::{AllocError, Global};
use std::marker::Model;
use sync_plan::Plan;

/// The pure machine of a program under a plan that fits it, where barriers are passed in a style. It
/// is in a state that some schedule leads to.
#[derive(Drop)]
pub struct Machine<'a> {
    pub(crate) parts: Parts<'a>,
}

impl<'a> Model for Machine<'a> {
    ghost use Rattle.spmd_machine.specs.Machines.{IsMachine, view_of};
    ghost use Rattle.spmd_machine.specs.Views.{MachineView, machine_code};

    ghost Value = { MachineView };

    ghost coded = { machine_code };

    ghost view = { λ m. view_of m.parts };

    ghost invariant = { λ m. IsMachine m.parts };
}

impl<'a> Machine<'a> {
    /// The first state: nothing is done but what each processor begins with on its own cells, and
    /// all is 0 or empty. What a run can need is reserved.
    pub fn new(
        alloc: Global,
        program: &'a Program,
        plan: &'a Plan,
        style: Style,
    ) -> Result<Self, AllocError>
        requires ranges { IsInRange (tree_of program.now) }
        requires fits { IsFit (tree_of program.now) plan.now }
        ensures first { IfOk result (λ m. m.state ≡ first_turn (model_at m) (shared_at m)) }
        ensures reached { IfOk result (λ m. IsReached (model_at m) m.state) }
        ensures settled { IfOk result (λ m. (p : ℕ) → p < plan.now.workers → HasSettled m p) }
        ensures program { IfOk result (λ m. tree_at m ≡ tree_of program.now) }
        ensures plan { IfOk result (λ m. m.plan ≡ plan.now) }
        ensures style { IfOk result (λ m. m.style ≡ style) }
    {
        let parts = Parts::new(alloc, program, plan, style)?;
        Ok(Machine { parts })
    }

    /// One step of processor `p`: it does its next act, where it has one and it is possible, and then
    /// the acts on its own cells that come next. Under an ordered plan a load that comes next finds
    /// what the sequential run along the timeline has there; and one of an instance, but of a sum
    /// scalar of its phase, what the sequential program has there in front of that instance.
    pub fn step(&mut self, p: u32) -> StepAnswer
        requires worker { p < self.old.plan.workers }
        ensures step { self.new.state ≡ turned (model_at self.old) (shared_at self.old)
            self.old.state p }
        ensures reached { IsReached (model_at self.new) self.new.state }
        ensures answer { result ≡ step_answer (model_at self.old) self.old.state p }
        ensures load { IsOrdered (tree_at self.old) self.old.plan → (place cell : ℕ)
            → next_act (model_at self.old) self.old.state p ≡ Some (load place cell)
            → cell_value self.old.state.memory cell
            ≡ cell_value (memory_at (model_at self.old) place) cell }
        ensures sequential { IsOrdered (tree_at self.old) self.old.plan → (place : ℕ) → (j : Job)
            → slice_get (timeline_by self.old.style (tree_at self.old) self.old.plan) place
            ≡ Some (job j) → j.counts ≡ 1 → j.owner ≡ p
            → FindsSequential self.old.style (tree_at self.old) self.old.plan
            self.old.state p place j }
        ensures same { IsSameSubject self.old self.new }
    {
        self.parts.step(p)
    }

    /// The steps of a schedule, a list of processor numbers, one after another.
    pub fn run_schedule(&mut self, schedule: &[u32])
        requires workers { All (λ p. p < self.old.plan.workers) schedule.now }
        ensures run { self.new.state ≡ fold (turned (model_at self.old) (shared_at self.old))
            self.old.state schedule.now }
        ensures reached { IsReached (model_at self.new) self.new.state }
        ensures same { IsSameSubject self.old self.new }
    {
        self.parts.run_schedule(schedule);
    }

    /// Rounds of one step per processor until all have ended.
    pub fn round_robin(&mut self)
        ensures rounds { (count : ℕ)
            × (self.new.state ≡ fold (turned (model_at self.old) (shared_at self.old))
            self.old.state (rounds (model_at self.old) count)) }
        ensures reached { IsReached (model_at self.new) self.new.state }
        ensures ended { IsEnded (model_at self.old) self.new.state }
        ensures memory { IsOrdered (tree_at self.old) self.old.plan
            → take (shared_at self.old) self.new.state.memory ≡ last_memory (tree_at self.old) }
        ensures output { IsOrdered (tree_at self.old) self.old.plan
            → self.new.state.output ≡ output_of (tree_at self.old) }
        ensures same { IsSameSubject self.old self.new }
    {
        self.parts.round_robin();
    }

    /// The memory, cell by cell, of the cells that all share.
    pub fn memory(&self) -> &[i64]
        ensures shown { result.now ≡ take (shared_at self.now) self.now.state.memory }
        ensures last { IsOrdered (tree_at self.now) self.now.plan
            → IsEnded (model_at self.now) self.now.state
            → result.now ≡ last_memory (tree_at self.now) }
    {
        self.parts.memory.as_slice()
    }

    /// The lines printed so far.
    pub fn output(&self) -> &Output
        ensures shown { result.now.bytes ≡ self.now.state.output }
        ensures front { IsOrdered (tree_at self.now) self.now.plan → (rest : List ℕ)
            × (result.now.bytes ++ rest ≡ output_of (tree_at self.now)) }
        ensures whole { IsOrdered (tree_at self.now) self.now.plan
            → IsEnded (model_at self.now) self.now.state
            → result.now.bytes ≡ output_of (tree_at self.now) }
    {
        &self.parts.output
    }
}
