// What a worker comes to.

ghost use Rattle.std.specs.Prelude.{◌≡◌, ◌++◌, ◌∷◌, ◌<◌, ℕ, List, MatchOption, IfSome, None, Some, length, map};
ghost use Rattle.nest_tree.specs.View.{tree_of};
ghost use Rattle.nest_walk.specs.RoundsOf.{rounds_of};
ghost use Rattle.owner_partition.specs.Phases.{phases};
ghost use Rattle.sync_plan.specs.Fit.{IsFit};
ghost use Rattle.spmd_model.specs.declared.style.Style.TheVariants.{Arrive};
ghost use Rattle.turns.specs.CounterTurns.{begins, counter_turns};
ghost use Rattle.turns.specs.Turns.{first_standing, turns_by};

use nest_tree::Program;
use nest_walk::{Path, Strip};
use own_cells::OwnCells;
use spmd_model::Style;
use sync_plan::Plan;
use turns::{Next, NextOrPhase, Turns};

/// What is left of a worker's turns. A phase that begins comes next until the worker is past its
/// beginning.
#[derive(Drop)]
pub(crate) struct Cursor<'a> {
    turns: Turns<'a>,
    // the phase that was seen to begin next
    begins: Option<u64>,
}

impl<'a> Cursor<'a> {
    ghost use Rattle.nest_walk.specs.Strips.{strip_left, strip_tree};
    ghost use Rattle.spmd_model.specs.MachineDeeds.{HasNoOwn};
    ghost use Rattle.turns.specs.CounterTurns.{works};
    ghost use Rattle.turns.specs.Turns.{Turn, runs};
    ghost use Rattle.turns.specs.TurnsLeft.{IsNext, IsTurn, PassesPlainly, turns_own, turns_place, turns_rounds};
    ghost use Rattle.fork_join.specs.Cursors.{ComesNext, IsCursor, IsSameCursor, cursor_left, cursor_plan, cursor_processor, cursor_tree, cursor_turns};

    /// All turns of a processor.
    pub fn new(program: &'a Program, plan: &'a Plan, processor: u32) -> Self
        requires fits { IsFit (tree_of program.now) plan.now }
        requires worker { processor < plan.now.workers }
        ensures sound { IsCursor result }
        ensures left { cursor_left result ≡ counter_turns (tree_of program.now) plan.now processor 1
            (phases (tree_of program.now) plan.now.cut.marks) }
        ensures turns { cursor_turns result
            ≡ turns_by Arrive (tree_of program.now) plan.now processor first_standing
            (counter_turns (tree_of program.now) plan.now processor 1
            (phases (tree_of program.now) plan.now.cut.marks)) }
        ensures program { cursor_tree result ≡ tree_of program.now }
        ensures plan { cursor_plan result ≡ plan.now }
        ensures processor { cursor_processor result ≡ processor }
    {
        Cursor {
            turns: Turns::new(program, plan, Style::Arrive, processor),
            begins: None,
        }
    }

    /// The loops round the instance that comes next, with their values.
    pub fn path(&self) -> &Path
        ensures { rounds_of result.now ≡ turns_rounds self.now.turns }
    {
        self.turns.path()
    }

    /// The own scalars of the phase.
    pub fn own_cells(&self) -> &OwnCells
        ensures { result.now ≡ turns_own self.now.turns }
    {
        self.turns.own_cells()
    }

    /// What comes next. Nothing of what is left changes.
    pub fn peek(&mut self) -> NextOrPhase<'a>
        requires { IsCursor self.old }
        ensures sound { IsCursor self.new }
        ensures left { cursor_left self.new ≡ cursor_left self.old }
        ensures turns { cursor_turns self.new ≡ cursor_turns self.old }
        ensures next { ComesNext self.new result }
        ensures same { IsSameCursor self.old self.new }
    {
        if let Some(phase) = self.begins {
            return NextOrPhase::Phase(phase);
        }
        let next = self.turns.peek_or_begin();
        if let NextOrPhase::Phase(phase) = next {
            self.begins = Some(phase);
        }
        next
    }

    /// Past the beginning of a phase.
    pub fn begin(&mut self)
        requires { IsCursor self.old }
        ensures sound { IsCursor self.new }
        ensures left { (e : ℕ) → self.old.begins ≡ Some e
            → cursor_left self.old ≡ begins e ∷ cursor_left self.new }
        ensures turns { cursor_turns self.new ≡ cursor_turns self.old }
        ensures same { IsSameCursor self.old self.new }
    {
        self.begins = None;
    }

    /// Past what comes next, where something does that is no beginning.
    pub fn pass(&mut self, next: Next<'a>)
        requires sound { IsCursor self.old }
        requires none { self.old.begins ≡ None }
        requires next { IsNext self.old.turns next }
        requires some { IsTurn next }
        ensures sound { IsCursor self.new }
        ensures none { self.new.begins ≡ None }
        ensures passed { (t : Turn) × (cursor_turns self.old ≡ t ∷ cursor_turns self.new) }
        ensures plain { PassesPlainly self.old.turns self.new.turns next.entry }
        ensures same { IsSameCursor self.old self.new }
    {
        self.turns.pass(next);
    }

    /// The trips that are left of a loop round one assignment, in a phase without own scalars, where
    /// the next turn is the first of them and hasn't been looked at: a strip's instances come next,
    /// and what is behind them is left.
    #[inline(always)]
    pub fn strip(&mut self) -> Option<Strip<'a>>
        requires { IsCursor self.old }
        ensures sound { IsCursor self.new }
        ensures left { MatchOption result (cursor_left self.new ≡ cursor_left self.old)
            (λ s. cursor_left self.old ≡ map works (strip_left s) ++ cursor_left self.new) }
        ensures turns { MatchOption result (cursor_turns self.new ≡ cursor_turns self.old)
            (λ s. cursor_turns self.old ≡ map (runs (turns_place self.old.turns)) (strip_left s)
            ++ cursor_turns self.new) }
        ensures some { IfSome result (λ s. 0 < length (strip_left s)) }
        ensures own { IfSome result (λ s. HasNoOwn (cursor_tree self.old) (cursor_plan self.old)
            (turns_place self.old.turns)) }
        ensures tree { IfSome result (λ s. strip_tree s ≡ cursor_tree self.new) }
        ensures same { IsSameCursor self.old self.new }
    {
        if self.begins.is_some() {
            return None;
        }
        self.turns.strip()
    }
}
