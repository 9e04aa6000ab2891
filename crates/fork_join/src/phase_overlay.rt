// The cells as an instance of a phase sees them.

ghost use Rattle.std.specs.Prelude.{◌≡◌, ℕ, ℤ, List, drop, map};
ghost use Rattle.nest_tree.specs.Tree.{Tree};
ghost use Rattle.nest_tree.specs.View.{tree_of};
ghost use Rattle.sync_plan.specs.declared.plan.Plan.{Plan};
ghost use Rattle.spmd_model.specs.declared.style.Style.TheVariants.{Arrive};
ghost use Rattle.spmd_model.specs.PlanProtocols.{printed_by, registers_by};
ghost use Rattle.turns.specs.TurnsLeft.{turns_place};
ghost use Rattle.fork_join.specs.Joins.{all_deeds};
ghost use Rattle.fork_join.specs.SeenDeeds.{FindsOwn, phase_deed};

use crate::cursor::Cursor;
use crate::overlay::Overlay;
use crate::places::Places;
use instance_runs::Deeds;
use own_cells::OwnCells;
use std::marker::PhantomData;
use std::snapshot::Snapshot;

// What a worker sees, where an own scalar's cell is its own one, and how it looks for them. Proofs
// alone see the turns that it had left, in whose phase this is.
#[derive(Drop)]
pub(crate) struct PhaseOverlay<'b, 'm, 't, 'a, P: Places> {
    pub(crate) overlay: &'b mut Overlay<'m>,
    pub(crate) own: &'t OwnCells,
    pub(crate) turns: &'t Snapshot<Cursor<'a>>,
    pub(crate) by: PhantomData<P>,
    ghost finds: { ∥ FindsOwn (tree_of overlay.now.program.now) overlay.now.plan.now
        (turns_place turns.now.value.turns) (P.Fits own.now) ∥₁ },
}

impl<P: Places> Deeds for PhaseOverlay<'_, '_, '_, '_, P> {
    ghost use Rattle.fork_join.specs.declared.cursor.Cursor.{Cursor};

    ghost left = { λ d. map (phase_deed (tree_of d.overlay.now.program.now) d.overlay.now.plan.now
        (turns_place d.turns.now.value.turns) d.overlay.now.processor)
        (drop d.overlay.now.done.done
        (all_deeds
        (tree_of d.overlay.now.program.now) d.overlay.now.plan.now d.overlay.now.processor)) };

    ghost registers = { λ d. registers_by Arrive
        (tree_of d.overlay.now.program.now) d.overlay.now.plan.now d.overlay.now.processor
        d.overlay.now.done.done };

    ghost printed = { λ d. printed_by Arrive
        (tree_of d.overlay.now.program.now) d.overlay.now.plan.now d.overlay.now.processor
        d.overlay.now.done.done };

    ghost Kept = { ℕ × (Cursor × (Tree × (Plan × (ℕ × (ℕ × List ℤ))))) };

    ghost kept = { λ d. (
      d.overlay.ghost_name,
      (
        d.turns.now.value,
        (
          tree_of d.overlay.now.program.now,
          (
            d.overlay.now.plan.now,
            (d.overlay.now.processor, (d.overlay.now.behind, d.overlay.now.memory.now)),
          ),
        ),
      ),
    ) };

    #[inline(always)]
    fn load(&mut self, cell: u32) -> i64 {
        match P::place_of(self.own, cell) {
            Some(place) => self.overlay.load_own(place),
            None => self.overlay.load_shared(cell),
        }
    }

    #[inline(always)]
    fn store(&mut self, cell: u32, value: i64) {
        match P::place_of(self.own, cell) {
            Some(place) => self.overlay.store_own(place, value),
            None => self.overlay.store_shared(cell, value),
        }
    }

    fn print(&mut self) {
        self.overlay.print_line();
    }
}
