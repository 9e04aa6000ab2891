// The cells as a worker sees them in a phase.

ghost use Rattle.std.specs.Prelude.{◌<◌, ℕ, ℤ, List, drop, length};
ghost use Rattle.nest_tree.specs.View.{tree_of};
ghost use Rattle.spmd_model.specs.declared.style.Style.TheVariants.{Arrive};
ghost use Rattle.spmd_model.specs.PlanProtocols.{printed_by, registers_by};
ghost use Rattle.fork_join.specs.Joins.{IsAlone, all_deeds};
ghost use Rattle.fork_join.specs.StoreLists.{AreKept, cells_of, entries_of};

use crate::stores::Stores;
use instance_runs::Progress;
use nest_tree::Program;
use own_cells::OWN_PLACES;
use sync_plan::Plan;

/// What one worker sees in a phase: memory as it was when the phase began, its own stores since,
/// which go before, and its own cells, by places of own scalars.
#[derive(Drop)]
pub(crate) struct Overlay<'a> {
    pub(crate) program: &'a Program,
    pub(crate) plan: &'a Plan,
    pub(crate) processor: u32,
    // how many phases are behind
    pub(crate) behind: u64,
    pub(crate) memory: &'a [i64],
    pub(crate) stores: Stores,
    pub(crate) own: [i64; OWN_PLACES],
    pub(crate) done: Progress,
    // it alone has gone on from lawful memory
    ghost goes: { ∥ IsAlone
        (tree_of program.now) plan.now processor behind memory.now (entries_of stores) own
        (cells_of stores) done.done ∥₁ },
    ghost kept_stores: { AreKept stores },
}

impl<'a> Overlay<'a> {
    ghost use Rattle.std.specs.Prelude.{◌≡◌, ◌+◌, ◌++◌, ◌∷◌, []};
    ghost use Rattle.nest_tree.specs.Layout.{cell_count};
    ghost use Rattle.nest_model.specs.Memory.{cell_value};
    ghost use Rattle.spmd_model.specs.Deeds.{Deed, loading, printing, storing};
    ghost use Rattle.fork_join.specs.Joins.{own_place};
    ghost use Rattle.fork_join.specs.Overlays.{laid_in};
    ghost use Rattle.fork_join.specs.Workers.{IsOverlay};

    // What a cell that all share holds, as the worker sees it.
    #[inline(always)]
    fn seen(&self, cell: u32) -> i64
        requires inside { cell < cells_of self.now.stores }
        requires memory { cell < length self.now.memory.now }
        ensures { result
            ≡ cell_value (laid_in (entries_of self.now.stores) self.now.memory.now) cell }
    {
        match self.stores.get(cell) {
            Some(value) => value,
            None => self.memory[cell as usize],
        }
    }

    // The load that comes next, of a cell that all share.
    #[inline(always)]
    pub(crate) fn load_shared(&mut self, cell: u32) -> i64
        requires next { (rest : List Deed)
            ×
            (drop self.old.done.done
            (all_deeds (tree_of self.old.program.now) self.old.plan.now self.old.processor)
            ≡ loading cell ∷ rest) }
        requires inside { cell < cell_count (tree_of self.old.program.now) }
        ensures further { self.new.done.done ≡ self.old.done.done + 1 }
        ensures registers { registers_by Arrive
            (tree_of self.old.program.now) self.old.plan.now self.old.processor self.new.done.done
            ≡ registers_by Arrive
            (tree_of self.old.program.now) self.old.plan.now self.old.processor self.old.done.done
            ++ result ∷ [] }
        ensures printed { printed_by Arrive
            (tree_of self.old.program.now) self.old.plan.now self.old.processor self.new.done.done
            ≡ printed_by Arrive
            (tree_of self.old.program.now) self.old.plan.now self.old.processor self.old.done.done }
        ensures kept { IsOverlay
            (tree_of self.old.program.now) self.old.plan.now self.old.behind self.old.processor
            self.old.memory.now self.new }
    {
        let value = self.seen(cell);
        self.done = self.done.further();
        value
    }

    // The load that comes next, of the own cell with this place.
    #[inline(always)]
    pub(crate) fn load_own(&mut self, place: usize) -> i64
        requires next { (rest : List Deed)
            ×
            (drop self.old.done.done
            (all_deeds (tree_of self.old.program.now) self.old.plan.now self.old.processor)
            ≡ loading (own_place (tree_of self.old.program.now) self.old.processor place) ∷ rest) }
        requires small { place < 32 }
        ensures further { self.new.done.done ≡ self.old.done.done + 1 }
        ensures registers { registers_by Arrive
            (tree_of self.old.program.now) self.old.plan.now self.old.processor self.new.done.done
            ≡ registers_by Arrive
            (tree_of self.old.program.now) self.old.plan.now self.old.processor self.old.done.done
            ++ result ∷ [] }
        ensures printed { printed_by Arrive
            (tree_of self.old.program.now) self.old.plan.now self.old.processor self.new.done.done
            ≡ printed_by Arrive
            (tree_of self.old.program.now) self.old.plan.now self.old.processor self.old.done.done }
        ensures kept { IsOverlay
            (tree_of self.old.program.now) self.old.plan.now self.old.behind self.old.processor
            self.old.memory.now self.new }
    {
        let value = self.own[place];
        self.done = self.done.further();
        value
    }

    // The store that comes next, to a cell that all share.
    #[inline(always)]
    pub(crate) fn store_shared(&mut self, cell: u32, value: i64)
        requires next { (f : List ℤ → ℤ) × (rest : List Deed)
            ×
            (drop self.old.done.done
            (all_deeds (tree_of self.old.program.now) self.old.plan.now self.old.processor)
            ≡ storing cell f ∷ rest)
            × (value
            ≡ f
            (registers_by Arrive
            (tree_of self.old.program.now) self.old.plan.now self.old.processor
            self.old.done.done)) }
        requires inside { cell < cell_count (tree_of self.old.program.now) }
        ensures further { self.new.done.done ≡ self.old.done.done + 1 }
        ensures registers { registers_by Arrive
            (tree_of self.old.program.now) self.old.plan.now self.old.processor self.new.done.done
            ≡ [] }
        ensures printed { printed_by Arrive
            (tree_of self.old.program.now) self.old.plan.now self.old.processor self.new.done.done
            ≡ printed_by Arrive
            (tree_of self.old.program.now) self.old.plan.now self.old.processor self.old.done.done }
        ensures kept { IsOverlay
            (tree_of self.old.program.now) self.old.plan.now self.old.behind self.old.processor
            self.old.memory.now self.new }
    {
        self.stores.set(cell, value);
        self.done = self.done.further();
    }

    // The store that comes next, to the own cell with this place.
    #[inline(always)]
    pub(crate) fn store_own(&mut self, place: usize, value: i64)
        requires next { (f : List ℤ → ℤ) × (rest : List Deed)
            ×
            (drop self.old.done.done
            (all_deeds (tree_of self.old.program.now) self.old.plan.now self.old.processor)
            ≡ storing (own_place (tree_of self.old.program.now) self.old.processor place) f ∷ rest)
            × (value
            ≡ f
            (registers_by Arrive
            (tree_of self.old.program.now) self.old.plan.now self.old.processor
            self.old.done.done)) }
        requires small { place < 32 }
        ensures further { self.new.done.done ≡ self.old.done.done + 1 }
        ensures registers { registers_by Arrive
            (tree_of self.old.program.now) self.old.plan.now self.old.processor self.new.done.done
            ≡ [] }
        ensures printed { printed_by Arrive
            (tree_of self.old.program.now) self.old.plan.now self.old.processor self.new.done.done
            ≡ printed_by Arrive
            (tree_of self.old.program.now) self.old.plan.now self.old.processor self.old.done.done }
        ensures kept { IsOverlay
            (tree_of self.old.program.now) self.old.plan.now self.old.behind self.old.processor
            self.old.memory.now self.new }
    {
        self.own[place] = value;
        self.done = self.done.further();
    }

    // Past the PRINT that comes next.
    pub(crate) fn print_line(&mut self)
        requires next { (line : List ℤ → List ℕ) × (rest : List Deed)
            ×
            (drop self.old.done.done
            (all_deeds (tree_of self.old.program.now) self.old.plan.now self.old.processor)
            ≡ printing line ∷ rest) }
        ensures further { self.new.done.done ≡ self.old.done.done + 1 }
        ensures registers { registers_by Arrive
            (tree_of self.old.program.now) self.old.plan.now self.old.processor self.new.done.done
            ≡ [] }
        ensures printed { (line : List ℤ → List ℕ) → (rest : List Deed)
            → drop self.old.done.done
            (all_deeds (tree_of self.old.program.now) self.old.plan.now self.old.processor)
            ≡ printing line ∷ rest
            → printed_by Arrive
            (tree_of self.old.program.now) self.old.plan.now self.old.processor self.new.done.done
            ≡ printed_by Arrive
            (tree_of self.old.program.now) self.old.plan.now self.old.processor self.old.done.done
            ++ line
            (registers_by Arrive
            (tree_of self.old.program.now) self.old.plan.now self.old.processor
            self.old.done.done) }
        ensures kept { IsOverlay
            (tree_of self.old.program.now) self.old.plan.now self.old.behind self.old.processor
            self.old.memory.now self.new }
    {
        self.done = self.done.further();
    }
}
