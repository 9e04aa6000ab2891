// Where an instance looks for the own scalars of its phase.

ghost use Rattle.std.specs.Prelude.{◌≡◌, ℕ};
ghost use Rattle.nest_tree.specs.Tree.{Tree};
ghost use Rattle.sync_plan.specs.Own.{own_loop, own_of};
ghost use Rattle.sync_plan.specs.declared.plan.Plan.{Plan};
ghost use Rattle.own_cells.specs.OwnCells.{AreOwnCells};
ghost use Rattle.spmd_model.specs.MachineDeeds.{HasNoOwn};

use own_cells::OwnCells;

/// A way to look for the own scalars of a phase. It is a type, so that an instance of a phase without
/// any is compiled without a look.
pub trait Places {
    ghost use Rattle.own_cells.specs.declared.cells.OwnCells.{OwnCells};

    // whether it is one for the static phase with a place, where these are known of its own scalars
    ghost Fits: { OwnCells → Tree → Plan → ℕ → Type 0 };

    /// The place of a cell that all share among those of the own scalars, from 0 to 31, if it is
    /// one's.
    fn place_of(own: &OwnCells, cell: u32) -> Option<usize>
        ensures { (tree : Tree) → (plan : Plan) → (place : ℕ) → Fits own.now tree plan place
            → result ≡ (own_of tree plan place).slot cell };
}

/// In a phase that may have own scalars: each cell is looked up.
pub struct SomeOwn;

impl Places for SomeOwn {
    ghost Fits = { λ own tree plan place. AreOwnCells tree (own_loop tree plan place) own };

    #[inline(always)]
    fn place_of(own: &OwnCells, cell: u32) -> Option<usize> {
        own.place_of(cell)
    }
}

/// In a phase without own scalars: none is looked up.
pub struct NoOwn;

impl Places for NoOwn {
    ghost Fits = { λ own tree plan place. HasNoOwn tree plan place };

    #[inline(always)]
    fn place_of(_own: &OwnCells, cell: u32) -> Option<usize> {
        None
    }
}
