// Systems to whose end constraints come and go.

ghost use Rattle.std.specs.Prelude.{◌≡◌, ◌<◌, ◌^◌, ◌++◌, [], ◌∷◌, IfOk, IsTrue, OnErr, OnOk, length};
ghost use Rattle.farkas_cert.specs.Narrow.{AreNarrow};
ghost use Rattle.presolve.specs.Columns.{AreRising};
ghost use Rattle.presolve.specs.Presolution.{IsPresolved};
ghost use Rattle.nest_rows.specs.Constraints.{is_tame};
ghost use Rattle.nest_systems.specs.Growing.{whole_of};
ghost use Rattle.nest_systems.specs.Kept.{NamesKept};
ghost use Rattle.nest_systems.specs.Widened.{Widens};

use crate::constraint_system::ConstraintSystem;
use crate::kept::row_over;
use crate::rows::push_rows;
use farkas_cert::NarrowSystem;
use nest_rows::Constraint;
use presolve::Presolved;
use std::alloc::{AllocError, Global};
use std::marker::Model;

/// A system and what is left of it, to whose end constraints come and go. Contracts see the system
/// that stays, the constraints behind it, and the columns that are kept.
#[derive(Drop)]
pub struct GrowingSystem<'p> {
    shared: ConstraintSystem<'p>,
    last: Vec<Constraint>,
    // What is left of both, and how many rows are left of the system that stays.
    presolved: Presolved,
    kept: usize,
}

impl<'p> Model for GrowingSystem<'p> {
    ghost use Rattle.std.specs.Prelude.{◌+◌, ◌<◌, ◌≤◌, ◌^◌, IsTrue, length};
    ghost use Rattle.std.specs.List.{All};
    ghost use Rattle.presolve.specs.Presolution.{IsPresolved, first_kept};
    ghost use Rattle.nest_rows.specs.Constraints.{is_tame};
    ghost use Rattle.nest_systems.specs.Growing.{Growing, with_constraints};
    ghost use Rattle.nest_systems.specs.Widened.{Widens};

    ghost Value = { Growing };

    ghost view = { λ s.
        record { shared = s.shared; last = s.last.items; columns = s.presolved.columns } };

    ghost invariant = { λ s. IsPresolved s.shared (first_kept s.kept s.presolved)
        × IsPresolved (with_constraints s.last.items s.shared) s.presolved
        × (s.kept ≤ length s.presolved.numbers) × All (λ c. IsTrue (is_tame c)) s.last.items
        × (s.presolved.count < 2 ^ 62 + length s.last.items)
        × Widens s.shared (first_kept s.kept s.presolved)
        × Widens (with_constraints s.last.items s.shared) s.presolved };
}

impl<'p> GrowingSystem<'p> {
    ghost use Rattle.presolve.specs.Presolution.{IsPresolved, Presolution};
    ghost use Rattle.nest_systems.specs.Growing.{Growing};
    ghost use Rattle.nest_systems.specs.Widened.{Widens};

    /// A system and what is left of it, with no constraint behind.
    pub fn new(alloc: Global, shared: ConstraintSystem<'p>, presolved: Presolved) -> Self
        requires presolved { IsPresolved shared presolved }
        requires widened { Widens shared presolved }
        requires room { presolved.count < 2 ^ 62 }
        ensures { result
            ≡ record { shared = shared.entry; last = []; columns = presolved.columns } }
    {
        let kept = presolved.kept();
        GrowingSystem {
            shared,
            last: Vec::new(alloc),
            presolved,
            kept,
        }
    }

    /// Without the constraints behind the system that stays.
    pub fn clear(&mut self, alloc: Global)
        ensures { self.new
            ≡ record { shared = self.old.shared; last = []; columns = self.old.columns } }
    {
        self.last.clear();
        let kept = self.kept;
        self.presolved.truncate(alloc, kept);
    }

    /// One constraint more behind, whose unknowns have their columns. Where memory runs out nothing
    /// has changed.
    pub fn push(&mut self, alloc: Global, constraint: Constraint) -> Result<(), AllocError>
        requires tame { IsTrue (is_tame constraint) }
        requires named { NamesKept self.old.shared.vars self.old.columns constraint }
        ensures ok { OnOk result (self.new ≡ record {
          shared = self.old.shared;
          last = self.old.last
              ++ constraint ∷ [];
          columns = self.old.columns;
        }) }
        ensures err { OnErr result (self.new ≡ self.old) }
    {
        // Whose items a slice borrows is short: so no count of rows passes its limit.
        let _behind = self.last.as_slice();
        let count = self.presolved.system().vars();
        let row = row_over(alloc, count, self.presolved.columns(), &constraint)?;
        self.last.push(constraint)?;
        match self.presolved.push(row) {
            Ok(()) => Ok(()),
            Err(error) => {
                self.last.pop();
                Err(error)
            }
        }
    }

    /// How many rows are left of the system that stays.
    pub fn kept(&self) -> usize
        ensures { (p : Presolution) × IsPresolved self.now.shared p
            × (p.columns ≡ self.now.columns) × (length p.numbers ≡ result) }
    {
        self.kept
    }

    /// What is left.
    pub fn presolved(&self) -> &Presolved
        ensures left { IsPresolved (whole_of self.now) result.now }
        ensures widened { Widens (whole_of self.now) result.now }
        ensures columns { result.now.columns ≡ self.now.columns }
    {
        &self.presolved
    }

    /// The system with all its rows and columns.
    pub fn dense(&self, alloc: Global) -> Result<NarrowSystem, AllocError>
        ensures { IfOk result (λ s. s ≡ whole_of self.now) }
    {
        let mut system = self.shared.dense(alloc)?;
        push_rows(alloc, &mut system, self.last.as_slice())?;
        Ok(system)
    }
}
