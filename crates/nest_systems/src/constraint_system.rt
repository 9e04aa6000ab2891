// Systems as constraints, before rows are made of them.

ghost use Rattle.std.specs.Prelude.{◌≡◌, ◌+◌, ◌≤◌, ◌<◌, ◌^◌, ℕ, [], ◌∷◌, IfOk, IsTrue, OnErr, OnOk, length, map, true};
ghost use Rattle.nest_tree.specs.declared.tree.Parameter.{Parameter as Named};
ghost use Rattle.presolve.specs.Columns.{is_kept};
ghost use Rattle.presolve.specs.Presolution.{IsPresolved};
ghost use Rattle.nest_rows.specs.Constraints.{is_tame};
ghost use Rattle.nest_rows.specs.Groups.{constants_have};
ghost use Rattle.nest_rows.specs.More.{HasMore};
ghost use Rattle.nest_systems.specs.Widened.{Widens};

use crate::kept::{KeptRows, columns_of, kept_constants};
use crate::rows::{push_rows, push_values};
use farkas_cert::NarrowSystem;
use nest_rows::Constraint;
use nest_tree::Parameter;
use presolve::Presolved;
use std::alloc::{AllocError, Global};
use std::marker::Model;

/// A system over so many unknowns, the first of which are named constants: its constraints, each of
/// which is a row. Contracts see the number of unknowns and the list of rows.
#[derive(Drop)]
pub struct ConstraintSystem<'p> {
    vars: u32,
    constants: u32,
    // Where the values of the named constants are known, two rows for each, in front of the others.
    values: &'p [Parameter],
    rest: Vec<Constraint>,
}

impl<'p> Model for ConstraintSystem<'p> {
    ghost use Rattle.std.specs.Prelude.{◌≤◌, ◌++◌, IsTrue, length, map};
    ghost use Rattle.std.specs.List.{All};
    ghost use Rattle.farkas_cert.specs.Inequalities.{Inequalities};
    ghost use Rattle.nest_tree.specs.declared.tree.Parameter.{Parameter as Named};
    ghost use Rattle.nest_rows.specs.Constraints.{is_tame, system_of};
    ghost use Rattle.nest_rows.specs.Groups.{constants_have};

    ghost Value = { Inequalities };

    ghost view = { λ s. system_of s.vars
        (constants_have 1 (map (λ (p : Named). p.value) s.values.now) ++ s.rest.items) };

    ghost invariant = { λ s. (s.constants ≤ s.vars) × (length s.values.now ≤ s.constants)
        × All (λ c. IsTrue (is_tame c)) s.rest.items };
}

impl<'p> ConstraintSystem<'p> {
    ghost use Rattle.farkas_cert.specs.Inequalities.{Inequalities};

    /// No constraint yet, over so many unknowns, the first of which are named constants.
    pub fn empty(alloc: Global, vars: u32, constants: u32) -> Self
        requires { constants ≤ vars }
        ensures { result ≡ record { vars = vars; rows = [] } }
    {
        ConstraintSystem {
            vars,
            constants,
            values: &[],
            rest: Vec::new(alloc),
        }
    }

    /// One constraint more. Where memory runs out nothing has changed.
    pub fn push(&mut self, constraint: Constraint) -> Result<(), AllocError>
        requires { IsTrue (is_tame constraint) }
        ensures ok { OnOk result (HasMore (constraint ∷ []) self.old self.new) }
        ensures err { OnErr result (self.new ≡ self.old) }
    {
        self.rest.push(constraint)?;
        Ok(())
    }

    /// The values of the named constants, in front of all constraints. It takes no memory.
    pub fn push_constants(&mut self, params: &'p [Parameter])
        requires none { self.old.rows ≡ [] }
        requires few { length params.now ≤ self.old.vars }
        ensures { HasMore
            (constants_have 1 (map (λ (p : Named). p.value) params.now)) self.old self.new }
    {
        self.values = params;
        self.constants = params.len() as u32;
    }

    /// The system with all its rows and columns.
    pub fn dense(&self, alloc: Global) -> Result<NarrowSystem, AllocError>
        ensures { IfOk result (λ s. s ≡ self.now) }
    {
        let mut system = NarrowSystem::empty(alloc, self.vars);
        push_values(alloc, &mut system, self.values)?;
        push_rows(alloc, &mut system, self.rest.as_slice())?;
        Ok(system)
    }

    /// The system without the named constants that no constraint behind the values names, nor these
    /// unknowns.
    pub fn presolved(&self, alloc: Global, wanted: &[u32]) -> Result<Presolved, AllocError>
        ensures presolved { IfOk result (IsPresolved self.now) }
        ensures widened { IfOk result (Widens self.now) }
        ensures room { IfOk result (λ p. p.count < 2 ^ 62) }
        ensures wanted { IfOk result (λ p. (k : ℕ) → k < self.now.vars
            → is_kept wanted.now (k + 1) ≡ true → is_kept p.columns k ≡ true) }
    {
        let (vars, constants, rest) = (self.vars, self.constants, self.rest.as_slice());
        let valued = self.values.len();
        let kept = kept_constants(alloc, constants, valued as u32, rest, wanted)?;
        let columns = columns_of(alloc, kept.as_slice(), constants, vars)?;
        let mut rows = KeptRows {
            columns: columns.as_slice(),
            numbers: Vec::new(alloc),
            system: NarrowSystem::empty(alloc, columns.len() as u32),
        };
        rows.push_values(alloc, self.values, kept.as_slice())?;
        rows.push_all(alloc, 2 * valued as u64, rest)?;
        let KeptRows {
            numbers,
            system,
            ..
        } = rows;
        let count = (2 * valued + rest.len()) as u64;
        Ok(Presolved::new(vars, count, columns, numbers, system))
    }
}
