// A loop round the first store of a private scalar, which must make a trip.

ghost use Rattle.std.specs.Prelude.{◌<◌, length};

use crate::obligation::{Obligation, Topic};
use crate::rows::push_conditions;
use conflict_rules::reference::Reference;
use nest_rows::{Around, Sign};
use nest_systems::ConstraintSystem;
use nest_systems::groups::{differ, push_loops};
use nest_tree::{Nest, Program};
use presolve::Presolved;
use std::alloc::{AllocError, Global};
use sync_plan::Plan;

/// A loop round a store, by how many of the loops round the store stand outside it.
#[derive(Clone, Copy)]
pub struct PathLoop<'b, 'a> {
    pub store: &'b Reference<'a>,
    pub outside: usize,
    ghost inside: { outside < length store.now.around.items },
}

impl<'b, 'a> PathLoop<'b, 'a> {
    ghost use Rattle.std.specs.Prelude.{◌≡◌, ◌+◌, ◌*◌, ◌-◌, ◌^◌, ◌≤◌, IfErr, IfOk, None, Some, pos, slice_get, take};
    ghost use Rattle.farkas_cert.specs.Narrow.{AreNarrow};
    ghost use Rattle.presolve.specs.Presolution.{IsPresolved};
    ghost use Rattle.nest_systems.specs.Widened.{Widens};
    ghost use Rattle.farkas_cert.specs.Inequalities.{Inequalities};
    ghost use Rattle.comm_system.specs.SystemViews.{about};
    ghost use Rattle.nest_tree.specs.View.{head_of, tree_of};
    ghost use Rattle.nest_rows.specs.Views.{heads_of};
    ghost use Rattle.sync_plan.specs.Shape.{wrong_field};
    ghost use Rattle.comm_system.specs.Obligations.{numbered, zero_trip_task};
    ghost use Rattle.comm_system.specs.PairRows.{first_of};
    ghost use Rattle.comm_system.specs.Paths.{line_of, loops_from};
    ghost use Rattle.conflict_rules.specs.References.{variable_of};
    ghost use Rattle.conflict_rules.specs.Seen.{target_seen};
    ghost use Rattle.comm_system.specs.SubjectViews.{path_loop_seen};

    /// The loop.
    pub fn nest(&self) -> &'a Nest
        ensures { slice_get (heads_of self.now.store.now.around.items) self.now.outside
            ≡ Some (head_of result.now) }
    {
        self.store.around[self.outside].nest
    }

    // The loops outside it, from the outermost.
    fn around(&self) -> &'b [Around<'a>]
        ensures { result.now ≡ take self.now.outside self.now.store.now.around.items }
    {
        &self.store.around[..self.outside]
    }

    // The number of the first unknown of the loops outside it, and how many unknowns they have: the
    // value and the trip of each. 2^29 and more may have no room; want of memory is no other one.
    fn unknowns(&self, program: &Program) -> Result<(u32, u32), AllocError>
        ensures first { IfOk result (λ n. n.0 ≡ first_of (tree_of program.now)) }
        ensures count { IfOk result (λ n. n.1 ≡ 2 * self.now.outside) }
        ensures few { IfOk result (λ n. n.0 + n.1 < 2 ^ 31) }
        ensures only { IfErr result
            (λ _. 2 ^ 29 ≤ length (tree_of program.now).params + 2 * self.now.outside) }
    {
        let constants = program.params.len();
        if constants >= 536_870_912 || self.outside >= 268_435_456 {
            return Err(AllocError);
        }
        Ok((constants as u32 + 1, 2 * self.outside as u32))
    }

    // The system that it makes no trip where those outside it are at trips of theirs: with the sign of
    // its step, its end lies in front of its beginning.
    fn system<'p>(
        &self,
        alloc: Global,
        program: &'p Program,
        plan: &Plan,
    ) -> Result<ConstraintSystem<'p>, AllocError>
        requires { wrong_field (tree_of program.now) plan.now ≡ None }
        ensures made { IfOk result (λ s. s ≡ (zero_trip_task (tree_of program.now) plan.now
            (path_loop_seen self.now)).system) }
        ensures few { IfOk result (λ s. s.vars < 2 ^ 32 - 1) }
    {
        let (first, count) = self.unknowns(program)?;
        let nest = self.nest();
        let mut system = ConstraintSystem::empty(alloc, first + count - 1, first - 1);
        push_conditions(alloc, &mut system, program, &plan.conditions)?;
        push_loops(alloc, &mut system, first, self.around())?;
        let sides = (&nest.m2, &nest.m1);
        let row = differ(
            alloc,
            Sign::of_step(nest.step),
            first,
            self.around(),
            sides,
            -1,
        )?;
        system.push(row)?;
        Ok(system)
    }

    // What its obligation, with this number, speaks of.
    fn topic(&self, number: u64) -> Topic
        ensures { result ≡ record {
          number = number;
          lines = (line_of (loops_from (path_loop_seen self.now)), self.now.store.now.line);
          variable = variable_of (target_seen self.now.store.now.target);
          level = 0;
          piece = 0;
          range = (pos 0, pos 0);
        } }
    {
        Topic {
            number,
            lines: (self.nest().line, self.store.line),
            variable: self.store.target.variable(),
            level: 0,
            piece: 0,
            range: (0, 0),
        }
    }

    /// The obligation, with this number, that it makes no trip.
    pub fn obligation(
        &self,
        alloc: Global,
        program: &Program,
        plan: &Plan,
        number: u64,
    ) -> Result<Obligation, AllocError>
        requires { wrong_field (tree_of program.now) plan.now ≡ None }
        ensures made { IfOk result (λ o. o ≡ numbered number (zero_trip_task (tree_of program.now)
            plan.now (path_loop_seen self.now))) }
        ensures narrow { IfOk result (λ o. AreNarrow o.system.rows) }
        ensures few { IfOk result (λ o. o.system.vars < 2 ^ 32 - 1) }
    {
        let system = self.system(alloc, program, plan)?;
        let dense = system.dense(alloc)?.into_system();
        Ok(self.topic(number).obligation(dense))
    }

    /// What it speaks of, and what is left of its system.
    pub fn presolved(
        &self,
        alloc: Global,
        program: &Program,
        plan: &Plan,
        number: u64,
    ) -> Result<(Topic, Presolved), AllocError>
        requires { wrong_field (tree_of program.now) plan.now ≡ None }
        ensures made { IfOk result (λ r. (whole : Inequalities)
            × (about r.0 whole ≡ numbered number (zero_trip_task (tree_of program.now) plan.now
            (path_loop_seen self.now))) × IsPresolved whole r.1 × Widens whole r.1) }
        ensures few { IfOk result (λ r. r.1.system.vars < 2 ^ 32 - 1) }
    {
        let system = self.system(alloc, program, plan)?;
        let presolved = system.presolved(alloc, &[])?;
        Ok((self.topic(number), presolved))
    }
}
