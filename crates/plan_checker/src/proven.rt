// One proof of a plan for all programs that agree and meet its conditions.

ghost use Rattle.std.specs.Prelude.{◌≡◌, ◌≢◌, IfErr, IfOk, OnOk, Some, length, map};
ghost use Rattle.std.specs.Option.{IsNone};
ghost use Rattle.nest_tree.specs.View.{tree_of};
ghost use Rattle.nest_tree.specs.declared.tree.Parameter.{Parameter as Named};
ghost use Rattle.sync_plan.specs.Fit.{unmet_among};
ghost use Rattle.plan_checker.specs.Proved.{IsProved, first_other, first_unproved, value_rows};
ghost use Rattle.plan_checker.specs.declared.refusal.PlanRefusal.TheVariants.{NoMemory};

use crate::accept::failure;
use crate::fit::check_fit;
use crate::refusal::PlanRefusal;
use nest_agree::agrees;
use nest_tree::{Parameter, Program};
use plan_shape::wrong_field;
use std::alloc::Global;
use std::thread::Threads;
use sync_plan::{Conditions, Plan};

/// A plan with a program on which it was proved: it has the right shape, and each obligation has
/// its good certificate.
#[derive(Drop)]
pub struct Proven<'p> {
    pub program: &'p Program,
    pub plan: &'p Plan,
    ghost proved: { IsNone (first_unproved (tree_of program.now) plan.now) },
}

/// A plan, proved on a program; else the first reason why not: its shape, then its obligations by
/// number. What a check asks besides, where its anchors lie, who prints, and values of named
/// constants, is asked by [`Proven::fits`]. `NoMemory` says nothing of the plan.
pub fn prove<'p, R: Threads + Sync>(
    rt: &R,
    alloc: Global,
    program: &'p Program,
    plan: &'p Plan,
) -> Result<Proven<'p>, PlanRefusal>
    ensures proved { OnOk result (IsProved (tree_of program.entry.now) plan.entry.now) }
    ensures program { IfOk result (λ p. p.program.now ≡ program.entry.now) }
    ensures plan { IfOk result (λ p. p.plan.now ≡ plan.entry.now) }
    ensures refused { IfErr result (λ refusal. refusal ≢ NoMemory
        → first_unproved (tree_of program.entry.now) plan.entry.now ≡ Some refusal) }
{
    if let Some(field) = wrong_field(program, plan) {
        return Err(PlanRefusal::Shape(field));
    }
    match failure(rt, alloc, program, plan, None)? {
        None => Ok(Proven { program, plan }),
        Some(refusal) => Err(refusal),
    }
}

impl Proven<'_> {
    ghost use Rattle.std.specs.Result.{result_err};
    ghost use Rattle.plan_checker.specs.Accepted.{IsAccepted};
    ghost use Rattle.plan_checker.specs.Proved.{first_unfit};

    /// Whether the plan fits another program too, and so is accepted there; else the first reason
    /// why not: the programs don't agree, then as [`check_fit`], where the values of the first
    /// program's named constants count as conditions if the plan has none. It takes no memory.
    pub fn fits(&self, program: &Program) -> Result<(), PlanRefusal>
        ensures refused { result_err result
            ≡ first_unfit (tree_of self.now.program.now) self.now.plan.now (tree_of program.now) }
        ensures accepted { OnOk result (IsAccepted (tree_of program.now) self.now.plan.now) }
    {
        if !agrees(self.program, program) {
            return Err(PlanRefusal::Differs);
        }
        if let Err(refusal) = check_fit(program, self.plan) {
            return Err(refusal);
        }
        match first_other(&self.program.params, &self.plan.conditions, &program.params) {
            Some(row) => Err(PlanRefusal::Condition(row)),
            None => Ok(()),
        }
    }
}

// The first row, from 1, of those that say that named constants have the first values, which the
// second don't meet; a plan with rows of its own asks for those alone.
fn first_other(values: &[Parameter], conditions: &Conditions, others: &[Parameter]) -> Option<u64>
    requires { length values.now ≡ length others.now }
    ensures { result ≡ first_other (map (λ (p : Named). p.value) values.now) conditions.now
        (map (λ (p : Named). p.value) others.now) }
{
    match conditions {
        Conditions::Values => other_value(values, others),
        Conditions::Rows(_) => None,
    }
}

// Of each constant one row says that it is at most the value, and the next that it is at least it.
fn other_value(values: &[Parameter], others: &[Parameter]) -> Option<u64>
    requires { length values.now ≡ length others.now }
    ensures { result ≡ unmet_among 1 (map (λ (p : Named). p.value) others.now)
        (value_rows 1 (map (λ (p : Named). p.value) values.now)) }
{
    for (place, constant) in values.iter().enumerate() {
        let row = 2 * place as u64 + 1;
        if others[place].value > constant.value {
            return Some(row);
        }
        if others[place].value < constant.value {
            return Some(row + 1);
        }
    }
    None
}
