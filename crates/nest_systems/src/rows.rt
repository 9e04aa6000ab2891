// Constraints as rows of a system.

ghost use Rattle.std.specs.Prelude.{◌≡◌, pos, ◌<◌, ◌^◌, ◌++◌, [], ◌∷◌, IfOk, IsTrue, OnOk, length, map, replicate};
ghost use Rattle.std.specs.List.{All, list_all, range_with_len};
ghost use Rattle.nest_tree.specs.Form.{is_small};
ghost use Rattle.farkas_cert.specs.Combination.{is_narrow};
ghost use Rattle.farkas_cert.specs.Narrow.{IsNarrowRow};
ghost use Rattle.nest_rows.specs.Constraints.{coefficient as coefficient_in, is_tame, row_of};
ghost use Rattle.nest_rows.specs.Groups.{constants_have, equal as equal_of};
ghost use Rattle.nest_rows.specs.More.{HasMore};
ghost use Rattle.nest_rows.specs.declared.constraint.Sign.TheVariants.{Plus, Minus};
ghost use Rattle.nest_tree.specs.declared.tree.Parameter.{Parameter as Named};

use crate::groups::bounded;
use farkas_cert::system::INLINE;
use farkas_cert::{Coefs, NarrowSystem, Row};
use nest_rows::{Constraint, Sign};
use nest_tree::Parameter;
use smallvec::SmallVec;
use std::alloc::{AllocError, Global};

// Counts each term at its unknown's place, the first of which is that of unknown 1. One whose unknown has no
// place isn't counted.
fn count_terms(sums: &mut [i128], terms: &[(u32, i64)])
    requires none { sums.old ≡ replicate (length sums.old) (pos 0) }
    requires small { IsTrue (list_all (λ t. is_small t.1) terms.now) }
    ensures counted { sums.new
        ≡ map (coefficient_in terms.now) (range_with_len 1 (length sums.old)) }
    ensures narrow { All (λ a. IsTrue (is_narrow a)) sums.new }
{
    for (unknown, coefficient) in terms {
        let number = *unknown as usize;
        if number >= 1 && number <= sums.len() {
            sums[number - 1] += i128::from(*coefficient);
        }
    }
}

/// The row of a constraint, over so many unknowns.
pub fn row(alloc: Global, vars: u32, constraint: &Constraint) -> Result<Row, AllocError>
    requires { IsTrue (is_tame constraint.now) }
    ensures row { IfOk result (λ r. r ≡ row_of vars constraint.now) }
    ensures narrow { IfOk result (λ r. IsNarrowRow r) }
{
    let mut sums: SmallVec<i128, INLINE, Global> = SmallVec::from_elem(
        alloc,
        0i128,
        vars as usize,
    )?;
    count_terms(sums.as_mut_slice(), constraint.terms.as_slice());
    Ok(Row {
        coefs: Coefs::from_items(sums),
        bound: constraint.bound,
    })
}

// One row more. Where memory runs out nothing has changed.
fn push_row(
    alloc: Global,
    system: &mut NarrowSystem,
    constraint: &Constraint,
) -> Result<(), AllocError>
    requires { IsTrue (is_tame constraint.now) }
    ensures { OnOk result (HasMore (constraint.now ∷ []) system.old system.new) }
{
    let vars = system.as_system().vars();
    system.push(row(alloc, vars, constraint)?)
}

// An unknown has a value.
fn push_equal(
    alloc: Global,
    system: &mut NarrowSystem,
    number: u32,
    value: i64,
) -> Result<(), AllocError>
    ensures { OnOk result (HasMore (equal_of Plus number value ∷ equal_of Minus number value
        ∷ []) system.old system.new) }
{
    push_row(alloc, system, &bounded(alloc, Sign::Plus, number, value)?)?;
    push_row(alloc, system, &bounded(alloc, Sign::Minus, number, value)?)
}

// The rows of the named constants' values, behind the others.
pub(crate) fn push_values(
    alloc: Global,
    system: &mut NarrowSystem,
    params: &[Parameter],
) -> Result<(), AllocError>
    requires { length params.now < 2 ^ 32 }
    ensures { OnOk result
        (HasMore (constants_have 1 (map (λ (p : Named). p.value) params.now)) system.old
        system.new) }
{
    for (index, parameter) in params.iter().enumerate() {
        push_equal(alloc, system, index as u32 + 1, parameter.value)?;
    }
    Ok(())
}

// The rows of these constraints, behind the others.
pub(crate) fn push_rows(
    alloc: Global,
    system: &mut NarrowSystem,
    constraints: &[Constraint],
) -> Result<(), AllocError>
    requires { All (λ c. IsTrue (is_tame c)) constraints.now }
    ensures { OnOk result (HasMore constraints.now system.old system.new) }
{
    for constraint in constraints {
        push_row(alloc, system, constraint)?;
    }
    Ok(())
}
