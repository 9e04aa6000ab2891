// What holds of an instance, as rows.

ghost use Rattle.std.specs.Prelude.{◌≡◌, ◌+◌, ◌*◌, ◌-ℤ◌, neg_ℤ, ◌<◌, ◌-◌, ◌^◌, [], ◌∷◌, IfOk, IsTrue, OnOk, length};
ghost use Rattle.std.specs.List.{list_all};
ghost use Rattle.nest_tree.specs.Form.{is_small};
ghost use Rattle.nest_tree.specs.Tree.{Head};
ghost use Rattle.nest_tree.specs.View.{head_of};
ghost use Rattle.nest_rows.specs.Constraints.{is_tame};
ghost use Rattle.nest_rows.specs.Groups.{at_most as at_most_of, counted as counted_of, differ as differ_of, equal as equal_of, compare_so, loop_has, loops_have, not_past as not_past_of, on_trip as on_trip_of};
ghost use Rattle.nest_rows.specs.More.{HasMore};
ghost use Rattle.nest_rows.specs.declared.constraint.Sign.TheVariants.{Plus, Minus};
ghost use Rattle.nest_rows.specs.Signs.{flipped, signed};
ghost use Rattle.nest_rows.specs.Views.{heads_of};
ghost use Rattle.farkas_cert.specs.Combination.{is_narrow};

use crate::constraint_system::ConstraintSystem;
use nest_rows::terms::push_form;
use nest_rows::{Around, Constraint, Sign};
use nest_tree::{Affine, Compare, Guard, Nest, Pairs};
use std::alloc::{AllocError, Global};

/// An unknown, with this sign, is at most a value, with this sign.
pub fn bounded(alloc: Global, sign: Sign, number: u32, value: i64) -> Result<Constraint, AllocError>
    ensures is { IfOk result (λ c. c ≡ equal_of sign number value) }
    ensures tame { IfOk result (λ c. IsTrue (is_tame c)) }
{
    let mut terms = Pairs::new(alloc);
    terms.push(number, sign.of(1))?;
    Ok(Constraint {
        terms,
        bound: sign.of_wide(value),
    })
}

// What is left of a bound, without these constants.
fn less(most: i64, sign: Sign, constant: i64) -> i128
    ensures value { result ≡ most -ℤ signed sign constant }
    ensures narrow { IsTrue (is_narrow result) }
{
    i128::from(most) - sign.of_wide(constant)
}

fn less_both(most: i64, sign: Sign, left: i64, right: i64) -> i128
    ensures value { result ≡ most -ℤ signed sign left -ℤ signed (flipped sign) right }
    ensures narrow { IsTrue (is_narrow result) }
{
    match sign {
        Sign::Plus => i128::from(most) - i128::from(left) + i128::from(right),
        Sign::Minus => i128::from(most) + i128::from(left) - i128::from(right),
    }
}

/// A form inside these loops, with this sign, is at most a number.
pub fn at_most(
    alloc: Global,
    sign: Sign,
    first: u32,
    around: &[Around],
    form: &Affine,
    most: i64,
) -> Result<Constraint, AllocError>
    requires { first + 2 * length around.now < 2 ^ 32 }
    ensures is { IfOk result (λ c. c ≡ at_most_of sign first (heads_of around.now) form.now most) }
    ensures tame { IfOk result (λ c. IsTrue (is_tame c)) }
{
    let mut terms = Pairs::new(alloc);
    push_form(&mut terms, sign, first, around, form)?;
    Ok(Constraint {
        terms,
        bound: less(most, sign, form.constant()),
    })
}

// A step, with the other sign.
fn opposite(step: i64) -> i64
    requires { IsTrue (is_small step) }
    ensures value { result ≡ neg_ℤ step }
    ensures small { IsTrue (is_small result) }
{
    -step
}

// A loop's value is that of its trip, each side with this sign.
fn on_trip(
    alloc: Global,
    sign: Sign,
    first: u32,
    around: &[Around],
    place: u32,
    nest: &Nest,
) -> Result<Constraint, AllocError>
    requires room { first + 2 * length around.now < 2 ^ 32 }
    requires place { place + 1 < 2 ^ 32 }
    requires step { IsTrue (is_small nest.now.step) }
    ensures is { IfOk result (λ c. c ≡ on_trip_of sign first (heads_of around.now) place
        (head_of nest.now)) }
    ensures tame { IfOk result (λ c. IsTrue (is_tame c)) }
{
    let mut terms = Pairs::new(alloc);
    terms.push(place, sign.of(1))?;
    terms.push(place + 1, sign.of(opposite(nest.step)))?;
    push_form(&mut terms, sign.flipped(), first, around, &nest.m1)?;
    Ok(Constraint {
        terms,
        bound: sign.of_wide(nest.m1.constant()),
    })
}

// A loop's value doesn't pass its last one.
fn not_past(
    alloc: Global,
    first: u32,
    around: &[Around],
    place: u32,
    nest: &Nest,
) -> Result<Constraint, AllocError>
    requires { first + 2 * length around.now < 2 ^ 32 }
    ensures is { IfOk result (λ c. c ≡ not_past_of first (heads_of around.now) place
        (head_of nest.now)) }
    ensures tame { IfOk result (λ c. IsTrue (is_tame c)) }
{
    let sign = Sign::of_step(nest.step);
    let mut terms = Pairs::new(alloc);
    terms.push(place, sign.of(1))?;
    push_form(&mut terms, sign.flipped(), first, around, &nest.m2)?;
    Ok(Constraint {
        terms,
        bound: sign.of_wide(nest.m2.constant()),
    })
}

// A loop's trip is at least 0.
fn counted(alloc: Global, place: u32) -> Result<Constraint, AllocError>
    requires { place + 1 < 2 ^ 32 }
    ensures is { IfOk result (λ c. c ≡ counted_of place) }
    ensures tame { IfOk result (λ c. IsTrue (is_tame c)) }
{
    let mut terms = Pairs::new(alloc);
    terms.push(place + 1, -1)?;
    Ok(Constraint { terms, bound: 0 })
}

/// The difference of two forms inside these loops, with this sign, is at most a number.
pub fn differ(
    alloc: Global,
    sign: Sign,
    first: u32,
    around: &[Around],
    sides: (&Affine, &Affine),
    most: i64,
) -> Result<Constraint, AllocError>
    requires { first + 2 * length around.now < 2 ^ 32 }
    ensures is { IfOk result (λ c. c
        ≡ differ_of sign first (heads_of around.now) sides.entry.0.now sides.entry.1.now most) }
    ensures tame { IfOk result (λ c. IsTrue (is_tame c)) }
{
    let (left, right) = sides;
    let mut terms = Pairs::new(alloc);
    push_form(&mut terms, sign, first, around, left)?;
    push_form(&mut terms, sign.flipped(), first, around, right)?;
    Ok(Constraint {
        terms,
        bound: less_both(most, sign, left.constant(), right.constant()),
    })
}

// A loop, whose value has this number, is at one of its trips.
fn push_loop(
    alloc: Global,
    system: &mut ConstraintSystem,
    first: u32,
    around: &[Around],
    place: u32,
    nest: &Nest,
) -> Result<(), AllocError>
    requires room { first + 2 * length around.now < 2 ^ 32 }
    requires place { place + 1 < 2 ^ 32 }
    requires step { IsTrue (is_small nest.now.step) }
    ensures { OnOk result
        (HasMore (loop_has first (heads_of around.now) place
        (head_of nest.now)) system.old system.new) }
{
    system.push(on_trip(alloc, Sign::Plus, first, around, place, nest)?)?;
    system.push(on_trip(alloc, Sign::Minus, first, around, place, nest)?)?;
    system.push(counted(alloc, place)?)?;
    system.push(not_past(alloc, first, around, place, nest)?)
}

/// The rows of these loops, behind the others: the value of the outermost has the number `first`.
pub fn push_loops(
    alloc: Global,
    system: &mut ConstraintSystem,
    first: u32,
    around: &[Around],
) -> Result<(), AllocError>
    requires room { first + 2 * length around.now < 2 ^ 32 }
    requires steps { IsTrue (list_all (λ (h : Head). is_small h.step) (heads_of around.now)) }
    ensures { OnOk result
        (HasMore (loops_have first (heads_of around.now) first
        (heads_of around.now)) system.old system.new) }
{
    for (index, one) in around.iter().enumerate() {
        push_loop(
            alloc,
            system,
            first,
            around,
            first + 2 * index as u32,
            one.nest,
        )?;
    }
    Ok(())
}

// The difference of a comparison's sides, with this sign, is at most a number.
fn push_differ(
    alloc: Global,
    system: &mut ConstraintSystem,
    sign: Sign,
    first: u32,
    around: &[Around],
    guard: &Guard,
    most: i64,
) -> Result<(), AllocError>
    requires { first + 2 * length around.now < 2 ^ 32 }
    ensures { OnOk result
        (HasMore (differ_of sign first (heads_of around.now) guard.now.left guard.now.right most
        ∷ []) system.old system.new) }
{
    let sides = (&guard.left, &guard.right);
    system.push(differ(alloc, sign, first, around, sides, most)?)
}

/// The rows of a comparison inside these loops, behind the others.
pub fn push_guard(
    alloc: Global,
    system: &mut ConstraintSystem,
    first: u32,
    around: &[Around],
    guard: &Guard,
) -> Result<(), AllocError>
    requires { first + 2 * length around.now < 2 ^ 32 }
    ensures { OnOk result
        (HasMore
        (compare_so guard.now.op first (heads_of around.now) guard.now.left guard.now.right)
        system.old system.new) }
{
    match guard.op {
        Compare::Lt => push_differ(alloc, system, Sign::Plus, first, around, guard, -1),
        Compare::Le => push_differ(alloc, system, Sign::Plus, first, around, guard, 0),
        Compare::Eq => {
            push_differ(alloc, system, Sign::Plus, first, around, guard, 0)?;
            push_differ(alloc, system, Sign::Minus, first, around, guard, 0)
        }
        Compare::Ge => push_differ(alloc, system, Sign::Minus, first, around, guard, 0),
        Compare::Gt => push_differ(alloc, system, Sign::Minus, first, around, guard, -1),
    }
}
