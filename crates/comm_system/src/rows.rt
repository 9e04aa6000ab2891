// The rows of two instances that access one element.

ghost use Rattle.std.specs.Prelude.{◌≡◌, ◌+◌, ◌-ℤ◌, ◌*◌, ◌++◌, ◌<◌, ◌≤◌, ◌^◌, [], ◌∷◌, ℕ, pos, IfOk, IfSome, IsTrue, MatchOption, OnOk, length, map};
ghost use Rattle.std.specs.List.{list_all};
ghost use Rattle.nest_tree.specs.Form.{is_small};
ghost use Rattle.nest_tree.specs.Layout.{bounds_of as bounds_in};
ghost use Rattle.nest_tree.specs.Tree.{param_values};
ghost use Rattle.nest_tree.specs.View.{head_of, tree_of};
ghost use Rattle.farkas_cert.specs.Combination.{is_narrow};
ghost use Rattle.nest_rows.specs.Constraints.{is_tame};
ghost use Rattle.nest_rows.specs.More.{HasMore};
ghost use Rattle.nest_rows.specs.Views.{heads_of};
ghost use Rattle.nest_rows.specs.Signs.{signed, with_sign};
ghost use Rattle.nest_rows.specs.declared.constraint.Sign.TheVariants.{Minus, Plus};
ghost use Rattle.sync_plan.specs.Shape.{are_good_conditions, is_good_row};
ghost use Rattle.sync_plan.specs.declared.plan.Version.{Version};
ghost use Rattle.comm_system.specs.PairRows.{apart as apart_of, behind_pair, conditions_have, first_of, free_bounds as free_bounds_of, free_have, free_sums as free_sums_of, instance_has, last_has, no_more as no_more_of, ordered_so, pair_rows, past_next as past_next_of, same_element, same_loops, second_of, subscripts_of, sum_of, unknowns_of};
ghost use Rattle.comm_system.specs.Seen.{pair_of};
ghost use Rattle.conflict_rules.specs.Seen.{reference_seen, target_seen};
ghost use Rattle.conflict_rules.specs.SmallSteps.{are_small_steps};
ghost use Rattle.comm_system.specs.RowViews.{bounds_have, condition_of, free_at, is_small_sum, order_seen, sum_seen};

use conflict_rules::reference::{Reference, Target};
use nest_rows::terms::push_form;
use nest_rows::{Around, Constraint, Sign};
use nest_systems::ConstraintSystem;
use nest_systems::groups::{bounded, push_guard, push_loops};
use nest_tree::{Affine, Nest, Pairs, Program};
use std::alloc::{AllocError, Global};
use sync_plan::{ConditionRow, Conditions};

/// How the loops round two instances stand: so many from the outermost are equal, and whether the
/// next one is at an earlier trip in the first.
#[derive(Clone, Copy)]
pub struct Order {
    pub equal: u32,
    pub earlier: bool,
}

// A subscript: terms and a constant.
#[derive(Drop)]
pub(crate) struct Sum {
    terms: Pairs,
    constant: i64,
}

// The terms with this sign, behind the others.
fn push_signed(terms: &mut Pairs, sign: Sign, more: &[(u32, i64)]) -> Result<(), AllocError>
    requires small { IsTrue (list_all (λ p. is_small p.1) more.now) }
    requires before { IsTrue (list_all (λ p. is_small p.1) terms.old) }
    ensures small { OnOk result (IsTrue (list_all (λ p. is_small p.1) terms.new)) }
    ensures terms { OnOk result (terms.new ≡ terms.old ++ with_sign sign more.now) }
{
    for &(unknown, coefficient) in more {
        terms.push(unknown, sign.of(coefficient))?;
    }
    Ok(())
}

// The difference of two unknowns, with this sign, is at most a number.
pub(crate) fn apart(
    alloc: Global,
    sign: Sign,
    m: u32,
    n: u32,
    most: i64,
) -> Result<Constraint, AllocError>
    ensures is { IfOk result (λ c. c ≡ apart_of sign m n most) }
    ensures tame { IfOk result (λ c. IsTrue (is_tame c)) }
{
    let mut terms = Pairs::new(alloc);
    terms.push(m, sign.of(1))?;
    terms.push(n, sign.of(-1))?;
    Ok(Constraint {
        terms,
        bound: i128::from(most),
    })
}

// One unknown, with this coefficient, is at most a number.
pub(crate) fn single(
    alloc: Global,
    unknown: u32,
    coefficient: i64,
    most: i128,
) -> Result<Constraint, AllocError>
    requires small { IsTrue (is_small coefficient) }
    requires narrow { IsTrue (is_narrow most) }
    ensures is { IfOk result (λ c. c ≡ record {
      terms = (unknown, coefficient)
          ∷ [];
      bound = most;
    }) }
    ensures tame { IfOk result (λ c. IsTrue (is_tame c)) }
{
    let mut terms = Pairs::new(alloc);
    terms.push(unknown, coefficient)?;
    Ok(Constraint { terms, bound: most })
}

// The conditions on the named constants, behind the others.
pub(crate) fn push_conditions<'p>(
    alloc: Global,
    system: &mut ConstraintSystem<'p>,
    program: &'p Program,
    conditions: &Conditions,
) -> Result<(), AllocError>
    requires none { system.old.rows ≡ [] }
    requires room { length (tree_of program.now).params ≤ system.old.vars }
    requires good { (constants : ℕ) × (version : Version)
        × IsTrue (are_good_conditions constants version conditions.now) }
    ensures { OnOk result
        (HasMore (conditions_have (param_values (tree_of program.now)) conditions.now) system.old
        system.new) }
{
    match conditions {
        Conditions::Values => {
            system.push_constants(&program.params);
            Ok(())
        }
        Conditions::Rows(rows) => push_condition_rows(alloc, system, rows.as_slice()),
    }
}

// Rows of conditions, behind the others.
fn push_condition_rows(
    alloc: Global,
    system: &mut ConstraintSystem,
    rows: &[ConditionRow],
) -> Result<(), AllocError>
    requires { (constants : ℕ) × IsTrue (list_all (is_good_row constants) rows.now) }
    ensures { OnOk result (HasMore (map condition_of rows.now) system.old system.new) }
{
    for row in rows {
        push_condition(alloc, system, row)?;
    }
    Ok(())
}

// A row of the conditions.
fn push_condition(
    alloc: Global,
    system: &mut ConstraintSystem,
    row: &ConditionRow,
) -> Result<(), AllocError>
    requires { (constants : ℕ) × IsTrue (is_good_row constants row.now) }
    ensures { OnOk result (HasMore (condition_of row.now ∷ []) system.old system.new) }
{
    system.push(condition(alloc, row)?)
}

fn condition(alloc: Global, row: &ConditionRow) -> Result<Constraint, AllocError>
    requires { (constants : ℕ) × IsTrue (is_good_row constants row.now) }
    ensures is { IfOk result (λ c. c ≡ condition_of row.now) }
    ensures tame { IfOk result (λ c. IsTrue (is_tame c)) }
{
    let mut terms = Pairs::new(alloc);
    push_signed(&mut terms, Sign::Plus, row.coefs.as_slice())?;
    let bound = Sign::Plus.of_wide(row.bound);
    Ok(Constraint { terms, bound })
}

// The bounds of the variable with this number, from 1; none where there is no such variable.
fn bounds_of(program: &Program, variable: u32) -> &[(i64, i64)]
    ensures { result.now ≡ bounds_in (tree_of program.now) variable }
{
    let place = (variable as usize).saturating_sub(1);
    if place < program.variables.len() {
        program.variables[place].bounds.as_slice()
    } else {
        &[]
    }
}

// The bounds of the dimensions whose subscripts are free.
fn free_bounds<'a>(program: &'a Program, target: Target) -> &'a [(i64, i64)]
    ensures { result.now ≡ free_bounds_of (tree_of program.now) (target_seen target.entry) }
{
    match target {
        Target::Element(_) => &[],
        Target::Whole(variable) => bounds_of(program, variable),
    }
}

// How many unknowns an access has: the value and the trip of each loop, and its free subscripts.
// None where they are 2^29 and more.
pub(crate) fn unknowns(program: &Program, reference: &Reference) -> Option<u32>
    ensures count { MatchOption result (2 ^ 29 ≤ unknowns_of (tree_of program.now)
        (reference_seen reference.now)) (λ n. n ≡ unknowns_of (tree_of program.now)
        (reference_seen reference.now)) }
    ensures few { IfSome result (λ n. n < 2 ^ 29) }
{
    let loops = reference.around.len();
    let free = free_bounds(program, reference.target).len();
    let count = loops.saturating_mul(2).saturating_add(free);
    if count < 536_870_912 {
        Some(count as u32)
    } else {
        None
    }
}

// The free subscripts, from this unknown on, lie within their bounds.
fn push_free(
    alloc: Global,
    system: &mut ConstraintSystem,
    first: u32,
    bounds: &[(i64, i64)],
) -> Result<(), AllocError>
    requires { first + length bounds.now < 2 ^ 32 }
    ensures { OnOk result (HasMore (free_have first bounds.now) system.old system.new) }
{
    for index in 0..bounds.len() {
        push_bounds(alloc, system, first + index as u32, bounds[index])?;
    }
    Ok(())
}

// An unknown lies within these bounds.
fn push_bounds(
    alloc: Global,
    system: &mut ConstraintSystem,
    unknown: u32,
    bounds: (i64, i64),
) -> Result<(), AllocError>
    ensures { OnOk result (HasMore (bounds_have unknown bounds) system.old system.new) }
{
    let (low, high) = bounds;
    system.push(bounded(alloc, Sign::Plus, unknown, high)?)?;
    system.push(bounded(alloc, Sign::Minus, unknown, low)?)
}

// An access, the first unknown of whose instance has this number; and where it is made in the last
// trip of a loop alone, how many of the loops round it stand outside that one.
#[derive(Clone, Copy)]
pub(crate) struct Instance<'b, 'a> {
    pub(crate) first: u32,
    pub(crate) reference: &'b Reference<'a>,
    pub(crate) last: Option<usize>,
}

// An access's instance: its loops, whose first value has this number, its free subscripts, its
// comparison, and the last trip.
fn push_instance(
    alloc: Global,
    system: &mut ConstraintSystem,
    program: &Program,
    instance: Instance,
) -> Result<(), AllocError>
    requires room { instance.first + unknowns_of (tree_of program.now)
        (reference_seen instance.reference.now) < 2 ^ 32 }
    requires steps { IsTrue (are_small_steps (heads_of instance.reference.now.around.items)) }
    ensures { OnOk result
        (HasMore (instance_has (tree_of program.now) instance.entry.first instance.entry.last
        (reference_seen instance.entry.reference.now)) system.old system.new) }
{
    let Instance {
        first,
        reference,
        last,
    } = instance;
    let around = reference.around.as_slice();
    push_loops(alloc, system, first, around)?;
    let free = first + 2 * around.len() as u32;
    push_free(alloc, system, free, free_bounds(program, reference.target))?;
    if let Some(guard) = reference.guard {
        push_guard(alloc, system, first, around, guard)?;
    }
    push_last_trip(alloc, system, first, around, last)
}

// Of these loops, whose first value has this number, that inside so many is in its last trip, where
// an access is made in that alone.
fn push_last_trip(
    alloc: Global,
    system: &mut ConstraintSystem,
    first: u32,
    around: &[Around],
    last: Option<usize>,
) -> Result<(), AllocError>
    requires room { first + 2 * length around.now < 2 ^ 32 }
    requires steps { IsTrue (are_small_steps (heads_of around.now)) }
    ensures { OnOk result
        (HasMore (last_has last first (heads_of around.now)) system.old system.new) }
{
    let Some(outside) = last else {
        return Ok(());
    };
    match around.get(outside) {
        Some(dealt) => {
            let place = first + 2 * outside as u32;
            let row = past_next(alloc, first, around, place, dealt.nest)?;
            system.push(row)
        }
        None => Ok(()),
    }
}

// A loop's value, which has this number, is past the loop's end with one step more.
fn past_next(
    alloc: Global,
    first: u32,
    around: &[Around],
    place: u32,
    nest: &Nest,
) -> Result<Constraint, AllocError>
    requires room { first + 2 * length around.now < 2 ^ 32 }
    requires step { IsTrue (is_small nest.now.step) }
    ensures is { IfOk result (λ c. c ≡ past_next_of first (heads_of around.now) place
        (head_of nest.now)) }
    ensures tame { IfOk result (λ c. IsTrue (is_tame c)) }
{
    let sign = Sign::of_step(nest.step);
    let mut terms = Pairs::new(alloc);
    terms.push(place, sign.flipped().of(1))?;
    push_form(&mut terms, sign, first, around, &nest.m2)?;
    Ok(Constraint {
        terms,
        bound: past_bound(sign, nest.step, nest.m2.constant()),
    })
}

// What is left of a step less one, without the constant of a loop's end.
fn past_bound(sign: Sign, step: i64, constant: i64) -> i128
    ensures value { result ≡ signed sign step -ℤ pos 1 -ℤ signed sign constant }
    ensures narrow { IsTrue (is_narrow result) }
{
    match sign {
        Sign::Plus => i128::from(step) - 1 - i128::from(constant),
        Sign::Minus => i128::from(constant) - 1 - i128::from(step),
    }
}

// The subscripts of an access, dimension by dimension.
fn subscripts(
    alloc: Global,
    program: &Program,
    first: u32,
    reference: &Reference,
) -> Result<Vec<Sum>, AllocError>
    requires { first + unknowns_of (tree_of program.now) (reference_seen reference.now) < 2 ^ 32 }
    ensures sums { IfOk result (λ sums. map sum_seen sums.items
        ≡ subscripts_of (tree_of program.now) first (reference_seen reference.now).around
        (reference_seen reference.now).what) }
    ensures small { IfOk result (λ sums. IsTrue (list_all is_small_sum sums.items)) }
{
    let around = reference.around.as_slice();
    match reference.target {
        Target::Element(access) => form_sums(alloc, first, around, access.subscripts.as_slice()),
        Target::Whole(variable) => {
            let free = first + 2 * around.len() as u32;
            free_sums(alloc, free, bounds_of(program, variable))
        }
    }
}

// Forms inside these loops, whose first value has this number.
fn form_sums(
    alloc: Global,
    first: u32,
    around: &[Around],
    forms: &[Affine],
) -> Result<Vec<Sum>, AllocError>
    requires { first + 2 * length around.now < 2 ^ 32 }
    ensures sums { IfOk result (λ sums. map sum_seen sums.items
        ≡ map (sum_of first (heads_of around.now)) forms.now) }
    ensures small { IfOk result (λ sums. IsTrue (list_all is_small_sum sums.items)) }
{
    let mut sums = Vec::new(alloc);
    for form in forms {
        sums.push(form_sum(alloc, first, around, form)?)?;
    }
    Ok(sums)
}

fn form_sum(alloc: Global, first: u32, around: &[Around], form: &Affine) -> Result<Sum, AllocError>
    requires { first + 2 * length around.now < 2 ^ 32 }
    ensures sum { IfOk result (λ s. sum_seen s ≡ sum_of first (heads_of around.now) form.now) }
    ensures small { IfOk result (λ s. IsTrue (is_small_sum s)) }
{
    let mut terms = Pairs::new(alloc);
    push_form(&mut terms, Sign::Plus, first, around, form)?;
    let constant = form.constant();
    Ok(Sum { terms, constant })
}

// Free subscripts from this unknown on, as many as there are bounds.
fn free_sums(alloc: Global, first: u32, bounds: &[(i64, i64)]) -> Result<Vec<Sum>, AllocError>
    requires { first + length bounds.now < 2 ^ 32 }
    ensures sums { IfOk result (λ sums. map sum_seen sums.items ≡ free_sums_of first bounds.now) }
    ensures small { IfOk result (λ sums. IsTrue (list_all is_small_sum sums.items)) }
{
    let mut sums = Vec::new(alloc);
    for index in 0..bounds.len() {
        sums.push(free_sum(alloc, first + index as u32)?)?;
    }
    Ok(sums)
}

fn free_sum(alloc: Global, unknown: u32) -> Result<Sum, AllocError>
    ensures sum { IfOk result (λ s. sum_seen s ≡ free_at unknown) }
    ensures small { IfOk result (λ s. IsTrue (is_small_sum s)) }
{
    let mut terms = Pairs::new(alloc);
    terms.push(unknown, 1)?;
    Ok(Sum { terms, constant: 0 })
}

// A difference of subscripts, with this sign, is at most 0.
fn no_more(alloc: Global, sign: Sign, x: &Sum, y: &Sum) -> Result<Constraint, AllocError>
    requires left { IsTrue (is_small_sum x.now) }
    requires right { IsTrue (is_small_sum y.now) }
    ensures is { IfOk result (λ c. c ≡ no_more_of sign (sum_seen x.now) (sum_seen y.now)) }
    ensures tame { IfOk result (λ c. IsTrue (is_tame c)) }
{
    let mut terms = Pairs::new(alloc);
    push_signed(&mut terms, sign, x.terms.as_slice())?;
    push_signed(&mut terms, sign.flipped(), y.terms.as_slice())?;
    let bound = match sign {
        Sign::Plus => i128::from(y.constant) - i128::from(x.constant),
        Sign::Minus => i128::from(x.constant) - i128::from(y.constant),
    };
    Ok(Constraint { terms, bound })
}

// The subscripts are equal, dimension by dimension.
fn push_same_element(
    alloc: Global,
    system: &mut ConstraintSystem,
    xs: &[Sum],
    ys: &[Sum],
) -> Result<(), AllocError>
    requires left { IsTrue (list_all is_small_sum xs.now) }
    requires right { IsTrue (list_all is_small_sum ys.now) }
    ensures { OnOk result
        (HasMore (same_element (map sum_seen xs.now) (map sum_seen ys.now)) system.old system.new) }
{
    for (index, x) in xs.iter().enumerate() {
        if index >= ys.len() {
            return Ok(());
        }
        push_same(alloc, system, x, &ys[index])?;
    }
    Ok(())
}

// Two subscripts are equal.
fn push_same(
    alloc: Global,
    system: &mut ConstraintSystem,
    x: &Sum,
    y: &Sum,
) -> Result<(), AllocError>
    requires left { IsTrue (is_small_sum x.now) }
    requires right { IsTrue (is_small_sum y.now) }
    ensures { OnOk result (HasMore (no_more_of Plus (sum_seen x.now) (sum_seen y.now)
        ∷ no_more_of Minus (sum_seen x.now) (sum_seen y.now) ∷ []) system.old system.new) }
{
    system.push(no_more(alloc, Sign::Plus, x, y)?)?;
    system.push(no_more(alloc, Sign::Minus, x, y)?)
}

// So many loops from the outermost have equal values.
fn push_same_loops(
    alloc: Global,
    system: &mut ConstraintSystem,
    m: u32,
    n: u32,
    count: u32,
) -> Result<(), AllocError>
    requires left { m + 2 * count < 2 ^ 32 }
    requires right { n + 2 * count < 2 ^ 32 }
    ensures { OnOk result (HasMore (same_loops m n count) system.old system.new) }
{
    for index in 0..count {
        push_equal(alloc, system, m + 2 * index, n + 2 * index)?;
    }
    Ok(())
}

// Two unknowns are equal.
fn push_equal(
    alloc: Global,
    system: &mut ConstraintSystem,
    m: u32,
    n: u32,
) -> Result<(), AllocError>
    ensures { OnOk result (HasMore (apart_of Plus m n (pos 0) ∷ apart_of Minus m n (pos 0)
        ∷ []) system.old system.new) }
{
    system.push(apart(alloc, Sign::Plus, m, n, 0)?)?;
    system.push(apart(alloc, Sign::Minus, m, n, 0)?)
}

// The order of two instances whose first loops have these numbers.
fn push_order(
    alloc: Global,
    system: &mut ConstraintSystem,
    m: u32,
    n: u32,
    order: Order,
) -> Result<(), AllocError>
    requires left { m + 2 * order.equal + 1 < 2 ^ 32 }
    requires right { n + 2 * order.equal + 1 < 2 ^ 32 }
    ensures { OnOk result (HasMore (ordered_so m n (order_seen order)) system.old system.new) }
{
    push_same_loops(alloc, system, m, n, order.equal)?;
    if order.earlier {
        let (i, j) = (m + 2 * order.equal + 1, n + 2 * order.equal + 1);
        system.push(apart(alloc, Sign::Plus, i, j, -1)?)?;
    }
    Ok(())
}

// The rows of two accesses, the first unknowns of whose instances have these numbers.
pub(crate) fn push_pair<'p>(
    alloc: Global,
    system: &mut ConstraintSystem<'p>,
    program: &'p Program,
    conditions: &Conditions,
    order: Order,
    a: Instance,
    b: Instance,
) -> Result<(), AllocError>
    requires none { system.old.rows ≡ [] }
    requires constants { length (tree_of program.now).params ≤ system.old.vars }
    requires good { (constants : ℕ) × (version : Version)
        × IsTrue (are_good_conditions constants version conditions.now) }
    requires first { a.first ≡ first_of (tree_of program.now) }
    requires second { b.first
        ≡ second_of (tree_of program.now) (pair_of a.reference.now b.reference.now) }
    requires room { behind_pair (tree_of program.now) (pair_of a.reference.now b.reference.now)
        < 2 ^ 31 }
    requires first_steps { IsTrue (are_small_steps (heads_of a.reference.now.around.items)) }
    requires second_steps { IsTrue (are_small_steps (heads_of b.reference.now.around.items)) }
    requires equal { order.equal + 1 < 2 ^ 30 }
    ensures { OnOk result
        (HasMore (pair_rows (tree_of program.now) conditions.now (order_seen order)
        (a.entry.last, b.entry.last) (pair_of a.entry.reference.now b.entry.reference.now))
        system.old system.new) }
{
    push_conditions(alloc, system, program, conditions)?;
    push_instance(alloc, system, program, a)?;
    push_instance(alloc, system, program, b)?;
    let xs = subscripts(alloc, program, a.first, a.reference)?;
    let ys = subscripts(alloc, program, b.first, b.reference)?;
    push_same_element(alloc, system, xs.as_slice(), ys.as_slice())?;
    push_order(alloc, system, a.first, b.first, order)
}
