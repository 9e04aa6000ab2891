// The systems of a subscript's bounds.

ghost use Rattle.std.specs.Prelude.{◌≡◌, ◌+◌, ◌*◌, ◌-◌, ◌<◌, ◌≤◌, ◌^◌, ◌++◌, ◌-ℤ◌, neg_ℤ, pos, IfNone, IfOk, IfSome, IsTrue, OnOk, length};
ghost use Rattle.std.specs.List.{list_all};
ghost use Rattle.nest_tree.specs.declared.tree.Access.{Access as Accessed};
ghost use Rattle.nest_tree.specs.Form.{is_small};
ghost use Rattle.nest_tree.specs.Tree.{Head, Work, work};
ghost use Rattle.nest_tree.specs.View.{statement_of, tree_of};
ghost use Rattle.nest_tree.specs.WellFormed.{is_good_dimension};
ghost use Rattle.nest_rows.specs.Constraints.{system_of};
ghost use Rattle.nest_rows.specs.Groups.{guard_has, guard_of};
ghost use Rattle.nest_rows.specs.More.{HasMore};
ghost use Rattle.nest_rows.specs.Nested.{Nested as NestedWork};
ghost use Rattle.nest_rows.specs.Views.{IsView, heads_of};
ghost use Rattle.range_check.specs.RangeSystems.{in_steps, order_over, side_system, standing as standing_of};
ghost use Rattle.range_check.specs.Sites.{site_of};

use nest_rows::{Around, Nested, Sign};
use nest_systems::ConstraintSystem;
use nest_systems::groups::{at_most, push_guard, push_loops};
use nest_tree::{Access, Item, Program};
use std::alloc::{AllocError, Global};

// How many unknowns there are: the named constants, and the value and the trip of each loop; None
// where they are more than 2^32 - 4, as no memory holds.
pub(crate) fn unknown_count(program: &Program, around: &[Around]) -> Option<u32>
    ensures count { IfSome result
        (λ n. (n ≡ length (tree_of program.now).params + 2 * length around.now)
        × (n < 2 ^ 32 - 3)) }
    ensures many { IfNone result (2 ^ 32 - 3 ≤ length (tree_of program.now).params + 2
        * length around.now) }
{
    let count = program.params.len() + 2 * around.len();
    if count < 4_294_967_293 {
        Some(count as u32)
    } else {
        None
    }
}

// The order of elimination over so many unknowns: the constants, then the loops' values, then their
// trips.
pub(crate) fn elimination_order(
    alloc: Global,
    vars: u32,
    loops: usize,
) -> Result<Vec<u32>, AllocError>
    requires { vars < 2 ^ 32 - 3 }
    ensures { IfOk result (λ order. order.items ≡ order_over vars loops) }
{
    let loops = loops.min(vars as usize / 2) as u32;
    let constants = vars - 2 * loops;
    let mut order = Vec::new(alloc);
    push_numbers(&mut order, 1, 1, constants)?;
    push_numbers(&mut order, constants + 1, 2, loops)?;
    push_numbers(&mut order, constants + 2, 2, loops)?;
    Ok(order)
}

// So many numbers in equal steps, behind the others.
fn push_numbers(order: &mut Vec<u32>, first: u32, step: u32, count: u32) -> Result<(), AllocError>
    requires { first + step * count < 2 ^ 32 }
    ensures { OnOk result (order.new.items ≡ order.old.items ++ in_steps first step count) }
{
    for index in 0..count {
        order.push(first + step * index)?;
    }
    Ok(())
}

// The rows of a statement's comparison, if it has one.
fn push_comparison(
    alloc: Global,
    system: &mut ConstraintSystem,
    first: u32,
    around: &[Around],
    item: &Item,
) -> Result<(), AllocError>
    requires { first + 2 * length around.now < 2 ^ 32 }
    ensures { (w : Work) → statement_of item.now ≡ work w
        → OnOk result
        (HasMore (guard_has first (heads_of around.now) (guard_of w)) system.old system.new) }
{
    match item {
        Item::Assign(_, _, Some(guard), _) => push_guard(alloc, system, first, around, guard),
        _ => Ok(()),
    }
}

// What holds of each instance of a piece of work.
fn standing<'p>(
    alloc: Global,
    program: &'p Program,
    nested: &Nested,
    vars: u32,
) -> Result<ConstraintSystem<'p>, AllocError>
    requires count { vars ≡ length (tree_of program.now).params + 2
        * length nested.now.around.items }
    requires room { vars < 2 ^ 32 - 3 }
    requires steps { IsTrue (list_all (λ (h : Head). is_small h.step)
        (heads_of nested.now.around.items)) }
    ensures { (n : NestedWork) → (a : Accessed) → IsView n nested.now
        → IfOk result (λ s. s ≡ system_of vars (standing_of (tree_of program.now) (site_of n a))) }
{
    let first = program.params.len() as u32 + 1;
    let around = nested.around.as_slice();
    let mut system = ConstraintSystem::empty(alloc, vars, program.params.len() as u32);
    system.push_constants(&program.params);
    push_loops(alloc, &mut system, first, around)?;
    push_comparison(alloc, &mut system, first, around, nested.item)?;
    Ok(system)
}

// The system of an access's subscript in the dimension with this place, from 0: with this sign it
// is at most a number.
pub(crate) fn side_system<'p>(
    alloc: Global,
    program: &'p Program,
    nested: &Nested,
    access: &Access,
    side: (Sign, usize, i64),
    vars: u32,
) -> Result<ConstraintSystem<'p>, AllocError>
    requires count { vars ≡ length (tree_of program.now).params + 2
        * length nested.now.around.items }
    requires room { vars < 2 ^ 32 - 3 }
    requires steps { IsTrue (list_all (λ (h : Head). is_small h.step)
        (heads_of nested.now.around.items)) }
    requires there { side.1 < length access.now.subscripts }
    ensures { (n : NestedWork) → IsView n nested.now
        → IfOk result (λ s. s ≡ side_system (tree_of program.now)
        (site_of n access.now) side.0 side.1 side.2) }
{
    let (sign, place, most) = side;
    let first = program.params.len() as u32 + 1;
    let subscript = &access.subscripts.as_slice()[place];
    let mut system = standing(alloc, program, nested, vars)?;
    let bound = at_most(
        alloc,
        sign,
        first,
        nested.around.as_slice(),
        subscript,
        most,
    )?;
    system.push(bound)?;
    Ok(system)
}

// What a subscript below the lower bound is at most.
pub(crate) fn low_limit(bounds: (i64, i64)) -> i64
    requires { IsTrue (is_good_dimension bounds) }
    ensures { result ≡ bounds.0 -ℤ pos 1 }
{
    bounds.0 - 1
}

// What the negative of a subscript above the upper bound is at most.
pub(crate) fn high_limit(bounds: (i64, i64)) -> i64
    requires { IsTrue (is_good_dimension bounds) }
    ensures { result ≡ neg_ℤ bounds.1 -ℤ pos 1 }
{
    -bounds.1 - 1
}
