// The check of all subscripts.

ghost use Rattle.std.specs.Prelude.{◌≡◌, ◌↔◌, ℕ, IsOk, IsTrue, Some, map, slice_get, true};
ghost use Rattle.std.specs.List.{AllByRecursion, flat_map, list_all};
ghost use Rattle.std.specs.Result.{result_err};
ghost use Rattle.nest_tree.specs.Limits.{line_of_work};
ghost use Rattle.nest_tree.specs.Loads.{loads_among, loads_in, loads_in_item};
ghost use Rattle.nest_tree.specs.Tree.{Work, param_values, work};
ghost use Rattle.nest_tree.specs.View.{expression_of, expressions_from, printed_of, statement_of, tree_of};
ghost use Rattle.nest_tree.specs.WellFormed.{is_number_of, loops_of};
ghost use Rattle.nest_model.specs.Ranges.{IsInRange, accesses_of};
ghost use Rattle.nest_walk.specs.Cursors.{loops_in};
ghost use Rattle.nest_walk.specs.InstancesLeft.{instances_left, instances_tree};
ghost use Rattle.nest_walk.specs.Paths.{Round};
ghost use Rattle.nest_walk.specs.Places.{numbers_of};
ghost use Rattle.nest_walk.specs.RoundsOf.{rounds_of};
ghost use Rattle.nest_rows.specs.Nested.{IsNestedInstance, Nested as NestedWork, nested_works};
ghost use Rattle.range_check.specs.Certified.{AreCertified};
ghost use Rattle.range_check.specs.Outside.{access_outside, accesses_outside, are_sound_accesses, instances_outside, is_small_instance, is_sound_access, outside_of, subscript_outside};

use crate::certified::{are_certified, certified_works, is_certified_at, mark};
use crate::cost::is_short;
use crate::outside::OutOfRange;
use fm_elim::NoMemory;
use nest_tree::{Access, Expr, Item, PrintItem, Program};
use nest_walk::{Cursor, Instances, Path, value_at};
use std::alloc::Global;

// The most statements that a program has, and so the most loops.
const MOST_STATEMENTS: usize = 400;

/// The first subscript that is out of range: of the first instance in sequential order, in it of
/// the first access, its loads in text order and then its store, in it of the first dimension.
///
/// Where a walk through all instances is long it looks for certificates first: pieces of work all of
/// whose subscripts are certified are not looked at, and a loop round nothing else isn't entered.
/// Where memory runs out each instance is looked at.
pub fn check_ranges(alloc: Global, program: &Program) -> Result<(), OutOfRange>
    ensures first { result_err result ≡ outside_of (tree_of program.now) }
    ensures inside { IsOk result ↔ IsInRange (tree_of program.now) }
{
    if is_short(alloc, program) {
        return check_others(program, &[]);
    }
    match certified_works(alloc, program) {
        Ok(certified) => check_others(program, certified.as_slice()),
        Err(NoMemory) => check_others(program, &[]),
    }
}

// The first subscript that is out of range, where these pieces of work are certified.
fn check_others(program: &Program, certified: &[bool]) -> Result<(), OutOfRange>
    requires certified { (k : ℕ) → (n : NestedWork) → slice_get certified.now k ≡ Some true
        → slice_get (nested_works (tree_of program.now)) k ≡ Some n
        → AreCertified (tree_of program.now) n }
    ensures first { result_err result ≡ outside_of (tree_of program.now) }
    ensures inside { IsOk result ↔ IsInRange (tree_of program.now) }
{
    let mut marks = [false; MOST_STATEMENTS];
    mark(&program.items, 1, certified, &mut marks);
    let mut stops = Cursor::new(program, &marks);
    let mut instances = Instances::none(program);
    while let Some(stop) = stops.next() {
        let behind = stop.first + stop.works();
        if !are_certified(certified, stop.first, behind) {
            instances.restart(stops.path(), stop);
            check_instances(program, certified, instances)?;
        }
    }
    Ok(())
}

// The first subscript of these instances that is out of range.
fn check_instances(
    program: &Program,
    certified: &[bool],
    instances: Instances,
) -> Result<(), OutOfRange>
    requires certified { (k : ℕ) → (n : NestedWork) → slice_get certified.now k ≡ Some true
        → slice_get (nested_works (tree_of program.now)) k ≡ Some n
        → AreCertified (tree_of program.now) n }
    requires walked { instances_tree instances ≡ tree_of program.now }
    requires small { IsTrue (list_all (is_small_instance (param_values (tree_of program.now)))
        (instances_left instances)) }
    requires nested { AllByRecursion (IsNestedInstance (param_values (tree_of program.now))
        (nested_works (tree_of program.now))) (instances_left instances) }
    ensures { result_err result ≡ instances_outside (tree_of program.now)
        (instances_left instances.entry) }
{
    let mut left = instances;
    while let Some(stop) = left.next() {
        if !is_certified_at(certified, stop.first) {
            check_work(program, stop.item, left.path())?;
        }
    }
    Ok(())
}

// The first subscript of a piece of work that is out of range.
fn check_work(program: &Program, item: &Item, path: &Path) -> Result<(), OutOfRange>
    requires numbered { IsTrue
        (list_all (λ (r : Round). is_number_of (loops_of (tree_of program.now).items) r.number)
        (rounds_of path.now)) }
    requires sound { (w : Work) → statement_of item.now ≡ work w
        → IsTrue (are_sound_accesses (tree_of program.now) (numbers_of (rounds_of path.now))
        (loops_in (tree_of program.now) (rounds_of path.now)) (accesses_of w)) }
    ensures { (w : Work) → statement_of item.now ≡ work w
        → result_err result ≡ accesses_outside (tree_of program.now)
        (loops_in (tree_of program.now) (rounds_of path.now)) (line_of_work w) (accesses_of w) }
{
    match item {
        Item::Assign(target, value, _, line) => {
            check_loads(program, value, path, *line)?;
            check_access(program, target, path, *line)
        }
        Item::Print(items, line) => check_items(program, items, path, *line),
        Item::Loop(_) | Item::Continue(_) => Ok(()),
    }
}

// Of what the items of a PRINT load.
fn check_items(
    program: &Program,
    items: &[PrintItem],
    path: &Path,
    line: u32,
) -> Result<(), OutOfRange>
    requires numbered { IsTrue
        (list_all (λ (r : Round). is_number_of (loops_of (tree_of program.now).items) r.number)
        (rounds_of path.now)) }
    requires sound { IsTrue (are_sound_accesses (tree_of program.now)
        (numbers_of (rounds_of path.now)) (loops_in (tree_of program.now) (rounds_of path.now))
        (flat_map loads_in_item (map printed_of items.now))) }
    ensures { result_err result ≡ accesses_outside (tree_of program.now)
        (loops_in (tree_of program.now) (rounds_of path.now)) line
        (flat_map loads_in_item (map printed_of items.now)) }
{
    for item in items {
        check_item(program, item, path, line)?;
    }
    Ok(())
}

// Of what an item loads.
fn check_item(program: &Program, item: &PrintItem, path: &Path, line: u32) -> Result<(), OutOfRange>
    requires numbered { IsTrue
        (list_all (λ (r : Round). is_number_of (loops_of (tree_of program.now).items) r.number)
        (rounds_of path.now)) }
    requires sound { IsTrue (are_sound_accesses (tree_of program.now)
        (numbers_of (rounds_of path.now)) (loops_in (tree_of program.now) (rounds_of path.now))
        (loads_in_item (printed_of item.now))) }
    ensures { result_err result ≡ accesses_outside (tree_of program.now)
        (loops_in (tree_of program.now) (rounds_of path.now)) line
        (loads_in_item (printed_of item.now)) }
{
    match item {
        PrintItem::Value(e) => check_loads(program, e, path, line),
        PrintItem::Whole(_) | PrintItem::Text(_) => Ok(()),
    }
}

// Of what an expression loads.
#[cycle(loads)]
fn check_loads(program: &Program, e: &Expr, path: &Path, line: u32) -> Result<(), OutOfRange>
    requires numbered { IsTrue
        (list_all (λ (r : Round). is_number_of (loops_of (tree_of program.now).items) r.number)
        (rounds_of path.now)) }
    requires sound { IsTrue (are_sound_accesses (tree_of program.now)
        (numbers_of (rounds_of path.now)) (loops_in (tree_of program.now) (rounds_of path.now))
        (loads_in (expression_of e.now))) }
    ensures { result_err result ≡ accesses_outside (tree_of program.now)
        (loops_in (tree_of program.now) (rounds_of path.now)) line
        (loads_in (expression_of e.now)) }
{
    match e {
        Expr::Number(_) | Expr::LoopValue(_) | Expr::Param(_) => Ok(()),
        Expr::Load(access) => check_access(program, access, path, line),
        Expr::Neg(a) | Expr::Div(a, _) => check_loads(program, a, path, line),
        Expr::Add(a, b) | Expr::Sub(a, b) | Expr::Mul(a, b) => {
            check_loads(program, a, path, line)?;
            check_loads(program, b, path, line)
        }
        Expr::Min(arguments) => check_all_loads(program, arguments, path, line),
        Expr::Max(arguments) => check_all_loads(program, arguments, path, line),
    }
}

// Of what arguments load.
#[cycle(loads)]
fn check_all_loads(
    program: &Program,
    arguments: &[Expr],
    path: &Path,
    line: u32,
) -> Result<(), OutOfRange>
    requires numbered { IsTrue
        (list_all (λ (r : Round). is_number_of (loops_of (tree_of program.now).items) r.number)
        (rounds_of path.now)) }
    requires sound { IsTrue (are_sound_accesses (tree_of program.now)
        (numbers_of (rounds_of path.now)) (loops_in (tree_of program.now) (rounds_of path.now))
        (loads_among (expressions_from arguments.now))) }
    ensures { result_err result ≡ accesses_outside (tree_of program.now)
        (loops_in (tree_of program.now) (rounds_of path.now)) line
        (loads_among (expressions_from arguments.now)) }
{
    for argument in arguments {
        check_loads(program, argument, path, line)?;
    }
    Ok(())
}

// Of an access.
fn check_access(
    program: &Program,
    access: &Access,
    path: &Path,
    line: u32,
) -> Result<(), OutOfRange>
    requires numbered { IsTrue
        (list_all (λ (r : Round). is_number_of (loops_of (tree_of program.now).items) r.number)
        (rounds_of path.now)) }
    requires sound { IsTrue (is_sound_access (tree_of program.now) (numbers_of (rounds_of path.now))
        (loops_in (tree_of program.now) (rounds_of path.now)) access.now) }
    ensures { result_err result ≡ access_outside (tree_of program.now)
        (loops_in (tree_of program.now) (rounds_of path.now)) line access.now }
{
    let bounds = program.variables[access.variable as usize - 1]
        .bounds
        .as_slice();
    let subscripts = access.subscripts.as_slice();
    for dimension in 0..bounds.len() {
        let value = value_at(&subscripts[dimension], path, &program.params);
        check_subscript(line, dimension as u32 + 1, bounds[dimension], value)?;
    }
    Ok(())
}

// Of the subscript of a dimension, with its bounds.
fn check_subscript(
    line: u32,
    dimension: u32,
    bounds: (i64, i64),
    value: i64,
) -> Result<(), OutOfRange>
    ensures { result_err result ≡ subscript_outside line dimension bounds value }
{
    let (low, high) = bounds;
    let bound = if value < low {
        low
    } else if value > high {
        high
    } else {
        return Ok(());
    };
    Err(OutOfRange {
        line,
        dimension,
        value,
        bound,
    })
}
