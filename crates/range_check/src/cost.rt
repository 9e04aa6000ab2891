// How long a walk through a program takes that looks at each access. The estimate says where to
// walk and where to look for certificates; one that is wrong costs time and nothing else.

ghost use Rattle.std.specs.Prelude.{IsTrue, length};
ghost use Rattle.nest_tree.specs.Given.{are_all_given, is_all_given};
ghost use Rattle.nest_tree.specs.View.{loop_of, statement_of, statements_from};

use crate::accesses::accesses_in;
use nest_tree::{Item, Nest, Parameter, Program};
use std::alloc::{AllocError, Global};

// The most loops that a program has.
const MOST_LOOPS: usize = 400;

// A walk that looks at no more accesses than this is short.
const SHORT: u64 = 1_000_000;

// Whether a walk through a program is short; also where memory runs out.
pub(crate) fn is_short(alloc: Global, program: &Program) -> bool {
    let mut ends = [(0, 0); MOST_LOOPS];
    match statements_cost(alloc, &program.items, &mut ends, &program.params, 1) {
        Ok(cost) => cost <= SHORT,
        Err(AllocError) => true,
    }
}

// The trips and accesses of statements that are reached so often, where the loops round them have
// these intervals, by number from 1.
#[cycle(cost)]
fn statements_cost(
    alloc: Global,
    items: &[Item],
    ends: &mut [(i64, i64)],
    constants: &[Parameter],
    times: u64,
) -> Result<u64, AllocError>
    requires { IsTrue (are_all_given (length ends.old) (length constants.now)
        (statements_from items.now)) }
{
    let mut cost: u64 = 0;
    for item in items {
        cost = cost.saturating_add(item_cost(alloc, item, ends, constants, times)?);
    }
    Ok(cost)
}

#[cycle(cost)]
fn item_cost(
    alloc: Global,
    item: &Item,
    ends: &mut [(i64, i64)],
    constants: &[Parameter],
    times: u64,
) -> Result<u64, AllocError>
    requires { IsTrue (is_all_given (length ends.old) (length constants.now)
        (statement_of item.now)) }
{
    match item {
        Item::Loop(nest) => nest_cost(alloc, nest, ends, constants, times),
        Item::Assign(..) | Item::Print(..) => {
            let accesses = accesses_in(alloc, item)?.len() as u64;
            Ok(times.saturating_mul(accesses.saturating_add(1)))
        }
        Item::Continue(_) => Ok(0),
    }
}

#[cycle(cost)]
fn nest_cost(
    alloc: Global,
    nest: &Nest,
    ends: &mut [(i64, i64)],
    constants: &[Parameter],
    times: u64,
) -> Result<u64, AllocError>
    requires { IsTrue (is_all_given (length ends.old) (length constants.now) (loop_of nest.now)) }
{
    let Ok((low, high)) = nest.interval(ends, constants) else {
        return Ok(u64::MAX);
    };
    if low > high {
        return Ok(times);
    }
    ends[nest.number as usize - 1] = (low, high);
    let trips = times.saturating_mul((high - low) as u64 + 1);
    Ok(trips.saturating_add(statements_cost(alloc, &nest.items, ends, constants, trips)?))
}
