// The order in which the unknowns of a system are removed.

ghost use Rattle.std.specs.Prelude.{◌≡◌, ◌+◌, ◌-◌, ◌≤◌, ◌<◌, ◌^◌, ◌++◌, IfOk, OnOk, length};
ghost use Rattle.std.specs.List.{range_with_len};
ghost use Rattle.fm_elim.specs.Answers.{NamesEachOnce};
ghost use Rattle.plan_maker.specs.Orders.{elimination_order as order_of, owners_from, rounds_from, unknowns_of};

use comm_system::owner_unknowns;
use owner_partition::Dist;
use std::alloc::{AllocError, Global};

/// How many unknowns these owners have.
pub(crate) fn unknown_count(dists: &[Dist]) -> u32
    requires { length dists.now < 2 ^ 20 }
    ensures { result ≡ unknowns_of dists.now }
{
    let mut count = 0;
    for &dist in dists {
        count += owner_unknowns(dist);
    }
    count
}

// So many numbers from 1 on.
fn numbers(alloc: Global, count: u32) -> Result<Vec<u32>, AllocError>
    requires { count < 2 ^ 32 - 1 }
    ensures { IfOk result (λ order. order.items ≡ range_with_len 1 count) }
{
    let mut order = Vec::new(alloc);
    for number in 0..count {
        order.push(number + 1)?;
    }
    Ok(order)
}

// The owners from this unknown on, behind the others.
fn push_owners(order: &mut Vec<u32>, first: u32, dists: &[Dist]) -> Result<(), AllocError>
    requires { first + unknowns_of dists.now < 2 ^ 32 }
    ensures { OnOk result (order.new.items ≡ order.old.items ++ owners_from first dists.now) }
{
    let mut owner = first;
    for &dist in dists {
        order.push(owner)?;
        owner += owner_unknowns(dist);
    }
    Ok(())
}

// The rounds of those that are dealt in turn, behind the others.
fn push_rounds(order: &mut Vec<u32>, first: u32, dists: &[Dist]) -> Result<(), AllocError>
    requires { first + unknowns_of dists.now < 2 ^ 32 }
    ensures { OnOk result (order.new.items ≡ order.old.items ++ rounds_from first dists.now) }
{
    let mut owner = first;
    for &dist in dists {
        match dist {
            Dist::Block(_) => owner += 1,
            Dist::Cyclic => {
                order.push(owner + 1)?;
                owner += 2;
            }
        }
    }
    Ok(())
}

// The order by which the unknowns are removed.
fn removal_order(alloc: Global, unknowns: u32, dists: &[Dist]) -> Result<Vec<u32>, AllocError>
    requires owners { unknowns_of dists.now ≤ unknowns }
    requires room { unknowns < 2 ^ 32 - 1 }
    requires few { length dists.now < 2 ^ 20 }
    ensures { IfOk result (λ order. order.items ≡ order_of unknowns dists.now) }
{
    let others = unknowns - unknown_count(dists);
    let mut order = numbers(alloc, others)?;
    push_owners(&mut order, others + 1, dists)?;
    push_rounds(&mut order, others + 1, dists)?;
    Ok(order)
}

/// Of so many unknowns, the last of which are those of owners that are dealt so: first the others,
/// then the owners, then the rounds.
pub(crate) fn elimination_order(
    alloc: Global,
    unknowns: u32,
    dists: &[Dist],
) -> Result<Vec<u32>, AllocError>
    requires owners { unknowns_of dists.now ≤ unknowns }
    requires room { unknowns < 2 ^ 32 - 1 }
    requires few { length dists.now < 2 ^ 20 }
    ensures order { IfOk result (λ order. order.items ≡ order_of unknowns dists.now) }
    ensures once { IfOk result (λ order. NamesEachOnce unknowns order.items) }
{
    let order = removal_order(alloc, unknowns, dists)?;
    Ok(order)
}
