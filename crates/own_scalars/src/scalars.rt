// The sum scalars of a loop, and its scalars that may be private.

ghost use Rattle.std.specs.Io.Iter.{u64_saturate};
ghost use Rattle.std.specs.Prelude.{◌≡◌, ◌≤◌, ◌&&◌, ◌↔◌, IfSome, IsSome, length, nat_le, take};
ghost use Rattle.nest_tree.specs.View.{statement_of, statements_from};
ghost use Rattle.own_scalars.specs.OwnScalars.{is_private, is_stored_first, is_sum, last_stored, last_stored_in, path_length, path_length_in, private_scalars, sum_scalars};

use crate::expressions::{is_of, loads};
use crate::works::{Look, some_in, some_of};
use arrayvec::ArrayVec;
use nest_tree::{Item, Nest};

/// The most sum scalars of a loop, and the most private ones.
pub const MOST_OWN: usize = 16;

/// Whether the scalar with this number, from 1, is a sum scalar of a loop with this body: it is
/// stored there, and each access of it is in an assignment to it of a sum or a difference that adds
/// it once. It takes no memory.
pub fn is_sum(body: &[Item], scalar: u32) -> bool
    ensures { result ≡ is_sum scalar (statements_from body.now) }
{
    some_of(body, Look::Store, scalar) && !some_of(body, Look::Other, scalar)
}

/// Whether the scalar with this number, from 1, may be private in a loop with this body: its first
/// access there, loads before the store, is the store of an assignment without comparison, which may
/// stand in loops inside. It takes no memory.
pub fn is_private(body: &[Item], scalar: u32) -> bool
    ensures { result ≡ is_private scalar (statements_from body.now) }
{
    some_of(body, Look::Store, scalar) && are_stored_first(body, scalar)
}

// The same of a scalar of which it isn't known that it is stored at all.
#[cycle(first)]
fn are_stored_first(items: &[Item], scalar: u32) -> bool
    ensures { result ≡ is_private scalar (statements_from items.now) }
{
    for item in items {
        if some_in(item, Look::Access, scalar) {
            return is_stored_first(item, scalar);
        }
    }
    false
}

// Whether the first access of the scalar in a statement is such a store.
#[cycle(first)]
fn is_stored_first(item: &Item, scalar: u32) -> bool
    ensures { result ≡ is_stored_first scalar (statement_of item.now) }
{
    match item {
        Item::Loop(nest) => are_stored_first(&nest.items, scalar),
        Item::Assign(target, value, guard, _) => {
            is_of(target, scalar) && !loads(value, scalar) && guard.is_none()
        }
        Item::Print(..) | Item::Continue(_) => false,
    }
}

/// How many loops inside a loop with this body stand round the first access of the scalar with this
/// number, from 1: the length of its path. 0 where there is no access; 2^64 - 1 where there are more.
/// It takes no memory.
#[cycle(path)]
pub fn path_length(body: &[Item], scalar: u32) -> u64
    ensures { result ≡ u64_saturate (path_length scalar (statements_from body.now)) }
{
    for item in body {
        if some_in(item, Look::Access, scalar) {
            return path_length_in(item, scalar);
        }
    }
    0
}

#[cycle(path)]
fn path_length_in(item: &Item, scalar: u32) -> u64
    ensures { result ≡ u64_saturate (path_length_in scalar (statement_of item.now)) }
{
    match item {
        Item::Loop(nest) => path_length(&nest.items, scalar).saturating_add(1),
        Item::Assign(..) | Item::Print(..) | Item::Continue(_) => 0,
    }
}

// The greatest number of a scalar that is stored in these statements, 0 where there is none.
#[cycle(last)]
fn last_stored(items: &[Item]) -> u32
    ensures { result ≡ last_stored (statements_from items.now) }
{
    let mut last = 0;
    for item in items {
        last = last_stored_in(item).max(last);
    }
    last
}

#[cycle(last)]
fn last_stored_in(item: &Item) -> u32
    ensures { result ≡ last_stored_in (statement_of item.now) }
{
    match item {
        Item::Loop(nest) => last_stored(&nest.items),
        Item::Assign(target, _, _, _) => {
            if target.subscripts.as_slice().is_empty() {
                target.variable
            } else {
                0
            }
        }
        Item::Print(..) | Item::Continue(_) => 0,
    }
}

/// The sum scalars of a loop in the order of their cells; none where there are more than 16. It
/// takes no memory.
pub fn sum_scalars(nest: &Nest) -> Option<ArrayVec<u32, MOST_OWN>>
    ensures found { IfSome result (λ found. found.items
        ≡ sum_scalars (statements_from nest.now.items.items)) }
    ensures few { IsSome result
        ↔ (length (sum_scalars (statements_from nest.now.items.items)) ≤ 16) }
{
    let body = nest.items.as_slice();
    let mut found = ArrayVec::new();
    for number in 0..u64::from(last_stored(body)) + 1 {
        let scalar = number as u32;
        if is_sum(body, scalar) {
            if found.is_full() {
                return None;
            }
            found.push(scalar);
        }
    }
    Some(found)
}

/// Whether a loop has 1 to 16 sum scalars. It takes no memory.
pub fn has_few_sums(nest: &Nest) -> bool
    ensures { result ≡ (nat_le 1 (length (sum_scalars (statements_from nest.now.items.items)))
        && nat_le (length (sum_scalars (statements_from nest.now.items.items))) 16) }
{
    match sum_scalars(nest) {
        Some(found) => !found.is_empty(),
        None => false,
    }
}

/// The first 16 scalars that may be private in a loop, in the order of their cells. It takes no
/// memory.
pub fn private_scalars(nest: &Nest) -> ArrayVec<u32, MOST_OWN>
    ensures { result.items ≡ take 16 (private_scalars (statements_from nest.now.items.items)) }
{
    let body = nest.items.as_slice();
    let mut found = ArrayVec::new();
    for number in 0..u64::from(last_stored(body)) + 1 {
        let scalar = number as u32;
        if is_private(body, scalar) {
            if found.is_full() {
                return found;
            }
            found.push(scalar);
        }
    }
    found
}
