// Places along a distributed dimension, and how they are dealt.

ghost use Rattle.std.specs.Prelude.{◌≡◌, ◌≤◌, ◌-ℤ◌, IfOk, IfSome, IsTrue, if◌then◌else◌, Some, None, replicate, slice_get};
ghost use Rattle.std.specs.Option.{option_copied};
ghost use Rattle.nest_tree.specs.Form.{is_form, is_small};
ghost use Rattle.nest_tree.specs.Layout.{count_of, extent};
ghost use Rattle.nest_tree.specs.WellFormed.{is_value};
ghost use Rattle.maker_anchors.specs.Anchors.{dealt_as, in_blocks, less, first_processor};

use nest_tree::{Affine, Pairs, Spread};
use owner_partition::{Anchor, Dist};
use std::alloc::{AllocError, Global};

/// The item at this place, from 0.
pub fn item_at<T>(items: &[T], place: usize) -> Option<&T>
    ensures { option_copied result ≡ slice_get items.now place }
{
    if place < items.len() {
        Some(&items[place])
    } else {
        None
    }
}

// The difference of two numbers, where it is within plus or minus 2147483647.
fn small_difference(a: i64, b: i128) -> Option<i64>
    ensures { result ≡ (if is_small (a -ℤ b) then Some (a -ℤ b) else None) }
{
    let difference = i128::from(a).checked_sub(b)?;
    if -2147483647 <= difference && difference <= 2147483647 {
        Some(difference as i64)
    } else {
        None
    }
}

/// The form less a number; None where its constant passes plus or minus 2147483647 then.
pub(crate) fn less(alloc: Global, form: &Affine, low: i128) -> Result<Option<Affine>, AllocError>
    ensures { IfOk result (λ o. o ≡ (if is_form (less form.now low) then Some (less form.now low)
        else None)) }
{
    let Some(constant) = small_difference(form.constant(), low) else {
        return Ok(None);
    };
    let loops = Pairs::from_slice(alloc, form.loops())?;
    let params = Pairs::from_slice(alloc, form.params())?;
    Ok(Some(Affine::new(constant, loops, params)))
}

/// The anchor to processor 0.
pub(crate) fn first_processor(alloc: Global) -> Anchor
    ensures { result ≡ first_processor }
{
    Anchor {
        form: Affine::new(0, Pairs::new(alloc), Pairs::new(alloc)),
        dist: Dist::Cyclic,
    }
}

// A whole number as a count, 0 where it is negative.
#[tactic(auto, using(crate::proofs::Counts::unsigned_count))]
fn count_of(number: i128) -> u128
    ensures { result ≡ count_of number }
{
    if number < 0 { 0 } else { number.unsigned_abs() }
}

/// How many places there are from one to another; None where that passes 2 ^ 127.
pub(crate) fn extent(low: i128, high: i128) -> Option<u128>
    ensures places { IfSome result (λ places. places ≡ extent (low, high)) }
    ensures near { IsTrue (is_value low) → IsTrue (is_value high)
        → result ≡ Some (extent (low, high)) }
{
    let difference = high.checked_sub(low)?;
    let places = difference.checked_add(1)?;
    Some(count_of(places))
}

/// How many places there are from one number of 64 bits to another.
pub(crate) fn extent_between(low: i64, high: i64) -> u128
    ensures { result ≡ extent (low, high) }
{
    match extent(i128::from(low), i128::from(high)) {
        Some(places) => places,
        None => unreachable!(),
    }
}

/// So many places in equal blocks, or in turn where a block would have more than 2147483647.
pub(crate) fn in_blocks(workers: u32, places: u128) -> Dist
    requires { 1 ≤ workers }
    ensures { result ≡ in_blocks workers places }
{
    let block = places.div_ceil(u128::from(workers)).max(1);
    if block <= 2147483647 {
        Dist::Block(block as u32)
    } else {
        Dist::Cyclic
    }
}

/// So many places of an array, as it is spread.
pub(crate) fn dealt_as(spread: Spread, workers: u32, places: u128) -> Dist
    requires { 1 ≤ workers }
    ensures { result ≡ dealt_as spread workers places }
{
    match spread {
        Spread::Block => in_blocks(workers, places),
        Spread::Cyclic => Dist::Cyclic,
    }
}

/// So many anchors to processor 0.
pub fn first_processors(alloc: Global, count: u32) -> Result<Vec<Anchor>, AllocError>
    ensures { IfOk result (λ anchors. anchors.items ≡ replicate count first_processor) }
{
    let mut anchors = Vec::new(alloc);
    for _ in 0..count {
        anchors.push(first_processor(alloc))?;
    }
    Ok(anchors)
}
