// Pairs of opposite sign: how many there are, and whether the least combination of one is wide.

ghost use Rattle.std.specs.Prelude.{◌≡◌, ◌-◌, ◌*◌, ◌≤◌, ◌^◌, nat_le, unsigned_abs, IsTrue, MatchOption, length};
ghost use Rattle.std.specs.Bool.{MatchBool};
ghost use Rattle.std.specs.List.{All, Contains};
ghost use Rattle.farkas_cert.specs.declared.system.Row.{Row};
ghost use Rattle.elim_rows.specs.Pairs.{coef_of as coef, IsPair};
ghost use Rattle.elim_level.specs.Gathering.{IsWithin, IsOpposed, IsNarrowPair, IsTooWide, pair_count};

use crate::level::{Held, coef_of};
use elim_rows::combination::{is_narrow_combination, multipliers};
use farkas_cert::Row;

/// Two products of at most this size, 2 ^ 125, have a narrow sum.
const HALF: u128 = 1 << 125;

/// Two sizes below this have a product of at most 2 ^ 125.
const SMALL: u128 = 1 << 62;

// Whether the product of two sizes is at most 2 ^ 125: with no division where both are small.
fn has_half_product(size: u128, other: u128) -> bool
    ensures { result ≡ nat_le (size * other) (2 ^ 125) }
{
    if size < SMALL && other < SMALL {
        return true;
    }
    size == 0 || other <= HALF / size
}

// The largest size among the numbers, 0 where there is none.
fn largest_of(numbers: &[i128]) -> u128
    ensures { All (λ a. unsigned_abs a ≤ result) numbers.now }
{
    let mut largest = 0;
    for number in numbers {
        largest = number.unsigned_abs().max(largest);
    }
    largest
}

// The largest size among the row's coefficients and its bound.
fn largest_in(row: &Row) -> u128
    ensures { IsWithin result row.now }
{
    largest_of(row.coefs.as_slice()).max(row.bound.unsigned_abs())
}

// The largest size among the rows' coefficients and bounds.
fn largest_entry(rows: &[Held]) -> u128
    ensures { All (λ h. IsWithin result h.row) rows.now }
{
    let mut largest = 0;
    for held in rows {
        largest = largest_in(&held.row).max(largest);
    }
    largest
}

// The largest size among the rows' coefficients of the variable.
fn largest_coef(rows: &[Held], variable: u32) -> u128
    requires from_one { 1 ≤ variable }
    requires known { All (λ h. variable ≤ length h.row.coefs) rows.now }
    ensures { All (λ h. unsigned_abs (coef variable h.row) ≤ result) rows.now }
{
    let mut largest = 0;
    for held in rows {
        largest = coef_of(&held.row, variable).unsigned_abs().max(largest);
    }
    largest
}

/// The least multipliers by which the variable cancels in a pair.
pub fn multipliers_of(upper: &Row, lower: &Row, variable: u32) -> (i128, i128)
    requires { IsOpposed variable upper.now lower.now }
    ensures { IsPair variable upper.now lower.now result.0 result.1 }
{
    multipliers(coef_of(upper, variable), coef_of(lower, variable))
}

// Whether the pair's least combination is nowhere wide.
fn is_narrow_pair(upper: &Row, lower: &Row, variable: u32) -> bool
    requires { IsOpposed variable upper.now lower.now }
    ensures { MatchBool result (IsNarrowPair variable upper.now lower.now)
        (IsTooWide variable upper.now lower.now) }
{
    let (m, n) = multipliers_of(upper, lower, variable);
    is_narrow_combination(m, upper, n, lower)
}

// The first of the lower rows with which the upper one is wide.
fn wide_with<'a>(upper: &Held, lowers: &'a [Held], variable: u32) -> Option<&'a Held>
    requires { All (λ l. IsOpposed variable upper.now.row l.row) lowers.now }
    ensures { MatchOption result (All (λ l. IsNarrowPair variable upper.now.row l.row) lowers.now)
        (λ lower. Contains lowers.now lower.now × IsTooWide variable upper.now.row lower.now.row) }
{
    for lower in lowers {
        if !is_narrow_pair(&upper.row, &lower.row, variable) {
            return Some(lower);
        }
    }
    None
}

/// The largest sizes in rows of one sign.
#[derive(Clone, Copy)]
struct Sizes {
    /// Of the coefficients of the variable.
    coef: u128,
    /// Of all coefficients and bounds.
    entry: u128,
}

// Whether the sizes alone show that the upper row is wide with none of the lower ones.
fn is_small(upper: &Row, lowers: Sizes, variable: u32) -> bool
    requires { (1 ≤ variable) × (variable ≤ length upper.now.coefs) }
    ensures { IsTrue result → (lower : Row) → IsWithin lowers.entry lower
        → unsigned_abs (coef variable lower) ≤ lowers.coef → IsNarrowPair variable upper.now lower }
{
    has_half_product(lowers.coef, largest_in(upper))
        && has_half_product(coef_of(upper, variable).unsigned_abs(), lowers.entry)
}

/// A pair whose least combination is wide, if there is one: of an upper row, which bounds the variable
/// from above, and a lower one. No pair is tried of an upper row that is small for that.
pub fn wide_pair<'a>(
    uppers: &'a [Held],
    lowers: &'a [Held],
    variable: u32,
) -> Option<(&'a Held, &'a Held)>
    requires from_one { 1 ≤ variable }
    requires uppers_known { All (λ h. variable ≤ length h.row.coefs) uppers.now }
    requires lowers_known { All (λ h. variable ≤ length h.row.coefs) lowers.now }
    requires opposed { All (λ u. All (λ l. IsOpposed variable u.row l.row) lowers.now) uppers.now }
    ensures { MatchOption result (All (λ u. All (λ l. IsNarrowPair variable u.row l.row) lowers.now)
        uppers.now)
        (λ p. Contains uppers.now p.0.now × Contains lowers.now p.1.now
        × IsTooWide variable p.0.now.row p.1.now.row) }
{
    let sizes = Sizes {
        coef: largest_coef(lowers, variable),
        entry: largest_entry(lowers),
    };
    for upper in uppers {
        if is_small(&upper.row, sizes, variable) {
            continue;
        }
        if let Some(lower) = wide_with(upper, lowers, variable) {
            return Some((upper, lower));
        }
    }
    None
}

// The product of two counts.
fn product(count: usize, other: usize) -> u128
    ensures product { result ≡ count * other }
    ensures small { result ≤ (2 ^ 64 - 1) * (2 ^ 64 - 1) }
{
    count as u128 * other as u128
}

/// How many pairs the rows have of one that bounds the variable from above and one that bounds it from
/// below.
pub fn count_pairs(rows: &[Held], variable: u32) -> u128
    requires from_one { 1 ≤ variable }
    requires known { All (λ h. variable ≤ length h.row.coefs) rows.now }
    ensures count { result ≡ pair_count variable rows.now }
    ensures small { result ≤ (2 ^ 64 - 1) * (2 ^ 64 - 1) }
{
    let mut uppers = 0;
    let mut lowers = 0;
    for held in rows {
        let coef = coef_of(&held.row, variable);
        if coef > 0 {
            uppers += 1;
        }
        if coef < 0 {
            lowers += 1;
        }
    }
    product(uppers, lowers)
}
