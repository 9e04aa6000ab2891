// The trips of a loop that a processor owns, by division, without a look at those of the others.

ghost use Rattle.std.specs.Prelude.{◌≡◌, ◌==◌, ◌*◌, ◌<◌, ◌≤◌, ◌^◌, ℕ, ℤ, pos, ◌≤ℤ◌, ◌+◌, ◌≢◌, ◌+ℤ◌, ◌-ℤ◌, ◌*ℤ◌, ◌↔◌, unsigned_abs};
ghost use Rattle.std.specs.Int.{IsGcd, div_ceil};
ghost use Rattle.owner_partition.specs.OwnTrips.{AreBetween, IsInBlock, IsInTurn, IsOwnRange, IsSame, IsSolved, own_numbers, strided};
ghost use Rattle.owner_partition.specs.declared.anchor.Dist.TheVariants.{Block};

use crate::anchor::Dist;

/// Trips by their numbers from 0: so many, from the first on, each `stride`-th.
#[derive(Clone, Copy, Debug, PartialEq, Eq)]
pub struct Strided {
    pub first: u64,
    pub stride: u64,
    pub count: u64,
}

// No place of a trip lies as low.
const BELOW_ALL: i128 = -(1 << 126) + 1;

/// The greatest common divisor of a number and a modulus above it, and a factor that takes the number
/// to it but for multiples of the modulus, by Euclid's algorithm.
pub fn divisor_and_factor(a: u64, modulus: u64) -> (u64, u64)
    requires residue { a < modulus }
    requires size { modulus < 2 ^ 32 }
    ensures divisor { IsGcd modulus a result.0 }
    ensures factor { IsSame modulus (a * result.1) result.0 }
    ensures residue { result.1 < modulus }
{
    let mut divisor = modulus;
    let mut factor = 0;
    let mut rest = a;
    let mut next = 1 % modulus;
    while rest != 0 {
        let quotient = divisor / rest;
        let remainder = divisor % rest;
        let behind = (factor + (modulus - next) * quotient) % modulus;
        divisor = rest;
        factor = next;
        rest = remainder;
        next = behind;
    }
    (divisor, factor)
}

// The numbers n for which rise * n leaves this remainder by the modulus: the least one and how far each is from the
// next, if any.
fn solve_congruence(rise: u64, wanted: u64, modulus: u64) -> Option<(u64, u64)>
    requires rise { rise < modulus }
    requires wanted { wanted < modulus }
    requires size { modulus < 2 ^ 32 }
    ensures { IsSolved rise wanted modulus result }
{
    let (divisor, factor) = divisor_and_factor(rise, modulus);
    if wanted % divisor != 0 {
        return None;
    }
    let stride = modulus / divisor;
    Some((wanted / divisor * factor % stride, stride))
}

// The trips whose place, from `start` on and higher by `rise` with each trip, leaves the remainder `p` by the
// workers: the first one and how many trips it is to the next, if any.
fn in_turn(start: i128, rise: i128, workers: u32, p: u32) -> Option<(u64, u64)>
    requires { p < workers }
    ensures { IsInTurn workers p start rise result }
{
    let modulus = i128::from(workers);
    let start = start.rem_euclid(modulus) as u64;
    let rise = rise.rem_euclid(modulus) as u64;
    let modulus = u64::from(workers);
    solve_congruence(rise, (u64::from(p) + modulus - start) % modulus, modulus)
}

// How many of these trips, whose place never falls, lie up to a limit.
fn count_up_to(start: i128, rise: i128, limit: i128, count: u64) -> u64
    requires start { unsigned_abs start ≤ 2 ^ 125 }
    requires rise { pos 0 ≤ℤ rise }
    requires limit { unsigned_abs limit ≤ 2 ^ 126 }
    ensures within { result ≤ count }
    ensures exact { (n : ℕ) → n < count → (n < result) ↔ ((start +ℤ (pos n *ℤ rise)) ≤ℤ limit) }
{
    if start > limit {
        return 0;
    }
    if rise == 0 {
        return count;
    }
    let last = (limit - start) / rise;
    if last < i128::from(count) {
        last as u64 + 1
    } else {
        count
    }
}

// The trips, whose place never falls, from a place to another: the first one, and the first one behind them.
fn between(start: i128, rise: i128, low: i128, high: i128, count: u64) -> (u64, u64)
    requires start { unsigned_abs start ≤ 2 ^ 125 }
    requires rise { pos 0 ≤ℤ rise }
    requires low { unsigned_abs low < 2 ^ 126 }
    requires high { unsigned_abs high ≤ 2 ^ 126 }
    ensures { AreBetween start rise low high count result }
{
    (
        count_up_to(start, rise, low - 1, count),
        count_up_to(start, rise, high, count),
    )
}

// The least and the greatest place of the block of processor `p`, where 0 also has all that lies below its block.
fn block_ends(length: u32, p: u32) -> (i128, i128)
    requires { 1 ≤ length }
    ensures low { (place : ℤ) → unsigned_abs place < 2 ^ 126 → (result.0 ≤ℤ place)
        ↔ (p ≢ 0 → pos (length * p) ≤ℤ place) }
    ensures high { result.1 ≡ pos (length * p + length) -ℤ pos 1 }
    ensures size { (unsigned_abs result.0 < 2 ^ 126) × (unsigned_abs result.1 < 2 ^ 126) }
{
    let length = i128::from(length);
    let from = length * i128::from(p);
    (if p == 0 { BELOW_ALL } else { from }, from + length - 1)
}

// The trips whose place lies in the block of processor `p`, or below it where `p` is 0: the first one, and the
// first one behind them.
fn in_block(start: i128, rise: i128, length: u32, p: u32, count: u64) -> (u64, u64)
    requires start { unsigned_abs start ≤ 2 ^ 125 }
    requires rise { unsigned_abs rise ≤ 2 ^ 62 }
    requires count { count ≤ 2 ^ 32 }
    requires block { 1 ≤ length }
    ensures { (workers : ℕ) → IsInBlock length workers p start rise count result }
{
    let (low, high) = block_ends(length, p);
    if rise >= 0 {
        between(start, rise, low, high, count)
    } else {
        between(-start, -rise, -high, -low, count)
    }
}

// The first of a processor's trips, how far each is from the next, and the number that all are below.
fn own_range(
    dist: Dist,
    workers: u32,
    p: u32,
    start: i128,
    rise: i128,
    count: u64,
) -> (u64, u64, u64)
    requires worker { p < workers }
    requires block { (length : ℕ) → dist ≡ Block length → 1 ≤ length }
    requires start { (length : ℕ) → dist ≡ Block length → unsigned_abs start ≤ 2 ^ 125 }
    requires rise { unsigned_abs rise ≤ 2 ^ 62 }
    requires count { count ≤ 2 ^ 32 }
    ensures { IsOwnRange dist workers p start rise count result }
{
    match dist {
        Dist::Block(length) => {
            let (first, end) = in_block(start, rise, length, p, count);
            (first, 1, end)
        }
        Dist::Cyclic => match in_turn(start, rise, workers, p) {
            Some((first, stride)) => (first, stride, count),
            None => (0, 1, 0),
        },
    }
}

/// The trips that a processor owns of so many, where the anchor's form has the value `start` at the first
/// trip and rises by `rise` with each.
pub fn own_trips(dist: Dist, workers: u32, p: u32, start: i128, rise: i128, count: u64) -> Strided
    requires worker { p < workers }
    requires block { (length : ℕ) → dist ≡ Block length → 1 ≤ length }
    requires start { (length : ℕ) → dist ≡ Block length → unsigned_abs start ≤ 2 ^ 125 }
    requires rise { unsigned_abs rise ≤ 2 ^ 62 }
    requires count { count ≤ 2 ^ 32 }
    ensures own { own_numbers dist workers p start rise count
        ≡ strided result.first result.stride result.count }
    ensures within { result.count ≤ count }
{
    let (first, stride, end) = own_range(dist, workers, p, start, rise, count);
    let count = end.saturating_sub(first).div_ceil(stride);
    Strided {
        first,
        stride,
        count,
    }
}
