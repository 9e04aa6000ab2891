// Rows in their lowest terms.

ghost use Rattle.std.specs.Prelude.{◌≡◌, ℕ, ◌≤◌, ◌^◌, ◌/◌, max, ℤ, pos, ◌≤ℤ◌, int_div, map, IsTrue, IfOk};
ghost use Rattle.std.specs.Int.{IsGcd, int_div_euclid};
ghost use Rattle.std.specs.List.{All};
ghost use Rattle.farkas_cert.specs.Combination.{is_narrow as narrow};
ghost use Rattle.elim_rows.specs.Reduction.{IsCommonDivisor, IsReducedBy};

use cert_arithmetic::division::floor_quotient;
use cert_arithmetic::divisors::small_common_divisor;

/// Numbers below this have 64 bits.
const WORD: u128 = 1 << 64;

// The greatest common divisor of any two numbers, by Euclid's algorithm.
fn wide_common_divisor(a: u128, b: u128) -> u128
    ensures common { IsGcd a b result }
    ensures size { result ≤ max a b }
{
    let mut x = a;
    let mut y = b;
    while y != 0 {
        let rest = x % y;
        x = y;
        y = rest;
    }
    x
}

/// The greatest common divisor. That of 0 and a number is the number.
#[inline(always)]
pub fn greatest_common_divisor(a: u128, b: u128) -> u128
    ensures common { IsGcd a b result }
    ensures size { result ≤ max a b }
{
    if a == 0 {
        return b;
    }
    if a == 1 || b == 1 {
        return 1;
    }
    if a.max(b) < WORD {
        return small_common_divisor(a as u64, b as u64) as u128;
    }
    wide_common_divisor(a, b)
}

// The greatest common divisor of the coefficients, 0 where all are 0.
fn common_divisor(coefs: &[i128]) -> u128
    requires { All (λ a. IsTrue (narrow a)) coefs.now }
    ensures common { IsCommonDivisor coefs.now result }
    ensures size { result ≤ 2 ^ 126 }
{
    let mut divisor = 0;
    for coef in coefs {
        divisor = greatest_common_divisor(coef.unsigned_abs(), divisor);
        if divisor == 1 {
            return 1;
        }
    }
    divisor
}

/// The quotient of two sizes, rounded down: by a division of 64 bits where that does.
pub fn size_quotient(size: u128, divisor: u128) -> u128
    requires { 1 ≤ divisor }
    ensures { result ≡ size / divisor }
{
    if size < WORD && divisor < WORD {
        return u128::from(size as u64 / divisor as u64);
    }
    size / divisor
}

// The quotient of numbers of 64 bits, with the remainder dropped.
#[inline(always)]
fn small_quotient(number: i64, divisor: i64) -> i128
    requires { pos 1 ≤ℤ divisor }
    ensures { result ≡ int_div number divisor }
{
    i128::from(number / divisor)
}

// The quotient, with the remainder dropped: by a division of 64 bits where that does.
#[inline(always)]
fn quotient(number: i128, divisor: i128) -> i128
    requires { pos 1 ≤ℤ divisor }
    ensures { result ≡ int_div number divisor }
{
    match (i64::try_from(number), i64::try_from(divisor)) {
        (Ok(number), Ok(divisor)) => small_quotient(number, divisor),
        _ => number / divisor,
    }
}

// Divides each number, with the remainder dropped.
fn divide(numbers: &mut [i128], divisor: i128)
    requires { pos 1 ≤ℤ divisor }
    ensures { numbers.new ≡ map (λ a. int_div a divisor) numbers.old }
{
    for number in numbers.iter_mut() {
        *number = quotient(*number, divisor);
    }
}

fn divide_each(numbers: &mut Vec<i128>, divisor: i128)
    requires { pos 1 ≤ℤ divisor }
    ensures { numbers.new.items ≡ map (λ a. int_div a divisor) numbers.old.items }
{
    divide(numbers.as_mut_slice(), divisor)
}

/// Divides the coefficients by their greatest common divisor, and gives the bound divided and rounded
/// down, and that divisor: 1 where all are 0. The coefficients are at most 2 ^ 126 in size.
#[inline(always)]
pub fn reduce(coefs: &mut Vec<i128>, bound: i128) -> (i128, i128)
    requires { All (λ a. IsTrue (narrow a)) coefs.old.items }
    ensures { (g : ℕ) × (result.1 ≡ pos (max g 1)) × IsReducedBy g
        (record { coefs = coefs.old.items; bound = bound }) (record {
          coefs = coefs.new.items;
          bound
              = result.0;
        }) }
{
    let divisor = common_divisor(coefs.as_slice());
    if divisor <= 1 {
        return (bound, 1);
    }
    let divisor = divisor as i128;
    divide_each(coefs, divisor);
    (floor_quotient(bound, divisor), divisor)
}
