// Division of coefficients by a common divisor.

ghost use Rattle.std.specs.Prelude.{◌≡◌, ◌+◌, length, pos, ◌≤ℤ◌, int_div, int_rem, IsTrue, Some, None, if◌then◌else◌, map};
ghost use Rattle.std.specs.Ordering.{int_eq};
ghost use Rattle.std.specs.Int.{int_div_euclid};
ghost use Rattle.std.specs.List.{list_all};
ghost use Rattle.cert_arithmetic.specs.Units.{RoseWithin};

use crate::counting::Steps;
use std::sync::ledger::Ledger;

// The quotient of numbers of 64 bits, if nothing remains. One division gives both.
#[inline(always)]
fn small_exact_quotient(number: i64, divisor: i64) -> Option<i128>
    requires { pos 1 ≤ℤ divisor }
    ensures { result ≡ (if int_eq (int_rem number divisor) (pos 0) then Some
        (int_div number divisor) else None) }
{
    if number % divisor == 0 {
        Some(i128::from(number / divisor))
    } else {
        None
    }
}

// The quotient of any two numbers, if nothing remains.
fn wide_exact_quotient(number: i128, divisor: i128) -> Option<i128>
    requires { pos 1 ≤ℤ divisor }
    ensures { result ≡ (if int_eq (int_rem number divisor) (pos 0) then Some
        (int_div number divisor) else None) }
{
    let rest = number % divisor;
    if rest == 0 {
        Some(number / divisor)
    } else {
        None
    }
}

// The quotient, if nothing remains: with no division by 1, and by one of 64 bits where that does.
#[inline(always)]
#[tactic(auto, using(crate::proofs::ByOne::exact_by_one))]
fn exact_quotient<L: Ledger>(number: i128, divisor: i128, steps: &mut Steps<L>) -> Option<i128>
    requires { pos 1 ≤ℤ divisor }
    ensures quotient { result ≡ (if int_eq (int_rem number divisor) (pos 0) then Some
        (int_div number divisor) else None) }
    ensures counted { steps.new ≡ steps.old + 1 }
{
    steps.tick();
    if divisor == 1 {
        return Some(number);
    }
    match (i64::try_from(number), i64::try_from(divisor)) {
        (Ok(number), Ok(divisor)) => small_exact_quotient(number, divisor),
        _ => wide_exact_quotient(number, divisor),
    }
}

// The quotient of numbers of 64 bits, rounded down.
#[inline(always)]
fn small_floor_quotient(number: i64, divisor: i64) -> i128
    requires { pos 1 ≤ℤ divisor }
    ensures { result ≡ int_div_euclid number divisor }
{
    i128::from(number.div_euclid(divisor))
}

/// The quotient, rounded down: by a division of 64 bits where that does.
pub fn floor_quotient(number: i128, divisor: i128) -> i128
    requires { pos 1 ≤ℤ divisor }
    ensures { result ≡ int_div_euclid number divisor }
{
    match (i64::try_from(number), i64::try_from(divisor)) {
        (Ok(number), Ok(divisor)) => small_floor_quotient(number, divisor),
        _ => number.div_euclid(divisor),
    }
}

/// The same, counted, and with no division by 1.
#[tactic(auto, using(crate::proofs::ByOne::floor_by_one))]
pub fn counted_quotient<L: Ledger>(number: i128, divisor: i128, steps: &mut Steps<L>) -> i128
    requires { pos 1 ≤ℤ divisor }
    ensures quotient { result ≡ int_div_euclid number divisor }
    ensures counted { steps.new ≡ steps.old + 1 }
{
    steps.tick();
    if divisor == 1 {
        return number;
    }
    floor_quotient(number, divisor)
}

/// Divides each number, if the divisor divides them all. Where it doesn't, those in front of the
/// first that it doesn't divide are divided.
pub fn divide_all<L: Ledger>(numbers: &mut [i128], divisor: i128, steps: &mut Steps<L>) -> bool
    requires { pos 1 ≤ℤ divisor }
    ensures all { result ≡ list_all (λ a. int_eq (int_rem a divisor) (pos 0)) numbers.old }
    ensures quotients { IsTrue result → numbers.new ≡ map (λ a. int_div a divisor) numbers.old }
    ensures same { length numbers.new ≡ length numbers.old }
    ensures units { RoseWithin (length numbers.old) steps.old steps.new }
    ensures each { IsTrue result → steps.new ≡ steps.old + length numbers.old }
{
    for number in numbers.iter_mut() {
        match exact_quotient(*number, divisor, steps) {
            Some(quotient) => *number = quotient,
            None => return false,
        }
    }
    true
}
