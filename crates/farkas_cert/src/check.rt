// The check of a certificate.

ghost use Rattle.std.specs.Prelude.{◌≡◌, ◌≢◌, ℕ, ◌+◌, ◌*◌, ◌≤◌, ◌<◌, [], ◌∷◌, ℤ, pos, ◌+ℤ◌, ◌*ℤ◌, IsSome, IfSome, IfOk, IfErr, OnOk, IsOkUnless, ◌↔◌, ◌++◌, map, length, if◌then◌else◌, false, ◌&&◌, true, ◌<ℤ◌, int_div, int_rem, slice_get, ◌-◌};
ghost use Rattle.std.specs.Int.{int_div_euclid};
ghost use Rattle.std.specs.Ordering.{int_eq};
ghost use Rattle.std.specs.List.{list_all, range_with_len};
ghost use Rattle.farkas_cert.specs.Inequalities.{HasNoWholeSolution};
ghost use Rattle.farkas_cert.specs.Combination.{stays_narrow, total, products_at, made_row};
ghost use Rattle.farkas_cert.specs.Combination.{row_at as row_of, entry_at as entry_of, sum_at as sum_of};
ghost use Rattle.farkas_cert.specs.Good.{IsGood};
ghost use Rattle.farkas_cert.specs.Units.{most_units, RoseWithin};
ghost use Rattle.farkas_cert.specs.Fault.{is_contradiction as contradiction, names_bad_row as bad_row, first_wide, divides, step_fault, last_fault, first_fault};

use crate::certificate::{CertRefusal, Certificate, Step};
use crate::system::{Coefs, Row, System};
use crate::uses::Uses;
use cert_arithmetic::Steps;
use cert_arithmetic::division::counted_quotient;
use cert_arithmetic::terms::{has_negative, names_bad_row, with_product};
use std::alloc::Global;
use std::marker::Brand;
use std::sync::ledger::{Blank, Ledger};

// How many rows stand so far: those of the system, and the made ones.
fn row_count(system: &System, made: &[Row]) -> usize
    ensures { result ≡ length system.now.rows + length made.now }
{
    system.rows().len() + made.len()
}

// The row with this number, from 1, among the system's rows and the made ones behind them.
fn row_at<'a>(system: &'a System, made: &'a [Row], number: u64) -> &'a Row
    requires { (1 ≤ number) × (number ≤ length system.now.rows + length made.now) }
    ensures { result.now ≡ row_of (system.now.rows ++ made.now) number }
{
    let given = system.rows();
    let place = (number - 1) as usize;
    if place < given.len() {
        &given[place]
    } else {
        &made[place - given.len()]
    }
}

// The entry k of a row: its coefficients, then the bound.
fn entry_at(row: &Row, vars: usize, k: usize) -> i128
    ensures { result ≡ entry_of vars row.now k }
{
    if k < vars {
        row.coefs.as_slice().get(k).copied().unwrap_or(0)
    } else {
        row.bound
    }
}

// What the terms sum at entry k, where no product and no running sum passes the limit.
fn sum_at<L: Ledger>(
    system: &System,
    made: &[Row],
    terms: &[(u64, i128)],
    k: usize,
    steps: &mut Steps<L>,
) -> Option<i128>
    requires { bad_row (length system.now.rows + length made.now) terms.now ≡ false }
    ensures sum { let products = products_at system.now.vars (system.now.rows
        ++ made.now) terms.now k in result ≡ (if stays_narrow (pos 0) products then Some
        (total products) else None) }
    ensures units { RoseWithin (length terms.now) steps.old steps.new }
    ensures all { IsSome result → steps.new ≡ steps.old + length terms.now }
{
    let vars = system.vars() as usize;
    let mut sum = 0i128;
    for term in terms {
        let row = row_at(system, made, term.0);
        sum = with_product(sum, term.1, entry_at(row, vars, k), steps)?;
    }
    Some(sum)
}

// What the terms of step `number` sum at each entry, if no product and no running sum passes the limit.
fn summed<L: Ledger>(
    alloc: Global,
    system: &System,
    made: &[Row],
    number: u64,
    terms: &[(u64, i128)],
    steps: &mut Steps<L>,
) -> Result<Row, CertRefusal>
    requires { bad_row (length system.now.rows + length made.now) terms.now ≡ false }

    ensures narrow { OnOk result (first_wide system.now.vars (system.now.rows
        ++ made.now) terms.now (range_with_len 0 (system.now.vars + 1)) ≡ None) }
    ensures coefs { IfOk result (λ row. row.coefs ≡ map (sum_of system.now.vars (system.now.rows
        ++ made.now) terms.now) (range_with_len 0 system.now.vars)) }
    ensures bound { IfOk result (λ row. row.bound ≡ sum_of system.now.vars (system.now.rows
        ++ made.now) terms.now system.now.vars) }
    ensures full { IfOk result (λ row. length row.coefs ≡ system.now.vars) }
    ensures wide { IfErr result (λ e. e ≢ CertRefusal.NoMemory → (k : ℕ)
        × (first_wide system.now.vars (system.now.rows ++ made.now) terms.now
        (range_with_len 0 (system.now.vars + 1)) ≡ Some k)
        × (e ≡ CertRefusal.Wide number (k + 1))) }

    ensures units { RoseWithin (length terms.now * (system.now.vars + 1)) steps.old steps.new }
    ensures all { OnOk result (steps.new ≡ steps.old + length terms.now * (system.now.vars + 1)) }
{
    let vars = system.vars();
    let mut coefs = Coefs::with_capacity(alloc, vars as usize)?;
    for k in 0..vars {
        match sum_at(system, made, terms, k as usize, steps) {
            Some(sum) => coefs.push(sum)?,
            None => return Err(CertRefusal::Wide(number, u64::from(k) + 1)),
        }
    }
    match sum_at(system, made, terms, vars as usize, steps) {
        Some(bound) => Ok(Row { coefs, bound }),
        None => Err(CertRefusal::Wide(number, u64::from(vars) + 1)),
    }
}

// The row divided, its bound rounded down, if the divisor is at least 1 and divides each coefficient.
fn divided<L: Ledger>(mut row: Row, divisor: i128, steps: &mut Steps<L>) -> Option<Row>
    ensures coefs { IfSome result (λ made. made.coefs ≡ map (λ a. int_div a divisor) row.coefs) }
    ensures bound { IfSome result (λ made. made.bound ≡ int_div_euclid row.bound divisor) }
    ensures divides { IsSome result ↔ ((pos 0 <ℤ divisor)
        × (list_all (λ a. int_eq (int_rem a divisor) (pos 0)) row.coefs ≡ true)) }
    ensures units { RoseWithin (length row.coefs + 1) steps.old steps.new }
    ensures all { IsSome result → steps.new ≡ steps.old + length row.coefs + 1 }
{
    if divisor < 1 || !row.coefs.divide(divisor, steps) {
        return None;
    }
    row.bound = counted_quotient(row.bound, divisor, steps);
    Some(row)
}

// The row that step `number` makes of the rows so far, if the step is good.
fn check_step<L: Ledger>(
    alloc: Global,
    system: &System,
    made: &[Row],
    number: u64,
    step: &Step,
    steps: &mut Steps<L>,
) -> Result<Row, CertRefusal>
    ensures good { OnOk result (step_fault system.now.vars (system.now.rows
        ++ made.now) number step.now ≡ None) }
    ensures made { IfOk result (λ row. row ≡ made_row system.now.vars (system.now.rows
        ++ made.now) step.now) }
    ensures refused { IfErr result (λ e. e ≢ CertRefusal.NoMemory
        → step_fault system.now.vars (system.now.rows ++ made.now) number step.now ≡ Some e) }
    ensures units { RoseWithin (most_units system.now.vars (step.now ∷ [])) steps.old steps.new }
    ensures all { OnOk result (steps.new ≡ steps.old + most_units system.now.vars (step.now ∷ [])) }
{
    let terms = step.terms.as_slice();
    if has_negative(terms) {
        return Err(CertRefusal::NegativeMultiplier(number));
    }
    if names_bad_row(row_count(system, made), terms) {
        return Err(CertRefusal::BadRow(number));
    }
    let sums = summed(alloc, system, made, number, terms, steps)?;
    match divided(sums, step.divisor, steps) {
        Some(row) => Ok(row),
        None => Err(CertRefusal::BadDivisor(number)),
    }
}

// Each coefficient is 0.
fn are_zero(coefs: &[i128]) -> bool
    ensures { result ≡ list_all (λ a. int_eq a (pos 0)) coefs.now }
{
    coefs.iter().all(|coef| *coef == 0)
}

// The row has only zero coefficients and a negative bound.
fn is_contradiction(row: &Row) -> bool
    ensures { result ≡ contradiction row.now }
{
    are_zero(row.coefs.as_slice()) && row.bound < 0
}

// The last row is a contradiction.
fn check_last(system: &System, made: &[Row]) -> Result<(), CertRefusal>
    ensures good { let rows = system.now.rows ++ made.now in OnOk result (last_fault (length rows)
        (slice_get rows (length rows - 1)) ≡ None) }
    ensures refused { let rows = system.now.rows ++ made.now in IfErr result
        (λ e. last_fault (length rows) (slice_get rows (length rows - 1)) ≡ Some e) }
{
    let count = row_count(system, made) as u64;
    if count != 0 && is_contradiction(row_at(system, made, count)) {
        Ok(())
    } else {
        Err(CertRefusal::NoContradiction(count))
    }
}

// The rows that the steps make, if each is good: those that no step left names are empty.
#[tactic(auto, using(crate::proofs::Units::most_units_step))]
fn check_steps<L: Ledger>(
    alloc: Global,
    system: &System,
    certificate: &Certificate,
    steps: &mut Steps<L>,
) -> Result<Vec<Row>, CertRefusal>
    ensures good { IfOk result (λ made. let rows = system.now.rows
        ++ made.items in first_fault system.now certificate.now
        ≡ last_fault (length rows) (slice_get rows (length rows - 1))) }
    ensures refused { IfErr result (λ e. e ≢ CertRefusal.NoMemory
        → first_fault system.now certificate.now ≡ Some e) }
    ensures units { RoseWithin (most_units system.now.vars certificate.now.steps) steps.old
        steps.new }
    ensures all { OnOk result (steps.new ≡ steps.old + most_units system.now.vars
        certificate.now.steps) }
{
    let taken = certificate.steps.as_slice();
    let uses = Uses::new(alloc, system.rows().len(), taken)?;
    let mut made = Vec::with_capacity(alloc, taken.len())?;
    for (index, step) in taken.iter().enumerate() {
        let number = index as u64 + 1;
        let row = check_step(alloc, system, made.as_slice(), number, step, steps)?;
        made.push(row)?;
        uses.forget(alloc, &mut made);
    }
    Ok(made)
}

/// Checks a certificate for a system, and counts its work. Nothing is assumed of the numbers in
/// either.
///
/// The steps are taken in order, and in a step its multipliers come first, then the rows that it
/// names, then the size of its products and running sums (the least entry that passes 2 ^ 126 in
/// size), then its divisor. The first fault is told. After the steps the last row of all has to
/// be a contradiction.
///
/// `steps` rises by one for each multiplication, which has an addition with it, and for each
/// division: by (terms + steps) * (variables + 1) where the certificate is good, and else by no
/// more. The check takes memory for one row a step, and gives it back; the coefficients of a row it
/// gives back behind the last step that names it.
pub fn check_cert_counted<L: Ledger>(
    alloc: Global,
    system: &System,
    certificate: &Certificate,
    steps: &mut Steps<L>,
) -> Result<(), CertRefusal>
    ensures good { OnOk result (IsGood system.now certificate.now) }
    ensures no_solution { OnOk result (HasNoWholeSolution system.now) }

    // A good certificate is refused for want of memory alone, and another one with its first fault.
    ensures taken { IsGood system.now certificate.now → IsOkUnless result CertRefusal.NoMemory }
    ensures no_fault { OnOk result (first_fault system.now certificate.now ≡ None) }
    ensures refused { IfErr result (λ e. e ≢ CertRefusal.NoMemory
        → first_fault system.now certificate.now ≡ Some e) }

    ensures units { RoseWithin (most_units system.now.vars certificate.now.steps) steps.old
        steps.new }
    ensures all { OnOk result (steps.new ≡ steps.old + most_units system.now.vars
        certificate.now.steps) }
{
    let made = check_steps(alloc, system, certificate, steps)?;
    check_last(system, made.as_slice())
}

// The check, with a count of its own.
fn check_with<L: Ledger>(
    alloc: Global,
    system: &System,
    certificate: &Certificate,
    blank: Blank,
) -> Result<(), CertRefusal>
    requires name { blank.name ≡ L.name }
    requires parts { blank.parts ≡ L.parts }
    requires some { 0 < blank.parts }
    ensures good { OnOk result (IsGood system.now certificate.now) }
    ensures no_solution { OnOk result (HasNoWholeSolution system.now) }
    ensures taken { IsGood system.now certificate.now → IsOkUnless result CertRefusal.NoMemory }
    ensures no_fault { OnOk result (first_fault system.now certificate.now ≡ None) }
    ensures refused { IfErr result (λ e. e ≢ CertRefusal.NoMemory
        → first_fault system.now certificate.now ≡ Some e) }
{
    check_cert_counted(alloc, system, certificate, &mut Steps::<L>::new(blank))
}

/// Checks a certificate for a system, as [`check_cert_counted`] does, with the same answer and at
/// the same cost.
pub fn check_cert(
    alloc: Global,
    system: &System,
    certificate: &Certificate,
) -> Result<(), CertRefusal>
    ensures good { OnOk result (IsGood system.now certificate.now) }
    ensures no_solution { OnOk result (HasNoWholeSolution system.now) }
    ensures taken { IsGood system.now certificate.now → IsOkUnless result CertRefusal.NoMemory }
    ensures no_fault { OnOk result (first_fault system.now certificate.now ≡ None) }
    ensures refused { IfErr result (λ e. e ≢ CertRefusal.NoMemory
        → first_fault system.now certificate.now ≡ Some e) }
{
    check_with::<Brand>(alloc, system, certificate, Blank::new(1))
}
