// The numbers of rows: in the whole system, and among those that are kept.

ghost use Rattle.std.specs.Prelude.{◌≡◌, ◌+◌, ◌∷◌, [], pos, ◌≤◌, ◌<◌, ◌^◌, IfErr, IfNone, IfOk, IfSome, length, map};
ghost use Rattle.farkas_cert.specs.Named.{steps_name, terms_name};
ghost use Rattle.presolve.specs.Answers.{IsLeftOut, StopsOver};
ghost use Rattle.presolve.specs.Columns.{AreRising};
ghost use Rattle.presolve.specs.Renamed.{number_in_64, renamed, renamed_step, renamed_terms};
ghost use Rattle.presolve.specs.Rows.{NamesKept, StepsNameKept, kept_number as number_kept};
ghost use Rattle.presolve.specs.declared.renumbering.Untold.TheVariants.{NoMemory};

use farkas_cert::{Certificate, Step, StepList, Terms};
use std::alloc::{AllocError, AllocFailed, Global};

// Why a certificate of the whole system isn't told in the numbers of the rows that are kept.
#[derive(Clone, Copy, PartialEq, Eq)]
pub(crate) enum Untold {
    // It names this row, which is left out.
    LeftOut(u64),
    NoMemory,
}

impl From<AllocError> for Untold {
    ghost from_gives = { λ _ stop. stop ≡ NoMemory };

    fn from(_error: AllocError) -> Untold {
        Untold::NoMemory
    }
}

impl<T: Drop> From<AllocFailed<T>> for Untold {
    ghost from_gives = { λ _ stop. stop ≡ NoMemory };

    fn from(_failed: AllocFailed<T>) -> Untold {
        Untold::NoMemory
    }
}

// The number, in the whole system of so many rows, of a row that is kept or of a made one behind
// them; the greatest of 64 bits where it passes them.
pub(crate) fn whole_number(count: u64, numbers: &[u64], number: u64) -> u64
    requires { count < 2 ^ 63 }
    ensures { result ≡ number_in_64 count numbers.now number }
{
    if number == 0 {
        return 0;
    }
    let place = number - 1;
    let kept = numbers.len() as u64;
    if place < kept {
        numbers[place as usize]
    } else {
        (place - kept).saturating_add(count + 1)
    }
}

fn whole_terms(
    alloc: Global,
    count: u64,
    numbers: &[u64],
    terms: &[(u64, i128)],
) -> Result<Vec<(u64, i128)>, AllocError>
    requires { count < 2 ^ 63 }
    ensures { IfOk result (λ made. made.items ≡ renamed_terms (number_in_64 count numbers.now)
        terms.now) }
{
    let mut made = Vec::with_capacity(alloc, terms.len())?;
    for term in terms {
        made.push((whole_number(count, numbers, term.0), term.1))?;
    }
    Ok(made)
}

// A certificate in the numbers of the whole system of so many rows.
pub(crate) fn whole_certificate(
    alloc: Global,
    count: u64,
    numbers: &[u64],
    certificate: &Certificate,
) -> Result<Certificate, AllocError>
    requires { count < 2 ^ 63 }
    ensures made { IfOk result (λ made. made ≡ renamed (number_in_64 count numbers.now)
        certificate.now) }
    ensures few { length certificate.now.steps < 2 ^ 63 }
{
    let given = certificate.steps.as_slice();
    let mut steps = Vec::with_capacity(alloc, given.len())?;
    for step in given {
        let terms = whole_terms(alloc, count, numbers, step.terms.as_slice())?;
        steps.push(Step {
            divisor: step.divisor,
            terms: Terms::from_vec(terms),
        })?;
    }
    Ok(Certificate {
        steps: StepList::from_vec(steps),
    })
}

// The number, among the rows that are kept and the made ones behind them, of a row of the whole
// system or a made one; None where it is left out.
fn kept_number(count: u64, numbers: &[u64], number: u64) -> Option<u64>
    requires { length numbers.now ≤ count }
    ensures kept { AreRising 1 (count + 1) numbers.now → IfSome result (λ k. (k
        ≡ number_kept count numbers.now number) × NamesKept count numbers.now ((number, pos 0)
        ∷ [])) }
    ensures left { AreRising 1 (count + 1) numbers.now → IfNone result (IsLeftOut count numbers.now
        number) }
{
    if number == 0 {
        return Some(0);
    }
    if number > count {
        return Some(number - (count - numbers.len() as u64));
    }
    match numbers.binary_search(&number) {
        Ok(place) => Some(place as u64 + 1),
        Err(_) => None,
    }
}

fn kept_terms(
    alloc: Global,
    count: u64,
    numbers: &[u64],
    terms: &[(u64, i128)],
) -> Result<Vec<(u64, i128)>, Untold>
    requires { length numbers.now ≤ count }
    ensures kept { AreRising 1 (count + 1) numbers.now → IfOk result (λ made. (made.items
        ≡ renamed_terms (number_kept count numbers.now) terms.now)
        × NamesKept count numbers.now terms.now) }
    ensures left { AreRising 1 (count + 1) numbers.now → IfErr result
        (StopsOver (λ r. terms_name r terms.now) count numbers.now) }
{
    let mut made = Vec::with_capacity(alloc, terms.len())?;
    for term in terms {
        match kept_number(count, numbers, term.0) {
            Some(number) => made.push((number, term.1))?,
            None => return Err(Untold::LeftOut(term.0)),
        }
    }
    Ok(made)
}

// A certificate of the whole system of so many rows in the numbers of those that are kept.
pub(crate) fn kept_certificate(
    alloc: Global,
    count: u64,
    numbers: &[u64],
    certificate: &Certificate,
) -> Result<Certificate, Untold>
    requires { length numbers.now ≤ count }
    ensures kept { AreRising 1 (count + 1) numbers.now → IfOk result (λ made. (made
        ≡ renamed (number_kept count numbers.now) certificate.now)
        × StepsNameKept count numbers.now certificate.now.steps) }
    ensures left { AreRising 1 (count + 1) numbers.now → IfErr result
        (StopsOver (λ r. steps_name r certificate.now.steps) count numbers.now) }
    ensures few { length certificate.now.steps < 2 ^ 63 }
{
    let given = certificate.steps.as_slice();
    let mut steps = Vec::with_capacity(alloc, given.len())?;
    for step in given {
        let terms = kept_terms(alloc, count, numbers, step.terms.as_slice())?;
        steps.push(Step {
            divisor: step.divisor,
            terms: Terms::from_vec(terms),
        })?;
    }
    Ok(Certificate {
        steps: StepList::from_vec(steps),
    })
}
