// The certificate of a contradiction.

use crate::sum::Sum;
use farkas_cert::{Certificate, Step, StepList, Terms};
use std::alloc::{AllocError, Global};

// Where a made row stands among the made ones, None for a given row.
fn place_of(given: usize, number: usize) -> Option<usize> {
    number.checked_sub(given)?.checked_sub(1)
}

// Marks the row of this number, if it is a made one.
fn mark(needed: &mut [bool], given: usize, number: usize) {
    if let Some(place) = place_of(given, number) {
        if let Some(flag) = needed.get_mut(place) {
            *flag = true;
        }
    }
}

// Which of the made rows the last one needs: a walk back.
fn needed_rows(alloc: Global, given: usize, made: &[Sum]) -> Result<Vec<bool>, AllocError> {
    let mut needed = vec![in alloc; false; made.len()]?;
    mark(
        needed.as_mut_slice(),
        given,
        given.saturating_add(made.len()),
    );
    for (place, sum) in made.iter().enumerate().rev() {
        if needed.get(place).copied() == Some(true) {
            mark(needed.as_mut_slice(), given, sum.first.0);
            if let Some((number, _)) = sum.second {
                mark(needed.as_mut_slice(), given, number);
            }
        }
    }
    Ok(needed)
}

// The new number of a row, 0 where it has none.
fn new_number(given: usize, numbers: &[u64], number: usize) -> u64 {
    match place_of(given, number) {
        Some(place) => numbers.get(place).copied().unwrap_or(0),
        None => number as u64,
    }
}

// The step of a sum, by the new numbers.
fn step_of(alloc: Global, given: usize, numbers: &[u64], sum: &Sum) -> Result<Step, AllocError> {
    let mut terms = Vec::with_capacity(alloc, 2)?;
    let (row, multiplier) = sum.first;
    terms.push((new_number(given, numbers, row), i128::from(multiplier)))?;
    if let Some((row, multiplier)) = sum.second {
        terms.push((new_number(given, numbers, row), i128::from(multiplier)))?;
    }
    Ok(Step {
        divisor: i128::from(sum.divisor),
        terms: Terms::from_vec(terms),
    })
}

// The steps that the last of the made rows needs, numbered anew.
fn needed_steps(alloc: Global, given: usize, made: &[Sum]) -> Result<Vec<Step>, AllocError> {
    let needed = needed_rows(alloc, given, made)?;
    let mut numbers = Vec::with_capacity(alloc, made.len())?;
    let mut steps = Vec::new(alloc);
    for (sum, is_needed) in made.iter().zip(needed.as_slice()) {
        if *is_needed {
            steps.push(step_of(alloc, given, numbers.as_slice(), sum)?)?;
        }
        numbers.push(given.saturating_add(steps.len()) as u64)?;
    }
    Ok(steps)
}

/// The certificate that ends with the row of this number. Nothing is known of it.
pub(crate) fn certificate_of(
    alloc: Global,
    given: usize,
    made: &[Sum],
    number: usize,
) -> Result<Certificate, AllocError> {
    let steps = match number.checked_sub(given) {
        Some(count) if count > 0 => needed_steps(alloc, given, &made[..count.min(made.len())])?,
        _ => {
            let mut steps = Vec::new(alloc);
            steps.push(step_of(alloc, given, &[], &Sum::copy(number))?)?;
            steps
        }
    };
    Ok(Certificate {
        steps: StepList::from_vec(steps),
    })
}
