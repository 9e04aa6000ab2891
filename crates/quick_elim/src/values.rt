// Values taken back, from the last variable that was removed on.

use crate::flat::{Flat, number_at};
use crate::row::{Bounds, WorkRow};
use crate::work::Work;
use std::alloc::{AllocError, Global};

/// What was done with a variable.
#[derive(Drop)]
pub(crate) enum Change {
    /// It was removed from these rows.
    Removed(usize, Bounds),
    /// It was replaced by another, less so many times each of the variables.
    Replaced(usize, Vec<i64>),
}

/// Where the value of a variable lies.
#[derive(Clone, Copy)]
struct Interval {
    low: Option<i64>,
    high: Option<i64>,
}

impl Interval {
    // The value of this number from 0 on: from both ends in turn, or from the one that is there.
    fn value(self, number: i64) -> Option<i64> {
        let half = number / 2;
        match (self.low, self.high) {
            (Some(low), Some(high)) => {
                if number > high.checked_sub(low)? {
                    None
                } else if number % 2 == 0 {
                    low.checked_add(half)
                } else {
                    high.checked_sub(half)
                }
            }
            (Some(low), None) => low.checked_add(number),
            (None, Some(high)) => high.checked_sub(number),
            (None, None) => {
                if number % 2 == 0 {
                    Some(half)
                } else {
                    half.checked_add(1)?.checked_neg()
                }
            }
        }
    }
}

// The number less the sum of coefficients times values.
fn rest_of(number: i64, coefs: &[i64], values: &[i64]) -> Option<i64> {
    let mut rest = number;
    for (coef, value) in coefs.iter().zip(values) {
        if *coef != 0 {
            rest = rest.checked_sub(coef.checked_mul(*value)?)?;
        }
    }
    Some(rest)
}

// The most that a row leaves for a variable times its coefficient's size, rounded down.
fn room_in(coefs: &[i64], bound: i64, variable: usize, values: &[i64]) -> Option<i64> {
    let rest = rest_of(bound, coefs, values)?;
    rest.checked_div_euclid(number_at(coefs, variable).checked_abs()?)
}

// The most that all these rows leave for a variable times its coefficient's size.
fn room_in_all(
    coefs: &Flat,
    rows: &[WorkRow],
    variable: usize,
    values: &[i64],
) -> Option<Option<i64>> {
    let mut room: Option<i64> = None;
    for row in rows {
        let most = room_in(coefs.row(row.start), row.bound, variable, values)?;
        room = match room {
            Some(room) => Some(most.min(room)),
            None => Some(most),
        };
    }
    Some(room)
}

impl Change {
    // The variable.
    fn variable(&self) -> usize {
        match self {
            Change::Removed(variable, _) => *variable,
            Change::Replaced(variable, _) => *variable,
        }
    }
}

// The values so far, and how many more may be tried.
#[derive(Drop)]
struct Search<'a> {
    work: &'a Work,
    values: Vec<i64>,
    steps: usize,
    width: i64,
}

impl Search<'_> {
    // Where a variable's value lies, which stands as 0 among the values.
    fn between(&self, variable: usize, bounds: Bounds) -> Option<Interval> {
        let work = self.work;
        let values = self.values.as_slice();
        let high = room_in_all(&work.flat, work.uppers(bounds), variable, values)?;
        let low = match room_in_all(&work.flat, work.lowers(bounds), variable, values)? {
            Some(room) => Some(room.checked_neg()?),
            None => None,
        };
        Some(Interval { low, high })
    }

    // Where the value of a variable lies, by the values of those that were removed after it.
    fn interval(&self, change: &Change) -> Option<Interval> {
        match change {
            Change::Removed(variable, bounds) => self.between(*variable, *bounds),
            Change::Replaced(variable, factors) => {
                let values = self.values.as_slice();
                let given = number_at(values, *variable);
                let value = rest_of(given, factors.as_slice(), values)?;
                Some(Interval {
                    low: Some(value),
                    high: Some(value),
                })
            }
        }
    }

    // A variable's value.
    fn set(&mut self, variable: usize, value: i64) {
        if let Some(place) = self.values.get_mut(variable) {
            *place = value;
        }
    }

    // Whether values for what was done are found. Where none are, the values are as before.
    fn find(&mut self, trail: &[Change]) -> bool {
        let [earlier @ .., last] = trail else {
            return true;
        };
        if self.steps == 0 {
            return false;
        }
        self.steps -= 1;
        let variable = last.variable();
        let given = number_at(self.values.as_slice(), variable);
        let Some(interval) = self.interval(last) else {
            return false;
        };
        for number in 0..self.width {
            let Some(value) = interval.value(number) else {
                break;
            };
            self.set(variable, value);
            if self.find(earlier) {
                return true;
            }
        }
        self.set(variable, given);
        false
    }
}

/// Values of the variables that what was done leads to, if some are found.
pub(crate) fn find_values(alloc: Global, work: &Work) -> Result<Option<Vec<i64>>, AllocError> {
    let mut search = Search {
        work,
        values: vec![in alloc; 0; work.vars]?,
        steps: work.budget.steps,
        width: i64::try_from(work.budget.values).unwrap_or(i64::MAX),
    };
    if search.find(work.trail.as_slice()) {
        let Search { values, .. } = search;
        Ok(Some(values))
    } else {
        Ok(None)
    }
}
