// Equalities, and whole changes of variables.

use crate::early_end::EarlyEnd;
use crate::flat::{Flat, number_at};
use crate::row::{Bounds, WorkRow, are_opposite, hash_of, weight_of};
use crate::values::Change;
use crate::work::Work;
use std::alloc::{AllocError, Global};

/// As many changes of variables as a coefficient of 64 bits can need until it is 1.
const CHANGES: usize = 64;

// The whole number nearest to a quotient.
fn nearest_quotient(number: i64, by: i64) -> Option<i64> {
    let size = by.checked_abs()?;
    let twice = number.checked_mul(2)?.checked_add(size)?;
    let quotient = twice.checked_div_euclid(size.checked_mul(2)?)?;
    if by < 0 {
        quotient.checked_neg()
    } else {
        Some(quotient)
    }
}

// The place of the least number that isn't 0, by size.
fn least_place(numbers: &[i64]) -> Option<usize> {
    let mut best = None;
    let mut least = u64::MAX;
    for (place, number) in numbers.iter().enumerate() {
        let size = number.unsigned_abs();
        if size != 0 && size < least {
            least = size;
            best = Some(place);
        }
    }
    best
}

// By how much each other variable goes into this one, so that the row's coefficients shrink.
fn factors_of(
    alloc: Global,
    coefs: &[i64],
    variable: usize,
) -> Result<Option<Vec<i64>>, AllocError> {
    let by = number_at(coefs, variable);
    let mut factors = Vec::with_capacity(alloc, coefs.len())?;
    for (place, coef) in coefs.iter().enumerate() {
        if place == variable {
            factors.push(0)?;
        } else {
            match nearest_quotient(*coef, by) {
                Some(factor) => factors.push(factor)?,
                None => return Ok(None),
            }
        }
    }
    Ok(Some(factors))
}

// Takes so many times each factor from the numbers; false where one has more than 64 bits.
fn take_multiples(numbers: &mut [i64], times: i64, factors: &[i64]) -> bool {
    for (number, factor) in numbers.iter_mut().zip(factors) {
        let rest = match factor.checked_mul(times) {
            Some(product) => number.checked_sub(product),
            None => None,
        };
        match rest {
            Some(rest) => *number = rest,
            None => return false,
        }
    }
    true
}

impl WorkRow {
    // Its form where the variable is one less so many times each other variable; false where a number has
    // more than 64 bits.
    fn replace(&mut self, flat: &mut Flat, variable: usize, factors: &[i64]) -> bool {
        let times = flat.coef(self.start, variable);
        if times == 0 {
            return true;
        }
        let coefs = flat.row_mut(self.start);
        if !take_multiples(coefs, times, factors) {
            return false;
        }
        self.hash = hash_of(coefs);
        true
    }
}

// The form of each row.
fn replace_all(rows: &mut [WorkRow], flat: &mut Flat, variable: usize, factors: &[i64]) -> bool {
    for row in rows.iter_mut() {
        if !row.replace(flat, variable, factors) {
            return false;
        }
    }
    true
}

impl Work {
    /// The place of a row that is half of an equality: the one with fewest variables, first of those with a
    /// coefficient 1 or -1.
    pub(crate) fn equality(&self) -> Option<usize> {
        let mut best = None;
        let mut least = usize::MAX;
        for (place, row) in self.rows.iter().enumerate() {
            if row.is_tight {
                let weight = weight_of(self.flat.row(row.start));
                if weight < least {
                    least = weight;
                    best = Some(place);
                }
            }
        }
        best
    }

    // How many rows have a variable.
    fn count_with(&self, variable: usize) -> usize {
        self.rows
            .iter()
            .filter(|row| self.flat.coef(row.start, variable) != 0)
            .count()
    }

    // Of the variables with a coefficient 1 or -1 in a row the one that fewest rows have.
    fn unit_variable(&self, coefs: &[i64]) -> Option<usize> {
        let mut best = None;
        let mut least = usize::MAX;
        for (variable, coef) in coefs.iter().enumerate() {
            if coef.unsigned_abs() == 1 {
                let count = self.count_with(variable);
                if count < least {
                    least = count;
                    best = Some(variable);
                }
            }
        }
        best
    }

    // Takes the row of this place away.
    fn take(&mut self, place: usize) -> Result<WorkRow, EarlyEnd> {
        if place < self.rows.len() {
            Ok(self.rows.remove(place))
        } else {
            Err(EarlyEnd::GivenUp)
        }
    }

    // Takes the row at a place away, with its opposite: first the one in which the variable's coefficient is above 0.
    fn take_equality(
        &mut self,
        place: usize,
        variable: usize,
    ) -> Result<(WorkRow, WorkRow), EarlyEnd> {
        let row = self.take(place)?;
        let coefs = self.flat.row(row.start);
        let wanted = row.hash.wrapping_neg();
        let Some(opposite) = self.rows.iter().position(|other| {
            other.hash == wanted && are_opposite(self.flat.row(other.start), coefs)
        })
        else {
            return Err(EarlyEnd::GivenUp);
        };
        let other = self.take(opposite)?;
        if self.flat.coef(row.start, variable) > 0 {
            Ok((row, other))
        } else {
            Ok((other, row))
        }
    }

    // Lays an upper row and a lower one by.
    fn lay_by(&mut self, upper: WorkRow, lower: WorkRow) -> Result<Bounds, AllocError> {
        let first = self.gone.len();
        self.gone.push(upper)?;
        let middle = self.gone.len();
        self.gone.push(lower)?;
        Ok(Bounds {
            first,
            middle,
            end: self.gone.len(),
        })
    }

    // Replaces a variable in each row by what an equality says of it, where its coefficient is 1 or -1.
    fn substitute(&mut self, place: usize, variable: usize) -> Result<(), EarlyEnd> {
        let (upper, lower) = self.take_equality(place, variable)?;
        let bounds = self.take_with(variable)?;
        for above in bounds.first..bounds.middle {
            let row = self.gone_at(above)?;
            self.join(variable, row, lower)?;
        }
        for below in bounds.middle..bounds.end {
            let row = self.gone_at(below)?;
            self.join(variable, upper, row)?;
        }
        let bounds = self.lay_by(upper, lower)?;
        self.trail.push(Change::Removed(variable, bounds))?;
        Ok(())
    }

    // Changes the variables so that the row's coefficients but the least of them get less than half its size.
    fn change_variables(&mut self, alloc: Global, place: usize) -> Result<(), EarlyEnd> {
        let Some(row) = self.rows.get(place) else {
            return Err(EarlyEnd::GivenUp);
        };
        let coefs = self.flat.row(row.start);
        let Some(variable) = least_place(coefs) else {
            return Err(EarlyEnd::GivenUp);
        };
        let Some(factors) = factors_of(alloc, coefs, variable)? else {
            return Err(EarlyEnd::GivenUp);
        };
        let rows = self.rows.as_mut_slice();
        if !replace_all(rows, &mut self.flat, variable, factors.as_slice()) {
            return Err(EarlyEnd::GivenUp);
        }
        self.trail.push(Change::Replaced(variable, factors))?;
        Ok(())
    }

    /// Removes a variable by the equality whose one half stands at this place.
    pub(crate) fn use_equality(&mut self, alloc: Global, place: usize) -> Result<(), EarlyEnd> {
        for _change in 0..CHANGES {
            let Some(row) = self.rows.get(place) else {
                return Err(EarlyEnd::GivenUp);
            };
            match self.unit_variable(self.flat.row(row.start)) {
                Some(variable) => return self.substitute(place, variable),
                None => self.change_variables(alloc, place)?,
            }
        }
        Err(EarlyEnd::GivenUp)
    }
}
