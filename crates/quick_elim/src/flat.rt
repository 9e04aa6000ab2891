// The coefficients of rows, one row behind another.

use std::alloc::{AllocError, Global};

/// Rows of so many coefficients, in one list.
#[derive(Drop)]
pub(crate) struct Flat {
    width: usize,
    items: Vec<i64>,
}

/// The item of a number list, 0 where there is none.
pub(crate) fn number_at(numbers: &[i64], place: usize) -> i64 {
    match numbers.get(place) {
        Some(number) => *number,
        None => 0,
    }
}

impl Flat {
    /// No row, with room for so many.
    pub(crate) fn new(alloc: Global, width: usize, rows: usize) -> Result<Self, AllocError> {
        Ok(Flat {
            width,
            items: Vec::with_capacity(alloc, width.saturating_mul(rows))?,
        })
    }

    /// One row more, and where it begins.
    pub(crate) fn push(&mut self, coefs: &[i64]) -> Result<usize, AllocError> {
        let start = self.items.len();
        self.items.extend_from_slice(coefs)?;
        Ok(start)
    }

    /// The row that begins there.
    pub(crate) fn row(&self, start: usize) -> &[i64] {
        let items = self.items.as_slice();
        let rest = &items[start.min(items.len())..];
        &rest[..self.width.min(rest.len())]
    }

    /// The row that begins there, to be changed.
    pub(crate) fn row_mut(&mut self, start: usize) -> &mut [i64] {
        let items = self.items.as_mut_slice();
        let begin = start.min(items.len());
        let rest = &mut items[begin..];
        let count = self.width.min(rest.len());
        &mut rest[..count]
    }

    /// A coefficient of the row that begins there, by its variable from 0.
    pub(crate) fn coef(&self, start: usize, variable: usize) -> i64 {
        number_at(self.items.as_slice(), start.saturating_add(variable))
    }
}
