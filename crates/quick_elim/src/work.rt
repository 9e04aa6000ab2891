// The rows that stand, and how variables are removed from them.

use crate::answer::Budget;
use crate::early_end::EarlyEnd;
use crate::flat::{Flat, number_at};
use crate::row::{Bounds, WorkRow, are_opposite, hash_of};
use crate::sum::{Sum, combine, common_divisor, divide, multipliers, weighted_sum};
use crate::values::Change;
use farkas_cert::{Row, System};
use std::alloc::{AllocError, Global};

/// A system at work.
#[derive(Drop)]
pub(crate) struct Work {
    pub budget: Budget,
    /// In which order variables are removed, from 0.
    pub order: u32,
    /// How many rows were given.
    pub given: usize,
    pub vars: usize,
    /// The coefficients of the rows that stand or are gone.
    pub flat: Flat,
    /// The rows that stand: no two with equal coefficients.
    pub rows: Vec<WorkRow>,
    /// The rows that variables were removed from.
    pub gone: Vec<WorkRow>,
    /// How rows were made. Their numbers follow those of the given ones.
    pub made: Vec<Sum>,
    /// How rows were combined so far.
    pub sums: usize,
    /// The coefficients of the row that is made.
    pub coefs: Vec<i64>,
    /// What was done with the variables, in order.
    pub trail: Vec<Change>,
}

/// How many rows have a variable: with a coefficient above 0 or below it, and those where it isn't 1 or -1.
#[derive(Clone, Copy)]
struct Tally {
    uppers: i64,
    lowers: i64,
    rough_uppers: i64,
    rough_lowers: i64,
}

// The rows related to the one that is made: the place of the one with the same coefficients, and the bound
// and the number of the one with the opposite ones.
#[derive(Clone, Copy)]
struct Relatives {
    same: Option<usize>,
    opposite: Option<(i64, usize)>,
}

/// What a rough removal costs more than any other.
const ROUGH: i64 = 1 << 32;

/// What numbers are multiplied by to look random: odd, and with no pattern.
const FACTOR: u64 = 0x9E37_79B9_7F4A_7C15;

// What a variable's removal costs more in an order, so that orders differ: nothing in order 0, and up to
// two or ten rows in the others.
fn handicap(order: u32, variable: usize) -> i64 {
    if order == 0 {
        return 0;
    }
    let seed = u64::from(order).wrapping_mul(FACTOR);
    let mixed = (variable as u64).wrapping_add(seed).wrapping_mul(FACTOR);
    let spread = if order % 2 == 0 { 8 } else { 40 };
    ((mixed >> 40) % spread) as i64
}

impl Tally {
    const NONE: Tally = Tally {
        uppers: 0,
        lowers: 0,
        rough_uppers: 0,
        rough_lowers: 0,
    };

    // One row more, with this coefficient.
    fn add(&mut self, coef: i64) {
        if coef > 0 {
            self.uppers = self.uppers.saturating_add(1);
            if coef > 1 {
                self.rough_uppers = self.rough_uppers.saturating_add(1);
            }
        }
        if coef < 0 {
            self.lowers = self.lowers.saturating_add(1);
            if coef < -1 {
                self.rough_lowers = self.rough_lowers.saturating_add(1);
            }
        }
    }

    // What its removal costs, None where no row has the variable: four for each row more, and much where
    // neither side has coefficients 1 and -1 alone, since whole solutions may come in between then.
    fn cost(self) -> Option<i64> {
        let Tally { uppers, lowers, .. } = self;
        let having = uppers.saturating_add(lowers);
        if having == 0 {
            return None;
        }
        let more = uppers.saturating_mul(lowers).saturating_sub(having);
        let cost = more.saturating_mul(4);
        if self.rough_uppers == 0 || self.rough_lowers == 0 {
            Some(cost)
        } else {
            Some(cost.saturating_add(ROUGH))
        }
    }
}

impl Work {
    /// A system at work within a budget, in an order.
    pub(crate) fn new(
        alloc: Global,
        system: &System,
        budget: &Budget,
        order: u32,
    ) -> Result<Self, EarlyEnd> {
        let vars = system.vars() as usize;
        let given = system.rows().len();
        if vars > budget.vars || given > budget.rows {
            return Err(EarlyEnd::GivenUp);
        }
        Ok(Work {
            budget: *budget,
            order,
            given,
            vars,
            flat: Flat::new(alloc, vars, given.saturating_mul(3))?,
            rows: Vec::with_capacity(alloc, given.saturating_mul(2))?,
            gone: Vec::with_capacity(alloc, given.saturating_mul(3))?,
            made: Vec::with_capacity(alloc, given.saturating_mul(2))?,
            sums: 0,
            coefs: vec![in alloc; 0; vars]?,
            trail: Vec::with_capacity(alloc, vars)?,
        })
    }

    // The rows that are gone from one place to another.
    fn gone_between(&self, from: usize, to: usize) -> &[WorkRow] {
        let gone = self.gone.as_slice();
        let front = &gone[..to.min(gone.len())];
        &front[from.min(front.len())..]
    }

    /// The rows that bound a variable from above.
    pub(crate) fn uppers(&self, bounds: Bounds) -> &[WorkRow] {
        self.gone_between(bounds.first, bounds.middle)
    }

    /// The rows that bound a variable from below.
    pub(crate) fn lowers(&self, bounds: Bounds) -> &[WorkRow] {
        self.gone_between(bounds.middle, bounds.end)
    }

    // Puts a given row among the others.
    fn put_given(&mut self, row: &Row, number: usize) -> Result<(), EarlyEnd> {
        for (coef, given) in self.coefs.iter_mut().zip(row.coefs.as_slice()) {
            match i64::try_from(*given) {
                Ok(given) => *coef = given,
                Err(_) => return Err(EarlyEnd::GivenUp),
            }
        }
        match i64::try_from(row.bound) {
            Ok(bound) => self.put(bound, Sum::copy(number)),
            Err(_) => Err(EarlyEnd::GivenUp),
        }
    }

    /// Puts the given rows among the others.
    pub(crate) fn put_all(&mut self, rows: &[Row]) -> Result<(), EarlyEnd> {
        for (place, row) in rows.iter().enumerate() {
            self.put_given(row, place.saturating_add(1))?;
        }
        Ok(())
    }

    // The number of the row that a sum makes: a given row that isn't changed keeps its own.
    fn number_of(&mut self, sum: Sum) -> Result<usize, EarlyEnd> {
        if sum.second.is_none() && sum.divisor == 1 {
            return Ok(sum.first.0);
        }
        if self.made.len() >= self.budget.made {
            return Err(EarlyEnd::GivenUp);
        }
        self.made.push(sum)?;
        Ok(self.given.saturating_add(self.made.len()))
    }

    /// Puts the row that is made among the others, in its lowest terms.
    pub(crate) fn put(&mut self, bound: i64, sum: Sum) -> Result<(), EarlyEnd> {
        let divisor = common_divisor(self.coefs.as_slice());
        if divisor == 0 {
            return self.put_empty(bound, sum);
        }
        if divisor == 1 {
            return self.put_reduced(bound, sum);
        }
        let Ok(divisor) = i64::try_from(divisor) else {
            return Err(EarlyEnd::GivenUp);
        };
        if !divide(self.coefs.as_mut_slice(), divisor) {
            return Err(EarlyEnd::GivenUp);
        }
        let Some(bound) = bound.checked_div_euclid(divisor) else {
            return Err(EarlyEnd::GivenUp);
        };
        self.put_reduced(bound, Sum { divisor, ..sum })
    }

    // A row without coefficients is left out where it holds, and else a contradiction.
    fn put_empty(&mut self, bound: i64, sum: Sum) -> Result<(), EarlyEnd> {
        if bound >= 0 {
            return Ok(());
        }
        Err(EarlyEnd::Contradiction(self.number_of(sum)?))
    }

    // The rows related to the one that is made.
    fn relatives(&self, hash: u64) -> Relatives {
        let coefs = self.coefs.as_slice();
        let wanted = hash.wrapping_neg();
        let mut found = Relatives {
            same: None,
            opposite: None,
        };
        for (place, row) in self.rows.iter().enumerate() {
            if row.hash == hash && self.flat.row(row.start) == coefs {
                found.same = Some(place);
            }
            if row.hash == wanted && are_opposite(self.flat.row(row.start), coefs) {
                found.opposite = Some((row.bound, row.number));
            }
        }
        found
    }

    // Whether the row that is made, with this bound, is half of an equality with its opposite. It ends where
    // the two are a contradiction.
    fn is_tight(
        &mut self,
        bound: i64,
        number: usize,
        opposite: Option<(i64, usize)>,
    ) -> Result<bool, EarlyEnd> {
        let Some((other_bound, other)) = opposite else {
            return Ok(false);
        };
        let Some(gap) = bound.checked_add(other_bound) else {
            return Err(EarlyEnd::GivenUp);
        };
        if gap >= 0 {
            return Ok(gap == 0);
        }
        Err(EarlyEnd::Contradiction(self.number_of(Sum {
            divisor: 1,
            first: (number, 1),
            second: Some((other, 1)),
        })?))
    }

    // Puts the row that is made among the others: the least bound of those with its coefficients is kept.
    fn put_reduced(&mut self, bound: i64, sum: Sum) -> Result<(), EarlyEnd> {
        let hash = hash_of(self.coefs.as_slice());
        let Relatives { same, opposite } = self.relatives(hash);
        if let Some(place) = same {
            if self.has_bound_within(place, bound) {
                return Ok(());
            }
        }
        let number = self.number_of(sum)?;
        let is_tight = self.is_tight(bound, number, opposite)?;
        match same {
            Some(place) => {
                if let Some(row) = self.rows.get_mut(place) {
                    row.bound = bound;
                    row.number = number;
                    row.is_tight = is_tight;
                }
                Ok(())
            }
            None => self.push(bound, number, hash, is_tight),
        }
    }

    // Whether the row at a place has at most this bound.
    fn has_bound_within(&self, place: usize, bound: i64) -> bool {
        match self.rows.get(place) {
            Some(row) => row.bound <= bound,
            None => false,
        }
    }

    // One row more, with the coefficients that are made.
    fn push(
        &mut self,
        bound: i64,
        number: usize,
        hash: u64,
        is_tight: bool,
    ) -> Result<(), EarlyEnd> {
        if self.rows.len() >= self.budget.rows {
            return Err(EarlyEnd::GivenUp);
        }
        let start = self.flat.push(self.coefs.as_slice())?;
        self.rows.push(WorkRow {
            start,
            bound,
            number,
            hash,
            is_tight,
        })?;
        Ok(())
    }

    /// Takes the rows with a variable away, by the sign of its coefficient.
    pub(crate) fn take_with(&mut self, variable: usize) -> Result<Bounds, AllocError> {
        let flat = &self.flat;
        let first = self.gone.len();
        for row in &self.rows {
            if flat.coef(row.start, variable) > 0 {
                self.gone.push(*row)?;
            }
        }
        let middle = self.gone.len();
        for row in &self.rows {
            if flat.coef(row.start, variable) < 0 {
                self.gone.push(*row)?;
            }
        }
        let end = self.gone.len();
        self.rows.retain(|row| flat.coef(row.start, variable) == 0);
        Ok(Bounds { first, middle, end })
    }

    /// Puts the least combination of two rows without the variable among the others.
    pub(crate) fn join(
        &mut self,
        variable: usize,
        upper: WorkRow,
        lower: WorkRow,
    ) -> Result<(), EarlyEnd> {
        if self.sums >= self.budget.sums {
            return Err(EarlyEnd::GivenUp);
        }
        self.sums += 1;
        let above = self.flat.row(upper.start);
        let below = self.flat.row(lower.start);
        let multipliers = multipliers(number_at(above, variable), number_at(below, variable));
        let Some((m, n)) = multipliers else {
            return Err(EarlyEnd::GivenUp);
        };
        if !combine(m, above, n, below, self.coefs.as_mut_slice()) {
            return Err(EarlyEnd::GivenUp);
        }
        let Some(bound) = weighted_sum(m, upper.bound, n, lower.bound) else {
            return Err(EarlyEnd::GivenUp);
        };
        self.put(
            bound,
            Sum {
                divisor: 1,
                first: (upper.number, m),
                second: Some((lower.number, n)),
            },
        )
    }

    /// The row that is gone at a place.
    pub(crate) fn gone_at(&self, place: usize) -> Result<WorkRow, EarlyEnd> {
        match self.gone.get(place) {
            Some(row) => Ok(*row),
            None => Err(EarlyEnd::GivenUp),
        }
    }

    // Puts the combinations of each row that bounds a variable from above with each from below among the others.
    fn join_all(&mut self, variable: usize, bounds: Bounds) -> Result<(), EarlyEnd> {
        for above in bounds.first..bounds.middle {
            let upper = self.gone_at(above)?;
            for below in bounds.middle..bounds.end {
                let lower = self.gone_at(below)?;
                self.join(variable, upper, lower)?;
            }
        }
        Ok(())
    }

    // The variable whose removal costs least, None where no row is left that has one.
    fn cheapest(&self, alloc: Global) -> Result<Option<usize>, AllocError> {
        let mut tallies = vec![in alloc; Tally::NONE; self.vars]?;
        for row in &self.rows {
            for (tally, coef) in tallies.iter_mut().zip(self.flat.row(row.start)) {
                tally.add(*coef);
            }
        }
        let mut best = None;
        let mut least = i64::MAX;
        for (variable, tally) in tallies.iter().enumerate() {
            if let Some(cost) = tally.cost() {
                let cost = cost.saturating_add(handicap(self.order, variable));
                if cost < least {
                    least = cost;
                    best = Some(variable);
                }
            }
        }
        Ok(best)
    }

    // Removes a variable: each row that bounds it from above is combined with each that bounds it from below.
    fn eliminate(&mut self, variable: usize) -> Result<(), EarlyEnd> {
        let bounds = self.take_with(variable)?;
        self.join_all(variable, bounds)?;
        self.trail.push(Change::Removed(variable, bounds))?;
        Ok(())
    }

    /// Removes the variables one by one, until no row is left.
    pub(crate) fn remove_all(&mut self, alloc: Global) -> Result<(), EarlyEnd> {
        for _removal in 0..self.vars.saturating_add(1) {
            if let Some(place) = self.equality() {
                self.use_equality(alloc, place)?;
                continue;
            }
            match self.cheapest(alloc)? {
                Some(variable) => self.eliminate(variable)?,
                None => return Ok(()),
            }
        }
        Err(EarlyEnd::GivenUp)
    }
}
