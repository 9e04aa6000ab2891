// The rows of a level, found by their coefficients.

ghost use Rattle.std.specs.Prelude.{◌≡◌, ◌↔◌, ◌<◌, pos, ◌≤ℤ◌, IsTrue, IfOk, OnOk, MatchOption, ◌++◌, ◌∷◌, [], length, slice_index_or};
ghost use Rattle.std.specs.List.{All, AllPairs, Contains};
ghost use Rattle.farkas_cert.specs.Combination.{is_narrow as narrow, no_row};
ghost use Rattle.elim_rows.specs.Chains.{hash_of as hash_by};
ghost use Rattle.elim_rows.specs.Table.{IsTable, IsPut, IsLowered, candidate_with};
ghost use Rattle.elim_rows.specs.Candidates.{IsEmpty, rows_among};

use crate::candidate::{Candidate, Origin};
use crate::chains::{Chains, hash_of};
use farkas_cert::{Coefs, Row};
use std::alloc::{AllocError, Global};

/// Rows of which no two have equal coefficients.
#[derive(Drop)]
pub struct Table {
    pub rows: Vec<Candidate>,
    pub chains: Chains,
}

fn are_same(coefs: &[i128], others: &[i128]) -> bool
    ensures { IsTrue result ↔ (coefs.now ≡ others.now) }
{
    coefs == others
}

/// Whether the coefficients are all 0.
#[inline(always)]
pub fn are_zero(coefs: &[i128]) -> bool
    ensures { IsTrue result ↔ All (λ a. a ≡ pos 0) coefs.now }
{
    coefs.iter().all(|coef| *coef == 0)
}

/// As many places as rows that are put at once want: no fewer than 1.
pub fn places_for(rows: usize) -> usize
    ensures { 0 < result }
{
    rows.saturating_mul(2).max(8)
}

// Whether it is a row `0 <= bound` that holds.
#[inline(always)]
fn is_idle(coefs: &[i128], bound: i128) -> bool
    ensures { IsTrue result ↔ (All (λ a. a ≡ pos 0) coefs.now × (pos 0 ≤ℤ bound)) }
{
    bound >= 0 && are_zero(coefs)
}

impl Table {
    /// No row, with so many places and room for so many rows.
    pub fn new(alloc: Global, places: usize, room: usize) -> Result<Self, AllocError>
        requires { 0 < places }
        ensures none { IfOk result (λ table. table.rows.items ≡ []) }
        ensures table { IfOk result (λ table. IsTable (rows_among table.rows.items)
            table.chains.links.items table.chains.latest.items) }
    {
        Ok(Table {
            rows: Vec::with_capacity(alloc, room)?,
            chains: Chains::new(alloc, places, room)?,
        })
    }

    // The number, from 0, of the row with these coefficients, whose hash is given.
    fn find(&self, coefs: &[i128], hash: u128) -> Option<usize>
        requires table { IsTable (rows_among self.now.rows.items) self.now.chains.links.items
            self.now.chains.latest.items }
        requires hash { hash ≡ hash_by coefs.now }
        ensures { MatchOption result (All (λ r. r.coefs ≡ coefs.now
            → ⊥) (rows_among self.now.rows.items))
            (λ k. (k < length self.now.rows.items) × ((slice_index_or
            (rows_among self.now.rows.items) k no_row).coefs ≡ coefs.now)) }
    {
        let mut end = self.chains.last(hash);
        while end > 0 {
            let link = self.chains.links[end - 1];
            if link.hash == hash && are_same(self.rows[end - 1].row.coefs.as_slice(), coefs) {
                return Some(end - 1);
            }
            end = link.earlier;
        }
        None
    }

    /// One more row, whose coefficients no other has. An error says that memory ran out.
    #[inline(always)]
    pub fn push(&mut self, candidate: Candidate, hash: u128) -> Result<(), AllocError>
        requires table { IsTable (rows_among self.old.rows.items) self.old.chains.links.items
            self.old.chains.latest.items }
        requires hash { hash ≡ hash_by candidate.row.coefs }
        requires apart { All (λ r. r.coefs ≡ candidate.row.coefs
            → ⊥) (rows_among self.old.rows.items) }
        ensures table { OnOk result (IsTable (rows_among self.new.rows.items)
            self.new.chains.links.items self.new.chains.latest.items) }
        ensures pushed { OnOk result (self.new.rows.items ≡ self.old.rows.items ++ candidate ∷ []) }
    {
        self.chains.push(hash)?;
        self.rows.push(candidate)?;
        Ok(())
    }

    // The row of this number, from 0, gets the bound and the origin, if that bound is less than its own.
    fn lower(&mut self, place: usize, bound: i128, origin: Origin)
        requires { place < length self.old.rows.items }
        ensures rows { IsLowered self.old.rows.items place bound origin self.new.rows.items }
        ensures chains { self.new.chains ≡ self.old.chains }
    {
        let candidate = &mut self.rows[place];
        if bound < candidate.row.bound {
            candidate.row.bound = bound;
            candidate.origin = origin;
        }
    }

    /// Puts a row among the others: of those with equal coefficients, which are at most 2 ^ 126 in size,
    /// the one with the least bound is kept, and a row `0 <= bound` that holds is left out. An error says
    /// that memory ran out.
    pub fn put(
        &mut self,
        alloc: Global,
        coefs: &[i128],
        bound: i128,
        origin: Origin,
    ) -> Result<(), AllocError>
        requires table { IsTable (rows_among self.old.rows.items) self.old.chains.links.items
            self.old.chains.latest.items }
        requires narrow { All (λ a. IsTrue (narrow a)) coefs.now }
        ensures table { OnOk result (IsTable (rows_among self.new.rows.items)
            self.new.chains.links.items self.new.chains.latest.items) }
        ensures put { OnOk result (IsPut self.old.rows.items (candidate_with coefs.now bound origin)
            self.new.rows.items) }
    {
        if is_idle(coefs, bound) {
            return Ok(());
        }
        let hash = hash_of(coefs);
        if let Some(place) = self.find(coefs, hash) {
            self.lower(place, bound, origin);
            return Ok(());
        }
        let row = Row {
            coefs: Coefs::from_slice(alloc, coefs)?,
            bound,
        };
        self.push(Candidate { row, origin }, hash)?;
        Ok(())
    }
}
