// The candidates of the next level.

ghost use Rattle.std.specs.Prelude.{◌≡◌, ◌≤◌, ◌<◌, ℕ, pos, int_lt, IsTrue, IfOk, OnOk, MatchOption, List, [], ◌∷◌, ◌++◌, map, length};
ghost use Rattle.std.specs.Bool.{MatchBool};
ghost use Rattle.std.specs.List.{All, filter};
ghost use Rattle.std.specs.Ordering.{int_eq};
ghost use Rattle.farkas_cert.specs.Combination.{is_narrow as narrow};
ghost use Rattle.elim_level.specs.declared.level.Held.{Held as HeldRow};
ghost use Rattle.elim_rows.specs.Pairs.{coef_of as coef};
ghost use Rattle.elim_rows.specs.Chains.{hash_of as hash_by};
ghost use Rattle.elim_rows.specs.Table.{IsTable, candidate_with};
ghost use Rattle.elim_level.specs.Logs.{rows_of};
ghost use Rattle.elim_rows.specs.Candidates.{rows_among};
ghost use Rattle.elim_level.specs.Gathering.{IsOpposed, IsNarrowPair, IsMade, HasApart, IsJoint, IsJoined, IsSource, IsGathered, candidate_of, apart_of, IsSplit};

use crate::level::{Held, MOST_ROWS, coef_of};
use crate::pairs::multipliers_of;
use elim_rows::candidate::{Candidate, Origin};
use elim_rows::chains::{Chains, Link};
use elim_rows::combination::combine;
use elim_rows::derivation::Derivation;
use elim_rows::reduction::reduce;
use elim_rows::table::{Table, places_for};
use std::alloc::{AllocError, Global};

/// As many rows of one sign there is room for at first: most levels have no more.
const FEW: usize = 8;

/// The rows of a level by the sign of a variable's coefficient.
#[derive(Drop)]
pub struct BySign {
    /// Those without it, which the next level has too.
    pub apart: Table,
    pub uppers: Vec<Held>,
    pub lowers: Vec<Held>,
}

// Puts a row with the others of its sign.
#[inline(always)]
fn place(split: &mut BySign, held: Held, link: Link, variable: u32) -> Result<(), AllocError>
    requires from_one { 1 ≤ variable }
    requires known { variable ≤ length held.row.coefs }
    requires table { IsTable (rows_among split.old.apart.rows.items)
        split.old.apart.chains.links.items split.old.apart.chains.latest.items }
    requires hash { link.hash ≡ hash_by held.row.coefs }
    requires distinct { All (λ r. r.coefs ≡ held.row.coefs
        → ⊥) (rows_among split.old.apart.rows.items) }
    ensures table { OnOk result (IsTable (rows_among split.new.apart.rows.items)
        split.new.apart.chains.links.items split.new.apart.chains.latest.items) }
    ensures apart { OnOk result (split.new.apart.rows.items ≡ split.old.apart.rows.items
        ++ map candidate_of (filter (λ h. int_eq (coef variable h.row) (pos 0)) (held ∷ []))) }
    ensures uppers { OnOk result (split.new.uppers.items ≡ split.old.uppers.items
        ++ filter (λ h. int_lt (pos 0) (coef variable h.row)) (held ∷ [])) }
    ensures lowers { OnOk result (split.new.lowers.items ≡ split.old.lowers.items
        ++ filter (λ h. int_lt (coef variable h.row) (pos 0)) (held ∷ [])) }
{
    let coef = coef_of(&held.row, variable);
    if coef == 0 {
        let Held { row, number } = held;
        let origin = Origin::Numbered(number);
        split.apart.push(Candidate { row, origin }, link.hash)?;
    } else if coef > 0 {
        split.uppers.push(held)?;
    } else {
        split.lowers.push(held)?;
    }
    Ok(())
}

// As many places as the next level of a level with so many rows wants: many rows make many more.
fn places_after(rows: usize) -> usize
    ensures { 0 < result }
{
    places_for(rows.saturating_mul(rows / 16 + 1).min(MOST_ROWS))
}

/// The rows without the variable, those that bound it from above, and those that bound it from below.
/// An error says that memory ran out.
pub fn split_by_sign(
    alloc: Global,
    level: Vec<Held>,
    chains: &Chains,
    variable: u32,
) -> Result<BySign, AllocError>
    requires from_one { 1 ≤ variable }
    requires known { All (λ h. variable ≤ length h.row.coefs) level.items }
    requires table { IsTable (rows_of level.items) chains.now.links.items chains.now.latest.items }
    ensures table { IfOk result (λ split. IsTable (rows_among split.apart.rows.items)
        split.apart.chains.links.items split.apart.chains.latest.items) }
    ensures apart { IfOk result (λ split. split.apart.rows.items
        ≡ map candidate_of (apart_of variable level.items)) }
    ensures split { IfOk result (λ split. IsSplit variable level.items split.uppers.items
        split.lowers.items) }
{
    let mut split = BySign {
        apart: Table::new(alloc, places_after(level.len()), level.len())?,
        uppers: Vec::with_capacity(alloc, level.len().min(FEW))?,
        lowers: Vec::with_capacity(alloc, level.len().min(FEW))?,
    };
    let mut index = 0;
    for held in level {
        place(&mut split, held, chains.links[index], variable)?;
        index += 1;
    }
    Ok(split)
}

// The least combination of a pair, reduced: its coefficients are made in place, and its bound is given.
#[inline(always)]
fn paired(
    upper: &Held,
    lower: &Held,
    variable: u32,
    coefs: &mut Vec<i128>,
) -> Result<(i128, Origin), AllocError>
    requires opposed { IsOpposed variable upper.now.row lower.now.row }
    requires narrow { IsNarrowPair variable upper.now.row lower.now.row }
    ensures made { IfOk result (λ p. IsMade variable upper.now lower.now
        (candidate_with coefs.new.items p.0 p.1)) }
    ensures narrow { OnOk result (All (λ a. IsTrue (narrow a)) coefs.new.items) }
{
    let (m, n) = multipliers_of(&upper.row, &lower.row, variable);
    let sum = combine(m, &upper.row, n, &lower.row, coefs)?;
    let (bound, divisor) = reduce(coefs, sum);
    let origin = Origin::Made(Derivation {
        divisor,
        first: (upper.number, m),
        second: Some((lower.number, n)),
    });
    Ok((bound, origin))
}

// Puts what a pair makes among the others.
#[inline(always)]
fn join_pair(
    alloc: Global,
    table: &mut Table,
    coefs: &mut Vec<i128>,
    upper: &Held,
    lower: &Held,
    variable: u32,
) -> Result<(), AllocError>
    requires table { IsTable (rows_among table.old.rows.items) table.old.chains.links.items
        table.old.chains.latest.items }
    requires opposed { IsOpposed variable upper.now.row lower.now.row }
    requires narrow { IsNarrowPair variable upper.now.row lower.now.row }
    ensures table { OnOk result (IsTable (rows_among table.new.rows.items)
        table.new.chains.links.items table.new.chains.latest.items) }
    ensures joined { OnOk result (IsJoined variable upper.now (lower.now ∷ []) table.old.rows.items
        table.new.rows.items) }
{
    let (bound, origin) = paired(upper, lower, variable, coefs)?;
    table.put(alloc, coefs.as_slice(), bound, origin)?;
    Ok(())
}

// Puts what one upper row and each lower one make among the others, and tells whether that was all: it
// ends where there are too many rows.
fn join_pairs(
    alloc: Global,
    table: &mut Table,
    coefs: &mut Vec<i128>,
    upper: &Held,
    lowers: &[Held],
    variable: u32,
) -> Result<bool, AllocError>
    requires table { IsTable (rows_among table.old.rows.items) table.old.chains.links.items
        table.old.chains.latest.items }
    requires opposed { All (λ l. IsOpposed variable upper.now.row l.row) lowers.now }
    requires narrow { All (λ l. IsNarrowPair variable upper.now.row l.row) lowers.now }
    ensures table { OnOk result (IsTable (rows_among table.new.rows.items)
        table.new.chains.links.items table.new.chains.latest.items) }
    ensures joined { IfOk result (λ whole. MatchBool whole (IsJoined variable upper.now lowers.now
        table.old.rows.items table.new.rows.items)
        (HasApart 20000 (IsJoint variable upper.now lowers.now table.old.rows.items))) }
{
    for lower in lowers {
        join_pair(alloc, table, coefs, upper, lower, variable)?;
        if table.rows.len() > MOST_ROWS {
            return Ok(false);
        }
    }
    Ok(true)
}

// As many coefficients as a row has: it says how much room to make, and nothing rests on it.
fn width_of(rows: &[Held]) -> usize {
    match rows.first() {
        Some(held) => held.row.coefs.as_slice().len(),
        None => 0,
    }
}

/// Puts what each pair makes among the rows without the variable, and tells whether that was all: it ends
/// where there are too many rows. No pair is wide. An error says that memory ran out.
pub fn join_all(
    alloc: Global,
    table: &mut Table,
    uppers: &[Held],
    lowers: &[Held],
    variable: u32,
) -> Result<bool, AllocError>
    requires table { IsTable (rows_among table.old.rows.items) table.old.chains.links.items
        table.old.chains.latest.items }
    requires opposed { All (λ u. All (λ l. IsOpposed variable u.row l.row) lowers.now) uppers.now }
    requires narrow { All (λ u. All (λ l. IsNarrowPair variable u.row l.row) lowers.now)
        uppers.now }
    ensures table { OnOk result (IsTable (rows_among table.new.rows.items)
        table.new.chains.links.items table.new.chains.latest.items) }
    ensures joined { IfOk result (λ whole. (apart : List HeldRow)
        → IsGathered variable apart [] lowers.now table.old.rows.items →
        MatchBool whole (IsGathered variable apart uppers.now lowers.now table.new.rows.items)
        (HasApart 20000 (IsSource variable apart uppers.now lowers.now))) }
{
    let mut coefs = Vec::with_capacity(alloc, width_of(uppers))?;
    for upper in uppers {
        if !join_pairs(alloc, table, &mut coefs, upper, lowers, variable)? {
            return Ok(false);
        }
    }
    Ok(true)
}
