// What refutes a level: a row that is a contradiction, or two that clash.

ghost use Rattle.std.specs.Prelude.{◌≡◌, ◌↔◌, ◌<◌, ◌-◌, ℤ, pos, neg_ℤ, ◌+ℤ◌, ◌<ℤ◌, IsTrue, IfOk, IfNone, IfSome, MatchOption, List, map, length, slice_index_or};
ghost use Rattle.std.specs.List.{All, Contains};
ghost use Rattle.farkas_cert.specs.Combination.{is_narrow as narrow, no_row};
ghost use Rattle.farkas_cert.specs.Good.{IsContradiction, IsGood};
ghost use Rattle.elim_level.specs.declared.level.Held.{Held as HeldRow};
ghost use Rattle.elim_rows.specs.Candidates.{IsEmpty};
ghost use Rattle.elim_rows.specs.Table.{IsTable};
ghost use Rattle.elim_level.specs.Logs.{IsLog, IsHeld, rows_of};
ghost use Rattle.fm_elim.specs.Lean.{IsLean};
ghost use Rattle.fm_elim.specs.Answers.{AreClashing, IsFreeOfClashes};

use crate::certificate::certificate_of;
use elim_level::level::{Held, HeldRows, is_empty};
use elim_rows::derivation::{Derivation, derive};
use farkas_cert::narrow::narrow_sum;
use farkas_cert::{Certificate, Row, System};
use std::alloc::{AllocError, Global};

// Whether the row is a contradiction: its bound is looked at first.
fn is_contradiction(row: &Row) -> bool
    ensures { IsTrue result ↔ IsContradiction row.now }
{
    row.bound < 0 && is_empty(row)
}

// The number of a row without coefficients, which has a bound below 0.
fn contradiction(level: &[Held]) -> Option<u64>
    requires { All (λ h. IsEmpty h.row → h.row.bound <ℤ pos 0) level.now }
    ensures { MatchOption result (All (λ h. IsEmpty h.row → ⊥) level.now) (λ number. (h : HeldRow)
        × Contains level.now h × IsEmpty h.row × (h.number ≡ number)) }
{
    for held in level {
        if is_contradiction(&held.row) {
            return Some(held.number);
        }
    }
    None
}

// Whether the others are the numbers, each with the other sign.
fn are_opposite(numbers: &[i128], others: &[i128]) -> bool
    requires narrow { All (λ a. IsTrue (narrow a)) numbers.now }
    requires same { length others.now ≡ length numbers.now }
    ensures { IsTrue result ↔ (others.now ≡ map neg_ℤ numbers.now) }
{
    for (k, number) in numbers.iter().enumerate() {
        if -*number != others[k] {
            return false;
        }
    }
    true
}

// The bounds of two opposite rows add to less than 0, and within the limit.
fn bounds_clash(bound: i128, other: i128) -> bool
    ensures { IsTrue result ↔ (IsTrue (narrow (bound +ℤ other)) × ((bound +ℤ other) <ℤ pos 0)) }
{
    match narrow_sum(bound, other) {
        Some(sum) => sum < 0,
        None => false,
    }
}

// Whether the rows are each other's opposites but for the bounds, which add to less than 0.
fn are_clashing(upper: &Row, lower: &Row) -> bool
    requires narrow { All (λ a. IsTrue (narrow a)) upper.now.coefs }
    requires same { length lower.now.coefs ≡ length upper.now.coefs }
    ensures { IsTrue result ↔ AreClashing upper.now lower.now }
{
    bounds_clash(upper.bound, lower.bound)
        && are_opposite(upper.coefs.as_slice(), lower.coefs.as_slice())
}

// The number, from 0, of a row with which the row of this number clashes.
fn opponent(level: &HeldRows, number: usize) -> Option<usize>
    requires number { number < length level.now.rows.items }
    requires full { (h : HeldRow) (o : HeldRow) → Contains level.now.rows.items h
        → Contains level.now.rows.items o → length h.row.coefs ≡ length o.row.coefs }
    requires narrow { All (λ h. All (λ a. IsTrue (narrow a)) h.row.coefs) level.now.rows.items }
    requires table { IsTable (rows_of level.now.rows.items) level.now.chains.links.items
        level.now.chains.latest.items }
    ensures { MatchOption result (All (λ r. AreClashing
        (slice_index_or (rows_of level.now.rows.items) number no_row) r
        → ⊥) (rows_of level.now.rows.items))
        (λ k. (k < length level.now.rows.items) × AreClashing
        (slice_index_or (rows_of level.now.rows.items) number no_row)
        (slice_index_or (rows_of level.now.rows.items) k no_row)) }
{
    let hash = level.chains.links[number].hash.wrapping_neg();
    let row = &level.rows[number].row;
    let mut end = level.chains.last(hash);
    while end > 0 {
        let link = level.chains.links[end - 1];
        if link.hash == hash && are_clashing(row, &level.rows[end - 1].row) {
            return Some(end - 1);
        }
        end = link.earlier;
    }
    None
}

// Two rows that are each other's opposites but for the bound, and whose bounds add to less than 0.
fn clash(level: &HeldRows) -> Option<(u64, u64)>
    requires full { (h : HeldRow) (o : HeldRow) → Contains level.now.rows.items h
        → Contains level.now.rows.items o → length h.row.coefs ≡ length o.row.coefs }
    requires narrow { All (λ h. All (λ a. IsTrue (narrow a)) h.row.coefs) level.now.rows.items }
    requires table { IsTable (rows_of level.now.rows.items) level.now.chains.links.items
        level.now.chains.latest.items }
    ensures found { IfSome result (λ p. (upper : HeldRow) × (lower : HeldRow)
        × Contains level.now.rows.items upper × Contains level.now.rows.items lower
        × (upper.number ≡ p.0) × (lower.number ≡ p.1) × AreClashing upper.row lower.row) }
    ensures none { IfNone result (IsFreeOfClashes (λ r. Contains (rows_of level.now.rows.items)
        r)) }
{
    for number in 0..level.rows.len() {
        if let Some(other) = opponent(level, number) {
            return Some((level.rows[number].number, level.rows[other].number));
        }
    }
    None
}

/// The certificate of a contradiction that the level holds, or that two of its rows make. An error says
/// that memory ran out.
pub fn refutation(
    alloc: Global,
    system: &System,
    level: &HeldRows,
    log: &mut Vec<Derivation>,
) -> Result<Option<Certificate>, AllocError>
    requires log { IsLog system.now log.old.items }
    requires held { All (IsHeld system.now log.old.items) level.now.rows.items }
    requires useful { All (λ h. IsEmpty h.row → h.row.bound <ℤ pos 0) level.now.rows.items }
    requires table { IsTable (rows_of level.now.rows.items) level.now.chains.links.items
        level.now.chains.latest.items }
    ensures good { IfOk result (λ o. IfSome o (λ c. IsGood system.now c)) }
    ensures lean { IfOk result (λ o. IfSome o (λ c. IsLean system.now c)) }
    ensures clear { IfOk result (λ o. IfNone o (All (λ h. IsEmpty h.row
        → ⊥) level.now.rows.items)) }
    ensures apart { IfOk result (λ o. IfNone o (IsFreeOfClashes
        (λ r. Contains (rows_of level.now.rows.items) r))) }
    ensures log { IfOk result (λ o. IfNone o (log.new.items ≡ log.old.items)) }
{
    if let Some(number) = contradiction(level.rows.as_slice()) {
        let certificate = certificate_of(alloc, system, log.as_slice(), number)?;
        return Ok(Some(certificate));
    }
    if let Some((first, last)) = clash(level) {
        let sum = Derivation {
            divisor: 1,
            first: (first, 1),
            second: Some((last, 1)),
        };
        let number = derive(system, log, sum)?;
        let certificate = certificate_of(alloc, system, log.as_slice(), number)?;
        return Ok(Some(certificate));
    }
    Ok(None)
}
