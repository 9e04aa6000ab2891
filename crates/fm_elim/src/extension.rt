// A level with further rows.

ghost use Rattle.std.specs.Prelude.{◌≡◌, ◌-◌, ◌^◌, ◌<◌, ◌≤◌, ◌⊎◌, ℕ, IfOk, OnOk, drop, length, map, slice_index_or};
ghost use Rattle.std.specs.List.{All, Contains};
ghost use Rattle.farkas_cert.specs.Narrow.{AreNarrow};
ghost use Rattle.elim_rows.specs.declared.derivation.Derivation.{Derivation as DerivationOf};
ghost use Rattle.fm_elim.specs.Lean.{renamed};
ghost use Rattle.fm_elim.specs.Moved.{moved_by, moved_held};
ghost use Rattle.elim_level.specs.Forming.{IsFormed};
ghost use Rattle.elim_rows.specs.Table.{IsTable};
ghost use Rattle.elim_level.specs.Logs.{step_of, IsLog, IsHeld, rows_of};

use elim_level::level::{HeldRows, numbered, put_given};
use elim_rows::candidate::Origin;
use elim_rows::derivation::Derivation;
use elim_rows::table::{Table, places_for};
use farkas_cert::System;
use std::alloc::{AllocError, Global};

// The number of a row where so many more rows follow the given ones.
fn moved(given: u64, more: u64, number: u64) -> u64
    requires { moved_by given more number < 2 ^ 64 }
    ensures { result ≡ moved_by given more number }
{
    if number <= given {
        return number;
    }
    number + more
}

// The derivation by the moved numbers.
fn moved_derivation(given: u64, more: u64, derivation: &Derivation) -> Derivation
    requires { All (λ t. moved_by given more t.0 < 2 ^ 64) (step_of derivation.now).terms }
    ensures { step_of result ≡ renamed (moved_by given more) (step_of derivation.now) }
{
    let (row, multiplier) = derivation.first;
    let first = (moved(given, more, row), multiplier);
    let second = match derivation.second {
        Some((row, multiplier)) => Some((moved(given, more, row), multiplier)),
        None => None,
    };
    Derivation {
        divisor: derivation.divisor,
        first,
        second,
    }
}

/// The derivations by the numbers that rows have where so many more follow the given ones. An error
/// says that memory ran out.
pub fn moved_log(
    alloc: Global,
    given: u64,
    more: u64,
    log: &[Derivation],
) -> Result<Vec<Derivation>, AllocError>
    requires { (k : ℕ) (d : DerivationOf) → k < length log.now
        → All (λ t. moved_by given more t.0 < 2 ^ 64) (step_of (slice_index_or log.now k d)).terms }
    ensures { IfOk result (λ new. map step_of new.items
        ≡ map (renamed (moved_by given more)) (map step_of log.now)) }
{
    let mut new = Vec::with_capacity(alloc, log.len())?;
    for derivation in log {
        new.push(moved_derivation(given, more, derivation))?;
    }
    Ok(new)
}

/// The rows of a level, by their moved numbers, and the system's rows behind the given ones, reduced. An
/// error says that memory ran out.
pub fn extended_rows(
    alloc: Global,
    whole: &System,
    rows: &HeldRows,
    given: usize,
    log: &mut Vec<Derivation>,
) -> Result<HeldRows, AllocError>
    requires given { given ≤ length whole.now.rows }
    requires narrow { AreNarrow whole.now.rows }
    requires log { IsLog whole.now log.old.items }
    requires held { All (λ h. IsHeld whole.now log.old.items
        (moved_held given (length whole.now.rows - given) h)) rows.now.rows.items }
    ensures formed { IfOk result (λ level. IsFormed (λ r. Contains (rows_of rows.now.rows.items) r
        ⊎ Contains (drop given whole.now.rows) r) (rows_of level.rows.items)) }
    ensures table { IfOk result (λ level. IsTable (rows_of level.rows.items)
        level.chains.links.items level.chains.latest.items) }
    ensures log { OnOk result (IsLog whole.now log.new.items) }
    ensures held { IfOk result (λ level. All (IsHeld whole.now log.new.items) level.rows.items) }
{
    let further = &whole.rows()[given..];
    let more = further.len();
    let count = rows.rows.len().saturating_add(more);
    let mut table = Table::new(alloc, places_for(count), count)?;
    for held in &rows.rows {
        let number = moved(given as u64, more as u64, held.number);
        table.put(
            alloc,
            held.row.coefs.as_slice(),
            held.row.bound,
            Origin::Numbered(number),
        )?;
    }
    let mut coefs = Vec::with_capacity(alloc, whole.vars() as usize)?;
    for (index, row) in further.iter().enumerate() {
        let number = (given + index) as u64 + 1;
        put_given(alloc, &mut table, &mut coefs, row, number)?;
    }
    let Table { rows, chains } = table;
    let rows = numbered(alloc, whole, rows, log)?;
    Ok(HeldRows { rows, chains })
}
