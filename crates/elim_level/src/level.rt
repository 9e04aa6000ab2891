// The rows of a level, and how the next one is formed.

ghost use Rattle.std.specs.Prelude.{◌≡◌, ◌≤◌, IsTrue, IfOk, OnOk, ◌↔◌, [], List, length};
ghost use Rattle.std.specs.List.{All, Contains};
ghost use Rattle.farkas_cert.specs.Inequalities.{Inequalities};
ghost use Rattle.farkas_cert.specs.Combination.{is_narrow as narrow};
ghost use Rattle.elim_rows.specs.declared.derivation.Derivation.{Derivation as Steps};
ghost use Rattle.elim_rows.specs.Reduction.{IsReduced};
ghost use Rattle.elim_rows.specs.Pairs.{coef_of as coef};
ghost use Rattle.elim_rows.specs.Candidates.{IsEmpty, rows_among, IsUseful};
ghost use Rattle.elim_level.specs.Forming.{IsFormed};
ghost use Rattle.elim_level.specs.Logs.{all_rows, IsLog, IsContinued, IsNumber, IsSuited, IsFounded, IsHeld, rows_of};
ghost use Rattle.elim_rows.specs.declared.candidate.Candidate.{Candidate as CandidateOf};
ghost use Rattle.elim_level.specs.Gathering.{AreGiven};
ghost use Rattle.elim_rows.specs.Table.{IsTable, IsPut, origin_of};
ghost use Rattle.elim_level.specs.Next.{IsNext};
ghost use Rattle.farkas_cert.specs.Narrow.{AreNarrow};

use crate::forming::{BySign, join_all, split_by_sign};
use crate::pairs::wide_pair;
use elim_rows::candidate::{Candidate, Origin};
use elim_rows::chains::Chains;
use elim_rows::derivation::Derivation;
use elim_rows::reduction::reduce;
use elim_rows::table::{Table, are_zero, places_for};
use farkas_cert::{Coefs, Row, System};
use std::alloc::{AllocError, Global};

/// A level with more rows than this is given up.
pub const MOST_ROWS: usize = 20_000;

/// A row of a level, with its number among the given and the derived rows.
#[derive(Drop)]
pub struct Held {
    pub row: Row,
    pub number: u64,
}

/// The rows of a level, no two with equal coefficients.
#[derive(Drop)]
pub struct HeldRows {
    pub rows: Vec<Held>,
    /// Where they are found.
    pub chains: Chains,
}

/// What forming a level comes to.
#[derive(Drop)]
pub enum Formed {
    /// The level.
    Level(HeldRows),
    /// Two rows of the level before, one that bounds the variable from above and one from below, whose
    /// least combination has a product or a sum past 2 ^ 126 in size.
    Wide(Row, Row),
    /// The level has more than 20,000 rows.
    Many,
}

/// The coefficient of the variable, numbered from 1.
#[inline(always)]
pub fn coef_of(row: &Row, variable: u32) -> i128
    requires { (1 ≤ variable) × (variable ≤ length row.now.coefs) }
    ensures { result ≡ coef variable row.now }
{
    row.coefs.as_slice()[variable as usize - 1]
}

/// Whether the row has only zero coefficients.
#[inline(always)]
pub fn is_empty(row: &Row) -> bool
    ensures { IsTrue result ↔ IsEmpty row.now }
{
    are_zero(row.coefs.as_slice())
}

// Where a given row, with its number, comes from when it is divided.
fn given_origin(number: u64, divisor: i128) -> Origin
    ensures { result ≡ origin_of number divisor }
{
    if divisor == 1 {
        return Origin::Numbered(number);
    }
    Origin::Made(Derivation {
        divisor,
        first: (number, 1),
        second: None,
    })
}

/// Puts a given row, with its number, among the others. Its coefficients are at most 2 ^ 126 in size. An
/// error says that memory ran out.
pub fn put_given(
    alloc: Global,
    table: &mut Table,
    coefs: &mut Vec<i128>,
    row: &Row,
    number: u64,
) -> Result<(), AllocError>
    requires table { IsTable (rows_among table.old.rows.items) table.old.chains.links.items
        table.old.chains.latest.items }
    requires narrow { All (λ a. IsTrue (narrow a)) row.now.coefs }
    ensures table { OnOk result (IsTable (rows_among table.new.rows.items)
        table.new.chains.links.items table.new.chains.latest.items) }
    ensures put { OnOk result ((candidate : CandidateOf)
        × IsPut table.old.rows.items candidate table.new.rows.items
        × IsReduced row.now candidate.row
        × ((system : Inequalities) (log : List Steps) → IsSuited system.vars row.now
        → IsNumber (all_rows system log) number row.now → IsFounded system log candidate)) }
{
    coefs.clear();
    coefs.extend_from_slice(row.coefs.as_slice())?;
    let (bound, divisor) = reduce(coefs, row.bound);
    table.put(
        alloc,
        coefs.as_slice(),
        bound,
        given_origin(number, divisor),
    )?;
    Ok(())
}

// The number of the candidate's row. A row that is to be derived gets the next one.
fn number_of(
    system: &System,
    candidate: &Candidate,
    log: &mut Vec<Derivation>,
) -> Result<u64, AllocError>
    requires log { IsLog system.now log.old.items }
    requires founded { IsFounded system.now log.old.items candidate.now }
    ensures number { IfOk result (λ number. IsNumber (all_rows system.now log.new.items) number
        candidate.now.row) }
    ensures continued { OnOk result (IsContinued log.old.items log.new.items) }
    ensures log { OnOk result (IsLog system.now log.new.items) }
{
    match candidate.origin {
        Origin::Numbered(number) => Ok(number),
        Origin::Made(derivation) => {
            log.push(derivation)?;
            Ok(system.rows().len() as u64 + log.len() as u64)
        }
    }
}

/// The rows of the candidates, each with its number. An error says that memory ran out.
pub fn numbered(
    alloc: Global,
    system: &System,
    candidates: Vec<Candidate>,
    log: &mut Vec<Derivation>,
) -> Result<Vec<Held>, AllocError>
    requires log { IsLog system.now log.old.items }
    requires founded { All (IsFounded system.now log.old.items) candidates.items }
    requires lowest { All (λ c. IsReduced c.row c.row) candidates.items }
    ensures rows { IfOk result (λ level. rows_of level.items ≡ rows_among candidates.items) }
    ensures log { OnOk result (IsLog system.now log.new.items) }
    ensures held { IfOk result (λ level. All (IsHeld system.now log.new.items) level.items) }
{
    let mut level = Vec::with_capacity(alloc, candidates.len())?;
    for candidate in candidates {
        let number = number_of(system, &candidate, log)?;
        let Candidate { row, origin: _ } = candidate;
        level.push(Held { row, number })?;
    }
    Ok(level)
}

// The system's rows, reduced.
fn given_rows(alloc: Global, system: &System) -> Result<Table, AllocError>
    requires { AreNarrow system.now.rows }
    ensures given { IfOk result (λ table. AreGiven system.now system.now.rows table.rows.items) }
    ensures table { IfOk result (λ table. IsTable (rows_among table.rows.items)
        table.chains.links.items table.chains.latest.items) }
{
    let count = system.rows().len();
    let mut table = Table::new(alloc, places_for(count), count)?;
    let mut coefs = Vec::with_capacity(alloc, system.vars() as usize)?;
    for (index, row) in system.rows().iter().enumerate() {
        put_given(alloc, &mut table, &mut coefs, row, index as u64 + 1)?;
    }
    Ok(table)
}

/// Level 0: the given rows, reduced. An error says that memory ran out.
pub fn first_level(
    alloc: Global,
    system: &System,
    log: &mut Vec<Derivation>,
) -> Result<HeldRows, AllocError>
    requires fresh { log.old.items ≡ [] }
    requires narrow { AreNarrow system.now.rows }
    ensures formed { IfOk result (λ level. IsFormed (λ r. Contains system.now.rows r)
        (rows_of level.rows.items)) }
    ensures table { IfOk result (λ level. IsTable (rows_of level.rows.items)
        level.chains.links.items level.chains.latest.items) }
    ensures log { OnOk result (IsLog system.now log.new.items) }
    ensures held { IfOk result (λ level. All (IsHeld system.now log.new.items) level.rows.items) }
{
    let Table { rows, chains } = given_rows(alloc, system)?;
    let rows = numbered(alloc, system, rows, log)?;
    Ok(HeldRows { rows, chains })
}

/// Removes the variable, numbered from 1, from the rows of a level. An error says that memory ran out.
pub fn next_level(
    alloc: Global,
    system: &System,
    level: HeldRows,
    variable: u32,
    log: &mut Vec<Derivation>,
) -> Result<Formed, AllocError>
    requires variable { (1 ≤ variable) × (variable ≤ system.now.vars) }
    requires log { IsLog system.now log.old.items }
    requires held { All (IsHeld system.now log.old.items) level.rows.items }
    requires useful { All (λ h. IsUseful h.row) level.rows.items }
    requires table { IsTable (rows_of level.rows.items) level.chains.links.items
        level.chains.latest.items }
    ensures next { IfOk result (λ f. IsNext system.now variable (rows_of level.rows.items)
        log.new.items f) }
    ensures log { OnOk result (IsLog system.now log.new.items) }
{
    let HeldRows { rows, chains } = level;
    let BySign {
        apart,
        uppers,
        lowers,
    } = split_by_sign(alloc, rows, &chains, variable)?;
    let above = uppers.as_slice();
    let below = lowers.as_slice();
    if let Some((upper, lower)) = wide_pair(above, below, variable) {
        let upper = upper.row.copy(alloc)?;
        let lower = lower.row.copy(alloc)?;
        return Ok(Formed::Wide(upper, lower));
    }
    let mut table = apart;
    let whole = join_all(alloc, &mut table, above, below, variable)?;
    if !whole {
        return Ok(Formed::Many);
    }
    if table.rows.len() > MOST_ROWS {
        return Ok(Formed::Many);
    }
    let Table { rows, chains } = table;
    let rows = numbered(alloc, system, rows, log)?;
    Ok(Formed::Level(HeldRows { rows, chains }))
}
