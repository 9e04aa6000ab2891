// Levels of elimination with which several systems begin.

ghost use Rattle.std.specs.Prelude.{◌≡◌, ◌≤◌, ◌++◌, ◌↔◌, IfOk, IfSome, IsTrue, drop, length, take};
ghost use Rattle.std.specs.List.{All};
ghost use Rattle.farkas_cert.specs.Narrow.{AreNarrow};
ghost use Rattle.fm_elim.specs.Advances.{IsExtension, gone_of};
ghost use Rattle.fm_elim.specs.Answers.{NamesEachOnce};
ghost use Rattle.fm_elim.specs.Pairs.{coef_of};
ghost use Rattle.plan_maker.specs.Askable.{IsAskable};
ghost use Rattle.plan_maker.specs.Beginnings.{IsBeginning, IsPrefix, IsLevelOf, IsWithout};

use crate::orders::{elimination_order, unknown_count};
use farkas_cert::{Coefs, Row, System};
use fm_elim::{Advance, Level, NoMemory};
use owner_partition::Dist;
use std::alloc::{AllocError, Global};

/// How many rows less than elimination's limit a short level has at most: it has 100.
const REST: usize = 19_900;

/// The first rows of a system, and the order in which its unknowns are removed.
#[derive(Drop)]
pub(crate) struct Prefix {
    rows: System,
    order: Vec<u32>,
    // How many unknowns are removed before the owners.
    others: usize,
}

/// A level of the first rows of a system, without the unknowns that are removed before the owners or
/// some of them.
#[derive(Drop)]
pub(crate) struct Beginning<'a> {
    rows: &'a System,
    order: &'a [u32],
    gone: usize,
    level: Level<'a>,
}

// The coefficient of an unknown, 0 where there is none.
fn coef_at(row: &Row, unknown: u32) -> i128
    ensures { result ≡ coef_of unknown row.now }
{
    let place = (unknown as usize).saturating_sub(1);
    match row.coefs.as_slice().get(place) {
        Some(coef) => *coef,
        None => 0,
    }
}

// Whether a row has none of these unknowns.
fn is_without(row: &Row, unknowns: &[u32]) -> bool
    ensures { IsTrue result ↔ IsWithout unknowns.now row.now }
{
    unknowns.iter().all(|unknown| coef_at(row, *unknown) == 0)
}

// Whether each of these rows has none of these unknowns.
fn are_without(rows: &[Row], unknowns: &[u32]) -> bool
    ensures { IsTrue result ↔ All (IsWithout unknowns.now) rows.now }
{
    rows.iter().all(|row| is_without(row, unknowns))
}

// How many rows there are up to the last that has one of these unknowns.
fn count_with(rows: &[Row], unknowns: &[u32]) -> usize
    ensures { result ≤ length rows.now }
{
    let mut count = 0;
    for (index, row) in rows.iter().enumerate() {
        if !is_without(row, unknowns) {
            count = index + 1;
        }
    }
    count
}

// Whether two lists of coefficients are the same.
fn are_same_coefs(these: &[i128], those: &[i128]) -> bool
    ensures { IsTrue result → these.now ≡ those.now }
{
    these == those
}

// Whether two rows are the same.
fn is_same_row(a: &Row, b: &Row) -> bool
    ensures { IsTrue result → a.now ≡ b.now }
{
    a.bound == b.bound && are_same_coefs(a.coefs.as_slice(), b.coefs.as_slice())
}

// Whether rows begin with these.
fn begin_with(rows: &[Row], first: &[Row]) -> bool
    ensures { IsTrue result → rows.now ≡ first.now ++ drop (length first.now) rows.now }
{
    match first {
        [] => true,
        [a, first @ ..] => match rows {
            [] => false,
            [b, rows @ ..] => is_same_row(a, b) && begin_with(rows, first),
        },
    }
}

// The system of the first so many rows.
fn first_rows(alloc: Global, system: &System, count: usize) -> Result<System, AllocError>
    requires { count ≤ length system.now.rows }
    ensures { IfOk result (λ first. first
        ≡ record { vars = system.now.vars; rows = take count system.now.rows }) }
{
    let mut first = System::empty(alloc, system.vars());
    for row in &system.rows()[..count] {
        let coefs = Coefs::from_slice(alloc, row.coefs.as_slice())?;
        first.push(Row {
            coefs,
            bound: row.bound,
        })?;
    }
    Ok(first)
}

/// Whether no level so far has had more than 100 rows: elimination's limit less the rest.
pub(crate) fn is_short(level: &Level) -> bool {
    level.has_room_for(REST)
}

// A level of a system without the first so many unknowns of the order, if elimination comes so far, and
// how many are gone: it stops at a long level.
fn level_without<'a>(
    alloc: Global,
    system: &'a System,
    order: &'a [u32],
    count: usize,
) -> Result<Option<(Level<'a>, usize)>, NoMemory>
    requires order { NamesEachOnce system.now.vars order.now }
    requires narrow { AreNarrow system.now.rows }
    ensures { IfOk result (λ found. IfSome found (λ p. IsLevelOf system.now order.now p.0
        × (gone_of p.0 ≡ p.1))) }
{
    let mut level = Level::start(alloc, system, order)?;
    for gone in 0..count {
        if !is_short(&level) {
            return Ok(Some((level, gone)));
        }
        match level.advance(alloc)? {
            Advance::Level(next) => level = next,
            Advance::Answer(_) => return Ok(None),
        }
    }
    Ok(Some((level, count)))
}

impl Prefix {
    /// Of a system whose owners are dealt so the rows up to the last that has another unknown.
    pub(crate) fn of(alloc: Global, system: &System, dists: &[Dist]) -> Result<Self, AllocError>
        requires { IsAskable system.now dists.now }
        ensures { IfOk result IsPrefix }
    {
        let others = (system.vars() - unknown_count(dists)) as usize;
        let order = elimination_order(alloc, system.vars(), dists)?;
        let count = count_with(system.rows(), &order.as_slice()[..others]);
        let rows = first_rows(alloc, system, count)?;
        Ok(Prefix {
            rows,
            order,
            others,
        })
    }

    /// The level without the unknowns that are removed before the owners, or a long one before it,
    /// if elimination comes so far.
    pub(crate) fn begin(&self, alloc: Global) -> Result<Option<Beginning<'_>>, AllocError>
        requires { IsPrefix self.now }
        ensures { IfOk result (λ found. IfSome found IsBeginning) }
    {
        let order = self.order.as_slice();
        match level_without(alloc, &self.rows, order, self.others) {
            Ok(Some((level, gone))) => Ok(Some(Beginning {
                rows: &self.rows,
                order,
                gone,
                level,
            })),
            Ok(None) => Ok(None),
            Err(_) => Err(AllocError),
        }
    }
}

impl Beginning<'_> {
    // Whether its level goes on to this system in this order.
    fn is_extended(&self, system: &System, order: &[u32]) -> bool
        requires { IsBeginning self.now }
        ensures { IsTrue result → IsExtension self.now.level system.now order.now }
    {
        let first = self.rows.rows();
        let rows = system.rows();
        if system.vars() != self.rows.vars() {
            return false;
        }
        if order != self.order {
            return false;
        }
        if self.gone > order.len() {
            return false;
        }
        if first.len() > rows.len() {
            return false;
        }
        if !begin_with(rows, first) {
            return false;
        }
        let further = &rows[first.len()..];
        are_without(further, &order[..self.gone]) && self.level.has_room_for(further.len())
    }

    /// Whether its level is long, or one before it.
    pub(crate) fn is_long(&self) -> bool {
        !is_short(&self.level)
    }

    /// A level of a system in this order: this one where it goes on to it, and else level 0.
    pub(crate) fn level_of<'b>(
        &self,
        alloc: Global,
        system: &'b System,
        order: &'b [u32],
    ) -> Result<Level<'b>, NoMemory>
        requires beginning { IsBeginning self.now }
        requires order { NamesEachOnce system.now.vars order.now }
        requires narrow { AreNarrow system.now.rows }
        ensures { IfOk result (IsLevelOf system.now order.now) }
    {
        if self.is_extended(system, order) {
            self.level.extend(alloc, system, order)
        } else {
            Level::start(alloc, system, order)
        }
    }
}
