// Elimination, level by level.

ghost use Rattle.std.specs.Prelude.{◌≡◌, ◌+◌, ◌-◌, nat_le, IfOk};
ghost use Rattle.farkas_cert.specs.Narrow.{AreNarrow};
ghost use Rattle.elim_level.specs.Levels.{IsDerived};
ghost use Rattle.fm_elim.specs.Lean.{IsLean};
ghost use Rattle.fm_elim.specs.Answers.{NamesEachOnce, IsDecided, IfInfeasible, IfWide, IfMany, IfWork, IsFreeOfClashes};
ghost use Rattle.fm_elim.specs.Advances.{IsLevel, IsExtension, IsAdvance, system_of, order_of, gone_of, most_of, pairs_of};

use crate::answer::{Answer, NoMemory};
use crate::extension::{extended_rows, moved_log};
use crate::refutation::refutation;
use elim_level::level::{Formed, HeldRows, MOST_ROWS, first_level, next_level};
use elim_level::pairs::count_pairs;
use elim_rows::derivation::Derivation;
use farkas_cert::System;
use std::alloc::Global;

/// How many derived rows there is room for at first.
const DERIVED: usize = 100;

/// Elimination is given up before its levels are formed of more pairs of rows in all.
const MOST_PAIRS: u128 = 65_536;

/// A level of the elimination of a system's variables in an order: its rows, and how each of them
/// follows from the system's. Level 0 comes first, and each level removes one variable more.
#[derive(Drop)]
pub struct Level<'a> {
    system: &'a System,
    order: &'a [u32],
    // How many variables of the order are gone.
    gone: usize,
    // No level from 1 on has had more rows than this.
    most: usize,
    // Of how many pairs of rows the levels from 1 on are formed.
    pairs: u128,
    rows: HeldRows,
    log: Vec<Derivation>,
}

/// What removing the next variable comes to.
#[derive(Drop)]
pub enum Advance<'a> {
    /// The next level.
    Level(Level<'a>),
    /// Elimination ends with this answer.
    Answer(Answer),
}

impl<'a> Level<'a> {
    /// Level 0 of a system, whose variables are to be removed in the order that is given.
    ///
    /// The order names each variable, from 1, once. The coefficients and the bounds are at most 2 ^ 126
    /// in size. An error says that memory ran out, and nothing of the system.
    pub fn start(alloc: Global, system: &'a System, order: &'a [u32]) -> Result<Self, NoMemory>
        requires order { NamesEachOnce system.now.vars order.now }
        requires narrow { AreNarrow system.now.rows }
        ensures level { IfOk result (λ level. IsLevel level) }
        ensures system { IfOk result (λ level. system_of level ≡ system.now) }
        ensures order { IfOk result (λ level. order_of level ≡ order.now) }
        ensures gone { IfOk result (λ level. gone_of level ≡ 0) }
    {
        let mut log = Vec::with_capacity(alloc, system.rows().len().saturating_add(DERIVED))?;
        let rows = first_level(alloc, system, &mut log)?;
        Ok(Level {
            system,
            order,
            gone: 0,
            most: 0,
            pairs: 0,
            rows,
            log,
        })
    }

    /// Whether the level takes so many further rows: no level from 1 on may have more than 20,000.
    pub fn has_room_for(&self, rows: usize) -> bool
        ensures { result ≡ nat_le (most_of self.now + rows) 20000 }
    {
        match self.most.checked_add(rows) {
            Some(count) => count <= MOST_ROWS,
            None => false,
        }
    }

    /// Of how many pairs of rows the levels from 1 up to this one are formed.
    pub fn pairs(&self) -> u128
        ensures { result ≡ pairs_of self.now }
    {
        self.pairs
    }

    /// The level of this number of a system with further rows behind those of the level's system.
    ///
    /// The system has as many variables, its further rows are without those that are gone, and its order
    /// begins with these; `has_room_for` its further rows. Its coefficients and bounds are at most
    /// 2 ^ 126 in size. The level itself stays, and can be extended again. An error says that memory
    /// ran out.
    pub fn extend<'b>(
        &self,
        alloc: Global,
        whole: &'b System,
        order: &'b [u32],
    ) -> Result<Level<'b>, NoMemory>
        requires level { IsLevel self.now }
        requires extension { IsExtension self.now whole.now order.now }
        requires order { NamesEachOnce whole.now.vars order.now }
        requires narrow { AreNarrow whole.now.rows }
        ensures level { IfOk result (λ level. IsLevel level) }
        ensures system { IfOk result (λ level. system_of level ≡ whole.now) }
        ensures order { IfOk result (λ level. order_of level ≡ order.now) }
        ensures gone { IfOk result (λ level. gone_of level ≡ gone_of self.now) }
    {
        let given = self.system.rows().len();
        let further = whole.rows().len() - given;
        let mut log = moved_log(alloc, given as u64, further as u64, self.log.as_slice())?;
        let rows = extended_rows(alloc, whole, &self.rows, given, &mut log)?;
        Ok(Level {
            system: whole,
            order,
            gone: self.gone,
            most: self.most + further,
            pairs: self.pairs,
            rows,
            log,
        })
    }

    /// Removes the next variable of the order. The answer is Infeasible where the level holds a
    /// contradiction or two rows that clash, Open where no variable is left, Work where the levels up to
    /// the next one are formed of more than 65,536 pairs, and else Wide or Many where the next level has
    /// no whole form. An error says that memory ran out.
    pub fn advance(self, alloc: Global) -> Result<Advance<'a>, NoMemory>
        requires level { IsLevel self }
        ensures advance { IfOk result (λ advance. IsAdvance self.entry advance) }
    {
        let Level {
            system,
            order,
            gone,
            most,
            pairs,
            rows,
            log,
        } = self;
        let mut log = log;
        if let Some(certificate) = refutation(alloc, system, &rows, &mut log)? {
            return Ok(Advance::Answer(Answer::Infeasible(certificate)));
        }
        if gone == order.len() {
            return Ok(Advance::Answer(Answer::Open));
        }
        let variable = order[gone];
        let level = gone as u32 + 1;
        let pairs = pairs + count_pairs(rows.rows.as_slice(), variable);
        if pairs > MOST_PAIRS {
            return Ok(Advance::Answer(Answer::Work { level, pairs }));
        }
        match next_level(alloc, system, rows, variable, &mut log)? {
            Formed::Level(rows) => Ok(Advance::Level(Level {
                system,
                order,
                gone: gone + 1,
                most: most.max(rows.rows.len()),
                pairs,
                rows,
                log,
            })),
            Formed::Wide(upper, lower) => Ok(Advance::Answer(Answer::Wide {
                level,
                upper,
                lower,
            })),
            Formed::Many => Ok(Advance::Answer(Answer::Many {
                level,
                count: MOST_ROWS as u64 + 1,
            })),
        }
    }

    /// Removes the variables that are left, and answers for the level's system in its order as `decide`
    /// does. An error says that memory ran out.
    pub fn answer(self, alloc: Global) -> Result<Answer, NoMemory>
        requires level { IsLevel self }
        ensures decided { IfOk result (IsDecided (system_of self.entry) (order_of self.entry)) }
        ensures lean { IfOk result (λ a. IfInfeasible a (λ c. IsLean (system_of self.entry) c)) }
        ensures before_wide { IfOk result (λ a. IfWide a (λ k upper lower. IsFreeOfClashes
            (IsDerived (system_of self.entry) (order_of self.entry) (k - 1)))) }
        ensures before_many { IfOk result (λ a. IfMany a (λ k count. IsFreeOfClashes
            (IsDerived (system_of self.entry) (order_of self.entry) (k - 1)))) }
        ensures before_work { IfOk result (λ a. IfWork a (λ k pairs. IsFreeOfClashes
            (IsDerived (system_of self.entry) (order_of self.entry) (k - 1)))) }
    {
        let mut level = self;
        loop {
            match level.advance(alloc)? {
                Advance::Level(next) => level = next,
                Advance::Answer(answer) => return Ok(answer),
            }
        }
    }
}

/// Decides a system by Fourier's elimination, which removes the variables in the order that is given.
///
/// Infeasible comes with a certificate that is good for the system, and in which each step but the
/// last is needed by a later one. With any other answer the system is kept: each level before the
/// answer was formed whole, with no row without coefficients, no pair whose least combination passes
/// 2 ^ 126 in size, at most 20,000 rows, and of at most 65,536 pairs with those before it; and Open says
/// that the system has a rational solution.
///
/// Opposites whose bounds add to less than 0 are looked up among all rows of a level, those without
/// the variable that is removed too. So Infeasible may come a level earlier than a row without
/// coefficients does, and in place of a Wide, Many or Work of that level.
///
/// The order names each variable, from 1, once. The coefficients and the bounds are at most 2 ^ 126
/// in size. An error says that memory ran out, and nothing of the system.
pub fn decide(alloc: Global, system: &System, order: &[u32]) -> Result<Answer, NoMemory>
    requires order { NamesEachOnce system.now.vars order.now }
    requires narrow { AreNarrow system.now.rows }
    ensures decided { IfOk result (IsDecided system.now order.now) }
    ensures lean { IfOk result (λ a. IfInfeasible a (λ c. IsLean system.now c)) }
    ensures before_wide { IfOk result (λ a. IfWide a (λ k upper lower. IsFreeOfClashes
        (IsDerived system.now order.now (k - 1)))) }
    ensures before_many { IfOk result (λ a. IfMany a (λ k count. IsFreeOfClashes
        (IsDerived system.now order.now (k - 1)))) }
    ensures before_work { IfOk result (λ a. IfWork a (λ k pairs. IsFreeOfClashes
        (IsDerived system.now order.now (k - 1)))) }
{
    Level::start(alloc, system, order)?.answer(alloc)
}
