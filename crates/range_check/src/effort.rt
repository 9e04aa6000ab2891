// Whether a system is refuted, with more or less effort.

ghost use Rattle.std.specs.Prelude.{◌≡◌, IfNone, IfOk, IfSome, false, true};
ghost use Rattle.farkas_cert.specs.Good.{IsGood};
ghost use Rattle.farkas_cert.specs.Narrow.{AreNarrow};
ghost use Rattle.fm_elim.specs.Answers.{IsKept, NamesEachOnce};
ghost use Rattle.fm_elim.specs.declared.answer.Answer.{Answer as Answers};

use elim_rows::chains::hash_of;
use farkas_cert::{CertRefusal, Certificate, System, check_cert};
use fm_elim::{Advance, Answer, Level, NoMemory, decide};
use quick_elim::{Budget, Settled, settle};
use std::alloc::{AllocError, Global};

// How many orders a quick look tries.
const ORDERS: u32 = 3;

// Elimination of little effort goes on as long as no level from 1 on has had more than 250 rows:
// the most that a level may have, less these.
const REST: usize = 20_000 - 250;

// How many times there is such elimination for a program: each takes some milliseconds at most, where
// a quick look takes some 20 microseconds.
const ELIMINATIONS: u32 = 100;

// Of how many systems it is remembered what was found: the last ones.
const MOST_REMEMBERED: usize = 256;

// What a hash is multiplied by for each number more: odd, and with no pattern.
const FACTOR: u128 = 0x9FCC_F645_4385_DF65_2360_ED05_1FC6_5DA5;

// What was found of a system with this hash. Nothing is known of it: a certificate is checked before
// it is taken.
#[derive(Drop)]
struct Remembered {
    hash: u128,
    certificate: Option<Certificate>,
}

// How far systems are looked at.
#[derive(Drop)]
pub(crate) struct Effort {
    // Whether elimination goes on to its end.
    whole: bool,
    // How many times there is elimination still, where it doesn't.
    eliminations: u32,
    // What was found of the last systems.
    remembered: Vec<Remembered>,
}

impl Effort {
    // Elimination goes on to its end.
    pub(crate) fn whole(alloc: Global) -> Self
        ensures { result.whole ≡ true }
    {
        Effort {
            whole: true,
            eliminations: 0,
            remembered: Vec::new(alloc),
        }
    }

    // There is a quick look, and some elimination.
    pub(crate) fn little(alloc: Global) -> Self {
        Effort {
            whole: false,
            eliminations: ELIMINATIONS,
            remembered: Vec::new(alloc),
        }
    }

    // A certificate that refutes the system. With the whole effort there is none only where elimination
    // keeps the system.
    pub(crate) fn refute(
        &mut self,
        alloc: Global,
        system: &System,
        order: &[u32],
    ) -> Result<Option<Certificate>, NoMemory>
        requires narrow { AreNarrow system.now.rows }
        requires order { NamesEachOnce system.now.vars order.now }
        ensures good { IfOk result (λ o. IfSome o (IsGood system.now)) }
        ensures kept { self.old.whole ≡ true
            → IfOk result (λ o. IfNone o ((answer : Answers)
            × IsKept system.now order.now answer)) }
        ensures same { self.new.whole ≡ self.old.whole }
    {
        if self.whole {
            return refuted(alloc, system, order);
        }
        let hash = hash_of_rows(system);
        if let Some(known) = recalled(alloc, self.remembered.as_slice(), hash, system)? {
            return Ok(known);
        }
        let certificate = refuted_soon(alloc, system, order, &mut self.eliminations)?;
        self.remember(alloc, hash, &certificate)?;
        Ok(certificate)
    }

    // Remembers what was found of a system with this hash.
    fn remember(
        &mut self,
        alloc: Global,
        hash: u128,
        certificate: &Option<Certificate>,
    ) -> Result<(), AllocError>
        ensures { self.new.whole ≡ self.old.whole }
    {
        let certificate = match certificate {
            Some(certificate) => Some(certificate.copy(alloc)?),
            None => None,
        };
        if self.remembered.len() >= MOST_REMEMBERED {
            self.remembered.remove(0);
        }
        self.remembered.push(Remembered { hash, certificate })?;
        Ok(())
    }
}

// A hash of a system.
fn hash_of_rows(system: &System) -> u128 {
    let mut hash = u128::from(system.vars());
    for row in system.rows() {
        let bound = row.bound.cast_unsigned();
        hash = hash.wrapping_mul(FACTOR).wrapping_add(bound);
        let coefs = hash_of(row.coefs.as_slice());
        hash = hash.wrapping_mul(FACTOR).wrapping_add(coefs);
    }
    hash
}

// What was found of the system, if it is remembered.
fn recalled(
    alloc: Global,
    all: &[Remembered],
    hash: u128,
    system: &System,
) -> Result<Option<Option<Certificate>>, AllocError>
    ensures { IfOk result (λ known. IfSome known (λ o. IfSome o (IsGood system.now))) }
{
    for one in all {
        if one.hash == hash {
            return recalled_of(alloc, one, system);
        }
    }
    Ok(None)
}

// What was found, if it holds of the system.
fn recalled_of(
    alloc: Global,
    one: &Remembered,
    system: &System,
) -> Result<Option<Option<Certificate>>, AllocError>
    ensures { IfOk result (λ known. IfSome known (λ o. IfSome o (IsGood system.now))) }
{
    let Some(certificate) = &one.certificate else {
        return Ok(Some(None));
    };
    match check_cert(alloc, system, certificate) {
        Ok(()) => Ok(Some(Some(certificate.copy(alloc)?))),
        Err(CertRefusal::NoMemory) => Err(AllocError),
        Err(_) => Ok(None),
    }
}

// A certificate that refutes the system; None where elimination keeps it.
fn refuted(alloc: Global, system: &System, order: &[u32]) -> Result<Option<Certificate>, NoMemory>
    requires narrow { AreNarrow system.now.rows }
    requires order { NamesEachOnce system.now.vars order.now }
    ensures good { IfOk result (λ o. IfSome o (IsGood system.now)) }
    ensures kept { IfOk result (λ o. IfNone o ((answer : Answers)
        × IsKept system.now order.now answer)) }
{
    match decide(alloc, system, order)? {
        Answer::Infeasible(certificate) => Ok(Some(certificate)),
        Answer::Open | Answer::Wide { .. } | Answer::Many { .. } | Answer::Work { .. } => Ok(None),
    }
}

// A certificate that refutes the system, if a quick look finds one, or else elimination, where one
// is left.
fn refuted_soon(
    alloc: Global,
    system: &System,
    order: &[u32],
    eliminations: &mut u32,
) -> Result<Option<Certificate>, NoMemory>
    requires narrow { AreNarrow system.now.rows }
    requires order { NamesEachOnce system.now.vars order.now }
    ensures { IfOk result (λ o. IfSome o (IsGood system.now)) }
{
    let budget = Budget {
        orders: ORDERS,
        ..Budget::default()
    };
    match settle(alloc, system, &budget) {
        Ok(Settled::Refuted(certificate)) => return Ok(Some(certificate)),
        Ok(Settled::Solved(_)) => return Ok(None),
        Ok(Settled::Unknown) => {}
        Err(_) => return Err(NoMemory),
    }
    if *eliminations == 0 {
        return Ok(None);
    }
    *eliminations -= 1;
    refuted_by_short_levels(alloc, system, order)
}

// A certificate that refutes the system, if elimination finds one before a level is long.
fn refuted_by_short_levels(
    alloc: Global,
    system: &System,
    order: &[u32],
) -> Result<Option<Certificate>, NoMemory>
    requires narrow { AreNarrow system.now.rows }
    requires order { NamesEachOnce system.now.vars order.now }
    ensures { IfOk result (λ o. IfSome o (IsGood system.now)) }
{
    let mut level = Level::start(alloc, system, order)?;
    while level.has_room_for(REST) {
        match level.advance(alloc)? {
            Advance::Level(next) => level = next,
            Advance::Answer(Answer::Infeasible(certificate)) => return Ok(Some(certificate)),
            Advance::Answer(_) => return Ok(None),
        }
    }
    Ok(None)
}
