// Certificates that were found, by the systems that they refute.

ghost use Rattle.std.specs.Prelude.{IfOk, IfSome, IsTrue};
ghost use Rattle.farkas_cert.specs.Good.{IsGood};
ghost use Rattle.plan_maker.specs.Askable.{IsAskable};
ghost use Rattle.plan_maker.specs.Beginnings.{IsBeginning};
ghost use Rattle.plan_maker.specs.Found.{IsFound};
ghost use Rattle.plan_maker.specs.Orders.{elimination_order as order_of};

use crate::beginnings::Beginning;
use crate::decided::{Found, find};
use crate::plan_work::PlanWork;
use crate::verdict::Verdict;
use farkas_cert::{CertRefusal, Certificate, Row, System, check_cert};
use maker_anchors::places::item_at;
use owner_partition::Dist;
use std::alloc::{AllocError, Global};

/// How many chains there are.
const CHAINS: usize = 4096;

/// What each number is multiplied by: odd, and with no pattern.
const FACTOR: u64 = 0x9FCC_F645_4385_DF65;

/// What a coefficient is multiplied by before its place is added: odd, and with no pattern.
const SPREAD: u64 = 0x2360_ED05_1FC6_5DA5;

/// Numbers below this have 64 bits.
const WORD: u128 = 1 << 64;

// A certificate, with a hash of the system that it refutes.
#[derive(Drop)]
struct Known {
    hash: u64,
    certificate: Certificate,
}

/// Certificates of the systems that were asked about, found by a hash of their rows, and the work that
/// these took. Nothing is known of the certificates: each is checked before it is taken.
#[derive(Drop)]
pub(crate) struct Findings {
    chains: Vec<Vec<Known>>,
    work: PlanWork,
}

// The hash with one number more.
fn mixed(hash: u64, number: u64) -> u64 {
    hash.wrapping_add(number).wrapping_mul(FACTOR)
}

// The low 64 bits of a number.
fn low_bits(number: i128) -> u64 {
    (number.cast_unsigned() % WORD) as u64
}

// The hash with one row more.
fn with_row(hash: u64, row: &Row) -> u64 {
    let mut sum = mixed(hash, low_bits(row.bound));
    for (place, coef) in row.coefs.as_slice().iter().enumerate() {
        if *coef != 0 {
            let number = low_bits(*coef).wrapping_mul(SPREAD);
            sum = mixed(sum, number.wrapping_add(place as u64));
        }
    }
    sum
}

/// The first rows of a system, which it shares with others, and their hash.
#[derive(Clone, Copy)]
pub(crate) struct SharedRows {
    count: usize,
    hash: u64,
}

impl SharedRows {
    /// The first so many rows of a system.
    pub(crate) fn of(system: &System, count: usize) -> Self {
        let rows = system.rows();
        let count = count.min(rows.len());
        let hash = with_rows(mixed(0, u64::from(system.vars())), &rows[..count]);
        SharedRows { count, hash }
    }

    // A hash of a system that begins with these rows.
    fn hash_of(self, system: &System) -> u64 {
        let rows = system.rows();
        with_rows(self.hash, &rows[self.count.min(rows.len())..])
    }
}

// The hash with these rows more.
fn with_rows(hash: u64, rows: &[Row]) -> u64 {
    let mut sum = hash;
    for row in rows {
        sum = with_row(sum, row);
    }
    sum
}

// The chain of a hash.
fn chain_of(hash: u64) -> usize {
    ((hash >> 32) % CHAINS as u64) as usize
}

// Whether a certificate is good for a system.
fn is_good(alloc: Global, system: &System, certificate: &Certificate) -> Result<bool, AllocError>
    ensures { IfOk result (λ good. IsTrue good → IsGood system.now certificate.now) }
{
    match check_cert(alloc, system, certificate) {
        Ok(()) => Ok(true),
        Err(CertRefusal::NoMemory) => Err(AllocError),
        Err(_) => Ok(false),
    }
}

// A copy of a certificate, if it has this hash and is good for a system.
fn good_copy(
    alloc: Global,
    known: &Known,
    hash: u64,
    system: &System,
) -> Result<Option<Certificate>, AllocError>
    ensures { IfOk result (λ o. IfSome o (IsGood system.now)) }
{
    if known.hash != hash {
        return Ok(None);
    }
    if is_good(alloc, system, &known.certificate)? {
        return Ok(Some(known.certificate.copy(alloc)?));
    }
    Ok(None)
}

// The first of these certificates that has this hash and is good for a system.
fn recall(
    alloc: Global,
    chain: &[Known],
    hash: u64,
    system: &System,
) -> Result<Option<Certificate>, AllocError>
    ensures { IfOk result (λ o. IfSome o (IsGood system.now)) }
{
    for known in chain {
        if let Some(certificate) = good_copy(alloc, known, hash, system)? {
            return Ok(Some(certificate));
        }
    }
    Ok(None)
}

// Keeps a certificate that was found of a system with this hash.
fn keep(alloc: Global, chain: &mut Vec<Known>, hash: u64, found: &Found) -> Result<(), AllocError> {
    if let Verdict::Refuted(certificate) = found {
        let certificate = certificate.copy(alloc)?;
        chain.push(Known { hash, certificate })?;
    }
    Ok(())
}

impl Findings {
    /// No certificate yet, and no work.
    pub(crate) fn new(alloc: Global) -> Result<Self, AllocError> {
        let mut chains = Vec::new(alloc);
        for _ in 0..CHAINS {
            chains.push(Vec::new(alloc))?;
        }
        Ok(Findings {
            chains,
            work: PlanWork::none(),
        })
    }

    /// The certificate that is there for a system, if any.
    pub(crate) fn known(
        &self,
        alloc: Global,
        system: &System,
        shared: SharedRows,
    ) -> Result<Option<Certificate>, AllocError>
        ensures { IfOk result (λ o. IfSome o (IsGood system.now)) }
    {
        let hash = shared.hash_of(system);
        match item_at(self.chains.as_slice(), chain_of(hash)) {
            Some(chain) => recall(alloc, chain.as_slice(), hash, system),
            None => Ok(None),
        }
    }

    /// Whether all the work is used up that a plan may take: nothing more is found anew.
    pub(crate) fn is_used_up(&self) -> bool {
        self.work.is_used_up()
    }

    /// What is found of a system whose owners are dealt so, from a beginning if there is one. Nothing is
    /// looked for where a certificate is there, or where the plan's work is used up.
    pub(crate) fn find(
        &mut self,
        alloc: Global,
        system: &System,
        shared: SharedRows,
        dists: &[Dist],
        beginning: Option<&Beginning>,
    ) -> Result<Found, AllocError>
        requires asked { IsAskable system.now dists.now }
        requires beginning { IfSome beginning (λ b. IsBeginning b.now) }
        ensures { IfOk result (IsFound system.now (order_of system.now.vars dists.now)) }
    {
        let hash = shared.hash_of(system);
        let place = chain_of(hash);
        if place >= self.chains.len() {
            return find(alloc, system, dists, beginning, &mut self.work);
        }
        let chain = &mut self.chains[place];
        if let Some(certificate) = recall(alloc, chain.as_slice(), hash, system)? {
            return Ok(Verdict::Refuted(certificate));
        }
        let found = find(alloc, system, dists, beginning, &mut self.work)?;
        keep(alloc, chain, hash, &found)?;
        Ok(found)
    }
}
