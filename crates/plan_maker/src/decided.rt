// What is found of a system: by elimination in its order, and by a quick look.

ghost use Rattle.std.specs.Prelude.{◌≡◌, ℕ, List, IfOk, IfSome};
ghost use Rattle.farkas_cert.specs.Narrow.{AreNarrow};
ghost use Rattle.farkas_cert.specs.Inequalities.{Inequalities};
ghost use Rattle.fm_elim.specs.Advances.{IsAdvance, IsLevel, order_of, system_of};
ghost use Rattle.fm_elim.specs.Answers.{IsDecided, NamesEachOnce};
ghost use Rattle.plan_maker.specs.Askable.{IsAskable};
ghost use Rattle.plan_maker.specs.Beginnings.{IsBeginning, IsLevelOf};
ghost use Rattle.plan_maker.specs.Found.{IsFound, IsUnderway};
ghost use Rattle.plan_maker.specs.Orders.{elimination_order as order_of_owners};

use crate::beginnings::{Beginning, is_short};
use crate::cause::Word;
use crate::orders::elimination_order;
use crate::plan_work::PlanWork;
use crate::verdict::Verdict;
use farkas_cert::{Certificate, System};
use fm_elim::{Advance, Answer, Level, NoMemory};
use owner_partition::Dist;
use quick_elim::{Budget, Settled, settle};
use std::alloc::{AllocError, Global};

/// What is found of a system: a certificate that is good for it, or the word by which it is kept.
pub(crate) type Found = Verdict<Certificate, Word>;

// A level of a system in this order, from a beginning if there is one.
fn level_of<'a>(
    alloc: Global,
    system: &'a System,
    order: &'a [u32],
    beginning: Option<&Beginning>,
) -> Result<Level<'a>, NoMemory>
    requires order { NamesEachOnce system.now.vars order.now }
    requires narrow { AreNarrow system.now.rows }
    requires beginning { IfSome beginning (λ b. IsBeginning b.now) }
    ensures { IfOk result (IsLevelOf system.now order.now) }
{
    match beginning {
        Some(beginning) => beginning.level_of(alloc, system, order),
        None => Level::start(alloc, system, order),
    }
}

// Removes the next unknown. An elimination that ends is counted.
fn advance<'a>(
    alloc: Global,
    level: Level<'a>,
    work: &mut PlanWork,
) -> Result<Advance<'a>, NoMemory>
    requires { IsLevel level }
    ensures { IfOk result (IsAdvance level.entry) }
{
    let pairs = level.pairs();
    let advance = level.advance(alloc)?;
    if let Advance::Answer(answer) = &advance {
        work.add_elimination(pairs, answer);
    }
    Ok(advance)
}

// Removes unknowns as long as levels are short.
fn advance_short<'a>(
    alloc: Global,
    level: Level<'a>,
    work: &mut PlanWork,
) -> Result<Advance<'a>, NoMemory>
    requires { IsLevel level }
    ensures { IfOk result (IsUnderway (system_of level.entry) (order_of level.entry)) }
{
    let mut level = level;
    while is_short(&level) {
        match advance(alloc, level, work)? {
            Advance::Level(next) => level = next,
            Advance::Answer(answer) => return Ok(Advance::Answer(answer)),
        }
    }
    Ok(Advance::Level(level))
}

// Removes the unknowns that are left.
fn answer(alloc: Global, level: Level, work: &mut PlanWork) -> Result<Answer, NoMemory>
    requires { IsLevel level }
    ensures { IfOk result (IsDecided (system_of level.entry) (order_of level.entry)) }
{
    let mut level = level;
    loop {
        match advance(alloc, level, work)? {
            Advance::Level(next) => level = next,
            Advance::Answer(answer) => return Ok(answer),
        }
    }
}

// What a quick look finds of a system, if anything.
#[tactic(auto, using(crate::proofs::Judgements::found_witness))]
fn quick_look(
    alloc: Global,
    system: &System,
    work: &mut PlanWork,
) -> Result<Option<Found>, NoMemory>
    ensures { (order : List ℕ) → IfOk result (λ found. IfSome found (IsFound system.now order)) }
{
    let settled = match settle(alloc, system, &Budget::default()) {
        Ok(settled) => settled,
        Err(_) => return Err(NoMemory),
    };
    work.add_look(system, !matches!(&settled, Settled::Unknown));
    match settled {
        Settled::Refuted(certificate) => Ok(Some(Verdict::Refuted(certificate))),
        Settled::Solved(_point) => Ok(Some(Verdict::Kept(Word::Open))),
        Settled::Unknown => Ok(None),
    }
}

// What an answer of elimination in this order finds.
#[tactic(auto, using(crate::proofs::Judgements::found_open))]
fn found_by(answer: Answer) -> Found
    ensures { (system : Inequalities) (order : List ℕ) → IsDecided system order answer
        → IsFound system order result }
{
    match answer {
        Answer::Infeasible(certificate) => Verdict::Refuted(certificate),
        Answer::Open => Verdict::Kept(Word::Open),
        Answer::Wide { .. } => Verdict::Kept(Word::Wide),
        Answer::Many { .. } => Verdict::Kept(Word::Many),
        Answer::Work { .. } => Verdict::Kept(Word::Work),
    }
}

// What is found of a system at a long level: by a quick look, or else by going on.
fn find_long(
    alloc: Global,
    system: &System,
    level: Level,
    work: &mut PlanWork,
) -> Result<Found, NoMemory>
    requires level { IsLevel level }
    requires system { system_of level ≡ system.now }
    ensures { IfOk result (IsFound system.now (order_of level.entry)) }
{
    match quick_look(alloc, system, work)? {
        Some(found) => Ok(found),
        None => Ok(found_by(answer(alloc, level, work)?)),
    }
}

// What is found of a system by an answer of elimination: a certificate stands, and else a quick look may
// find one, or a witness.
fn find_behind(
    alloc: Global,
    system: &System,
    answer: Answer,
    work: &mut PlanWork,
) -> Result<Found, NoMemory>
    ensures { (order : List ℕ) → IsDecided system.now order answer
        → IfOk result (IsFound system.now order) }
{
    match found_by(answer) {
        Verdict::Refuted(certificate) => Ok(Verdict::Refuted(certificate)),
        Verdict::Kept(word) => match quick_look(alloc, system, work)? {
            Some(found) => Ok(found),
            None => Ok(Verdict::Kept(word)),
        },
    }
}

// What is found of a system in this order, from a beginning if there is one. A quick look comes before
// levels that are long, and behind elimination where that has no certificate.
fn find_in(
    alloc: Global,
    system: &System,
    order: &[u32],
    beginning: Option<&Beginning>,
    work: &mut PlanWork,
) -> Result<Found, NoMemory>
    requires order { NamesEachOnce system.now.vars order.now }
    requires narrow { AreNarrow system.now.rows }
    requires beginning { IfSome beginning (λ b. IsBeginning b.now) }
    ensures { IfOk result (IsFound system.now order.now) }
{
    if is_long(beginning) {
        if let Some(found) = quick_look(alloc, system, work)? {
            return Ok(found);
        }
        let level = level_of(alloc, system, order, beginning)?;
        return Ok(found_by(answer(alloc, level, work)?));
    }
    let level = level_of(alloc, system, order, beginning)?;
    match advance_short(alloc, level, work)? {
        Advance::Level(level) => find_long(alloc, system, level, work),
        Advance::Answer(answer) => find_behind(alloc, system, answer, work),
    }
}

// Whether the level of a beginning is long.
fn is_long(beginning: Option<&Beginning>) -> bool {
    match beginning {
        Some(beginning) => beginning.is_long(),
        None => false,
    }
}

/// What is found of a system whose owners are dealt so, from a beginning if there is one, and of a plan
/// that took so much work. Where that is used up nothing is looked for.
#[tactic(auto, using(crate::proofs::Judgements::found_spent))]
pub(crate) fn find(
    alloc: Global,
    system: &System,
    dists: &[Dist],
    beginning: Option<&Beginning>,
    work: &mut PlanWork,
) -> Result<Found, AllocError>
    requires asked { IsAskable system.now dists.now }
    requires beginning { IfSome beginning (λ b. IsBeginning b.now) }
    ensures { IfOk result (IsFound system.now (order_of_owners system.now.vars dists.now)) }
{
    if work.is_used_up() {
        return Ok(Verdict::Kept(Word::Spent));
    }
    let order = elimination_order(alloc, system.vars(), dists)?;
    match find_in(alloc, system, order.as_slice(), beginning, work) {
        Ok(found) => Ok(found),
        Err(_) => Err(AllocError),
    }
}
