// Slots with their verdicts, made once for each signature.

ghost use Rattle.std.specs.Prelude.{◌≡◌, ◌==◌, ◌↔◌, ◌<◌, ◌^◌, [], IfOk, IfSome, IsTrue, length, map};
ghost use Rattle.std.specs.List.{All, list_all, list_any};
ghost use Rattle.nest_tree.specs.Tree.{Tree};
ghost use Rattle.nest_tree.specs.View.{tree_of};
ghost use Rattle.sync_plan.specs.declared.plan.Plan.{Plan as HeldPlan};
ghost use Rattle.comm_system.specs.Certain.{certain_of};
ghost use Rattle.comm_system.specs.Obligations.{Slot as HeldSlot, anchor_at};
ghost use Rattle.comm_system.specs.PhaseViews.{phase_seen};
ghost use Rattle.comm_system.specs.SideViews.{producer_seen};
ghost use Rattle.comm_system.specs.Signatures.{has_places_in, signature_of};
ghost use Rattle.comm_system.specs.SlotViews.{slot_seen};
ghost use Rattle.plan_maker.specs.Asked.{AreRefuted, owners_dealt as owners_are_dealt, slot_asked};
ghost use Rattle.plan_maker.specs.Caches.{HasAnswered, IsCache, IsEntry, IsHeld, IsRecalled, boundaries_seen, key_seen, pair_seen, waits_seen};
ghost use Rattle.plan_maker.specs.Judged.{IsVerdict};
ghost use Rattle.plan_maker.specs.Searches.{HasTried};

use crate::cause::Cause;
use crate::findings::Findings;
use crate::judge::{Judged, cause_of, judge_groups};
use crate::problem::Problem;
use crate::verdict::Verdict;
use comm_system::boundary::{Boundary, certain_boundaries};
use comm_system::groups::slot_groups;
use comm_system::phase::Phase;
use comm_system::producer::{Producer, Side};
use comm_system::signature::{Signature, signature_at};
use comm_system::slot::Slot;
use comm_system::waits::Waits;
use farkas_cert::Certificate;
use owner_partition::{Anchor, Dist};
use std::alloc::{AllocError, Global};
use sync_plan::{Kind, Plan};

// What a slot sees of kinds, where no barrier stands between.
#[derive(Drop)]
pub(crate) struct Key {
    left: u32,
    right: u32,
    producers: Vec<(Anchor, Side)>,
}

// A verdict on a slot's systems, by what the slot sees of the kinds.
#[derive(Drop)]
pub(crate) struct Entry {
    key: Key,
    verdict: Judged,
}

/// A slot with its certain boundaries, and the verdicts on its systems that were made.
#[derive(Drop)]
pub(crate) struct SlotCache<'b, 'a> {
    slot: Slot<'b, 'a>,
    boundaries: Vec<Boundary>,
    entries: Vec<Entry>,
}

/// Kinds that differ from those that are taken in front of one phase alone, by its number from 1.
#[derive(Clone, Copy)]
pub(crate) struct Trial<'k> {
    pub(crate) phase: u32,
    pub(crate) kinds: &'k [Kind],
}

// Whether a producer is this anchor on this side.
fn is_producer(one: &(Anchor, Side), producer: &Producer) -> bool
    ensures { IsTrue result ↔ (producer_seen producer.now ≡ pair_seen one.now) }
{
    one.0.is_same(producer.anchor) && producer.side == one.1
}

// Whether these are the same producers.
fn are_producers(these: &[(Anchor, Side)], producers: &[Producer]) -> bool
    ensures { IsTrue result ↔ (map producer_seen producers.now ≡ map pair_seen these.now) }
{
    match these {
        [] => producers.is_empty(),
        [one, these @ ..] => match producers {
            [] => false,
            [producer, producers @ ..] => {
                is_producer(one, producer) && are_producers(these, producers)
            }
        },
    }
}

impl Key {
    // What these waits show.
    fn new(alloc: Global, waits: &Waits) -> Result<Self, AllocError>
        ensures { IfOk result (λ k. key_seen k ≡ waits_seen waits.now) }
    {
        let mut producers = Vec::new(alloc);
        for producer in waits.producers.iter() {
            producers.push((producer.anchor.copy(alloc)?, producer.side))?;
        }
        Ok(Key {
            left: waits.left,
            right: waits.right,
            producers,
        })
    }

    // Whether it is what these waits show.
    fn is_of(&self, waits: &Waits) -> bool
        ensures { IsTrue result ↔ (key_seen self.now ≡ waits_seen waits.now) }
    {
        self.left == waits.left
            && self.right == waits.right
            && are_producers(self.producers.as_slice(), waits.producers.as_slice())
    }
}

// How the owners of a slot are dealt, and then the producers.
fn owners_dealt(
    alloc: Global,
    plan: &Plan,
    slot: &Slot,
    waits: &Waits,
) -> Result<Vec<Dist>, AllocError>
    ensures { IfOk result (λ dists. dists.items ≡ owners_are_dealt plan.now (slot_seen slot.now)
        (map producer_seen waits.now.producers.items)) }
{
    let mut dists = Vec::new(alloc);
    dists.push(anchor_dist(plan, slot.s))?;
    dists.push(anchor_dist(plan, slot.t))?;
    for producer in waits.producers.iter() {
        dists.push(producer.anchor.dist)?;
    }
    Ok(dists)
}

// How the anchor of the static phase with this number deals.
fn anchor_dist(plan: &Plan, number: u32) -> Dist
    ensures { result ≡ (anchor_at plan.now number).dist }
{
    match plan.anchor(number) {
        Some(anchor) => anchor.dist,
        None => Dist::Cyclic,
    }
}

// The verdict on a slot's systems under these waits.
fn judge_slot(
    alloc: Global,
    problem: Problem,
    slot: &Slot,
    waits: &Waits,
    findings: &mut Findings,
) -> Result<Judged, AllocError>
    ensures { IfOk result
        (IsVerdict (slot_asked (tree_of problem.entry.program.now) problem.entry.plan.now
        (slot_seen slot.now) (waits_seen waits.now))) }
{
    let groups = slot_groups(alloc, &problem.plan.cut, u64::MAX, *slot, waits, 1)?;
    let dists = owners_dealt(alloc, problem.plan, slot, waits)?;
    judge_groups(
        alloc,
        problem,
        groups.items.as_slice(),
        dists.as_slice(),
        findings,
    )
}

// What was found under these waits, if that verdict was made: the first of the slot's systems that
// is kept, or none.
fn recall(entries: &[Entry], waits: &Waits) -> Option<Option<Cause>>
    ensures { (tree : Tree) (plan : HeldPlan) (slot : HeldSlot)
        → All (IsEntry tree plan slot) entries.now
        → IfSome result (IsRecalled tree plan slot (waits_seen waits.now) entries.now) }
{
    for entry in entries {
        if entry.key.is_of(waits) {
            return Some(cause_of(&entry.verdict));
        }
    }
    None
}

// The certificates of a verdict under these waits that refutes the slot's systems; none where there
// is no such verdict.
fn take_among(alloc: Global, entries: Vec<Entry>, waits: &Waits) -> Vec<Certificate>
    ensures { (tree : Tree) (plan : HeldPlan) (slot : HeldSlot)
        → All (IsEntry tree plan slot) entries.items
        → IsHeld tree plan slot (waits_seen waits.now) entries.items
        → AreRefuted (slot_asked tree plan slot (waits_seen waits.now)) result.items }
{
    let mut left = entries;
    while let Some(entry) = left.pop() {
        let Entry { key, verdict } = entry;
        if key.is_of(waits) {
            if let Verdict::Refuted(certificates) = verdict {
                return certificates;
            }
        }
    }
    Vec::new(alloc)
}

impl<'b, 'a> SlotCache<'b, 'a> {
    /// A slot of these phases without a verdict.
    pub(crate) fn new(
        alloc: Global,
        phases: &[Phase],
        slot: Slot<'b, 'a>,
    ) -> Result<Self, AllocError>
        requires { length phases.now < 2 ^ 20 }
        ensures slot { IfOk result (λ c. c.slot ≡ slot.entry) }
        ensures certain { IfOk result (λ c. boundaries_seen c ≡ certain_of (slot_seen slot.entry)
            (map phase_seen phases.now)) }
        ensures few { IfOk result (λ c. length c.boundaries.items < 2 ^ 30) }
        ensures empty { IfOk result (λ c. c.entries.items ≡ []) }
    {
        Ok(SlotCache {
            slot,
            boundaries: certain_boundaries(alloc, phases, &slot)?,
            entries: Vec::new(alloc),
        })
    }

    // Whether the boundary in front of a phase, by its number from 1, is among the certain ones.
    fn is_touched(&self, phase: u32) -> bool
        ensures { result ≡ list_any (λ b. b.phase == phase) self.now.boundaries.items }
    {
        self.boundaries
            .iter()
            .any(|boundary| boundary.phase == phase)
    }

    // The first of the slot's systems under these waits that is kept, if any. The verdict is made
    // where it wasn't.
    fn ask_waits(
        &mut self,
        alloc: Global,
        problem: Problem,
        waits: &Waits,
        findings: &mut Findings,
    ) -> Result<Option<Cause>, AllocError>
        requires { IsCache (tree_of problem.program.now) problem.plan.now self.old }
        ensures { IfOk result
            (HasAnswered (tree_of problem.entry.program.now) problem.entry.plan.now
            (waits_seen waits.now) self.old self.new) }
    {
        if let Some(outcome) = recall(self.entries.as_slice(), waits) {
            return Ok(outcome);
        }
        let verdict = judge_slot(alloc, problem, &self.slot, waits, findings)?;
        let key = Key::new(alloc, waits)?;
        let outcome = cause_of(&verdict);
        self.entries.push(Entry { key, verdict })?;
        Ok(outcome)
    }

    // The first of the slot's systems under these kinds that is kept, if any.
    fn ask(
        &mut self,
        alloc: Global,
        problem: Problem,
        kinds: &[Kind],
        findings: &mut Findings,
    ) -> Result<Option<Cause>, AllocError>
        requires places { IsTrue (list_all has_places_in kinds.now) }
        requires cache { IsCache (tree_of problem.program.now) problem.plan.now self.old }
        ensures { IfOk result
            (HasAnswered (tree_of problem.entry.program.now) problem.entry.plan.now
            (signature_of problem.entry.plan.now.version kinds.now
            (boundaries_seen self.old)) self.old self.new) }
    {
        match signature_at(
            alloc,
            problem.plan.version,
            kinds,
            self.boundaries.as_slice(),
        )? {
            Signature::Blocked => Ok(None),
            Signature::Waits(waits) => self.ask_waits(alloc, problem, &waits, findings),
        }
    }

    /// The first of the slot's systems under other kinds that is kept, if any. It isn't asked where
    /// the boundary in front of their phase isn't among its certain ones, where nothing changes.
    pub(crate) fn try_kinds(
        &mut self,
        alloc: Global,
        problem: Problem,
        trial: Trial,
        findings: &mut Findings,
    ) -> Result<Option<Cause>, AllocError>
        requires places { IsTrue (list_all has_places_in trial.kinds.now) }
        requires cache { IsCache (tree_of problem.program.now) problem.plan.now self.old }
        ensures { IfOk result (HasTried problem.entry trial.entry self.old self.new) }
    {
        if self.is_touched(trial.phase) {
            self.ask(alloc, problem, trial.kinds, findings)
        } else {
            Ok(None)
        }
    }

    /// The certificates of the slot's systems under these kinds, by the verdicts that were made.
    pub(crate) fn into_certificates(
        self,
        alloc: Global,
        problem: Problem,
        kinds: &[Kind],
    ) -> Result<Vec<Certificate>, AllocError>
        requires places { IsTrue (list_all has_places_in kinds.now) }
        requires cache { IsCache (tree_of problem.program.now) problem.plan.now self }
        requires held { IsHeld (tree_of problem.program.now) problem.plan.now (slot_seen self.slot)
            (signature_of problem.plan.now.version kinds.now
            (boundaries_seen self)) self.entries.items }
        ensures { IfOk result
            (λ cs. AreRefuted (slot_asked (tree_of problem.entry.program.now) problem.entry.plan.now
            (slot_seen self.entry.slot) (signature_of problem.entry.plan.now.version kinds.now
            (boundaries_seen self.entry))) cs.items) }
    {
        let SlotCache {
            boundaries,
            entries,
            ..
        } = self;
        match signature_at(alloc, problem.plan.version, kinds, boundaries.as_slice())? {
            Signature::Blocked => Ok(Vec::new(alloc)),
            Signature::Waits(waits) => Ok(take_among(alloc, entries, &waits)),
        }
    }
}
