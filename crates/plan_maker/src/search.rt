// The search for the weakest kinds in front of the phases of a plan.

ghost use Rattle.std.specs.Prelude.{◌≡◌, ◌+◌, ◌≤◌, ◌<◌, ◌^◌, IfOk, IfSome, IsTrue, None, OnOk, false, length, map, slice_index_or, true};
ghost use Rattle.std.specs.List.{AllZip, filter, list_all, sum};
ghost use Rattle.nest_tree.specs.View.{tree_of};
ghost use Rattle.comm_system.specs.Obligations.{slots_of};
ghost use Rattle.comm_system.specs.PhaseViews.{phase_seen};
ghost use Rattle.comm_system.specs.References.{phases_of};
ghost use Rattle.comm_system.specs.Signatures.{has_places_in};
ghost use Rattle.comm_system.specs.SlotViews.{slot_seen};
ghost use Rattle.plan_maker.specs.Candidates.{kinds_taken, weaker_at, weaker_from};
ghost use Rattle.plan_maker.specs.Meeting.{meets};
ghost use Rattle.plan_maker.specs.Searches.{AreElsewhere, AreFresh, AreMoreReasons, HasCertificates, IsSameSearch, IsSearch, IsTrial, IsTrialReason, kinds_in, kinds_with, slots_in};

use crate::cache::{SlotCache, Trial};
use crate::candidates::{candidate, kinds_taken, last_places};
use crate::cause::Cause;
use crate::findings::Findings;
use crate::partners::meets;
use crate::problem::Problem;
use crate::reasons::PhaseReason;
use comm_system::phase::Phase;
use comm_system::slot::Slot;
use comm_system::slot_list::slots;
use farkas_cert::Certificate;
use maker_anchors::places::item_at;
use maker_candidates::all_candidates;
use nest_tree::Listed;
use std::alloc::{AllocError, Global};
use sync_plan::Kind;

/// The phases of a plan, the kinds that stand in front of them, each by its place among its
/// candidates, and the slots of the plan with accesses that conflict, with what is known of them.
#[derive(Drop)]
pub(crate) struct Search<'b, 'a> {
    problem: Problem<'b>,
    phases: &'b [Phase<'a>],
    candidates: Vec<Listed<Kind>>,
    slots: Vec<SlotCache<'b, 'a>>,
    findings: Findings,
    taken: Vec<usize>,
}

// These slots of these phases, without a verdict, as far as they have accesses that conflict.
fn slot_caches<'b, 'a>(
    alloc: Global,
    phases: &[Phase],
    slots: &[Slot<'b, 'a>],
) -> Result<Vec<SlotCache<'b, 'a>>, AllocError>
    requires { length phases.now < 2 ^ 20 }
    ensures { IfOk result (λ found. AreFresh (map phase_seen phases.now)
        (map slot_seen slots.now) found.items) }
{
    let mut found = Vec::new(alloc);
    for slot in slots {
        if meets(slot) {
            found.push(SlotCache::new(alloc, phases, *slot)?)?;
        }
    }
    Ok(found)
}

// How many Outer loops stand round a phase.
fn depth_of(phase: &Phase) -> usize {
    phase.text.outer.as_slice().len()
}

// How many Outer loops stand round the deepest of these phases.
fn greatest_depth(phases: &[Phase]) -> usize {
    let mut greatest = 0;
    for phase in phases {
        greatest = greatest.max(depth_of(phase));
    }
    greatest
}

impl<'b, 'a> Search<'b, 'a> {
    /// At first a barrier, the last candidate, stands in front of each phase.
    pub(crate) fn new(
        alloc: Global,
        problem: Problem<'b>,
        phases: &'b [Phase<'a>],
        findings: Findings,
    ) -> Result<Self, AllocError>
        requires some { 1 ≤ problem.plan.now.workers }
        requires phases { map phase_seen phases.now
            ≡ phases_of (tree_of problem.program.now) problem.plan.now.cut.marks }
        requires few { length phases.now < 2 ^ 20 }
        ensures search { IfOk result IsSearch }
        ensures problem { IfOk result (λ s. s.problem ≡ problem.entry) }
        ensures slots { IfOk result (λ s. slots_in s
            ≡ filter meets
            (slots_of
            (phases_of (tree_of problem.entry.program.now) problem.entry.plan.now.cut.marks))) }
    {
        let all = slots(alloc, phases)?;
        let slots = slot_caches(alloc, phases, all.as_slice())?;
        let candidates = all_candidates(alloc, problem.program, problem.plan, phases)?;
        let taken = last_places(alloc, candidates.as_slice())?;
        Ok(Search {
            problem,
            phases,
            candidates,
            slots,
            findings,
            taken,
        })
    }

    // The kinds where this phase, by its place from 0, has the candidate at this place.
    fn kinds_with(&self, alloc: Global, phase: usize, place: usize) -> Result<Vec<Kind>, AllocError>
        requires { phase < length self.now.taken.items }
        ensures { IfOk result (λ kinds. kinds.items
            ≡ kinds_with self.now (record { phase = phase; place = place })) }
    {
        let mut taken = Vec::from_slice(alloc, self.taken.as_slice())?;
        taken[phase] = place;
        kinds_taken(alloc, self.candidates.as_slice(), taken.as_slice())
    }

    // The first system of the slots that is kept under other kinds, if any.
    fn try_kinds(&mut self, alloc: Global, trial: Trial) -> Result<Option<Cause>, AllocError>
        requires search { IsSearch self.old }
        requires places { IsTrue (list_all has_places_in trial.kinds.now) }
        requires elsewhere { AreElsewhere trial.phase trial.kinds.now (kinds_in self.old) }
        ensures search { OnOk result (IsSearch self.new) }
        ensures same { OnOk result (IsSameSearch self.old self.new) }
        ensures taken { OnOk result (self.new.taken.items ≡ self.old.taken.items) }
        ensures trial { IfOk result (IsTrial self.new trial.entry.phase trial.entry.kinds.now) }
    {
        for place in 0..self.slots.len() {
            let slot = &mut self.slots[place];
            let findings = &mut self.findings;
            if let Some(cause) = slot.try_kinds(alloc, self.problem, trial, findings)? {
                return Ok(Some(cause));
            }
        }
        Ok(None)
    }

    // The first system that is kept where this phase has the candidate at this place.
    fn ask_with(
        &mut self,
        alloc: Global,
        phase: usize,
        place: usize,
    ) -> Result<Option<Cause>, AllocError>
        requires search { IsSearch self.old }
        requires phase { phase < length self.old.taken.items }
        ensures search { OnOk result (IsSearch self.new) }
        ensures same { OnOk result (IsSameSearch self.old self.new) }
        ensures taken { OnOk result (self.new.taken.items ≡ self.old.taken.items) }
        ensures trial { IfOk result
            (IsTrial self.new (phase + 1)
            (kinds_with self.old (record { phase = phase; place = place }))) }
    {
        let kinds = self.kinds_with(alloc, phase, place)?;
        let trial = Trial {
            phase: phase as u32 + 1,
            kinds: kinds.as_slice(),
        };
        self.try_kinds(alloc, trial)
    }

    // Whether a weaker candidate of this phase is taken: the first with which each system of the slots
    // has a good certificate. Where none is, each has its reason.
    fn settle(
        &mut self,
        alloc: Global,
        phase: usize,
        reasons: &mut Vec<PhaseReason>,
    ) -> Result<bool, AllocError>
        requires search { IsSearch self.old }
        requires phase { phase < length self.old.taken.items }
        ensures search { OnOk result (IsSearch self.new) }
        ensures same { OnOk result (IsSameSearch self.old self.new) }
        ensures taken { IfOk result (λ changed. changed ≡ false
            → self.new.taken.items ≡ self.old.taken.items) }
        ensures weaker { IfOk result (λ changed. changed ≡ true
            → sum self.new.taken.items < sum self.old.taken.items) }
        ensures reasons { IfOk result (λ changed. changed ≡ false
            → AreMoreReasons self.old
            (weaker_at phase (slice_index_or self.old.taken.items phase 0)) reasons.old.items
            reasons.new.items) }
    {
        for place in 0..self.taken[phase] {
            match self.ask_with(alloc, phase, place)? {
                None => {
                    self.taken[phase] = place;
                    return Ok(true);
                }
                Some(cause) => reasons.push(PhaseReason {
                    phase: phase as u32 + 1,
                    kind: candidate(alloc, self.candidates.as_slice(), phase, place)?,
                    cause,
                })?,
            }
        }
        Ok(false)
    }

    // A pass over the phases: the reasons, where it changed nothing.
    fn pass(&mut self, alloc: Global) -> Result<Option<Vec<PhaseReason>>, AllocError>
        requires { IsSearch self.old }
        ensures search { OnOk result (IsSearch self.new) }
        ensures same { OnOk result (IsSameSearch self.old self.new) }
        ensures weaker { IfOk result (λ o. o ≡ None
            → sum self.new.taken.items < sum self.old.taken.items) }
        ensures reasons { IfOk result
            (λ o. IfSome o (λ reasons. AllZip (IsTrialReason self.new)
            (weaker_from 0 self.new.taken.items) reasons.items)) }
    {
        let mut reasons = Vec::new(alloc);
        let mut changed = false;
        for phase in 0..self.taken.len() {
            if self.settle(alloc, phase, &mut reasons)? {
                changed = true;
            }
        }
        if changed { Ok(None) } else { Ok(Some(reasons)) }
    }

    // Whether a phase, by its place from 0, has more than so many Outer loops round it.
    fn is_deeper(&self, phase: usize, depth: usize) -> bool {
        match item_at(self.phases, phase) {
            Some(phase) => depth < depth_of(phase),
            None => false,
        }
    }

    // The same of a phase with more than so many Outer loops round it; of another one nothing is taken.
    fn settle_inside(
        &mut self,
        alloc: Global,
        phase: usize,
        depth: usize,
    ) -> Result<bool, AllocError>
        requires search { IsSearch self.old }
        requires phase { phase < length self.old.taken.items }
        ensures search { OnOk result (IsSearch self.new) }
        ensures same { OnOk result (IsSameSearch self.old self.new) }
        ensures taken { IfOk result (λ changed. changed ≡ false
            → self.new.taken.items ≡ self.old.taken.items) }
        ensures weaker { IfOk result (λ changed. changed ≡ true
            → sum self.new.taken.items < sum self.old.taken.items) }
    {
        if !self.is_deeper(phase, depth) {
            return Ok(false);
        }
        let mut reasons = Vec::new(alloc);
        self.settle(alloc, phase, &mut reasons)
    }

    // A pass over the phases with more than so many Outer loops round them: whether it changed
    // anything.
    fn pass_inside(&mut self, alloc: Global, depth: usize) -> Result<bool, AllocError>
        requires { IsSearch self.old }
        ensures search { OnOk result (IsSearch self.new) }
        ensures same { OnOk result (IsSameSearch self.old self.new) }
        ensures weaker { IfOk result (λ changed. changed ≡ true
            → sum self.new.taken.items < sum self.old.taken.items) }
    {
        let mut changed = false;
        for phase in 0..self.taken.len() {
            if self.settle_inside(alloc, phase, depth)? {
                changed = true;
            }
        }
        Ok(changed)
    }

    // Such passes until one changes nothing.
    fn settle_all_inside(&mut self, alloc: Global, depth: usize) -> Result<(), AllocError>
        requires { IsSearch self.old }
        ensures search { OnOk result (IsSearch self.new) }
        ensures same { OnOk result (IsSameSearch self.old self.new) }
    {
        loop {
            if !self.pass_inside(alloc, depth)? {
                return Ok(());
            }
        }
    }

    // The deepest phases first, and then those with fewer and fewer Outer loops round them too.
    fn settle_by_depth(&mut self, alloc: Global) -> Result<(), AllocError>
        requires { IsSearch self.old }
        ensures search { OnOk result (IsSearch self.new) }
        ensures same { OnOk result (IsSameSearch self.old self.new) }
    {
        for depth in (0..greatest_depth(self.phases)).rev() {
            self.settle_all_inside(alloc, depth)?;
        }
        Ok(())
    }

    /// Passes over the deepest phases first, and then over all until one changes nothing: its reasons.
    /// Each change takes an earlier candidate, so they end.
    pub(crate) fn settle_all(&mut self, alloc: Global) -> Result<Vec<PhaseReason>, AllocError>
        requires { IsSearch self.old }
        ensures search { OnOk result (IsSearch self.new) }
        ensures same { OnOk result (IsSameSearch self.old self.new) }
        ensures reasons { IfOk result (λ reasons. AllZip (IsTrialReason self.new)
            (weaker_from 0 self.new.taken.items) reasons.items) }
    {
        self.settle_by_depth(alloc)?;
        loop {
            if let Some(reasons) = self.pass(alloc)? {
                return Ok(reasons);
            }
        }
    }

    /// The kinds that are taken, and the certificates of the slots' systems under them behind these.
    pub(crate) fn finish(
        self,
        alloc: Global,
        certificates: Vec<Certificate>,
    ) -> Result<(Vec<Kind>, Vec<Certificate>), AllocError>
        requires { IsSearch self }
        ensures kinds { IfOk result (λ found. found.0.items ≡ kinds_in self.entry) }
        ensures certificates { IfOk result
            (λ found. HasCertificates self.entry certificates.items found.1.items) }
    {
        let Search {
            problem,
            candidates,
            slots,
            taken,
            ..
        } = self;
        let kinds = kinds_taken(alloc, candidates.as_slice(), taken.as_slice())?;
        let mut all = certificates;
        for slot in slots {
            let mut more = slot.into_certificates(alloc, problem, kinds.as_slice())?;
            all.append(&mut more)?;
        }
        Ok((kinds, all))
    }
}
