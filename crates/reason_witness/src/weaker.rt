// The obligations of a plan with a weaker wait in front of a phase.

ghost use Rattle.std.specs.Prelude.{◌≡◌, ◌-◌, ◌<◌, ◌^◌, IfOk, IsTrue, None, false, length, map, slice_set, true};
ghost use Rattle.std.specs.List.{Contains, list_all};
ghost use Rattle.nest_tree.specs.View.{tree_of};
ghost use Rattle.sync_plan.specs.Shape.{wrong_field};
ghost use Rattle.comm_system.specs.Obligations.{numbered_from, slot_signature as signature_under, slot_tasks, tasks_of};
ghost use Rattle.comm_system.specs.PhaseViews.{phase_seen};
ghost use Rattle.comm_system.specs.SideViews.{producer_seen};
ghost use Rattle.comm_system.specs.Signatures.{has_places_in};
ghost use Rattle.comm_system.specs.SlotViews.{slot_seen};
ghost use Rattle.plan_checker.specs.Accepted.{IsAccepted};
ghost use Rattle.reason_witness.specs.Findings.{IsSearched, IsSearchedUnder};
ghost use Rattle.plan_maker.specs.Caches.{waits_seen};
ghost use Rattle.reason_witness.specs.Plans.{AreSlotsOf, tasks_at, with_kinds};

use crate::account::Reason;
use crate::found::{Found, Planned, Wanted};
use comm_system::groups::slot_groups;
use comm_system::phase::Phase;
use comm_system::producer::Producer;
use comm_system::signature::{Signature, slot_signature};
use comm_system::slot::Slot;
use comm_system::waits::Waits;
use nest_tree::Program;
use std::alloc::{AllocError, Global};
use sync_plan::{Kind, Plan};

/// These kinds, with another one in front of the static phase with a number from 1.
pub(crate) fn kinds_with(
    alloc: Global,
    kinds: &[Kind],
    phase: u32,
    kind: &Kind,
) -> Result<Vec<Kind>, AllocError>
    ensures { IfOk result (λ made. made.items ≡ slice_set kinds.now (phase - 1) kind.now) }
{
    let place = (phase as usize).saturating_sub(1);
    let mut made = Vec::new(alloc);
    for given in kinds {
        made.push(given.copy(alloc)?)?;
    }
    if place < made.len() {
        made[place] = kind.copy(alloc)?;
    }
    Ok(made)
}

/// A program and a plan of its shape, with its static phases and their slots.
#[derive(Clone, Copy)]
pub(crate) struct Ground<'k, 'b, 'a> {
    pub(crate) program: &'a Program,
    pub(crate) plan: &'b Plan,
    pub(crate) phases: &'b [Phase<'a>],
    pub(crate) slots: &'b [Slot<'b, 'a>],
    /// Reasons whose whole solutions are tried first.
    pub(crate) known: &'k [Reason],
    /// The pair of accesses of a slot from which on obligations are looked at, from 0.
    pub(crate) first_pair: u64,
    /// Whether all obligations are looked at, and not only those where what is looked for may stand.
    pub(crate) is_whole: bool,
    ghost shape: { wrong_field (tree_of program.now) plan.now ≡ None },
    ghost few: { length phases.now < 2 ^ 20 },
}

// Whether an access of a phase stands in this line.
fn has_line(phase: &Phase, line: u32) -> bool {
    phase
        .references
        .iter()
        .any(|reference| reference.line == line)
}

// Whether a producer is another one.
fn is_same(one: &Producer, other: &Producer) -> bool
    ensures { IsTrue result → producer_seen one.now ≡ producer_seen other.now }
{
    one.anchor.is_same(other.anchor) && one.side == other.side
}

// Whether these are the same producers.
fn are_same(these: &[Producer], those: &[Producer]) -> bool
    ensures { IsTrue result → map producer_seen these.now ≡ map producer_seen those.now }
{
    match these {
        [] => those.is_empty(),
        [one, these @ ..] => match those {
            [] => false,
            [other, those @ ..] => is_same(one, other) && are_same(these, those),
        },
    }
}

// Whether two waits are the same.
fn are_alike(these: &Waits, those: &Waits) -> bool
    ensures { IsTrue result → waits_seen these.now ≡ waits_seen those.now }
{
    these.left == those.left
        && these.right == those.right
        && are_same(these.producers.as_slice(), those.producers.as_slice())
}

impl Ground<'_, '_, '_> {
    // Whether a slot is looked at: where not all are, that it is rests on nothing.
    fn looks_between(&self, slot: &Slot, wanted: &Wanted) -> bool
        ensures { IsTrue self.now.is_whole → IsTrue result }
    {
        self.is_whole || may_stand_between(slot, wanted)
    }

    // Whether the plan's own kinds show other waits at a slot than these.
    fn is_changed(&self, alloc: Global, slot: &Slot, waits: &Waits) -> Result<bool, AllocError>
        ensures { IfOk result (λ is_changed. is_changed ≡ false
            → waits_seen waits.now
            ≡ signature_under self.now.plan.now.version self.now.plan.now.kinds
            (map phase_seen self.now.phases.now) (slot_seen slot.now)) }
    {
        let kinds = self.plan.kinds.as_slice();
        match slot_signature(alloc, self.plan.version, kinds, self.phases, slot)? {
            Signature::Blocked => Ok(true),
            Signature::Waits(given) => Ok(!are_alike(waits, &given)),
        }
    }

    // Whether an obligation of a slot under these waits may have no certificate in the plan: of one
    // that a reason names none is asked.
    fn may_be_new(
        &self,
        alloc: Global,
        slot: &Slot,
        waits: &Waits,
        wanted: &Wanted,
    ) -> Result<bool, AllocError>
        ensures { IfOk result (λ is_new. is_new ≡ false
            → waits_seen waits.now
            ≡ signature_under self.now.plan.now.version self.now.plan.now.kinds
            (map phase_seen self.now.phases.now) (slot_seen slot.now)) }
    {
        match wanted {
            Wanted::First => self.is_changed(alloc, slot, waits),
            Wanted::Named(_) | Wanted::Number(_) => Ok(true),
        }
    }

    // Of the obligations of a slot under these waits the one that is looked for.
    fn found_at(
        &self,
        alloc: Global,
        slot: &Slot,
        waits: &Waits,
        wanted: &Wanted,
    ) -> Result<Option<Found>, AllocError>
        ensures { IfOk result
            (IsSearched self.now.is_whole
            (numbered_from 1 (slot_tasks (tree_of self.now.program.now) self.now.plan.now
            (slot_seen slot.now) (waits_seen waits.now))) wanted.now) }
    {
        let groups = slot_groups(alloc, &self.plan.cut, u64::MAX, *slot, waits, 1)?;
        let planned = Planned {
            program: self.program,
            plan: self.plan,
            known: self.known,
            first_pair: self.first_pair,
            is_whole: self.is_whole,
        };
        planned.found_among(alloc, groups.items.as_slice(), wanted)
    }

    // Of the obligations of a slot under these kinds the one that is looked for.
    fn found_beside(
        &self,
        alloc: Global,
        kinds: &[Kind],
        slot: &Slot,
        wanted: &Wanted,
    ) -> Result<Option<Found>, AllocError>
        requires places { IsTrue (list_all has_places_in kinds.now) }
        requires slots { AreSlotsOf
            (tree_of self.now.program.now) self.now.plan.now self.now.phases.now
            self.now.slots.now }
        requires there { Contains self.now.slots.now slot.now }
        requires accepted { IsAccepted (tree_of self.now.program.now) self.now.plan.now }
        ensures { IfOk result
            (IsSearchedUnder self.now.is_whole
            (tasks_at (tree_of self.now.program.now) self.now.plan.now kinds.now
            (slot_seen slot.now)) wanted.now) }
    {
        if !self.looks_between(slot, wanted) {
            return Ok(None);
        }
        match slot_signature(alloc, self.plan.version, kinds, self.phases, slot)? {
            Signature::Blocked => Ok(None),
            Signature::Waits(waits) => {
                if self.may_be_new(alloc, slot, &waits, wanted)? {
                    self.found_at(alloc, slot, &waits, wanted)
                } else {
                    Ok(None)
                }
            }
        }
    }

    // Of the obligations at the slots of the plan with these kinds the one that is looked for.
    fn found_once(
        &self,
        alloc: Global,
        kinds: &[Kind],
        wanted: &Wanted,
    ) -> Result<Option<Found>, AllocError>
        requires places { IsTrue (list_all has_places_in kinds.now) }
        requires slots { AreSlotsOf
            (tree_of self.now.program.now) self.now.plan.now self.now.phases.now
            self.now.slots.now }
        requires accepted { IsAccepted (tree_of self.now.program.now) self.now.plan.now }
        ensures { IfOk result
            (IsSearchedUnder self.now.is_whole (tasks_of (tree_of self.now.program.now)
            (with_kinds self.now.plan.now kinds.now)) wanted.now) }
    {
        for slot in self.slots {
            let found = self.found_beside(alloc, kinds, slot, wanted)?;
            if found.is_some() {
                return Ok(found);
            }
        }
        Ok(None)
    }

    /// Of the obligations of the plan with these kinds the one that is looked for: where it may stand,
    /// and then anywhere. An error says that memory ran out.
    pub(crate) fn found_under(
        &self,
        alloc: Global,
        kinds: &[Kind],
        wanted: &Wanted,
    ) -> Result<Option<Found>, AllocError>
        requires places { IsTrue (list_all has_places_in kinds.now) }
        requires slots { AreSlotsOf
            (tree_of self.now.program.now) self.now.plan.now self.now.phases.now
            self.now.slots.now }
        requires accepted { IsAccepted (tree_of self.now.program.now) self.now.plan.now }
        ensures { IfOk result
            (IsSearchedUnder true (tasks_of (tree_of self.now.program.now)
            (with_kinds self.now.plan.now kinds.now)) wanted.now) }
    {
        if let Wanted::Named(_) = wanted {
            let found = self.found_once(alloc, kinds, wanted)?;
            if found.is_some() {
                return Ok(found);
            }
        }
        let whole = Ground {
            program: self.program,
            plan: self.plan,
            phases: self.phases,
            slots: self.slots,
            known: self.known,
            first_pair: 0,
            is_whole: true,
        };
        whole.found_once(alloc, kinds, wanted)
    }
}

// Whether accesses of a slot's phases stand in the lines that are looked for.
fn may_stand_between(slot: &Slot, wanted: &Wanted) -> bool {
    match wanted {
        Wanted::Named(cause) => {
            slot.level == cause.level
                && has_line(slot.first, cause.lines.0)
                && has_line(slot.second, cause.lines.1)
        }
        Wanted::First | Wanted::Number(_) => true,
    }
}
