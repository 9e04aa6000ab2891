// The groups of a plan.

ghost use Rattle.std.specs.Prelude.{◌≡◌, ◌+◌, ◌<◌, ◌≤◌, ◌^◌, [], ◌∷◌, IfErr, IfOk, IsTrue, None, OnOk, length, map};
ghost use Rattle.std.specs.List.{filter, flat_map, list_all};
ghost use Rattle.nest_tree.specs.View.{tree_of};
ghost use Rattle.sync_plan.specs.Shape.{wrong_field};
ghost use Rattle.comm_system.specs.GroupViews.{listed_seen, paired};
ghost use Rattle.comm_system.specs.KeptViews.{kept_seen};
ghost use Rattle.comm_system.specs.Obligations.{slot_signature as signature_under};
ghost use Rattle.conflict_rules.specs.Conflicts.{conflict};
ghost use Rattle.comm_system.specs.Pairs.{pairs_within};
ghost use Rattle.comm_system.specs.PhaseViews.{phase_seen};
ghost use Rattle.conflict_rules.specs.References.{phases_of};
ghost use Rattle.conflict_rules.specs.Seen.{reference_seen};
ghost use Rattle.comm_system.specs.Signatures.{has_places_in, waits as waits_of};
ghost use Rattle.conflict_rules.specs.SideViews.{producer_seen};
ghost use Rattle.comm_system.specs.SlotViews.{slot_seen};
ghost use Rattle.comm_system.specs.Subjects.{count_about, groups_of, of_trips, slot_subjects, trips_subjects, with_subject, with_subjects};
ghost use Rattle.comm_system.specs.SubjectViews.{subject_at, subject_seen};

use crate::group::Group;
use crate::own::{Kept, all, shared, shown};
use crate::phase::Phase;
use crate::signature::{Signature, slot_signature};
use crate::slot::Slot;
use crate::slot_list::slots;
use crate::subject::{Scene, Subject};
use crate::waits::Waits;
use conflict_rules::conflict::are_conflicting;
use conflict_rules::reference::Reference;
use nest_tree::Program;
use owner_partition::Cut;
use std::alloc::{AllocError, Global};
use sync_plan::Plan;

/// Groups in order, and the number of the first system behind them.
#[derive(Drop)]
pub struct Groups<'b, 'a, 'p> {
    pub items: Vec<Group<'b, 'a, 'p>>,
    pub next: u64,
}

impl<'b, 'a, 'p> Groups<'b, 'a, 'p> {
    // The number behind the systems of one subject more. Where it passes 64 bits there is no room.
    fn behind(&self, subject: &Subject) -> Result<u64, AllocError>
        ensures number { IfOk result (λ next. next
            ≡ self.now.next + count_about (subject_seen subject.now)) }
        ensures only { IfErr result (λ _. 2 ^ 64 ≤ self.now.next + count_about
            (subject_seen subject.now)) }
    {
        match self.next.checked_add(subject.count()) {
            Some(next) => Ok(next),
            None => Err(AllocError),
        }
    }

    // One subject more, unless the systems before it pass a number.
    pub(crate) fn add(&mut self, most: u64, subject: Subject<'b, 'a, 'p>) -> Result<(), AllocError>
        ensures { OnOk result (listed_seen self.new ≡ with_subject most (listed_seen self.old)
            (subject_seen subject.entry)) }
    {
        if self.next > most {
            return Ok(());
        }
        let number = self.next;
        let next = self.behind(&subject)?;
        self.items.push(Group { number, subject })?;
        self.next = next;
        Ok(())
    }

    // A pair of accesses, if they conflict.
    fn add_pair(
        &mut self,
        alloc: Global,
        most: u64,
        scene: Scene<'_, 'b, 'a, 'p>,
        a: &'b Reference<'a>,
        b: &'b Reference<'a>,
    ) -> Result<(), AllocError>
        ensures { OnOk result (listed_seen self.new ≡ with_subjects most (listed_seen self.old)
            (map (subject_at scene.entry) (map (paired (reference_seen a.entry.now))
            (filter (conflict (reference_seen a.entry.now)) (reference_seen b.entry.now ∷ []))))) }
    {
        if are_conflicting(a, b) {
            self.add(most, scene.subject(alloc, a, b)?)
        } else {
            Ok(())
        }
    }

    // The pairs of an access with those of these that conflict with it.
    fn add_partners(
        &mut self,
        alloc: Global,
        most: u64,
        scene: Scene<'_, 'b, 'a, 'p>,
        a: &'b Reference<'a>,
        seconds: &[Kept<'b, 'a>],
    ) -> Result<(), AllocError>
        ensures { OnOk result (listed_seen self.new ≡ with_subjects most (listed_seen self.old)
            (map (subject_at scene.entry) (map (paired (reference_seen a.entry.now))
            (filter (conflict (reference_seen a.entry.now)) (map kept_seen seconds.now))))) }
    {
        for &b in seconds {
            if self.next > most {
                return Ok(());
            }
            self.add_pair(alloc, most, scene, a, b.reference)?;
        }
        Ok(())
    }

    // The pairs of two phases' accesses that conflict.
    fn add_pairs(
        &mut self,
        alloc: Global,
        most: u64,
        scene: Scene<'_, 'b, 'a, 'p>,
        firsts: &[Kept<'b, 'a>],
        seconds: &[Kept<'b, 'a>],
    ) -> Result<(), AllocError>
        ensures { OnOk result (listed_seen self.new ≡ with_subjects most (listed_seen self.old)
            (map (subject_at scene.entry)
            (flat_map (λ a. map (paired a) (filter (conflict a) (map kept_seen seconds.now)))
            (map kept_seen firsts.now)))) }
    {
        for &a in firsts {
            if self.next > most {
                return Ok(());
            }
            self.add_partners(alloc, most, scene, a.reference, seconds)?;
        }
        Ok(())
    }

    // Two trips of a phase, if its trips are dealt.
    fn add_trips(
        &mut self,
        alloc: Global,
        plan: &Plan,
        most: u64,
        phase: &'b Phase<'a>,
    ) -> Result<(), AllocError>
        ensures { OnOk result (listed_seen self.new ≡ with_subjects most (listed_seen self.old)
            (trips_subjects plan.now (phase_seen phase.entry.now))) }
    {
        if !plan.cut.is_dealt(phase.text.item) {
            return Ok(());
        }
        self.add_phase(alloc, &plan.cut, most, phase)
    }

    // Two trips of a phase.
    fn add_phase(
        &mut self,
        alloc: Global,
        cut: &Cut,
        most: u64,
        phase: &'b Phase<'a>,
    ) -> Result<(), AllocError>
        ensures { OnOk result (listed_seen self.new ≡ with_subjects most (listed_seen self.old)
            (map (of_trips (phase_seen phase.entry.now))
            (pairs_within cut.now (phase_seen phase.entry.now)))) }
    {
        let firsts = shared(alloc, cut, phase)?;
        let seconds = all(alloc, phase)?;
        self.add_pairs(
            alloc,
            most,
            Scene::Trips(phase),
            firsts.as_slice(),
            seconds.as_slice(),
        )
    }

    // A slot with what the second instance waits for.
    fn add_waits(
        &mut self,
        alloc: Global,
        cut: &Cut,
        most: u64,
        slot: Slot<'b, 'a>,
        waits: &Waits<'p>,
    ) -> Result<(), AllocError>
        ensures { OnOk result (listed_seen self.new ≡ with_subjects most (listed_seen self.old)
            (slot_subjects cut.now (slot_seen slot.entry) (waits_of waits.now.left waits.now.right
            (map producer_seen waits.now.producers.items)))) }
    {
        let (first, second) = (slot.first, slot.second);
        let firsts = shown(alloc, cut, first)?;
        let seconds = shown(alloc, cut, second)?;
        self.add_pairs(
            alloc,
            most,
            Scene::Slot(slot, waits),
            firsts.as_slice(),
            seconds.as_slice(),
        )
    }

    // A slot, unless a barrier stands there.
    fn add_slot(
        &mut self,
        alloc: Global,
        plan: &'p Plan,
        phases: &[Phase],
        most: u64,
        slot: Slot<'b, 'a>,
    ) -> Result<(), AllocError>
        requires places { IsTrue (list_all has_places_in plan.now.kinds) }
        requires few { length phases.now < 2 ^ 20 }
        ensures { OnOk result (listed_seen self.new ≡ with_subjects most (listed_seen self.old)
            (slot_subjects plan.entry.now.cut (slot_seen slot.entry)
            (signature_under plan.entry.now.version plan.entry.now.kinds (map phase_seen phases.now)
            (slot_seen slot.entry)))) }
    {
        if self.next > most {
            return Ok(());
        }
        match slot_signature(alloc, plan.version, plan.kinds.as_slice(), phases, &slot)? {
            Signature::Blocked => Ok(()),
            Signature::Waits(waits) => self.add_waits(alloc, &plan.cut, most, slot, &waits),
        }
    }

    // Two trips of each phase whose trips are dealt.
    fn add_all_trips(
        &mut self,
        alloc: Global,
        plan: &Plan,
        most: u64,
        phases: &'b [Phase<'a>],
    ) -> Result<(), AllocError>
        ensures { OnOk result (listed_seen self.new ≡ with_subjects most (listed_seen self.old)
            (flat_map (trips_subjects plan.now) (map phase_seen phases.entry.now))) }
    {
        for phase in phases {
            self.add_trips(alloc, plan, most, phase)?;
        }
        Ok(())
    }

    // These slots.
    fn add_all_slots(
        &mut self,
        alloc: Global,
        plan: &'p Plan,
        phases: &[Phase],
        most: u64,
        slots: &[Slot<'b, 'a>],
    ) -> Result<(), AllocError>
        requires places { IsTrue (list_all has_places_in plan.now.kinds) }
        requires few { length phases.now < 2 ^ 20 }
        ensures { OnOk result (listed_seen self.new ≡ with_subjects most (listed_seen self.old)
            (flat_map (λ slot. slot_subjects plan.entry.now.cut slot
            (signature_under plan.entry.now.version plan.entry.now.kinds
            (map phase_seen phases.now) slot)) (map slot_seen slots.now))) }
    {
        for &slot in slots {
            self.add_slot(alloc, plan, phases, most, slot)?;
        }
        Ok(())
    }
}

/// The groups of a plan with these static phases, in order, whose first systems have at most this
/// number. Those behind them are not made.
pub fn list_groups<'b, 'a, 'p>(
    alloc: Global,
    program: &Program,
    plan: &'p Plan,
    phases: &'b [Phase<'a>],
    most: u64,
) -> Result<Groups<'b, 'a, 'p>, AllocError>
    requires shape { wrong_field (tree_of program.now) plan.now ≡ None }
    requires phases { map phase_seen phases.now
        ≡ phases_of (tree_of program.now) plan.now.cut.marks }
    requires few { length phases.now < 2 ^ 20 }
    ensures { IfOk result (λ found. listed_seen found
        ≡ groups_of (tree_of program.now) plan.entry.now most) }
{
    let mut found = Groups {
        items: Vec::new(alloc),
        next: 1,
    };
    let slots = slots(alloc, phases)?;
    found.add_all_trips(alloc, plan, most, phases)?;
    found.add_all_slots(alloc, plan, phases, most, slots.as_slice())?;
    found.add_all_paths(&plan.cut, most, phases)?;
    Ok(found)
}

/// The groups of two trips of a phase, from this number on, whose first systems have at most a
/// number.
pub fn phase_groups<'b, 'a, 'p>(
    alloc: Global,
    cut: &Cut,
    most: u64,
    phase: &'b Phase<'a>,
    number: u64,
) -> Result<Groups<'b, 'a, 'p>, AllocError>
    ensures { IfOk result (λ found. listed_seen found
        ≡ with_subjects most (record { groups = []; next = number })
        (map (of_trips (phase_seen phase.entry.now))
        (pairs_within cut.now (phase_seen phase.entry.now)))) }
{
    let mut found = Groups {
        items: Vec::new(alloc),
        next: number,
    };
    found.add_phase(alloc, cut, most, phase)?;
    Ok(found)
}

/// The groups of a slot under these waits, from this number on, whose first systems have at most a
/// number.
pub fn slot_groups<'b, 'a, 'p>(
    alloc: Global,
    cut: &Cut,
    most: u64,
    slot: Slot<'b, 'a>,
    waits: &Waits<'p>,
    number: u64,
) -> Result<Groups<'b, 'a, 'p>, AllocError>
    ensures { IfOk result (λ found. listed_seen found
        ≡ with_subjects most (record { groups = []; next = number })
        (slot_subjects cut.now (slot_seen slot.entry) (waits_of waits.now.left waits.now.right
        (map producer_seen waits.now.producers.items)))) }
{
    let mut found = Groups {
        items: Vec::new(alloc),
        next: number,
    };
    found.add_waits(alloc, cut, most, slot, waits)?;
    Ok(found)
}
