// The systems of a pair of accesses in two phases, one at a time or all.

ghost use Rattle.std.specs.Prelude.{◌≡◌, ◌+◌, ◌-◌, ◌<◌, ◌≤◌, ◌^◌, IfOk, None, length, map};
ghost use Rattle.farkas_cert.specs.Narrow.{AreNarrow};
ghost use Rattle.nest_tree.specs.View.{tree_of};
ghost use Rattle.sync_plan.specs.Shape.{wrong_field};
ghost use Rattle.comm_system.specs.Obligations.{numbered_from, pair_tasks};
ghost use Rattle.comm_system.specs.OwnerRows.{pieces as pieces_of};
ghost use Rattle.comm_system.specs.Seen.{pair_of};
ghost use Rattle.conflict_rules.specs.SideViews.{producer_seen};
ghost use Rattle.comm_system.specs.SlotViews.{slot_seen};
ghost use Rattle.comm_system.specs.Owned.{HasOwners};

use crate::obligation::{Obligation, Topic};
use crate::pair_systems::{Shared, make_shared, push_last, range};
use crate::pieces::{Piece, pieces};
use crate::slot::Slot;
use crate::waits::Waits;
use conflict_rules::reference::Reference;
use nest_systems::GrowingSystem;
use nest_tree::Program;
use presolve::Presolved;
use std::alloc::{AllocError, Global};
use sync_plan::Plan;

/// The obligations of two accesses in the phases of a slot, made one at a time: each takes the
/// place of the one before, with the memory of the rows that all of them share.
#[derive(Drop)]
pub struct PairSystems<'w, 'p> {
    waits: &'w Waits<'p>,
    owners: Vec<u32>,
    pieces: Vec<Piece>,
    // The number of the first.
    number: u64,
    // What the one that was made last speaks of, and its system.
    topic: Topic,
    system: GrowingSystem<'w>,
    ghost few: { length pieces.items ≤ 16 },
    ghost room: { number + length pieces.items < 2 ^ 64 },
    ghost unknowns: { system.shared.vars < 2 ^ 32 - 1 },
    ghost kept: { HasOwners owners.items system },
}

impl<'w, 'p> PairSystems<'w, 'p> {
    ghost use Rattle.std.specs.Prelude.{◌≡◌, ◌+◌, ◌-◌, ◌<◌, ◌≤◌, ◌^◌, IfOk, None, OnErr, OnOk, Some, length, map, slice_get};
    ghost use Rattle.farkas_cert.specs.Narrow.{AreNarrow};
    ghost use Rattle.presolve.specs.Presolution.{IsPresolved, Presolution};
    ghost use Rattle.nest_systems.specs.Widened.{Widens};
    ghost use Rattle.nest_tree.specs.View.{tree_of};
    ghost use Rattle.sync_plan.specs.Shape.{wrong_field};
    ghost use Rattle.comm_system.specs.Obligations.{numbered, numbered_from, owners_of, pair_tasks, shared_task};
    ghost use Rattle.comm_system.specs.OwnerRows.{owners_unknowns, pieces as pieces_of};
    ghost use Rattle.comm_system.specs.Seen.{pair_of};
    ghost use Rattle.conflict_rules.specs.SideViews.{producer_seen};
    ghost use Rattle.comm_system.specs.SlotViews.{slot_seen};
    ghost use Rattle.comm_system.specs.SystemViews.{about, kept_columns, last_made, none_made, obligations_seen};

    /// Those of two accesses in the phases of a slot, from this number on. Of the plan's kinds they
    /// see these waits alone. None is made yet: what stands there has piece 0, and no rows but those
    /// that all share.
    pub fn new(
        alloc: Global,
        program: &'w Program,
        plan: &Plan,
        slot: &Slot,
        waits: &'w Waits<'p>,
        a: &Reference,
        b: &Reference,
        number: u64,
    ) -> Result<Self, AllocError>
        requires shape { wrong_field (tree_of program.now) plan.now ≡ None }
        requires room { number + length (pieces_of (length waits.now.producers.items)) < 2 ^ 64 }
        ensures obligations { IfOk result (λ p. obligations_seen p
            ≡ numbered_from number (pair_tasks (tree_of program.now) plan.now
            (slot_seen slot.now) waits.now.left waits.now.right
            (map producer_seen waits.now.producers.items) (pair_of a.now b.now))) }
        ensures none { IfOk result (λ p. none_made p
            ≡ numbered number (shared_task (tree_of program.now) plan.now
            (slot_seen slot.now) waits.now.left waits.now.right
            (map producer_seen waits.now.producers.items) (pair_of a.now b.now))) }
        ensures first { IfOk result (λ p. last_made p ≡ none_made p) }
        ensures owners { IfOk result (λ p. owners_unknowns (owners_of (tree_of program.now) plan.now
            (slot_seen slot.now) (map producer_seen waits.now.producers.items)
            (pair_of a.now b.now)) ≤ length (kept_columns p)) }
    {
        let Shared {
            system,
            owners,
            owned,
        } = make_shared(alloc, program, plan, slot, waits, a, b)?;
        let pieces = pieces(alloc, waits.producers.len())?;
        let presolved = system.presolved(alloc, owned.as_slice())?;
        Ok(PairSystems {
            waits,
            owners,
            pieces,
            number,
            topic: Topic {
                number,
                lines: (a.line, b.line),
                variable: a.target.variable(),
                level: slot.level,
                piece: 0,
                range: range(waits),
            },
            system: GrowingSystem::new(alloc, system, presolved),
        })
    }

    /// How many there are.
    pub fn count(&self) -> usize
        ensures { result ≡ length (obligations_seen self.now) }
    {
        self.pieces.len()
    }

    /// How many rows all of them share, of those that are left.
    pub fn shared(&self) -> usize
        ensures { (p : Presolution) × IsPresolved (none_made self.now).system p
            × (p.columns ≡ kept_columns self.now) × (length p.numbers ≡ result) }
    {
        self.system.kept()
    }

    /// Makes the one with this index, from 0. Where memory runs out none stands there, as before
    /// the first was made.
    pub fn make(&mut self, alloc: Global, index: usize) -> Result<(), AllocError>
        requires { index < length (obligations_seen self.old) }
        ensures same { obligations_seen self.new ≡ obligations_seen self.old }
        ensures shared { none_made self.new ≡ none_made self.old }
        ensures columns { kept_columns self.new ≡ kept_columns self.old }
        ensures made { OnOk result (slice_get (obligations_seen self.new) index
            ≡ Some (last_made self.new)) }
        ensures none { OnErr result (last_made self.new ≡ none_made self.new) }
    {
        self.topic.number = self.number;
        self.topic.piece = 0;
        self.system.clear(alloc);
        let piece = &self.pieces[index];
        match push_last(
            alloc,
            &mut self.system,
            self.waits,
            self.owners.as_slice(),
            piece,
        ) {
            Ok(()) => {
                self.topic.number = self.number + index as u64;
                self.topic.piece = index as u32 + 1;
                Ok(())
            }
            Err(error) => {
                self.system.clear(alloc);
                Err(error)
            }
        }
    }

    /// What the one that was made last speaks of, where memory didn't run out; else what stood there
    /// before the first.
    pub fn topic(&self) -> Topic
        ensures { about result (last_made self.now).system ≡ last_made self.now }
    {
        self.topic
    }

    /// What is left of its system.
    pub fn presolved(&self) -> &Presolved
        ensures left { IsPresolved (last_made self.now).system result.now }
        ensures widened { Widens (last_made self.now).system result.now }
        ensures columns { result.now.columns ≡ kept_columns self.now }
        ensures few { result.now.system.vars < 2 ^ 32 - 1 }
    {
        self.system.presolved()
    }

    /// It as a whole.
    pub fn obligation(&self, alloc: Global) -> Result<Obligation, AllocError>
        ensures made { IfOk result (λ o. o ≡ last_made self.now) }
        ensures narrow { IfOk result (λ o. AreNarrow o.system.rows) }
        ensures few { IfOk result (λ o. o.system.vars < 2 ^ 32 - 1) }
    {
        let dense = self.system.dense(alloc)?.into_system();
        Ok(self.topic.obligation(dense))
    }
}

// The obligations of two accesses in the phases of a slot, from this number on. Of the plan's kinds
// they see these waits alone.
pub(crate) fn pair_obligations<'a>(
    alloc: Global,
    program: &Program,
    plan: &Plan,
    slot: &Slot,
    waits: &Waits,
    a: &Reference<'a>,
    b: &Reference<'a>,
    number: u64,
) -> Result<Vec<Obligation>, AllocError>
    requires shape { wrong_field (tree_of program.now) plan.now ≡ None }
    requires room { number + length (pieces_of (length waits.now.producers.items)) < 2 ^ 64 }
    ensures { IfOk result (λ found. found.items
        ≡ numbered_from number (pair_tasks (tree_of program.now) plan.now
        (slot_seen slot.now) waits.now.left waits.now.right
        (map producer_seen waits.now.producers.items) (pair_of a.now b.now))) }
{
    let mut systems = PairSystems::new(alloc, program, plan, slot, waits, a, b, number)?;
    let mut found = Vec::with_capacity(alloc, systems.count())?;
    for index in 0..systems.count() {
        systems.make(alloc, index)?;
        found.push(systems.obligation(alloc)?)?;
    }
    Ok(found)
}
