// Obligations that aren't refuted, and what is found of them.

ghost use Rattle.std.specs.Prelude.{◌≡◌, ◌↔◌, [], ◌∷◌, IfOk, IsTrue, None, false, map, true};
ghost use Rattle.std.specs.List.{flat_map};
ghost use Rattle.nest_tree.specs.View.{tree_of};
ghost use Rattle.sync_plan.specs.Shape.{wrong_field};
ghost use Rattle.comm_system.specs.GroupViews.{group_seen};
ghost use Rattle.comm_system.specs.Obligations.{obligations_of};
ghost use Rattle.comm_system.specs.Subjects.{obligations_in};
ghost use Rattle.comm_system.specs.declared.obligation.Obligation.{Obligation as Held};
ghost use Rattle.reason_witness.specs.Findings.{IsCertified, IsFindingOf, IsNamed, IsPassed, IsSearched, IsTaken, IsWanted};
ghost use Rattle.reason_witness.specs.declared.found.Finding.TheVariants.{Refuted};

use crate::account::Reason;
use crate::known::settled;
use crate::meeting::{Witness, witness_of};
use comm_system::Obligation;
use comm_system::group::Group;
use comm_system::groups::list_groups;
use comm_system::phases::phases;
use comm_system::subject::Subject;
use nest_tree::Program;
use plan_maker::cause::Cause;
use quick_elim::{Point, Settled};
use std::alloc::{AllocError, Global};
use sync_plan::Plan;

/// What is found of an obligation.
#[derive(Drop)]
pub enum Finding {
    /// A whole solution of its system, and what it says.
    Solved(Point, Witness),
    /// A certificate that it has none.
    Refuted,
    /// Neither, within the budget.
    Unknown,
}

/// An obligation, and what is found of it.
#[derive(Drop)]
pub struct Found {
    pub obligation: Obligation,
    pub finding: Finding,
    /// Of an obligation at a slot, the place of its two accesses among the pairs there, from 0.
    pub pair: u64,
}

/// Which obligation is looked for.
#[derive(Clone, Copy)]
pub enum Wanted {
    /// The first that isn't refuted.
    First,
    /// The first that isn't refuted of those that a reason names.
    Named(Cause),
    /// The one with this number, from 1.
    Number(u64),
}

impl Wanted {
    // Whether an obligation is one that is looked for.
    fn is(&self, obligation: &Obligation) -> bool
        ensures { IsTrue result ↔ IsWanted self.now obligation.now }
    {
        match self {
            Wanted::First => true,
            Wanted::Named(cause) => is_named(cause, obligation),
            Wanted::Number(number) => obligation.number == *number,
        }
    }

    // Whether one of which this is found is told.
    fn takes(&self, finding: &Finding) -> bool
        ensures taken { IsTrue result → IsTaken self.now finding.now }
        ensures refuted { result ≡ false → finding.now ≡ Refuted }
        ensures passed { (o : Held) → result ≡ false → IsCertified o.system → IsPassed self.now o }
    {
        match finding {
            Finding::Solved(..) | Finding::Unknown => true,
            Finding::Refuted => match self {
                Wanted::Number(_) => true,
                Wanted::First | Wanted::Named(_) => false,
            },
        }
    }

    // Whether a group may have one.
    fn may_stand_in(&self, group: &Group) -> bool {
        match self {
            Wanted::Named(cause) => may_be_named(cause, group),
            Wanted::First | Wanted::Number(_) => true,
        }
    }
}

// Whether an obligation is of the lines, the variable, the level and the piece of a cause.
fn is_named(cause: &Cause, obligation: &Obligation) -> bool
    ensures { IsTrue result ↔ IsNamed cause.now obligation.now }
{
    obligation.lines == cause.lines
        && obligation.variable == cause.variable
        && obligation.level == cause.level
        && obligation.piece == cause.piece
}

// Whether a group speaks of the lines, the variable and the level of a cause.
fn may_be_named(cause: &Cause, group: &Group) -> bool {
    let (level, line, a, b) = match &group.subject {
        Subject::Trips(_, a, b) => (0, a.line, *a, *b),
        Subject::Slot(slot, _, a, b) => (slot.level, a.line, *a, *b),
        Subject::ZeroTrip(inside) => (0, inside.nest().line, inside.store, inside.store),
    };
    line == cause.lines.0
        && b.line == cause.lines.1
        && a.target.variable() == cause.variable
        && level == cause.level
}

// The place of a group's pair of accesses among those of its slot, from 0, where its systems are
// numbered from 1 on.
fn pair_at(group: &Group) -> u64 {
    let before = group.number.saturating_sub(1);
    before.checked_div(group.subject.count()).unwrap_or(0)
}

/// A program and a plan of its shape.
#[derive(Clone, Copy)]
pub(crate) struct Planned<'p> {
    pub(crate) program: &'p Program,
    pub(crate) plan: &'p Plan,
    /// Reasons whose whole solutions are tried first.
    pub(crate) known: &'p [Reason],
    /// The pair of accesses of a slot from which on obligations are looked at, from 0.
    pub(crate) first_pair: u64,
    /// Whether all obligations are looked at, and not only those where what is looked for may stand.
    pub(crate) is_whole: bool,
    ghost shape: { wrong_field (tree_of program.now) plan.now ≡ None },
}

impl Planned<'_> {
    // Whether a group is looked at: where not all are, that it is rests on nothing.
    fn looks_at(&self, group: &Group, wanted: &Wanted) -> bool
        ensures { IsTrue self.now.is_whole → IsTrue result }
    {
        self.is_whole || (self.first_pair <= pair_at(group) && wanted.may_stand_in(group))
    }

    // What is found of an obligation of a group.
    fn finding_of(
        &self,
        alloc: Global,
        group: &Group,
        obligation: &Obligation,
    ) -> Result<Finding, AllocError>
        ensures { IfOk result (IsFindingOf obligation.now) }
    {
        match settled(alloc, self.known, obligation) {
            Ok(Settled::Solved(point)) => {
                let witness = witness_of(alloc, self.program, self.plan, group, point.as_slice())?;
                Ok(Finding::Solved(point, witness))
            }
            Ok(Settled::Refuted(_)) => Ok(Finding::Refuted),
            Ok(Settled::Unknown) => Ok(Finding::Unknown),
            Err(error) => Err(error),
        }
    }

    // An obligation of a group with what is found of it, if it is told.
    fn told(
        &self,
        alloc: Global,
        group: &Group,
        obligation: Obligation,
        wanted: &Wanted,
    ) -> Result<Option<Found>, AllocError>
        ensures { IfOk result (IsSearched true (obligation ∷ []) wanted.now) }
    {
        if !wanted.is(&obligation) {
            return Ok(None);
        }
        let finding = self.finding_of(alloc, group, &obligation)?;
        if wanted.takes(&finding) {
            let pair = pair_at(group);
            Ok(Some(Found {
                obligation,
                finding,
                pair,
            }))
        } else {
            Ok(None)
        }
    }

    // Of the obligations of a group the one that is looked for.
    fn found_in(
        &self,
        alloc: Global,
        group: &Group,
        wanted: &Wanted,
    ) -> Result<Option<Found>, AllocError>
        ensures { IfOk result
            (IsSearched self.now.is_whole
            (obligations_in (tree_of self.now.program.now) self.now.plan.now
            (group_seen group.now)) wanted.now) }
    {
        if !self.looks_at(group, wanted) {
            return Ok(None);
        }
        let all = group.obligations(alloc, self.program, self.plan)?;
        for obligation in all {
            let found = self.told(alloc, group, obligation, wanted)?;
            if found.is_some() {
                return Ok(found);
            }
        }
        Ok(None)
    }

    /// Of the obligations of groups the one that is looked for. An error says that memory ran out.
    pub(crate) fn found_among(
        &self,
        alloc: Global,
        groups: &[Group],
        wanted: &Wanted,
    ) -> Result<Option<Found>, AllocError>
        ensures { IfOk result
            (IsSearched self.now.is_whole
            (flat_map (obligations_in (tree_of self.now.program.now) self.now.plan.now)
            (map group_seen groups.now)) wanted.now) }
    {
        for group in groups {
            let found = self.found_in(alloc, group, wanted)?;
            if found.is_some() {
                return Ok(found);
            }
        }
        Ok(None)
    }

    // Of the plan's obligations the one that is looked for.
    fn found_once(&self, alloc: Global, wanted: &Wanted) -> Result<Option<Found>, AllocError>
        ensures { IfOk result
            (IsSearched self.now.is_whole
            (obligations_of (tree_of self.now.program.now) self.now.plan.now) wanted.now) }
    {
        let most = match wanted {
            Wanted::Number(number) => *number,
            Wanted::First | Wanted::Named(_) => u64::MAX,
        };
        let phases = phases(alloc, self.program, &self.plan.cut)?;
        let groups = list_groups(alloc, self.program, self.plan, phases.as_slice(), most)?;
        self.found_among(alloc, groups.items.as_slice(), wanted)
    }

    /// Of the plan's obligations the one that is looked for: where it may stand, and then anywhere. An
    /// error says that memory ran out.
    pub(crate) fn found(&self, alloc: Global, wanted: &Wanted) -> Result<Option<Found>, AllocError>
        ensures { IfOk result
            (IsSearched true
            (obligations_of (tree_of self.now.program.now) self.now.plan.now) wanted.now) }
    {
        if let Wanted::Named(_) = wanted {
            let found = self.found_once(alloc, wanted)?;
            if found.is_some() {
                return Ok(found);
            }
        }
        let whole = Planned {
            program: self.program,
            plan: self.plan,
            known: self.known,
            first_pair: 0,
            is_whole: true,
        };
        whole.found_once(alloc, wanted)
    }
}
