// The system of a pair of accesses in two trips of a phase, and the parts of those in two phases.

ghost use Rattle.std.specs.Prelude.{List, ◌≡◌, ◌+◌, ◌*◌, ◌-◌, ◌<◌, ◌≤◌, ◌^◌, ◌⊎◌, [], ◌∷◌, IfErr, IfOk, IsTrue, None, OnErr, OnOk, length, map, neg_ℤ, pos};
ghost use Rattle.std.specs.List.{list_all, range_with_len};
ghost use Rattle.farkas_cert.specs.Narrow.{AreNarrow};
ghost use Rattle.nest_tree.specs.Tree.{Tree};
ghost use Rattle.nest_tree.specs.View.{tree_of};
ghost use Rattle.nest_rows.specs.declared.constraint.Constraint.{Constraint as Constraints};
ghost use Rattle.presolve.specs.Presolution.{IsPresolved};
ghost use Rattle.nest_systems.specs.Widened.{Widens};
ghost use Rattle.farkas_cert.specs.Inequalities.{Inequalities};
ghost use Rattle.owner_partition.specs.declared.anchor.Dist.TheVariants.{Cyclic};
ghost use Rattle.sync_plan.specs.Shape.{has_places, wrong_field};
ghost use Rattle.comm_system.specs.Levels.{common as in_common, order_at, two_trips as two_trips_of};
ghost use Rattle.comm_system.specs.Obligations.{anchor_at as anchor_under, last_of, numbered, placed_at, range_of, trips_task};
ghost use Rattle.conflict_rules.specs.Boundaries.{of_first, of_second};
ghost use Rattle.comm_system.specs.OwnerRows.{beside, distance as distance_of};
ghost use Rattle.comm_system.specs.PairRows.{behind_pair};
ghost use Rattle.comm_system.specs.OwnerViews.{fits_owner, placed_seen};
ghost use Rattle.comm_system.specs.PhaseViews.{phase_seen};
ghost use Rattle.comm_system.specs.PieceViews.{direction_seen, piece_seen};
ghost use Rattle.comm_system.specs.RowViews.{order_seen};
ghost use Rattle.comm_system.specs.Seen.{pair_of};
ghost use Rattle.conflict_rules.specs.References.{variable_of};
ghost use Rattle.conflict_rules.specs.Seen.{target_seen};
ghost use Rattle.conflict_rules.specs.SideViews.{producer_seen, side_seen};
ghost use Rattle.comm_system.specs.SlotViews.{slot_seen};
ghost use Rattle.comm_system.specs.Owned.{HasOwners};
ghost use Rattle.comm_system.specs.SystemViews.{AreUnknowns, IsShared, about, grown};

use crate::obligation::{Obligation, Topic};
use crate::own::last_in;
use crate::owner_rows::{Placed, owners_unknowns, push_owners};
use crate::phase::Phase;
use crate::pieces::{Direction, Piece};
use crate::rows::{Instance, Order, apart, push_pair, unknowns};
use crate::slot::Slot;
use crate::waits::Waits;
use conflict_rules::producer::Side;
use conflict_rules::reference::Reference;
use nest_systems::{ConstraintSystem, GrowingSystem};
use nest_tree::{Affine, Pairs, Program};
use owner_partition::{Anchor, Dist};
use presolve::Presolved;
use std::alloc::{AllocError, Global};
use sync_plan::Plan;

// The numbers of the first unknowns of two accesses, and of the one behind both.
#[derive(Clone, Copy)]
pub(crate) struct Unknowns {
    first: u32,
    second: u32,
    behind: u32,
}

// 2^29 unknowns and more may have no room; want of memory is no other one.
fn unknowns_of_pair(program: &Program, a: &Reference, b: &Reference) -> Result<Unknowns, AllocError>
    ensures are { IfOk result (λ n. AreUnknowns (tree_of program.now) (pair_of a.now b.now) n) }
    ensures first { IfOk result (λ n. n.first + 2 * length a.now.around.items < 2 ^ 31) }
    ensures second { IfOk result (λ n. n.second + 2 * length b.now.around.items < 2 ^ 31) }
    ensures only { IfErr result (λ _. 2 ^ 29 ≤ behind_pair (tree_of program.now)
        (pair_of a.now b.now)) }
{
    let constants = program.params.len();
    if constants >= 536_870_912 {
        return Err(AllocError);
    }
    match (unknowns(program, a), unknowns(program, b)) {
        (Some(of_first), Some(of_second)) => {
            let first = constants as u32 + 1;
            let second = first + of_first;
            let behind = second + of_second;
            Ok(Unknowns {
                first,
                second,
                behind,
            })
        }
        _ => Err(AllocError),
    }
}

// Two trips of a loop inside so many Outer loops. 2^29 and more have no room.
fn two_trips(outer: usize) -> Result<Order, AllocError>
    ensures order { IfOk result (λ o. order_seen o ≡ two_trips_of outer) }
    ensures few { IfOk result (λ o. o.equal < 2 ^ 29) }
    ensures only { IfErr result (λ _. 2 ^ 29 ≤ outer) }
{
    if outer >= 536_870_912 {
        return Err(AllocError);
    }
    Ok(Order {
        equal: outer as u32,
        earlier: true,
    })
}

// What two accesses in two trips of a phase speak of.
fn trips_topic(a: &Reference, b: &Reference, number: u64) -> Topic
    ensures { result ≡ record {
      number = number;
      lines = (a.now.line, b.now.line);
      variable = variable_of (target_seen a.now.target);
      level = 0;
      piece = 0;
      range = (pos 0, pos 0);
    } }
{
    Topic {
        number,
        lines: (a.line, b.line),
        variable: a.target.variable(),
        level: 0,
        piece: 0,
        range: (0, 0),
    }
}

// The system that two accesses don't meet in two trips of a phase.
fn trips_system<'p>(
    alloc: Global,
    program: &'p Program,
    plan: &Plan,
    phase: &Phase,
    a: &Reference,
    b: &Reference,
) -> Result<ConstraintSystem<'p>, AllocError>
    requires { wrong_field (tree_of program.now) plan.now ≡ None }
    ensures made { IfOk result (λ s. s
        ≡ (trips_task (tree_of program.now) plan.now (phase_seen phase.now)
        (pair_of a.now b.now)).system) }
    ensures few { IfOk result (λ s. s.vars < 2 ^ 32 - 1) }
{
    let n = unknowns_of_pair(program, a, b)?;
    let order = two_trips(phase.text.outer.as_slice().len())?;
    let mut system = ConstraintSystem::empty(alloc, n.behind - 1, n.first - 1);
    push_pair(
        alloc,
        &mut system,
        program,
        &plan.conditions,
        order,
        Instance {
            first: n.first,
            reference: a,
            last: None,
        },
        Instance {
            first: n.second,
            reference: b,
            last: None,
        },
    )?;
    Ok(system)
}

/// The obligation, with this number, that two accesses don't meet in two trips of a phase.
pub fn trips_obligation(
    alloc: Global,
    program: &Program,
    plan: &Plan,
    phase: &Phase,
    a: &Reference,
    b: &Reference,
    number: u64,
) -> Result<Obligation, AllocError>
    requires { wrong_field (tree_of program.now) plan.now ≡ None }
    ensures made { IfOk result (λ o. o
        ≡ numbered number (trips_task (tree_of program.now) plan.now (phase_seen phase.now)
        (pair_of a.now b.now))) }
    ensures narrow { IfOk result (λ o. AreNarrow o.system.rows) }
    ensures few { IfOk result (λ o. o.system.vars < 2 ^ 32 - 1) }
{
    let system = trips_system(alloc, program, plan, phase, a, b)?;
    let dense = system.dense(alloc)?.into_system();
    Ok(trips_topic(a, b, number).obligation(dense))
}

/// What it speaks of, and what is left of its system.
pub fn trips_presolved(
    alloc: Global,
    program: &Program,
    plan: &Plan,
    phase: &Phase,
    a: &Reference,
    b: &Reference,
    number: u64,
) -> Result<(Topic, Presolved), AllocError>
    requires { wrong_field (tree_of program.now) plan.now ≡ None }
    ensures made { IfOk result (λ r. (whole : Inequalities)
        × (about r.0 whole
        ≡ numbered number (trips_task (tree_of program.now) plan.now (phase_seen phase.now)
        (pair_of a.now b.now))) × IsPresolved whole r.1 × Widens whole r.1) }
    ensures few { IfOk result (λ r. r.1.system.vars < 2 ^ 32 - 1) }
{
    let system = trips_system(alloc, program, plan, phase, a, b)?;
    let presolved = system.presolved(alloc, &[])?;
    Ok((trips_topic(a, b, number), presolved))
}

// How the loops round the phases of a slot stand. A level of 2^29 and more has no room.
fn order(slot: &Slot) -> Result<Order, AllocError>
    ensures order { IfOk result (λ o. order_seen o
        ≡ order_at (in_common (phase_seen slot.now.first.now).outer
        (phase_seen slot.now.second.now).outer) slot.now.level) }
    ensures few { IfOk result (λ o. o.equal < 2 ^ 29) }
    ensures only { IfErr result (λ _. 2 ^ 29 ≤ slot.now.level) }
{
    let loops = slot.common();
    if slot.level >= 536_870_912 {
        return Err(AllocError);
    }
    if slot.level == 0 {
        Ok(Order {
            equal: loops,
            earlier: false,
        })
    } else {
        Ok(Order {
            equal: slot.level - 1,
            earlier: true,
        })
    }
}

// The anchor of the static phase with this number; the other one where there is none.
fn anchor_at<'p>(plan: &'p Plan, none: &'p Anchor, s: u32) -> &'p Anchor
    requires none { none.now
        ≡ record { form = record { constant = pos 0; loops = []; params = [] }; dist = Cyclic } }
    requires places { IsTrue (list_all (λ a. has_places a.dist) plan.now.anchors) }
    ensures anchor { result.now ≡ anchor_under plan.now s }
    ensures places { IsTrue (has_places result.now.dist) }
{
    match plan.anchor(s) {
        Some(anchor) => anchor,
        None => none,
    }
}

// An anchor at the loops of an access.
fn placed<'b, 'a>(
    n: Unknowns,
    a: &'b Reference<'a>,
    b: &'b Reference<'a>,
    anchor: &'b Anchor,
    side: Side,
) -> Placed<'b, 'a>
    requires places { IsTrue (has_places anchor.now.dist) }
    requires first { n.first + 2 * length a.now.around.items < 2 ^ 31 }
    requires second { n.second + 2 * length b.now.around.items < 2 ^ 31 }
    ensures placed { (tree : Tree) → AreUnknowns tree (pair_of a.now b.now) n
        → placed_seen result ≡ placed_at tree (pair_of a.now b.now) (anchor.now, side_seen side) }
    ensures fits { IsTrue (fits_owner result) }
{
    match side {
        Side::First => Placed {
            anchor,
            first: n.first,
            around: a.around.as_slice(),
        },
        Side::Second => Placed {
            anchor,
            first: n.second,
            around: b.around.as_slice(),
        },
    }
}

// The anchors of both instances and of the producers, each at the loops of its side.
fn placed_anchors<'b, 'a>(
    alloc: Global,
    n: Unknowns,
    a: &'b Reference<'a>,
    b: &'b Reference<'a>,
    first: &'b Anchor,
    second: &'b Anchor,
    waits: &'b Waits,
) -> Result<Vec<Placed<'b, 'a>>, AllocError>
    requires first_places { IsTrue (has_places first.now.dist) }
    requires second_places { IsTrue (has_places second.now.dist) }
    requires first { n.first + 2 * length a.now.around.items < 2 ^ 31 }
    requires second { n.second + 2 * length b.now.around.items < 2 ^ 31 }
    ensures placed { (tree : Tree) → AreUnknowns tree (pair_of a.now b.now) n
        → IfOk result (λ all. map placed_seen all.items ≡ placed_at tree (pair_of a.now b.now)
        (first.now, of_first) ∷ placed_at tree (pair_of a.now b.now) (second.now, of_second)
        ∷ map (placed_at tree (pair_of a.now b.now))
        (map producer_seen waits.now.producers.items)) }
    ensures fit { IfOk result (λ all. IsTrue (list_all fits_owner all.items)) }
    ensures count { IfOk result (λ all. length all.items ≤ 5) }
{
    let mut all = Vec::new(alloc);
    all.push(placed(n, a, b, first, Side::First))?;
    all.push(placed(n, a, b, second, Side::Second))?;
    for &producer in waits.producers.as_slice() {
        all.push(placed(n, a, b, producer.anchor, producer.side))?;
    }
    Ok(all)
}

// What all pieces of a pair have: the rows before the last ones, the owners' unknowns, and these
// with their rounds.
#[derive(Drop)]
pub(crate) struct Shared<'p> {
    pub(crate) system: ConstraintSystem<'p>,
    pub(crate) owners: Vec<u32>,
    pub(crate) owned: Vec<u32>,
}

// The unknowns from this number on, of so many.
fn unknowns_from(alloc: Global, first: u32, vars: u32) -> Result<Vec<u32>, AllocError>
    requires first { first ≤ vars + 1 }
    requires room { vars < 2 ^ 32 - 1 }
    ensures { IfOk result (λ all. all.items ≡ range_with_len first (vars + 1 - first)) }
{
    let mut all = Vec::new(alloc);
    for number in first..vars + 1 {
        all.push(number)?;
    }
    Ok(all)
}

pub(crate) fn make_shared<'a, 'p>(
    alloc: Global,
    program: &'p Program,
    plan: &Plan,
    slot: &Slot,
    waits: &Waits,
    a: &Reference<'a>,
    b: &Reference<'a>,
) -> Result<Shared<'p>, AllocError>
    requires { wrong_field (tree_of program.now) plan.now ≡ None }
    ensures shared { IfOk result (λ shared. IsShared (tree_of program.now) plan.now
        (slot_seen slot.now) (map producer_seen waits.now.producers.items)
        (pair_of a.now b.now) shared) }
    ensures few { IfOk result (λ shared. shared.system.vars < 2 ^ 32 - 1) }
{
    let n = unknowns_of_pair(program, a, b)?;
    let order = order(slot)?;
    let none = Anchor {
        form: Affine::new(0, Pairs::new(alloc), Pairs::new(alloc)),
        dist: Dist::Cyclic,
    };
    let first = anchor_at(plan, &none, slot.s);
    let second = anchor_at(plan, &none, slot.t);
    let placed = placed_anchors(alloc, n, a, b, first, second, waits)?;
    let vars = n.behind + owners_unknowns(placed.as_slice()) - 1;
    let mut system = ConstraintSystem::empty(alloc, vars, n.first - 1);
    push_pair(
        alloc,
        &mut system,
        program,
        &plan.conditions,
        order,
        Instance {
            first: n.first,
            reference: a,
            last: last_in(&plan.cut, slot.first, a),
        },
        Instance {
            first: n.second,
            reference: b,
            last: last_in(&plan.cut, slot.second, b),
        },
    )?;
    let owners = push_owners(
        alloc,
        &mut system,
        plan.workers,
        n.behind,
        placed.as_slice(),
    )?;
    let owned = unknowns_from(alloc, n.behind, vars)?;
    Ok(Shared {
        system,
        owners,
        owned,
    })
}

// How far the first owner lies from the second on this side.
fn distance(range: Direction, waits: &Waits) -> u32
    ensures distance { result ≡ distance_of (direction_seen range) waits.now.left waits.now.right }
    ensures small { result < 2 ^ 31 }
{
    match range {
        Direction::Below => waits.left + 1,
        Direction::Above => waits.right + 1,
    }
}

// The greatest difference of the owners below those that are waited for, and the least above.
pub(crate) fn range(waits: &Waits) -> (i32, i32)
    ensures { result ≡ range_of waits.now.left waits.now.right }
{
    let low = distance(Direction::Below, waits) as i32;
    let high = distance(Direction::Above, waits) as i32;
    (-low, high)
}

// The difference of the owners, with the sign of this side, is at most this number.
fn farthest(range: Direction, waits: &Waits) -> i64
    ensures { result
        ≡ neg_ℤ (pos (distance_of (direction_seen range) waits.now.left waits.now.right)) }
{
    -i64::from(distance(range, waits))
}

// The last rows of a piece, behind the others; where memory runs out some of them.
pub(crate) fn push_last(
    alloc: Global,
    system: &mut GrowingSystem,
    waits: &Waits,
    owners: &[u32],
    piece: &Piece,
) -> Result<(), AllocError>
    requires { HasOwners owners.now system.old }
    ensures ok { OnOk result (system.new
        ≡ grown (last_of waits.now.left waits.now.right owners.now
        (piece_seen piece.now)) system.old) }
    ensures err { OnErr result ((more : List Constraints) × (system.new ≡ grown more system.old)) }
{
    if owners.len() < 2 {
        return Ok(());
    }
    let far = farthest(piece.range, waits);
    let range = apart(alloc, piece.range.sign(), owners[0], owners[1], far)?;
    system.push(alloc, range)?;
    let sides = piece.producers.as_slice();
    push_beside(alloc, system, owners[0], &owners[2..], sides)
}

// The first owner lies on these sides of the others.
fn push_beside(
    alloc: Global,
    system: &mut GrowingSystem,
    q: u32,
    others: &[u32],
    sides: &[Direction],
) -> Result<(), AllocError>
    requires first { HasOwners (q ∷ []) system.old }
    requires others { HasOwners others.now system.old }
    ensures ok { OnOk result (system.new
        ≡ grown (beside q others.now (map direction_seen sides.now)) system.old) }
    ensures err { OnErr result ((more : List Constraints) × (system.new ≡ grown more system.old)) }
{
    for (index, &other) in others.iter().enumerate() {
        if index >= sides.len() {
            return Ok(());
        }
        let row = apart(alloc, sides[index].sign(), q, other, -1)?;
        system.push(alloc, row)?;
    }
    Ok(())
}
