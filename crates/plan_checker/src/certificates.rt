// The first obligation whose certificate is missing or bad.

ghost use Rattle.std.specs.Prelude.{◌≡◌, IfOk, IfSome, List, None, Option, map};
ghost use Rattle.std.specs.List.{AllZip};
ghost use Rattle.plan_checker.specs.declared.refusal.PlanRefusal.{PlanRefusal};
ghost use Rattle.nest_tree.specs.View.{tree_of};
ghost use Rattle.sync_plan.specs.Shape.{wrong_field};
ghost use Rattle.comm_system.specs.GroupViews.{group_seen};
ghost use Rattle.comm_system.specs.SystemViews.{about, last_made, obligations_seen};
ghost use Rattle.farkas_cert.specs.Inequalities.{Inequalities};
ghost use Rattle.presolve.specs.Presolution.{IsPresolved};
ghost use Rattle.plan_checker.specs.Certificates.{fault_in as stands_fault_in, fault_of as stands_fault_of, first_of};

use crate::refusal::PlanRefusal;
use comm_system::group::Group;
use comm_system::in_place::PairSystems;
use comm_system::pair_systems::{trips_obligation, trips_presolved};
use comm_system::subject::Subject;
use comm_system::{Obligation, Topic};
use farkas_cert::{CertRefusal, Certificate, check_cert};
use nest_tree::Program;
use presolve::{Checked, Presolved};
use rayon::prelude::*;
use std::alloc::{AllocError, Global};
use std::thread::Threads;
use sync_plan::Plan;

// From how many certificates on it is worth the start of threads to check them side by side.
const MANY: usize = 2_000;

// What is wrong with the certificate of an obligation.
fn fault_of(
    alloc: Global,
    certificates: &[Certificate],
    obligation: &Obligation,
) -> Result<Option<PlanRefusal>, AllocError>
    ensures { IfOk result (λ found. found ≡ stands_fault_of certificates.now obligation.now) }
{
    let place = obligation.number.saturating_sub(1) as usize;
    if place >= certificates.len() {
        return Ok(Some(PlanRefusal::Missing(obligation.number)));
    }
    match check_cert(alloc, &obligation.system, &certificates[place]) {
        Ok(()) => Ok(None),
        Err(CertRefusal::NoMemory) => Err(AllocError),
        Err(reason) => Ok(Some(PlanRefusal::Bad(obligation.number, reason))),
    }
}

// What is found of the certificate of an obligation, of whose system this is left: nothing where it
// names a row that is left out.
fn fault_left(
    alloc: Global,
    certificates: &[Certificate],
    topic: Topic,
    left: &Presolved,
) -> Result<Option<Option<PlanRefusal>>, AllocError>
    ensures { (whole : Inequalities) → IsPresolved whole left.now
        → IfOk result (λ told. IfSome told (λ fault. fault
        ≡ stands_fault_of certificates.now (about topic whole))) }
{
    let number = topic.number;
    let place = number.saturating_sub(1) as usize;
    if place >= certificates.len() {
        return Ok(Some(Some(PlanRefusal::Missing(number))));
    }
    match left.check(alloc, &certificates[place])? {
        Checked::Good => Ok(Some(None)),
        Checked::Bad(reason) => Ok(Some(Some(PlanRefusal::Bad(number, reason)))),
        Checked::LeftOut(_) => Ok(None),
    }
}

// What is wrong with the certificate of a pair's obligation that was made last.
fn fault_made(
    alloc: Global,
    certificates: &[Certificate],
    systems: &PairSystems,
) -> Result<Option<PlanRefusal>, AllocError>
    ensures { IfOk result (λ found. found
        ≡ stands_fault_of certificates.now (last_made systems.now)) }
{
    if let Some(fault) = fault_left(alloc, certificates, systems.topic(), systems.presolved())? {
        return Ok(fault);
    }
    let obligation = systems.obligation(alloc)?;
    fault_of(alloc, certificates, &obligation)
}

// The first of a pair's obligations whose certificate is missing or bad: each is made in the place
// of the one before.
fn fault_in_place(
    alloc: Global,
    certificates: &[Certificate],
    systems: &mut PairSystems,
) -> Result<Option<PlanRefusal>, AllocError>
    ensures { IfOk result (λ found. found ≡ first_of (stands_fault_of certificates.now)
        (obligations_seen systems.old)) }
{
    for index in 0..systems.count() {
        systems.make(alloc, index)?;
        let found = fault_made(alloc, certificates, systems)?;
        if found.is_some() {
            return Ok(found);
        }
    }
    Ok(None)
}

// The first of a group's obligations whose certificate is missing or bad.
fn fault_in(
    alloc: Global,
    program: &Program,
    plan: &Plan,
    group: &Group,
) -> Result<Option<PlanRefusal>, AllocError>
    requires { wrong_field (tree_of program.now) plan.now ≡ None }
    ensures { IfOk result (λ found. found ≡ stands_fault_in (tree_of program.now) plan.now
        (group_seen group.now)) }
{
    let certificates = plan.certificates.as_slice();
    let number = group.number;
    match &group.subject {
        Subject::Trips(phase, a, b) => {
            let (topic, left) = trips_presolved(alloc, program, plan, phase, a, b, number)?;
            if let Some(fault) = fault_left(alloc, certificates, topic, &left)? {
                return Ok(fault);
            }
            let obligation = trips_obligation(alloc, program, plan, phase, a, b, number)?;
            fault_of(alloc, certificates, &obligation)
        }
        Subject::Slot(slot, waits, a, b) => {
            let mut systems = PairSystems::new(alloc, program, plan, slot, waits, a, b, number)?;
            fault_in_place(alloc, certificates, &mut systems)
        }
        Subject::ZeroTrip(inside) => {
            let (topic, left) = inside.presolved(alloc, program, plan, number)?;
            if let Some(fault) = fault_left(alloc, certificates, topic, &left)? {
                return Ok(fault);
            }
            let obligation = inside.obligation(alloc, program, plan, number)?;
            fault_of(alloc, certificates, &obligation)
        }
    }
}

// The same of several groups, one after the other.
fn first_in_turn(
    alloc: Global,
    program: &Program,
    plan: &Plan,
    groups: &[Group],
) -> Result<Option<PlanRefusal>, AllocError>
    requires { wrong_field (tree_of program.now) plan.now ≡ None }
    ensures { IfOk result (λ found. found
        ≡ first_of (stands_fault_in (tree_of program.now) plan.now) (map group_seen groups.now)) }
{
    for group in groups {
        let found = fault_in(alloc, program, plan, group)?;
        if found.is_some() {
            return Ok(found);
        }
    }
    Ok(None)
}

/// The first obligation of these groups whose certificate is missing or bad. Where there are many
/// certificates, groups are looked at side by side.
pub(crate) fn first_fault<R: Threads + Sync>(
    rt: &R,
    alloc: Global,
    program: &Program,
    plan: &Plan,
    groups: &[Group],
) -> Result<Option<PlanRefusal>, AllocError>
    requires { wrong_field (tree_of program.now) plan.now ≡ None }
    ensures { IfOk result (λ found. found
        ≡ first_of (stands_fault_in (tree_of program.now) plan.now) (map group_seen groups.now)) }
{
    if plan.certificates.as_slice().len() < MANY {
        return first_in_turn(alloc, program, plan, groups);
    }
    let found = faults(rt, alloc, program, plan, groups)?;
    first_found(&found)
}

// What is wrong in each group, side by side.
fn faults<R: Threads + Sync>(
    rt: &R,
    alloc: Global,
    program: &Program,
    plan: &Plan,
    groups: &[Group],
) -> Result<Vec<Result<Option<PlanRefusal>, AllocError>>, AllocError>
    requires { wrong_field (tree_of program.now) plan.now ≡ None }
    ensures { IfOk result
        (λ found. AllZip (λ group one. IfOk one (λ fault. fault
        ≡ stands_fault_in (tree_of program.now) plan.now (group_seen group))) groups.now
        found.items) }
{
    groups
        .par_iter()
        .with_min_len(1)
        .map(
            move |group: &Group| -> Result<Option<PlanRefusal>, AllocError>
                requires { wrong_field (tree_of program.now) plan.now ≡ None }
                ensures { IfOk result (λ fault. fault
                    ≡ stands_fault_in (tree_of program.entry.now) plan.entry.now
                    (group_seen group.now)) }
            { fault_in(alloc, program, plan, group) },
        )
        .collect(rt, alloc)
}

// The first fault among what groups come to.
fn first_found(
    found: &[Result<Option<PlanRefusal>, AllocError>],
) -> Result<Option<PlanRefusal>, AllocError>
    ensures { (faults : List (Option PlanRefusal))
        → AllZip (λ fault one. IfOk one (λ is. is ≡ fault)) faults found.now
        → IfOk result (λ first. first ≡ first_of (λ fault. fault) faults) }
{
    for one in found {
        match one {
            Ok(None) => {}
            Ok(Some(refusal)) => return Ok(Some(*refusal)),
            Err(_) => return Err(AllocError),
        }
    }
    Ok(None)
}
