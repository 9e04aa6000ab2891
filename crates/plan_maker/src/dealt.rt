// Two trips of the Doall loops of a plan, and the paths of their private scalars.

ghost use Rattle.std.specs.Prelude.{IfOk, map};
ghost use Rattle.std.specs.List.{flat_map};
ghost use Rattle.nest_tree.specs.View.{tree_of};
ghost use Rattle.comm_system.specs.PhaseViews.{phase_seen};
ghost use Rattle.plan_maker.specs.Asked.{paths_asked, trips_asked};
ghost use Rattle.plan_maker.specs.Judged.{IsVerdict};

use crate::findings::Findings;
use crate::judge::{Judged, judge_groups};
use crate::problem::Problem;
use crate::verdict::Verdict;
use comm_system::groups::phase_groups;
use comm_system::paths::path_groups;
use comm_system::phase::Phase;
use std::alloc::{AllocError, Global};

/// What is known of the systems of two trips of the Doall loops among these phases of a plan.
pub(crate) fn judge_trips(
    alloc: Global,
    problem: Problem,
    phases: &[Phase],
    findings: &mut Findings,
) -> Result<Judged, AllocError>
    ensures { IfOk result
        (IsVerdict
        (flat_map (trips_asked (tree_of problem.entry.program.now) problem.entry.plan.now)
        (map phase_seen phases.now))) }
{
    let mut certificates = Vec::new(alloc);
    for phase in phases {
        match judge_phase(alloc, problem, phase, findings)? {
            Verdict::Refuted(mut more) => certificates.append(&mut more)?,
            Verdict::Kept(cause) => return Ok(Verdict::Kept(cause)),
        }
    }
    Ok(Verdict::Refuted(certificates))
}

fn judge_phase(
    alloc: Global,
    problem: Problem,
    phase: &Phase,
    findings: &mut Findings,
) -> Result<Judged, AllocError>
    ensures { IfOk result
        (IsVerdict (trips_asked (tree_of problem.entry.program.now) problem.entry.plan.now
        (phase_seen phase.now))) }
{
    if !problem.plan.cut.is_dealt(phase.text.item) {
        return Ok(Verdict::Refuted(Vec::new(alloc)));
    }
    let groups = phase_groups(alloc, &problem.plan.cut, u64::MAX, phase, 1)?;
    judge_groups(alloc, problem, groups.items.as_slice(), &[], findings)
}

/// What is known of the systems of the private scalars' paths in these phases of a plan.
pub(crate) fn judge_paths(
    alloc: Global,
    problem: Problem,
    phases: &[Phase],
    findings: &mut Findings,
) -> Result<Judged, AllocError>
    ensures { IfOk result
        (IsVerdict
        (flat_map (paths_asked (tree_of problem.entry.program.now) problem.entry.plan.now)
        (map phase_seen phases.now))) }
{
    let mut certificates = Vec::new(alloc);
    for phase in phases {
        match judge_phase_paths(alloc, problem, phase, findings)? {
            Verdict::Refuted(mut more) => certificates.append(&mut more)?,
            Verdict::Kept(cause) => return Ok(Verdict::Kept(cause)),
        }
    }
    Ok(Verdict::Refuted(certificates))
}

fn judge_phase_paths(
    alloc: Global,
    problem: Problem,
    phase: &Phase,
    findings: &mut Findings,
) -> Result<Judged, AllocError>
    ensures { IfOk result
        (IsVerdict (paths_asked (tree_of problem.entry.program.now) problem.entry.plan.now
        (phase_seen phase.now))) }
{
    let groups = path_groups(alloc, &problem.plan.cut, phase)?;
    judge_groups(alloc, problem, groups.items.as_slice(), &[], findings)
}
