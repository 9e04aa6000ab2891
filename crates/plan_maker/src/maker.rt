// The plan of a program.

ghost use Rattle.std.specs.Prelude.{◌≡◌, ◌≤◌, IfOk, []};
ghost use Rattle.std.specs.List.{AllZip};
ghost use Rattle.nest_tree.specs.View.{tree_of};
ghost use Rattle.sync_plan.specs.Barriers.{barrier_plan};
ghost use Rattle.sync_plan.specs.Fit.{IsFit};
ghost use Rattle.maker_anchors.specs.Anchors.{maker_anchors};
ghost use Rattle.plan_maker.specs.Asked.{AreRefuted, all_paths_asked, all_trips_asked};
ghost use Rattle.plan_maker.specs.Bars.{IsLoopReason, IsReasonedCut, all_attempts, open_loops};
ghost use Rattle.plan_maker.specs.Cut.{cut_asked, cut_paths_asked};
ghost use Rattle.plan_maker.specs.Made.{IsBarrierPlan, IsMade, with_found};
ghost use Rattle.plan_maker.specs.Weakest.{IsWeakest};

use crate::findings::Findings;
use crate::loops::{
    LoopCertificates, dealt_loops, dealt_privates, judge_loops, loop_certificates, loop_reasons,
};
use crate::numbers::read_plan;
use crate::problem::Problem;
use crate::reasons::{LoopReason, PhaseReason, Reasons};
use crate::search::Search;
use comm_system::phases::phases;
use farkas_cert::Certificate;
use maker_anchors::anchors_of;
use maker_marks::{DealtBy, cut_of};
use nest_tree::{Listed, Program};
use owner_partition::Cut;
use std::alloc::{AllocError, Global};
use sync_plan::{Kind, Plan, all_barrier};

// The weakest kinds that were found, the certificates, and why there are no weaker ones.
#[derive(Drop)]
struct Weakest {
    kinds: Vec<Kind>,
    certificates: Vec<Certificate>,
    reasons: Vec<PhaseReason>,
}

/// The plan of a program for 1 to 64 workers, with its reasons. The error is that memory ran out.
pub fn make(alloc: Global, program: &Program, workers: u32) -> Result<(Plan, Reasons), AllocError>
    requires some { 1 ≤ workers }
    requires few { workers ≤ 64 }
    ensures { IfOk result (λ made. IsMade (tree_of program.now) workers made.0 made.1) }
{
    let mut findings = Findings::new(alloc)?;
    let (cut, loops, certificates) = make_cut(alloc, program, &mut findings)?;
    let base = base_plan(alloc, program, cut, workers)?;
    let problem = Problem {
        program,
        plan: &base,
    };
    let Weakest {
        kinds,
        certificates,
        reasons,
    } = find_weakest(alloc, problem, certificates, findings)?;
    let plan = with(base, kinds, certificates);
    read_plan(&plan);
    let reasons = Reasons {
        loops,
        phases: reasons,
    };
    Ok((plan, reasons))
}

/// The plan of a program for 1 to 64 workers with the cut and the anchors of [`make`] and a barrier
/// in front of each phase. The error is that memory ran out.
pub fn make_barrier(alloc: Global, program: &Program, workers: u32) -> Result<Plan, AllocError>
    requires some { 1 ≤ workers }
    requires few { workers ≤ 64 }
    ensures { IfOk result (IsBarrierPlan (tree_of program.now) workers) }
{
    let mut findings = Findings::new(alloc)?;
    let (cut, _loops, certificates) = make_cut(alloc, program, &mut findings)?;
    let base = base_plan(alloc, program, cut, workers)?;
    let Plan { cut, anchors, .. } = base;
    let certificates = certificates.into_all()?;
    let plan = all_barrier(alloc, cut, anchors.into_vec(), workers, certificates)?;
    read_plan(&plan);
    Ok(plan)
}

// The plan of this cut and the maker's anchors under it, with a barrier in front of each phase and
// without a certificate.
fn base_plan(alloc: Global, program: &Program, cut: Cut, workers: u32) -> Result<Plan, AllocError>
    requires some { 1 ≤ workers }
    requires few { workers ≤ 64 }
    requires reasoned { IsReasonedCut (tree_of program.now) cut }
    ensures same { IfOk result (λ plan. plan
        ≡ barrier_plan cut (maker_anchors (tree_of program.now) cut.marks workers) workers []) }
    ensures fits { IfOk result (λ plan. IsFit (tree_of program.now) plan) }
{
    let anchors = anchors_of(alloc, program, &cut, workers)?;
    all_barrier(alloc, cut, anchors, workers, Vec::new(alloc))
}

// Which loops are what, why those that are Outer or Single aren't dealt out, and the certificates of
// those that are.
fn make_cut(
    alloc: Global,
    program: &Program,
    findings: &mut Findings,
) -> Result<(Cut, Vec<LoopReason>, LoopCertificates), AllocError>
    ensures reasoned { IfOk result (λ made. IsReasonedCut (tree_of program.now) made.0) }
    ensures loops { IfOk result (λ made. AllZip (IsLoopReason (tree_of program.now))
        (all_attempts (tree_of program.now) (open_loops 1 made.0.marks)) made.1.items) }
    ensures trips { IfOk result
        (λ made. AreRefuted (cut_asked (tree_of program.now) made.0) made.2.trips.items) }
    ensures paths { IfOk result
        (λ made. AreRefuted (cut_paths_asked (tree_of program.now) made.0) made.2.paths.items) }
{
    let verdicts = judge_loops(alloc, program, findings)?;
    let tries = dealt_loops(alloc, verdicts.as_slice())?;
    let privates = dealt_privates(alloc, verdicts.as_slice())?;
    let dealt = DealtBy {
        tries: tries.as_slice(),
        privates: privates.as_slice(),
    };
    let cut = cut_of(alloc, program, dealt)?;
    let loops = loop_reasons(alloc, cut.as_slice(), verdicts.as_slice())?;
    let certificates = loop_certificates(alloc, cut.as_slice(), verdicts)?;
    Ok((cut, loops, certificates))
}

// The plan with these kinds and certificates.
fn with(plan: Plan, kinds: Vec<Kind>, certificates: Vec<Certificate>) -> Plan
    ensures { result ≡ with_found plan kinds.items certificates.items }
{
    Plan {
        version: plan.version,
        conditions: plan.conditions,
        workers: plan.workers,
        cut: plan.cut,
        anchors: plan.anchors,
        kinds: Listed::from_vec(kinds),
        certificates: Listed::from_vec(certificates),
    }
}

// The weakest kinds in front of the phases of a plan, with certificates: behind those of two trips of
// its loops, and in front of those of their private scalars' paths.
fn find_weakest(
    alloc: Global,
    problem: Problem,
    loops: LoopCertificates,
    findings: Findings,
) -> Result<Weakest, AllocError>
    requires fits { IsFit (tree_of problem.program.now) problem.plan.now }
    requires trips { AreRefuted
        (all_trips_asked (tree_of problem.program.now) problem.plan.now) loops.trips.items }
    requires paths { AreRefuted
        (all_paths_asked (tree_of problem.program.now) problem.plan.now) loops.paths.items }
    ensures { IfOk result (IsWeakest (tree_of problem.entry.program.now) problem.entry.plan.now) }
{
    let phases = phases(alloc, problem.program, &problem.plan.cut)?;
    let mut search = Search::new(alloc, problem, phases.as_slice(), findings)?;
    let reasons = search.settle_all(alloc)?;
    let LoopCertificates { trips, mut paths } = loops;
    let (kinds, mut certificates) = search.finish(alloc, trips)?;
    certificates.append(&mut paths)?;
    Ok(Weakest {
        kinds,
        certificates,
        reasons,
    })
}
