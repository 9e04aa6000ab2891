// How loops may be dealt out.

ghost use Rattle.std.specs.Prelude.{◌≡◌, ◌≤◌, ◌<◌, ◌++◌, ◌∷◌, [], ℕ, IfOk, None, OnOk, Some, false, length, map, slice_get, true};
ghost use Rattle.std.specs.List.{AllZip};
ghost use Rattle.nest_tree.specs.Tree.{Tree};
ghost use Rattle.nest_tree.specs.View.{tree_of};
ghost use Rattle.nest_tree.specs.WellFormed.{loops_of};
ghost use Rattle.sync_plan.specs.declared.plan.Conditions.TheVariants.{Values};
ghost use Rattle.sync_plan.specs.Fit.{IsFit};
ghost use Rattle.plan_maker.specs.Bars.{AreSure, HasLoopReasons, IsLoopReason, all_attempts, is_open, loop_prints, open_loop, open_loops};
ghost use Rattle.maker_marks.specs.declared.tries.Tried.TheVariants.{Private};
ghost use Rattle.plan_maker.specs.Cut.{IsTriedCut, path_asked};
ghost use Rattle.plan_maker.specs.Judged.{IsSettled};
ghost use Rattle.plan_maker.specs.Asked.{AreRefuted};
ghost use Rattle.plan_maker.specs.Loops.{AreLoopVerdicts, AreOpenBarred, IsDealtVerdict, IsLoopVerdict, IsSureVerdict, own_in, tried_in, loops_asked, loops_paths_asked, marked_asked, marked_paths_asked};
ghost use Rattle.maker_marks.specs.Tries.{IsMadeOf, body_among, body_of, nest_body, tried_at, tried_privates};
ghost use Rattle.maker_marks.specs.Privates.{own_at};
ghost use Rattle.plan_maker.specs.Trials.{HasMoreCertificates};

use crate::cause::Cause;
use crate::dealt::{judge_paths, judge_trips};
use crate::findings::Findings;
use crate::problem::Problem;
use crate::reasons::{Bar, LoopReason};
use crate::verdict::Verdict;
use comm_system::phases::phases;
use farkas_cert::Certificate;
use maker_anchors::places::first_processors;
use maker_marks::cut_alone;
use maker_marks::nests::{have_print, nest_of};
use maker_marks::tries::{Tried, tries_of};
use nest_tree::{Listed, Nest, Program};
use own_scalars::{MOST_OWN, is_private};
use owner_partition::{Cut, Mark, Privates, StaticPhase, mark_in};
use std::alloc::{AllocError, Global};
use sync_plan::{Plan, all_barrier};

/// A try by which a loop may be dealt out, with its private scalars, and certificates of two trips of
/// it and of their paths.
#[derive(Drop)]
pub(crate) struct Dealt {
    tried: Tried,
    privates: Privates,
    trips: Vec<Certificate>,
    paths: Vec<Certificate>,
}

/// How a loop may be dealt out, or why it may not by each of its tries.
pub(crate) type LoopVerdict = Verdict<Dealt, Vec<LoopReason>>;

/// Certificates of the loops that are dealt out, in the order of their phases: of two trips of them,
/// and of the paths of their private scalars.
#[derive(Drop)]
pub(crate) struct LoopCertificates {
    pub(crate) trips: Vec<Certificate>,
    pub(crate) paths: Vec<Certificate>,
}

/// Verdicts on a program's loops, by number.
pub(crate) fn judge_loops(
    alloc: Global,
    program: &Program,
    findings: &mut Findings,
) -> Result<Vec<LoopVerdict>, AllocError>
    ensures long { IfOk result (λ verdicts. length verdicts.items
        ≡ loops_of (tree_of program.now).items) }
    ensures verdicts { IfOk result
        (λ verdicts. AreLoopVerdicts (tree_of program.now) verdicts.items) }
{
    let mut verdicts = Vec::new(alloc);
    for place in 0..program.loop_count() {
        verdicts.push(judge_loop(alloc, program, place + 1, findings)?)?;
    }
    Ok(verdicts)
}

// The verdict on the loop with this number, from 1.
fn judge_loop(
    alloc: Global,
    program: &Program,
    number: u32,
    findings: &mut Findings,
) -> Result<LoopVerdict, AllocError>
    requires some { 1 ≤ number }
    requires there { number ≤ loops_of (tree_of program.now).items }
    ensures { IfOk result (IsLoopVerdict (tree_of program.now) number) }
{
    let nest = nest_of(program, number);
    if !have_print(&nest.items) {
        return judge_tries(alloc, program, nest, findings);
    }
    let mut reasons = Vec::new(alloc);
    reasons.push(LoopReason {
        number,
        tried: Tried::Doall,
        bar: Bar::Print,
    })?;
    Ok(Verdict::Kept(reasons))
}

// The verdict on a loop without PRINT: the first try that doesn't fail counts, where each with private
// scalars is made once more, with those alone that are sure.
fn judge_tries(
    alloc: Global,
    program: &Program,
    nest: &Nest,
    findings: &mut Findings,
) -> Result<LoopVerdict, AllocError>
    requires body { body_among nest.now.number (tree_of program.now).items
        ≡ Some (nest_body nest.now) }
    requires silent { loop_prints (tree_of program.now) nest.now.number ≡ false }
    ensures { IfOk result (IsLoopVerdict (tree_of program.now) nest.now.number) }
{
    let number = nest.number;
    let tries = tries_of(alloc, nest)?;
    let mut reasons = Vec::new(alloc);
    for &tried in tries.as_slice() {
        let privates = tried.privates(alloc, nest)?;
        match judge_try(alloc, program, number, tried, privates, findings)? {
            Verdict::Refuted(dealt) => return Ok(Verdict::Refuted(dealt)),
            Verdict::Kept(cause) => reasons.push(LoopReason {
                number,
                tried,
                bar: Bar::Meeting(cause),
            })?,
        }
        if let Some(dealt) = judge_sure(alloc, program, nest, tried, findings)? {
            return Ok(Verdict::Refuted(dealt));
        }
    }
    Ok(Verdict::Kept(reasons))
}

// The same by a try that fails, with those of its private scalars alone that are sure; none where it
// fails too, or where this is that try or an earlier one.
fn judge_sure(
    alloc: Global,
    program: &Program,
    nest: &Nest,
    tried: Tried,
    findings: &mut Findings,
) -> Result<Option<Dealt>, AllocError>
    requires body { body_among nest.now.number (tree_of program.now).items
        ≡ Some (nest_body nest.now) }
    requires made { IsMadeOf tried (tried_privates tried (nest_body nest.now))
        (nest_body nest.now) }
    ensures { IfOk result (IsSureVerdict (tree_of program.now) nest.now.number tried) }
{
    let all = tried.privates(alloc, nest)?;
    if all.as_slice().is_empty() {
        return Ok(None);
    }
    let sure = sure_scalars(alloc, program, nest, findings)?;
    let is_doall = tried == Tried::Private && sure.is_empty();
    if is_doall || sure.as_slice() == all.as_slice() {
        return Ok(None);
    }
    let sure = Listed::from_vec(sure);
    match judge_try(alloc, program, nest.number, tried, sure, findings)? {
        Verdict::Refuted(dealt) => Ok(Some(dealt)),
        Verdict::Kept(_) => Ok(None),
    }
}

// Of the scalars that may be private in a loop the first 16 that are sure.
fn sure_scalars(
    alloc: Global,
    program: &Program,
    nest: &Nest,
    findings: &mut Findings,
) -> Result<Vec<u32>, AllocError>
    requires body { body_among nest.now.number (tree_of program.now).items
        ≡ Some (nest_body nest.now) }
    requires silent { loop_prints (tree_of program.now) nest.now.number ≡ false }
    ensures { IfOk result (λ sure. AreSure (tree_of program.now) nest.now.number sure.items) }
{
    let mut sure = Vec::new(alloc);
    for place in 0..program.variables.len() {
        let scalar = place as u32 + 1;
        if sure.len() < MOST_OWN
            && is_private(&nest.items, scalar)
            && is_sure(alloc, program, nest.number, scalar, findings)?
        {
            sure.push(scalar)?;
        }
    }
    Ok(sure)
}

// Whether a scalar that may be private in a loop, by its number from 1, is sure: each system of its
// path is refuted.
fn is_sure(
    alloc: Global,
    program: &Program,
    number: u32,
    scalar: u32,
    findings: &mut Findings,
) -> Result<bool, AllocError>
    requires some { 1 ≤ number }
    requires made { IsMadeOf Private (scalar ∷ []) (body_of (tree_of program.now) number) }
    ensures { IfOk result (IsSettled (path_asked (tree_of program.now) number scalar)) }
{
    let mut own = Vec::new(alloc);
    own.push(scalar)?;
    let own = Listed::from_vec(own);
    let cut = cut_alone(alloc, program, number, Tried::Private, own)?;
    let phases = phases(alloc, program, &cut)?;
    let plan = serial(alloc, program, cut)?;
    let plan = &plan;
    let problem = Problem { program, plan };
    match judge_paths(alloc, problem, phases.as_slice(), findings)? {
        Verdict::Refuted(_certificates) => Ok(true),
        Verdict::Kept(_cause) => Ok(false),
    }
}

// What is known of a loop, by its number from 1, that alone is dealt out by a try, with these private
// scalars: of its systems of two trips, and then of those of their paths.
fn judge_try(
    alloc: Global,
    program: &Program,
    number: u32,
    tried: Tried,
    privates: Privates,
    findings: &mut Findings,
) -> Result<Verdict<Dealt, Cause>, AllocError>
    requires some { 1 ≤ number }
    requires made { IsMadeOf tried privates (body_of (tree_of program.now) number) }
    ensures { IfOk result (IsDealtVerdict (tree_of program.now) number tried privates) }
{
    let own = copied(alloc, &privates)?;
    let cut = cut_alone(alloc, program, number, tried, own)?;
    let phases = phases(alloc, program, &cut)?;
    let plan = serial(alloc, program, cut)?;
    let plan = &plan;
    let problem = Problem { program, plan };
    let trips = match judge_trips(alloc, problem, phases.as_slice(), findings)? {
        Verdict::Refuted(trips) => trips,
        Verdict::Kept(cause) => return Ok(Verdict::Kept(cause)),
    };
    match judge_paths(alloc, problem, phases.as_slice(), findings)? {
        Verdict::Refuted(paths) => Ok(Verdict::Refuted(Dealt {
            tried,
            privates,
            trips,
            paths,
        })),
        Verdict::Kept(cause) => Ok(Verdict::Kept(cause)),
    }
}

// The same private scalars.
fn copied(alloc: Global, privates: &Privates) -> Result<Privates, AllocError>
    ensures { IfOk result (λ own. own ≡ privates.now) }
{
    Ok(Listed::from_vec(Vec::from_slice(alloc, privates.as_slice())?))
}

// A plan with this cut in which processor 0 does all.
fn serial(alloc: Global, program: &Program, cut: Cut) -> Result<Plan, AllocError>
    requires tried { IsTriedCut (tree_of program.now) cut }
    ensures cut { IfOk result (λ plan. plan.cut ≡ cut) }
    ensures conditions { IfOk result (λ plan. plan.conditions ≡ Values) }
    ensures fits { IfOk result (λ plan. IsFit (tree_of program.now) plan) }
{
    let anchors = first_processors(alloc, StaticPhase::count(program, &cut))?;
    all_barrier(alloc, cut, anchors, 1, Vec::new(alloc))
}

/// Of each loop, by which try it may be dealt out.
pub(crate) fn dealt_loops(
    alloc: Global,
    verdicts: &[LoopVerdict],
) -> Result<Vec<Option<Tried>>, AllocError>
    ensures { IfOk result (λ tries. tries.items ≡ map tried_in verdicts.now) }
{
    let mut tries = Vec::new(alloc);
    for verdict in verdicts {
        tries.push(match verdict {
            Verdict::Refuted(dealt) => Some(dealt.tried),
            Verdict::Kept(_) => None,
        })?;
    }
    Ok(tries)
}

/// Of each loop, which private scalars it has then.
pub(crate) fn dealt_privates(
    alloc: Global,
    verdicts: &[LoopVerdict],
) -> Result<Vec<Privates>, AllocError>
    ensures { IfOk result (λ lists. lists.items ≡ map own_in verdicts.now) }
{
    let mut lists = Vec::new(alloc);
    for verdict in verdicts {
        lists.push(match verdict {
            Verdict::Refuted(dealt) => copied(alloc, &dealt.privates)?,
            Verdict::Kept(_) => Listed::new(alloc),
        })?;
    }
    Ok(lists)
}

// Whether a loop with this mark is Outer or Single.
fn is_open(mark: Mark) -> bool
    ensures { result ≡ is_open mark }
{
    match mark {
        Mark::Outer | Mark::Single => true,
        Mark::Doall | Mark::Sum | Mark::Inner => false,
    }
}

// The verdict at this place, from 0.
fn verdict_in(verdicts: &[LoopVerdict], place: usize) -> &LoopVerdict
    requires { place < length verdicts.now }
    ensures { slice_get verdicts.now place ≡ Some result.now }
{
    &verdicts[place]
}

// The reasons of a loop with this verdict, behind the others, where it is Outer or Single.
fn push_reasons(
    reasons: &mut Vec<LoopReason>,
    mark: Mark,
    verdict: &LoopVerdict,
) -> Result<(), AllocError>
    requires { is_open mark ≡ true → tried_in verdict.now ≡ None }
    ensures { (tree : Tree) (number : ℕ) → IsLoopVerdict tree number verdict.now
        → OnOk result
        (HasLoopReasons tree
        (all_attempts tree (open_loop number mark)) reasons.old.items reasons.new.items) }
{
    if !is_open(mark) {
        return Ok(());
    }
    if let Verdict::Kept(more) = verdict {
        reasons.extend_from_slice(more.as_slice())?;
    }
    Ok(())
}

/// The reasons of the loops that are Outer or Single, each of which is barred.
pub(crate) fn loop_reasons(
    alloc: Global,
    marks: &[Mark],
    verdicts: &[LoopVerdict],
) -> Result<Vec<LoopReason>, AllocError>
    requires long { length verdicts.now ≡ length marks.now }
    requires barred { AreOpenBarred marks.now verdicts.now }
    ensures { (tree : Tree) → AreLoopVerdicts tree verdicts.now
        → IfOk result (λ reasons. AllZip (IsLoopReason tree)
        (all_attempts tree (open_loops 1 marks.now)) reasons.items) }
{
    let mut reasons = Vec::new(alloc);
    for place in 0..marks.len() {
        let mark = mark_in(marks, place);
        let verdict = verdict_in(verdicts, place);
        push_reasons(&mut reasons, mark, verdict)?;
    }
    Ok(reasons)
}

impl LoopCertificates {
    /// The ones, and then the others.
    pub(crate) fn into_all(self) -> Result<Vec<Certificate>, AllocError>
        ensures { IfOk result (λ all. all.items ≡ self.trips.items ++ self.paths.items) }
    {
        let LoopCertificates {
            mut trips,
            mut paths,
        } = self;
        trips.append(&mut paths)?;
        Ok(trips)
    }
}

// The certificates of a loop with this verdict, behind others, where its mark says that it is dealt
// out.
fn push_certificates(
    certificates: &mut LoopCertificates,
    mark: Mark,
    verdict: LoopVerdict,
) -> Result<(), AllocError>
    ensures trips { (tree : Tree) (number : ℕ) → IsLoopVerdict tree number verdict
        → OnOk result
        (HasMoreCertificates
        (marked_asked tree number mark (tried_in verdict) (own_in verdict))
        certificates.old.trips.items certificates.new.trips.items) }
    ensures paths { (tree : Tree) (number : ℕ) → IsLoopVerdict tree number verdict
        → OnOk result
        (HasMoreCertificates
        (marked_paths_asked tree number mark (tried_in verdict) (own_in verdict))
        certificates.old.paths.items certificates.new.paths.items) }
{
    if !mark.is_doall() {
        return Ok(());
    }
    match verdict {
        Verdict::Refuted(dealt) => {
            let Dealt {
                mut trips,
                mut paths,
                ..
            } = dealt;
            certificates.trips.append(&mut trips)?;
            certificates.paths.append(&mut paths)?;
            Ok(())
        }
        Verdict::Kept(_) => Ok(()),
    }
}

/// The certificates of the loops that these marks deal out, in the order of their phases.
pub(crate) fn loop_certificates(
    alloc: Global,
    marks: &[Mark],
    verdicts: Vec<LoopVerdict>,
) -> Result<LoopCertificates, AllocError>
    requires { length verdicts.items ≡ length marks.now }
    ensures trips { (tree : Tree) → AreLoopVerdicts tree verdicts.items
        → IfOk result
        (λ cs. AreRefuted (loops_asked tree (tried_at (map tried_in verdicts.items))
        (own_at (map own_in verdicts.items)) 1 marks.now) cs.trips.items) }
    ensures paths { (tree : Tree) → AreLoopVerdicts tree verdicts.items
        → IfOk result
        (λ cs. AreRefuted (loops_paths_asked tree (tried_at (map tried_in verdicts.items))
        (own_at (map own_in verdicts.items)) 1 marks.now) cs.paths.items) }
{
    let mut certificates = LoopCertificates {
        trips: Vec::new(alloc),
        paths: Vec::new(alloc),
    };
    let mut place = 0;
    for verdict in verdicts {
        let mark = mark_in(marks, place);
        push_certificates(&mut certificates, mark, verdict)?;
        place += 1;
    }
    Ok(certificates)
}
