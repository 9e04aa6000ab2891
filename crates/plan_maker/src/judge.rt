// What elimination says of systems one behind another.

ghost use Rattle.std.specs.Prelude.{◌≡◌, ◌-◌, ◌<◌, ◌≤◌, ◌^◌, [], ◌∷◌, IfOk, IfSome, List, None, OnOk, length, map, take};
ghost use Rattle.std.specs.List.{All, flat_map};
ghost use Rattle.nest_tree.specs.View.{tree_of};
ghost use Rattle.owner_partition.specs.declared.anchor.Dist.{Dist as Dealt};
ghost use Rattle.comm_system.specs.GroupViews.{group_seen};
ghost use Rattle.comm_system.specs.SubjectViews.{subject_seen};
ghost use Rattle.comm_system.specs.declared.group.Group.{Group as HeldGroup};
ghost use Rattle.comm_system.specs.SystemViews.{about, kept_columns, obligations_seen};
ghost use Rattle.farkas_cert.specs.Inequalities.{Inequalities};
ghost use Rattle.presolve.specs.Presolution.{IsPresolved};
ghost use Rattle.nest_systems.specs.Widened.{Widens};
ghost use Rattle.plan_maker.specs.Askable.{HasOwners, IsDealtSo};
ghost use Rattle.plan_maker.specs.Asked.{AreRefuted};
ghost use Rattle.plan_maker.specs.Beginnings.{IsBeginning, IsPrefix};
ghost use Rattle.plan_maker.specs.Orders.{unknowns_of};
ghost use Rattle.plan_maker.specs.Judged.{IsJudgement, IsVerdict, asked_about, asked_in, cause_for, cause_in, certificates_in};

use crate::beginnings::{Beginning, Prefix};
use crate::cause::{Cause, Word};
use crate::findings::{Findings, SharedRows};
use crate::problem::Problem;
use crate::verdict::Verdict;
use comm_system::Topic;
use comm_system::group::Group;
use comm_system::in_place::PairSystems;
use comm_system::pair_systems::trips_presolved;
use comm_system::subject::Subject;
use farkas_cert::Certificate;
use owner_partition::Dist;
use presolve::Presolved;
use std::alloc::{AllocError, Global};

/// What is known of systems one behind another: a certificate for each, or the first that is kept.
pub(crate) type Judged = Verdict<Vec<Certificate>, Cause>;

/// The certificates, where each is refuted.
pub(crate) fn into_certificates(verdict: Judged) -> Option<Vec<Certificate>>
    ensures { result ≡ certificates_in verdict }
{
    match verdict {
        Verdict::Refuted(certificates) => Some(certificates),
        Verdict::Kept(_) => None,
    }
}

/// The first that is kept, if any.
pub(crate) fn cause_of(verdict: &Judged) -> Option<Cause>
    ensures { result ≡ cause_in verdict.now }
{
    match verdict {
        Verdict::Refuted(_) => None,
        Verdict::Kept(cause) => Some(*cause),
    }
}

// What is said of an obligation that is kept with this answer.
fn cause_for(topic: Topic, word: Word) -> Cause
    ensures { (whole : Inequalities) → result ≡ cause_for (about topic whole) word }
{
    Cause {
        lines: topic.lines,
        variable: topic.variable,
        level: topic.level,
        piece: topic.piece,
        word,
    }
}

// What is known of an obligation, of whose system this is left.
fn judge_one(
    alloc: Global,
    topic: Topic,
    left: &Presolved,
    shared: SharedRows,
    dists: &[Dist],
    beginning: Option<&Beginning>,
    findings: &mut Findings,
) -> Result<Verdict<Certificate, Cause>, AllocError>
    requires owners { unknowns_of dists.now ≤ left.now.system.vars }
    requires room { left.now.system.vars < 2 ^ 32 - 1 }
    requires few { length dists.now < 2 ^ 20 }
    requires beginning { IfSome beginning (λ b. IsBeginning b.now) }
    ensures { (whole : Inequalities) → IsPresolved whole left.now → Widens whole left.now
        → IfOk result (IsJudgement (asked_about dists.now (about topic whole))) }
{
    match findings.find(alloc, left.system(), shared, dists, beginning)? {
        Verdict::Refuted(certificate) => {
            let told = left.postsolve(alloc, certificate)?;
            Ok(Verdict::Refuted(told))
        }
        Verdict::Kept(word) => Ok(Verdict::Kept(cause_for(topic, word))),
    }
}

// The certificates that are there for the first of a pair's obligations.
fn known_first(
    alloc: Global,
    systems: &mut PairSystems,
    shared: SharedRows,
    findings: &Findings,
) -> Result<Vec<Certificate>, AllocError>
    ensures same { OnOk result (obligations_seen systems.new ≡ obligations_seen systems.old) }
    ensures columns { OnOk result (kept_columns systems.new ≡ kept_columns systems.old) }
    ensures refuted { (dists : List Dealt)
        → IfOk result
        (λ cs. AreRefuted
        (map (asked_about dists) (take (length cs.items) (obligations_seen systems.old)))
        cs.items) }
{
    let mut certificates = Vec::new(alloc);
    for index in 0..systems.count() {
        systems.make(alloc, index)?;
        let left = systems.presolved();
        match findings.known(alloc, left.system(), shared)? {
            Some(certificate) => {
                let told = left.postsolve(alloc, certificate)?;
                certificates.push(told)?;
            }
            None => return Ok(certificates),
        }
    }
    Ok(certificates)
}

// What is known of a pair's obligations, the first of which have these certificates, from a
// beginning if there is one.
fn judge_from(
    alloc: Global,
    systems: &mut PairSystems,
    shared: SharedRows,
    known: Vec<Certificate>,
    dists: &[Dist],
    beginning: Option<&Beginning>,
    findings: &mut Findings,
) -> Result<Judged, AllocError>
    requires few { length dists.now < 2 ^ 20 }
    requires owners { HasOwners dists.now systems.old }
    requires beginning { IfSome beginning (λ b. IsBeginning b.now) }
    requires known { AreRefuted
        (map (asked_about dists.now) (take (length known.items) (obligations_seen systems.old)))
        known.items }
    ensures { IfOk result (IsVerdict (map (asked_about dists.now) (obligations_seen systems.old))) }
{
    let mut certificates = known;
    for index in certificates.len()..systems.count() {
        systems.make(alloc, index)?;
        match judge_one(
            alloc,
            systems.topic(),
            systems.presolved(),
            shared,
            dists,
            beginning,
            findings,
        )? {
            Verdict::Refuted(certificate) => certificates.push(certificate)?,
            Verdict::Kept(cause) => return Ok(Verdict::Kept(cause)),
        }
    }
    Ok(Verdict::Refuted(certificates))
}

// The first rows of a pair's obligation that was made last, where at least two are left from this
// index on, and work.
fn prefix_of(
    alloc: Global,
    systems: &PairSystems,
    index: usize,
    dists: &[Dist],
    findings: &Findings,
) -> Result<Option<Prefix>, AllocError>
    requires few { length dists.now < 2 ^ 20 }
    requires owners { HasOwners dists.now systems.now }
    ensures { IfOk result (λ found. IfSome found IsPrefix) }
{
    if findings.is_used_up() || index.saturating_add(1) >= systems.count() {
        return Ok(None);
    }
    let prefix = Prefix::of(alloc, systems.presolved().system(), dists)?;
    Ok(Some(prefix))
}

// The beginning with these rows, if elimination comes so far.
fn beginning_of(alloc: Global, prefix: &Option<Prefix>) -> Result<Option<Beginning<'_>>, AllocError>
    requires { IfSome prefix.now IsPrefix }
    ensures { IfOk result (λ found. IfSome found IsBeginning) }
{
    match prefix {
        Some(prefix) => prefix.begin(alloc),
        None => Ok(None),
    }
}

// What is known of a pair's obligations, whose owners are dealt so.
fn judge_pair(
    alloc: Global,
    systems: &mut PairSystems,
    dists: &[Dist],
    findings: &mut Findings,
) -> Result<Judged, AllocError>
    requires few { length dists.now < 2 ^ 20 }
    requires owners { HasOwners dists.now systems.old }
    ensures { IfOk result (IsVerdict (map (asked_about dists.now) (obligations_seen systems.old))) }
{
    let shared = SharedRows::of(systems.presolved().system(), systems.shared());
    let known = known_first(alloc, systems, shared, findings)?;
    let prefix = prefix_of(alloc, systems, known.len(), dists, findings)?;
    match beginning_of(alloc, &prefix)? {
        Some(beginning) => {
            let beginning = Some(&beginning);
            judge_from(alloc, systems, shared, known, dists, beginning, findings)
        }
        None => judge_from(alloc, systems, shared, known, dists, None, findings),
    }
}

// What is known of an obligation alone.
fn judge_single(
    alloc: Global,
    topic: Topic,
    left: &Presolved,
    dists: &[Dist],
    findings: &mut Findings,
) -> Result<Judged, AllocError>
    requires owners { unknowns_of dists.now ≤ left.now.system.vars }
    requires room { left.now.system.vars < 2 ^ 32 - 1 }
    requires few { length dists.now < 2 ^ 20 }
    ensures { (whole : Inequalities) → IsPresolved whole left.now → Widens whole left.now
        → IfOk result (IsVerdict (asked_about dists.now (about topic whole) ∷ [])) }
{
    let shared = SharedRows::of(left.system(), 0);
    match judge_one(alloc, topic, left, shared, dists, None, findings)? {
        Verdict::Refuted(certificate) => {
            let mut certificates = Vec::new(alloc);
            certificates.push(certificate)?;
            Ok(Verdict::Refuted(certificates))
        }
        Verdict::Kept(cause) => Ok(Verdict::Kept(cause)),
    }
}

// What is known of the obligations of a pair of accesses.
fn judge_group(
    alloc: Global,
    problem: Problem,
    group: &Group,
    dists: &[Dist],
    findings: &mut Findings,
) -> Result<Judged, AllocError>
    requires few { length dists.now < 2 ^ 20 }
    requires dealt { IsDealtSo problem.plan.now dists.now (subject_seen group.now.subject) }
    ensures { IfOk result
        (IsVerdict (asked_in (tree_of problem.entry.program.now) problem.entry.plan.now dists.now
        (group_seen group.now))) }
{
    let number = group.number;
    let (program, plan) = (problem.program, problem.plan);
    match &group.subject {
        Subject::Trips(phase, a, b) => {
            let (topic, left) = trips_presolved(alloc, program, plan, phase, a, b, number)?;
            judge_single(alloc, topic, &left, dists, findings)
        }
        Subject::Slot(slot, waits, a, b) => {
            let mut systems = PairSystems::new(alloc, program, plan, slot, waits, a, b, number)?;
            judge_pair(alloc, &mut systems, dists, findings)
        }
        Subject::ZeroTrip(inside) => {
            let (topic, left) = inside.presolved(alloc, program, plan, number)?;
            judge_single(alloc, topic, &left, dists, findings)
        }
    }
}

/// What is known of the obligations of pairs of accesses one behind another, whose owners are dealt
/// so. Those behind the first that is kept aren't made.
pub(crate) fn judge_groups(
    alloc: Global,
    problem: Problem,
    groups: &[Group],
    dists: &[Dist],
    findings: &mut Findings,
) -> Result<Judged, AllocError>
    requires few { length dists.now < 2 ^ 20 }
    requires dealt { All (λ (group : HeldGroup). IsDealtSo problem.plan.now dists.now
        (subject_seen group.subject)) groups.now }
    ensures { IfOk result
        (IsVerdict
        (flat_map (asked_in (tree_of problem.entry.program.now) problem.entry.plan.now dists.now)
        (map group_seen groups.now))) }
{
    let mut certificates = Vec::new(alloc);
    for group in groups {
        match judge_group(alloc, problem, group, dists, findings)? {
            Verdict::Refuted(mut more) => certificates.append(&mut more)?,
            Verdict::Kept(cause) => return Ok(Verdict::Kept(cause)),
        }
    }
    Ok(Verdict::Refuted(certificates))
}
