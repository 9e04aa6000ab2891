// The text of a plan, read.

ghost use Rattle.std.specs.Prelude.{◌≡◌, ◌+◌, ◌∷◌, ◌++◌, ◌≤◌, IfOk, IfErr, length, codes, true};
ghost use Rattle.plan_text.specs.Loose.{end_line, is_where_shown, where_line};
ghost use Rattle.plan_text.specs.Parts.{firsts, plan_of, seconds};
ghost use Rattle.plan_text.specs.PlanText as spec;
ghost use Rattle.plan_text.specs.Refused.{RefusesText};
ghost use Rattle.plan_text.specs.Stops.{RefusesLine, RefusesPart};
ghost use Rattle.plan_text.specs.Words.{loop_line, phase_line, version_line};

use crate::item::{read_count_32, read_count_64};
use crate::line::put_count;
use crate::lines::{Lines, MOST_BYTES, is_same};
use crate::loose::{number_32, word_at, words_of};
use crate::part::{read_certificates, read_loops, read_phases, read_rows};
use crate::syntax::PlanSyntax;
use farkas_cert::Certificate;
use nest_tree::Listed;
use owner_partition::{Anchor, Cut, Mark, Privates};
use std::alloc::{AllocError, Global};
use sync_plan::{Conditions, Kind, Plan, Version};

// The line of the version.
fn read_version(lines: &mut Lines) -> Result<Version, PlanSyntax>
    ensures ok { IfOk result (λ v. lines.old.rest.now ≡ version_line v
        ++ (10 ∷ lines.new.rest.now)) }
    ensures taken { IfOk result (λ v. lines.new.taken ≡ lines.old.taken + 1) }
    ensures refused { IfErr result
        (RefusesLine version_line (λ v. true) lines.old.rest.now lines.old.taken) }
{
    let line = lines.next()?;
    if is_same(line, b"SPMD PLAN 1") {
        return Ok(Version::One);
    }
    if is_same(line, b"SPMD PLAN 2") {
        return Ok(Version::Two);
    }
    if is_same(line, b"SPMD PLAN 3") {
        return Ok(Version::Three);
    }
    if is_same(line, b"SPMD PLAN 4") {
        return Ok(Version::Four);
    }
    if is_same(line, b"SPMD PLAN 5") {
        return Ok(Version::Five);
    }
    Err(lines.refusal())
}

// The last line.
fn read_end(lines: &mut Lines) -> Result<(), PlanSyntax>
    ensures ok { IfOk result (λ u. lines.old.rest.now ≡ codes "END PLAN"
        ++ (10 ∷ lines.new.rest.now)) }
    ensures taken { IfOk result (λ u. lines.new.taken ≡ lines.old.taken + 1) }
    ensures refused { IfErr result
        (RefusesLine end_line (λ u. true) lines.old.rest.now lines.old.taken) }
{
    let line = lines.next()?;
    if is_same(line, b"END PLAN") {
        Ok(())
    } else {
        Err(lines.refusal())
    }
}

// The line in front of conditions: none for the program's values, else the number of rows.
fn read_where(alloc: Global, lines: &mut Lines) -> Result<Option<u32>, PlanSyntax>
    ensures ok { IfOk result (λ w. lines.old.rest.now ≡ where_line w ++ (10 ∷ lines.new.rest.now)) }
    ensures taken { IfOk result (λ w. lines.new.taken ≡ lines.old.taken + 1) }
    ensures fits { IfOk result (λ w. is_where_shown w ≡ true) }
    ensures refused { IfErr result
        (RefusesLine where_line is_where_shown lines.old.rest.now lines.old.taken) }
{
    let line = lines.next()?;
    if is_same(line, b"WHERE VALUES") {
        return Ok(None);
    }
    let words = words_of(alloc, line)?;
    let count = number_32(word_at(&words, 1));
    let mut written = Vec::with_capacity(alloc, line.len())?;
    put_count(&mut written, b"WHERE", u64::from(count))?;
    if is_same(line, &written) {
        Ok(Some(count))
    } else {
        Err(lines.refusal())
    }
}

// The conditions of a version that has them.
fn read_rows_where(alloc: Global, lines: &mut Lines) -> Result<Conditions, PlanSyntax>
    ensures ok { IfOk result (λ c. lines.old.rest.now ≡ spec.text_of (spec.where_lines c)
        ++ lines.new.rest.now) }
    ensures taken { IfOk result (λ c. lines.new.taken
        ≡ lines.old.taken + length (spec.where_lines c)) }
    ensures shown { IfOk result (λ c. spec.are_where_shown c ≡ true) }
    ensures refused { IfErr result (RefusesPart spec.where_lines (λ c. spec.are_where_shown c
        ≡ true) lines.old.rest.now lines.old.taken) }
{
    let count = match read_where(alloc, lines) {
        Ok(Some(count)) => count,
        Ok(None) => return Ok(Conditions::Values),
        Err(refusal) => return Err(refusal),
    };
    match read_rows(alloc, lines, count) {
        Ok(rows) => Ok(Conditions::Rows(Listed::from_vec(rows))),
        Err(refusal) => Err(refusal),
    }
}

// The loops of a version's plan, behind their number.
fn read_cut(
    alloc: Global,
    lines: &mut Lines,
    version: Version,
) -> Result<Vec<(Mark, Privates)>, PlanSyntax>
    ensures ok { IfOk result (λ loops. lines.old.rest.now
        ≡ spec.text_of (spec.counted (codes "LOOPS") (spec.alone loop_line) loops.items)
        ++ lines.new.rest.now) }
    ensures taken { IfOk result (λ loops. lines.new.taken
        ≡ lines.old.taken + length
        (spec.counted (codes "LOOPS") (spec.alone loop_line) loops.items)) }
    ensures shown { IfOk result (λ loops. spec.are_loops_shown version loops.items ≡ true) }
    ensures refused { IfErr result
        (RefusesPart (spec.counted (codes "LOOPS") (spec.alone loop_line))
        (λ loops. spec.are_loops_shown version loops ≡ true) lines.old.rest.now lines.old.taken) }
{
    let count = match read_count_32(alloc, lines, b"LOOPS") {
        Ok(count) => count,
        Err(refusal) => return Err(refusal),
    };
    read_loops(alloc, lines, version, count)
}

// The phases, behind their number.
fn read_kinds(alloc: Global, lines: &mut Lines) -> Result<Vec<(Kind, Anchor)>, PlanSyntax>
    ensures ok { IfOk result (λ phases. lines.old.rest.now
        ≡ spec.text_of (spec.counted (codes "PHASES") (spec.alone phase_line) phases.items)
        ++ lines.new.rest.now) }
    ensures taken { IfOk result (λ phases. lines.new.taken
        ≡ lines.old.taken + length
        (spec.counted (codes "PHASES") (spec.alone phase_line) phases.items)) }
    ensures shown { IfOk result (λ phases. spec.are_phases_shown phases.items ≡ true) }
    ensures refused { IfErr result
        (RefusesPart (spec.counted (codes "PHASES") (spec.alone phase_line))
        (λ phases. spec.are_phases_shown phases ≡ true) lines.old.rest.now lines.old.taken) }
{
    let count = match read_count_32(alloc, lines, b"PHASES") {
        Ok(count) => count,
        Err(refusal) => return Err(refusal),
    };
    read_phases(alloc, lines, count)
}

// The certificates, behind their number.
fn read_proofs(alloc: Global, lines: &mut Lines) -> Result<Vec<Certificate>, PlanSyntax>
    ensures ok { IfOk result (λ cs. lines.old.rest.now
        ≡ spec.text_of (spec.counted (codes "CERTIFICATES") spec.cert_lines cs.items)
        ++ lines.new.rest.now) }
    ensures taken { IfOk result (λ cs. lines.new.taken
        ≡ lines.old.taken + length (spec.counted (codes "CERTIFICATES") spec.cert_lines cs.items)) }
    ensures shown { IfOk result (λ cs. spec.are_certificates_shown cs.items ≡ true) }
    ensures refused { IfErr result
        (RefusesPart (spec.counted (codes "CERTIFICATES") spec.cert_lines)
        (λ cs. spec.are_certificates_shown cs ≡ true) lines.old.rest.now lines.old.taken) }
{
    let count = match read_count_64(alloc, lines, b"CERTIFICATES") {
        Ok(count) => count,
        Err(refusal) => return Err(refusal),
    };
    read_certificates(alloc, lines, count)
}

// The conditions of a version.
fn read_conditions(
    alloc: Global,
    lines: &mut Lines,
    version: Version,
) -> Result<Conditions, PlanSyntax>
    ensures ok { IfOk result (λ c. lines.old.rest.now
        ≡ spec.text_of (spec.condition_lines version c) ++ lines.new.rest.now) }
    ensures taken { IfOk result (λ c. lines.new.taken
        ≡ lines.old.taken + length (spec.condition_lines version c)) }
    ensures shown { IfOk result (λ c. spec.are_conditions_shown version c ≡ true) }
    ensures refused { IfErr result (RefusesPart (spec.condition_lines version)
        (λ c. spec.are_conditions_shown version c ≡ true) lines.old.rest.now lines.old.taken) }
{
    match version {
        Version::One | Version::Two => Ok(Conditions::Values),
        Version::Three | Version::Four | Version::Five => read_rows_where(alloc, lines),
    }
}

// What a plan's text has, in its order.
#[derive(Drop)]
struct Parts {
    version: Version,
    workers: u32,
    conditions: Conditions,
    loops: Vec<(Mark, Privates)>,
    phases: Vec<(Kind, Anchor)>,
    certificates: Vec<Certificate>,
}

// All lines of a plan's text.
fn read_parts(alloc: Global, lines: &mut Lines) -> Result<Parts, PlanSyntax>
    ensures ok { IfOk result (λ p. lines.old.rest.now
        ≡ spec.text_of
        (spec.plan_lines
        (plan_of p.version p.workers p.conditions p.loops.items p.phases.items
        p.certificates.items)) ++ lines.new.rest.now) }
    ensures taken { IfOk result (λ p. lines.new.taken
        ≡ lines.old.taken + length
        (spec.plan_lines
        (plan_of p.version p.workers p.conditions p.loops.items p.phases.items
        p.certificates.items))) }
    ensures shown { IfOk result
        (λ p. spec.HasText
        (plan_of p.version p.workers p.conditions p.loops.items p.phases.items
        p.certificates.items)) }
    ensures refused { IfErr result
        (RefusesPart spec.plan_lines spec.HasText lines.old.rest.now lines.old.taken) }
{
    let version = match read_version(lines) {
        Ok(version) => version,
        Err(refusal) => return Err(refusal),
    };
    let workers = match read_count_32(alloc, lines, b"WORKERS") {
        Ok(workers) => workers,
        Err(refusal) => return Err(refusal),
    };
    let conditions = match read_conditions(alloc, lines, version) {
        Ok(conditions) => conditions,
        Err(refusal) => return Err(refusal),
    };
    let loops = match read_cut(alloc, lines, version) {
        Ok(loops) => loops,
        Err(refusal) => return Err(refusal),
    };
    let phases = match read_kinds(alloc, lines) {
        Ok(phases) => phases,
        Err(refusal) => return Err(refusal),
    };
    let certificates = match read_proofs(alloc, lines) {
        Ok(certificates) => certificates,
        Err(refusal) => return Err(refusal),
    };
    match read_end(lines) {
        Ok(()) => Ok(Parts {
            version,
            workers,
            conditions,
            loops,
            phases,
            certificates,
        }),
        Err(refusal) => Err(refusal),
    }
}

// Both lists of pairs.
fn unzipped<A: Drop, B: Drop>(
    alloc: Global,
    pairs: Vec<(A, B)>,
) -> Result<(Vec<A>, Vec<B>), AllocError>
    ensures firsts { IfOk result (λ r. r.0.items ≡ firsts pairs.items) }
    ensures seconds { IfOk result (λ r. r.1.items ≡ seconds pairs.items) }
{
    let mut firsts = Vec::with_capacity(alloc, pairs.len())?;
    let mut seconds = Vec::with_capacity(alloc, pairs.len())?;
    for (first, second) in pairs {
        firsts.push(first)?;
        seconds.push(second)?;
    }
    Ok((firsts, seconds))
}

// The plan of these parts.
fn made(alloc: Global, parts: Parts) -> Result<Plan, AllocError>
    ensures { IfOk result (λ plan. plan
        ≡ plan_of parts.version parts.workers parts.conditions parts.loops.items parts.phases.items
        parts.certificates.items) }
{
    let Parts {
        version,
        workers,
        conditions,
        loops,
        phases,
        certificates,
    } = parts;
    let (marks, privates) = unzipped(alloc, loops)?;
    let (kinds, anchors) = unzipped(alloc, phases)?;
    Ok(Plan {
        version,
        conditions,
        workers,
        cut: Cut::new(alloc, marks, privates)?,
        anchors: Listed::from_vec(anchors),
        kinds: Listed::from_vec(kinds),
        certificates: Listed::from_vec(certificates),
    })
}

/// The plan whose text the bytes are; else the first line that no plan's text has behind the lines
/// above it. A missing line counts as the next one, and bytes behind the last line as a line of
/// their own.
pub fn read_plan(alloc: Global, bytes: &[u8]) -> Result<Plan, PlanSyntax>
    requires { length bytes.now ≤ MOST_BYTES }
    ensures shown { IfOk result spec.HasText }
    ensures plan { IfOk result (λ plan. bytes.now ≡ spec.plan_text plan) }
    ensures refused { IfErr result (RefusesText bytes.now) }
{
    let mut lines = Lines::new(bytes);
    let parts = match read_parts(alloc, &mut lines) {
        Ok(parts) => parts,
        Err(refusal) => return Err(refusal),
    };
    if !lines.rest.is_empty() {
        return Err(PlanSyntax::Line(lines.taken + 1));
    }
    let plan = made(alloc, parts)?;
    Ok(plan)
}
