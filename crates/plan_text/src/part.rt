// The parts of a plan's text, read: numbered lines, and what stands in front of them.

ghost use Rattle.std.specs.Prelude.{◌≡◌, ◌+◌, ◌++◌, IfOk, IfErr, true, length};
ghost use Rattle.plan_text.specs.PlanText as spec;
ghost use Rattle.plan_text.specs.Stops.{AreItems, ItemsRead, RefusesPart};
ghost use Rattle.plan_text.specs.Words.{loop_line, phase_line, row_line, step_line};

use crate::item::{read_loop, read_phase, read_row, read_step, read_steps};
use crate::lines::Lines;
use crate::syntax::PlanSyntax;
use farkas_cert::{Certificate, Step, StepList};
use owner_partition::{Anchor, Mark, Privates};
use std::alloc::Global;
use sync_plan::{ConditionRow, Kind, Version};

/// So many loops.
pub(crate) fn read_loops(
    alloc: Global,
    lines: &mut Lines,
    version: Version,
    count: u32,
) -> Result<Vec<(Mark, Privates)>, PlanSyntax>
    ensures ok { IfOk result (λ items. ItemsRead (spec.alone loop_line)
        (spec.is_loop_shown version) lines.old.rest.now lines.old.taken lines.new.rest.now
        lines.new.taken items.items count) }
    ensures refused { IfErr result (RefusesPart (spec.numbered (spec.alone loop_line) 1)
        (AreItems (spec.is_loop_shown version) count) lines.old.rest.now lines.old.taken) }
{
    let mut items = Vec::new(alloc);
    for index in 0..count {
        match read_loop(alloc, lines, version, index + 1) {
            Ok(item) => items.push(item)?,
            Err(refusal) => return Err(refusal),
        }
    }
    Ok(items)
}

/// So many phases.
pub(crate) fn read_phases(
    alloc: Global,
    lines: &mut Lines,
    count: u32,
) -> Result<Vec<(Kind, Anchor)>, PlanSyntax>
    ensures ok { IfOk result
        (λ items. ItemsRead
        (spec.alone phase_line) spec.is_phase_shown lines.old.rest.now lines.old.taken
        lines.new.rest.now lines.new.taken items.items count) }
    ensures refused { IfErr result (RefusesPart (spec.numbered (spec.alone phase_line) 1)
        (AreItems spec.is_phase_shown count) lines.old.rest.now lines.old.taken) }
{
    let mut items = Vec::new(alloc);
    for index in 0..count {
        match read_phase(alloc, lines, index + 1) {
            Ok(item) => items.push(item)?,
            Err(refusal) => return Err(refusal),
        }
    }
    Ok(items)
}

/// So many rows of conditions.
pub(crate) fn read_rows(
    alloc: Global,
    lines: &mut Lines,
    count: u32,
) -> Result<Vec<ConditionRow>, PlanSyntax>
    ensures ok { IfOk result
        (λ items. ItemsRead
        (spec.alone row_line) spec.is_row_shown lines.old.rest.now lines.old.taken
        lines.new.rest.now lines.new.taken items.items count) }
    ensures refused { IfErr result (RefusesPart (spec.numbered (spec.alone row_line) 1)
        (AreItems spec.is_row_shown count) lines.old.rest.now lines.old.taken) }
{
    let mut items = Vec::new(alloc);
    for index in 0..count {
        match read_row(alloc, lines, index + 1) {
            Ok(item) => items.push(item)?,
            Err(refusal) => return Err(refusal),
        }
    }
    Ok(items)
}

/// So many steps.
pub(crate) fn read_step_lines(
    alloc: Global,
    lines: &mut Lines,
    count: u64,
) -> Result<Vec<Step>, PlanSyntax>
    ensures ok { IfOk result
        (λ items. ItemsRead
        (spec.alone (λ k. step_line)) spec.is_step_shown lines.old.rest.now lines.old.taken
        lines.new.rest.now lines.new.taken items.items count) }
    ensures refused { IfErr result (RefusesPart (spec.numbered (spec.alone (λ k. step_line)) 1)
        (AreItems spec.is_step_shown count) lines.old.rest.now lines.old.taken) }
{
    let mut items = Vec::new(alloc);
    for index in 0..count {
        match read_step(alloc, lines) {
            Ok(item) => items.push(item)?,
            Err(refusal) => return Err(refusal),
        }
    }
    Ok(items)
}

/// So many certificates.
pub(crate) fn read_certificates(
    alloc: Global,
    lines: &mut Lines,
    count: u64,
) -> Result<Vec<Certificate>, PlanSyntax>
    ensures ok { IfOk result
        (λ items.
        ItemsRead spec.cert_lines spec.is_certificate_shown lines.old.rest.now lines.old.taken
        lines.new.rest.now lines.new.taken items.items count) }
    ensures refused { IfErr result (RefusesPart (spec.numbered spec.cert_lines 1)
        (AreItems spec.is_certificate_shown count) lines.old.rest.now lines.old.taken) }
{
    let mut items = Vec::new(alloc);
    for index in 0..count {
        match read_certificate(alloc, lines, index + 1) {
            Ok(item) => items.push(item)?,
            Err(refusal) => return Err(refusal),
        }
    }
    Ok(items)
}

/// The certificate with this number.
fn read_certificate(
    alloc: Global,
    lines: &mut Lines,
    number: u64,
) -> Result<Certificate, PlanSyntax>
    ensures ok { IfOk result (λ c. lines.old.rest.now ≡ spec.text_of (spec.cert_lines number c)
        ++ lines.new.rest.now) }
    ensures taken { IfOk result (λ c. lines.new.taken
        ≡ lines.old.taken + length (spec.cert_lines number c)) }
    ensures shown { IfOk result (λ c. spec.is_certificate_shown c ≡ true) }
    ensures refused { IfErr result (RefusesPart (spec.cert_lines number)
        (λ c. spec.is_certificate_shown c ≡ true) lines.old.rest.now lines.old.taken) }
{
    let count = match read_steps(alloc, lines, number) {
        Ok(count) => count,
        Err(refusal) => return Err(refusal),
    };
    match read_step_lines(alloc, lines, count) {
        Ok(steps) => Ok(Certificate {
            steps: StepList::from_vec(steps),
        }),
        Err(refusal) => Err(refusal),
    }
}
