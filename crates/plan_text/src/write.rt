// The text of a plan, written.

ghost use Rattle.std.specs.Prelude.{◌≡◌, ◌<◌, ◌^◌, ◌++◌, IfOk, OnOk, length, true, codes};
ghost use Rattle.plan_text.specs.PlanText as spec;
ghost use Rattle.plan_text.specs.Words.{loop_line, phase_line, row_line};

use crate::line::{put_cert, put_count, put_loop, put_phase, put_row, put_step, put_version};
use farkas_cert::{Certificate, Step};
use owner_partition::{Anchor, Mark, Privates};
use std::alloc::{AllocError, Global};
use sync_plan::{ConditionRow, Conditions, Kind, Plan, Version};

/// The text of a plan. The error is that memory ran out.
pub fn write_plan(alloc: Global, plan: &Plan) -> Result<Vec<u8>, AllocError>
    requires { spec.HasCounts plan.now }
    ensures { IfOk result (λ text. text.items ≡ spec.plan_text plan.now) }
{
    let mut out = Vec::new(alloc);
    put_head(&mut out, plan)?;
    put_loops(&mut out, plan.cut.as_slice(), plan.cut.privates())?;
    put_phases(&mut out, plan.kinds.as_slice(), plan.anchors.as_slice())?;
    put_certificates(&mut out, plan.certificates.as_slice())?;
    out.extend_from_slice(b"END PLAN\n")?;
    Ok(out)
}

// The lines of the version, the workers and the conditions.
fn put_head(out: &mut Vec<u8>, plan: &Plan) -> Result<(), AllocError>
    requires { spec.are_conditions_shown plan.now.version plan.now.conditions ≡ true }
    ensures { OnOk result (out.new.items ≡ out.old.items
        ++ spec.text_of (spec.head_lines plan.now)) }
{
    put_version(out, plan.version)?;
    out.push(b'\n')?;
    put_count(out, b"WORKERS", u64::from(plan.workers))?;
    out.push(b'\n')?;
    match plan.version {
        Version::One | Version::Two => Ok(()),
        Version::Three | Version::Four | Version::Five => { put_conditions(out, &plan.conditions) }
    }
}

fn put_conditions(out: &mut Vec<u8>, conditions: &Conditions) -> Result<(), AllocError>
    requires { spec.are_where_shown conditions.now ≡ true }
    ensures { OnOk result (out.new.items ≡ out.old.items
        ++ spec.text_of (spec.where_lines conditions.now)) }
{
    match conditions {
        Conditions::Values => out.extend_from_slice(b"WHERE VALUES\n"),
        Conditions::Rows(rows) => put_rows(out, rows.as_slice()),
    }
}

fn put_rows(out: &mut Vec<u8>, rows: &[ConditionRow]) -> Result<(), AllocError>
    requires { length rows.now < 2 ^ 32 }
    ensures { OnOk result (out.new.items ≡ out.old.items
        ++ spec.text_of (spec.counted (codes "WHERE") (spec.alone row_line) rows.now)) }
{
    put_count(out, b"WHERE", rows.len() as u64)?;
    out.push(b'\n')?;
    for (place, row) in rows.iter().enumerate() {
        put_row(out, place as u32 + 1, row)?;
        out.push(b'\n')?;
    }
    Ok(())
}

fn put_loops(out: &mut Vec<u8>, marks: &[Mark], privates: &[Privates]) -> Result<(), AllocError>
    requires few { length marks.now < 2 ^ 32 }
    requires lists { length marks.now ≡ length privates.now }
    ensures { OnOk result (out.new.items ≡ out.old.items
        ++ spec.text_of (spec.counted (codes "LOOPS") (spec.alone loop_line)
        (spec.zipped marks.now privates.now))) }
{
    put_count(out, b"LOOPS", marks.len() as u64)?;
    out.push(b'\n')?;
    for (place, mark) in marks.iter().enumerate() {
        put_loop(out, place as u32 + 1, *mark, privates[place].as_slice())?;
        out.push(b'\n')?;
    }
    Ok(())
}

fn put_phases(out: &mut Vec<u8>, kinds: &[Kind], anchors: &[Anchor]) -> Result<(), AllocError>
    requires few { length kinds.now < 2 ^ 32 }
    requires pairs { length kinds.now ≡ length anchors.now }
    ensures { OnOk result (out.new.items ≡ out.old.items
        ++ spec.text_of (spec.counted (codes "PHASES") (spec.alone phase_line)
        (spec.zipped kinds.now anchors.now))) }
{
    put_count(out, b"PHASES", kinds.len() as u64)?;
    out.push(b'\n')?;
    for (place, kind) in kinds.iter().enumerate() {
        put_phase(out, place as u32 + 1, kind, &anchors[place])?;
        out.push(b'\n')?;
    }
    Ok(())
}

fn put_certificates(out: &mut Vec<u8>, certificates: &[Certificate]) -> Result<(), AllocError>
    ensures { OnOk result (out.new.items ≡ out.old.items
        ++ spec.text_of (spec.counted (codes "CERTIFICATES") spec.cert_lines certificates.now)) }
{
    put_count(out, b"CERTIFICATES", certificates.len() as u64)?;
    out.push(b'\n')?;
    for (place, certificate) in certificates.iter().enumerate() {
        put_certificate(out, place as u64 + 1, certificate.steps.as_slice())?;
    }
    Ok(())
}

fn put_certificate(out: &mut Vec<u8>, number: u64, steps: &[Step]) -> Result<(), AllocError>
    ensures { OnOk result (out.new.items ≡ out.old.items
        ++ spec.text_of (spec.cert_lines number (record { steps = steps.now }))) }
{
    put_cert(out, number, steps.len() as u64)?;
    out.push(b'\n')?;
    for step in steps {
        put_step(out, step)?;
        out.push(b'\n')?;
    }
    Ok(())
}
