// The decision of a system, and its line.

ghost use Rattle.std.specs.Prelude.{◌≡◌, IfOk, IsOkUnless, string_bytes};
ghost use Rattle.std.specs.List.{range_with_len};
ghost use Rattle.farkas_cert.specs.Narrow.{AreNarrow};
ghost use Rattle.fm_elim.specs.Answers.{IsDecided};
ghost use Rattle.bench_parts.specs.Verdicts as spec;

use farkas_cert::{CertRefusal, System, check_cert};
use fm_elim::{Answer, NoMemory, decide};
use std::alloc::{AllocError, Global};

/// What is told of a system.
#[derive(Clone, Copy, Debug, PartialEq, Eq)]
pub enum Verdict {
    /// No whole solution: a certificate of so many steps was checked.
    Infeasible(usize),
    Open,
    Wide(u32),
    Many(u32, u64),
    Work(u32, u128),
}

// The variables 1 to `variables`, in this order.
fn order_of(alloc: Global, variables: u32) -> Result<Vec<u32>, AllocError>
    ensures { IfOk result (λ order. order.items ≡ range_with_len 1 variables) }
{
    let mut order = Vec::with_capacity(alloc, variables as usize)?;
    for before in 0..variables {
        order.push(before + 1)?;
    }
    Ok(order)
}

/// Decides a system, whose numbers are at most 2 ^ 126 in size, in the order of its variables.
pub fn decided(alloc: Global, system: &System) -> Result<Answer, NoMemory>
    requires { AreNarrow system.now.rows }
    ensures { IfOk result (IsDecided system.now (range_with_len 1 system.now.vars)) }
{
    let order = order_of(alloc, system.vars())?;
    decide(alloc, system, order.as_slice())
}

// The verdict on an answer: a certificate is checked.
fn verdict_of(alloc: Global, system: &System, answer: &Answer) -> Result<Verdict, CertRefusal>
    requires { IsDecided system.now (range_with_len 1 system.now.vars) answer.now }
    ensures verdict { IfOk result (λ verdict. verdict ≡ spec.verdict_on answer.now) }
    ensures sound { IfOk result (spec.IsSound system.now (range_with_len 1 system.now.vars)) }
    ensures told { IsOkUnless result CertRefusal.NoMemory }
{
    match answer {
        Answer::Infeasible(certificate) => {
            check_cert(alloc, system, certificate)?;
            Ok(Verdict::Infeasible(certificate.steps.as_slice().len()))
        }
        Answer::Open => Ok(Verdict::Open),
        Answer::Wide { level, .. } => Ok(Verdict::Wide(*level)),
        Answer::Many { level, count } => Ok(Verdict::Many(*level, *count)),
        Answer::Work { level, pairs } => Ok(Verdict::Work(*level, *pairs)),
    }
}

fn verdict_text(alloc: Global, verdict: Verdict) -> Result<String, AllocError>
    ensures { IfOk result (λ text. string_bytes text ≡ spec.verdict_text verdict) }
{
    match verdict {
        Verdict::Infeasible(steps) => format!(in alloc; "INFEASIBLE {steps}"),
        Verdict::Open => String::from_str(alloc, "OPEN"),
        Verdict::Wide(level) => format!(in alloc; "WIDE {level}"),
        Verdict::Many(level, count) => format!(in alloc; "MANY {level} {count}"),
        Verdict::Work(level, pairs) => format!(in alloc; "WORK {level} {pairs}"),
    }
}

// The line of a system.
fn verdict_line(alloc: Global, name: &[u8], verdict: Verdict) -> Result<Vec<u8>, AllocError>
    ensures { IfOk result (λ line. line.items ≡ spec.verdict_line name.now verdict) }
{
    let text = verdict_text(alloc, verdict)?;
    let mut line = name.to_vec(alloc)?;
    line.push(b' ')?;
    line.extend_from_slice(text.as_bytes())?;
    line.push(b'\n')?;
    Ok(line)
}

/// The line of an answer on the system of this name: a certificate is checked before.
pub fn answer_line(
    alloc: Global,
    name: &[u8],
    system: &System,
    answer: &Answer,
) -> Result<Vec<u8>, CertRefusal>
    requires { IsDecided system.now (range_with_len 1 system.now.vars) answer.now }
    ensures line { IfOk result (λ line. line.items
        ≡ spec.verdict_line name.now (spec.verdict_on answer.now)) }
    ensures sound { IfOk result (λ _. spec.IsSound system.now (range_with_len 1 system.now.vars)
        (spec.verdict_on answer.now)) }
    ensures told { IsOkUnless result CertRefusal.NoMemory }
{
    let verdict = verdict_of(alloc, system, answer)?;
    Ok(verdict_line(alloc, name, verdict)?)
}
