// The certificate of a contradiction.

ghost use Rattle.std.specs.Prelude.{◌≡◌, ℕ, ◌+◌, ◌≤◌, ◌<◌, ◌^◌, IfOk, List, length, slice_index, slice_index_or};
ghost use Rattle.std.specs.List.{All};
ghost use Rattle.farkas_cert.specs.declared.system.Row.{Row as RowOf};
ghost use Rattle.farkas_cert.specs.declared.certificate.Certificate.{Certificate as CertificateOf};
ghost use Rattle.farkas_cert.specs.Combination.{row_at};
ghost use Rattle.farkas_cert.specs.Good.{AreGoodSteps, rows_after, IsContradiction, IsGood};
ghost use Rattle.elim_rows.specs.declared.derivation.Derivation.{Derivation as DerivationOf};
ghost use Rattle.elim_level.specs.Logs.{step_of, all_rows, IsLog, IsNumber, IsSuited};
ghost use Rattle.fm_elim.specs.Lean.{IsLean, AreMarkedToo, AreNeeded, renumbered as renumbered_by};

use elim_rows::derivation::Derivation;
use farkas_cert::{Certificate, Step, StepList, System, Terms};
use std::alloc::{AllocError, Global};

// Marks the rows that the derivation names.
fn mark(needed: &mut [bool], derivation: &Derivation)
    requires { All (λ t. (1 ≤ t.0) × (t.0 ≤ length needed.old)) (step_of derivation.now).terms }
    ensures { AreMarkedToo needed.old (step_of derivation.now) needed.new }
{
    needed[derivation.first.0 as usize - 1] = true;
    if let Some((number, _)) = derivation.second {
        needed[number as usize - 1] = true;
    }
}

// Which rows the last derivation needs, of the given ones and the derived ones: a walk back.
fn needed_rows(alloc: Global, given: usize, log: &[Derivation]) -> Result<Vec<bool>, AllocError>
    requires fits { given + length log.now < 2 ^ 64 }
    requires some { 0 < length log.now }
    requires named { (k : ℕ) (d : DerivationOf) → k < length log.now → All (λ t. (1 ≤ t.0)
        × (t.0 ≤ given + k)) (step_of (slice_index_or log.now k d)).terms }
    ensures { IfOk result (λ needed. AreNeeded given log.now 0 needed.items) }
{
    let mut needed = vec![in alloc; false; given + log.len()]?;
    needed[given + log.len() - 1] = true;
    for place in (0..log.len()).rev() {
        if needed[given + place] {
            mark(needed.as_mut_slice(), &log[place]);
        }
    }
    Ok(needed)
}

// The given rows keep their numbers.
fn own_numbers(alloc: Global, given: usize) -> Result<Vec<u64>, AllocError>
    ensures count { IfOk result (λ numbers. length numbers.items ≡ given) }
    ensures own { IfOk result (λ numbers. (k : ℕ) → k < given → slice_index numbers.items k
        ≡ k + 1) }
{
    let mut numbers = Vec::with_capacity(alloc, given)?;
    for index in 0..given {
        numbers.push(index as u64 + 1)?;
    }
    Ok(numbers)
}

// The step of a derivation, by the new numbers of the rows.
fn renumbered(alloc: Global, numbers: &[u64], derivation: &Derivation) -> Result<Step, AllocError>
    requires { All (λ t. (1 ≤ t.0) × (t.0 ≤ length numbers.now)) (step_of derivation.now).terms }
    ensures { IfOk result (λ step. step ≡ renumbered_by numbers.now (step_of derivation.now)) }
{
    let mut terms = Vec::new(alloc);
    let (row, multiplier) = derivation.first;
    terms.push((numbers[row as usize - 1], multiplier))?;
    if let Some((row, multiplier)) = derivation.second {
        terms.push((numbers[row as usize - 1], multiplier))?;
    }
    Ok(Step {
        divisor: derivation.divisor,
        terms: Terms::from_vec(terms),
    })
}

// The steps of the needed derivations, numbered anew.
fn needed_steps(
    alloc: Global,
    system: &System,
    log: &[Derivation],
    needed: &[bool],
) -> Result<Vec<Step>, AllocError>
    requires log { IsLog system.now log.now }
    requires some { 0 < length log.now }
    requires needed { AreNeeded (length system.now.rows) log.now 0 needed.now }
    ensures good { IfOk result (λ steps. AreGoodSteps system.now.vars system.now.rows steps.items) }
    ensures last { IfOk result (λ steps. let rows = rows_after system.now.vars system.now.rows
        steps.items in (0 < length rows) × (row_at rows (length rows)
        ≡ row_at (all_rows system.now log.now) (length system.now.rows + length log.now))) }
    ensures lean { IfOk result (λ steps. (c : CertificateOf) → c.steps ≡ steps.items
        → IsLean system.now c) }
{
    let given = system.rows().len();
    let mut numbers = own_numbers(alloc, given)?;
    let mut steps = Vec::new(alloc);
    for (place, derivation) in log.iter().enumerate() {
        if needed[given + place] {
            let step = renumbered(alloc, numbers.as_slice(), derivation)?;
            steps.push(step)?;
        }
        numbers.push((given + steps.len()) as u64)?;
    }
    Ok(steps)
}

// The steps that end with this given row, a contradiction: none if it is the last row.
fn steps_to_given(alloc: Global, system: &System, number: u64) -> Result<Vec<Step>, AllocError>
    requires { (row : RowOf) × IsNumber system.now.rows number row × IsSuited system.now.vars row
        × IsContradiction row }
    ensures good { IfOk result (λ steps. (c : CertificateOf) → c.steps ≡ steps.items
        → IsGood system.now c) }
    ensures lean { IfOk result (λ steps. (c : CertificateOf) → c.steps ≡ steps.items
        → IsLean system.now c) }
{
    let mut steps = Vec::new(alloc);
    if (number as usize) < system.rows().len() {
        let copy = Derivation {
            divisor: 1,
            first: (number, 1),
            second: None,
        };
        let numbers = own_numbers(alloc, system.rows().len())?;
        let step = renumbered(alloc, numbers.as_slice(), &copy)?;
        steps.push(step)?;
    }
    Ok(steps)
}

/// The certificate that ends with the row of this number, a contradiction: one step for each
/// derivation that the row needs, and no other. It takes time in the number of rows and of
/// derivations. An error says that memory ran out.
pub fn certificate_of(
    alloc: Global,
    system: &System,
    log: &[Derivation],
    number: u64,
) -> Result<Certificate, AllocError>
    requires log { IsLog system.now log.now }
    requires number { (row : RowOf) × IsNumber (all_rows system.now log.now) number row
        × IsSuited system.now.vars row × IsContradiction row }
    ensures good { IfOk result (λ certificate. IsGood system.now certificate) }
    ensures lean { IfOk result (λ certificate. IsLean system.now certificate) }
{
    let given = system.rows().len();
    let steps = if number as usize <= given {
        steps_to_given(alloc, system, number)?
    } else {
        let log = &log[..number as usize - given];
        let needed = needed_rows(alloc, given, log)?;
        needed_steps(alloc, system, log, needed.as_slice())?
    };
    Ok(Certificate {
        steps: StepList::from_vec(steps),
    })
}
