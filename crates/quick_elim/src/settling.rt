// The search, with the checks behind it.

ghost use Rattle.std.specs.Prelude.{◌≡◌, IfOk};
ghost use Rattle.farkas_cert.specs.Good.{IsGood};
ghost use Rattle.quick_elim.specs.Points.{IsSeenSolution};
ghost use Rattle.quick_elim.specs.Settled.{IsSettled};
ghost use Rattle.quick_elim.specs.declared.answer.Settled.TheVariants.{Refuted, Solved};

use crate::answer::{Budget, NoMemory, Settled};
use crate::certificate::certificate_of;
use crate::early_end::EarlyEnd;
use crate::point::Point;
use crate::values::find_values;
use crate::work::Work;
use farkas_cert::{CertRefusal, Certificate, System, check_cert};
use std::alloc::{AllocError, Global};

// What the search comes to. Nothing is known of it.
#[derive(Drop)]
enum Guess {
    Certificate(Certificate),
    Point(Point),
    Nothing,
}

// Removes all variables of a system.
fn remove_all(alloc: Global, system: &System, work: &mut Work) -> Result<(), EarlyEnd> {
    work.put_all(system.rows())?;
    work.remove_all(alloc)
}

// The values that the work leads to.
fn guess_point(alloc: Global, work: &Work) -> Result<Guess, AllocError> {
    let found = find_values(alloc, work)?;
    let Some(found) = found else {
        return Ok(Guess::Nothing);
    };
    let mut values = Vec::with_capacity(alloc, found.len())?;
    for value in &found {
        values.push(i128::from(*value))?;
    }
    Ok(Guess::Point(Point::from_vec(values)))
}

// Looks for a certificate or a point in an order.
fn look(alloc: Global, system: &System, budget: &Budget, order: u32) -> Result<Guess, AllocError> {
    let mut work = match Work::new(alloc, system, budget, order) {
        Ok(work) => work,
        Err(EarlyEnd::NoMemory) => return Err(AllocError),
        Err(_) => return Ok(Guess::Nothing),
    };
    match remove_all(alloc, system, &mut work) {
        Ok(()) => guess_point(alloc, &work),
        Err(EarlyEnd::Contradiction(number)) => {
            let certificate = certificate_of(alloc, work.given, work.made.as_slice(), number)?;
            Ok(Guess::Certificate(certificate))
        }
        Err(EarlyEnd::GivenUp) => Ok(Guess::Nothing),
        Err(EarlyEnd::NoMemory) => Err(AllocError),
    }
}

// The certificate, where it is good for a system.
fn checked_certificate(
    alloc: Global,
    system: &System,
    certificate: Certificate,
) -> Result<Settled, NoMemory>
    ensures settled { IfOk result (IsSettled system.now) }
    ensures taken { IsGood system.now certificate → IfOk result (λ s. s ≡ Refuted certificate) }
{
    match check_cert(alloc, system, &certificate) {
        Ok(()) => Ok(Settled::Refuted(certificate)),
        Err(CertRefusal::NoMemory) => Err(NoMemory),
        Err(_) => Ok(Settled::Unknown),
    }
}

// The point, where it is seen to solve a system.
fn checked_point(system: &System, point: Point) -> Settled
    ensures settled { IsSettled system.now result }
    ensures taken { IsSeenSolution system.now point → result ≡ Solved point }
{
    if point.solves(system) {
        Settled::Solved(point)
    } else {
        Settled::Unknown
    }
}

// What is found of a system in an order, and checked.
fn settle_in(
    alloc: Global,
    system: &System,
    budget: &Budget,
    order: u32,
) -> Result<Settled, NoMemory>
    ensures { IfOk result (IsSettled system.now) }
{
    match look(alloc, system, budget, order)? {
        Guess::Certificate(certificate) => checked_certificate(alloc, system, certificate),
        Guess::Point(point) => Ok(checked_point(system, point)),
        Guess::Nothing => Ok(Settled::Unknown),
    }
}

/// Looks for what settles a system, within a budget.
///
/// Refuted comes with a certificate that is good for the system, so that it has no whole solution;
/// Solved with a whole solution of it. Where neither is found within the budget and in 64 bits the
/// answer is Unknown, which says nothing of the system. An error says that memory ran out, and nothing
/// of the system.
pub fn settle(alloc: Global, system: &System, budget: &Budget) -> Result<Settled, NoMemory>
    ensures { IfOk result (IsSettled system.now) }
{
    for order in 0..budget.orders {
        match settle_in(alloc, system, budget, order)? {
            Settled::Unknown => {}
            settled => return Ok(settled),
        }
    }
    Ok(Settled::Unknown)
}
