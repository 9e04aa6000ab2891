// Whole solutions that are known: those of earlier reasons may solve a system too.

ghost use Rattle.std.specs.Prelude.{IfOk, IfSome};
ghost use Rattle.farkas_cert.specs.Inequalities.{IsWholeSolution};
ghost use Rattle.quick_elim.specs.Settled.{IsSettled};

use crate::account::{Reason, Why};
use crate::found::Finding;
use comm_system::Obligation;
use quick_elim::{Budget, Point, Settled, settle};
use std::alloc::{AllocError, Global};

// Whether two obligations are of the same lines, variable, level and piece.
fn are_alike(these: &Obligation, those: &Obligation) -> bool {
    these.lines == those.lines
        && these.variable == those.variable
        && these.level == those.level
        && these.piece == those.piece
}

// The solution that a reason tells of an obligation like this one, if it tells one.
fn point_of<'k>(reason: &'k Reason, obligation: &Obligation) -> Option<&'k Point> {
    match &reason.why {
        Why::Found(found) if are_alike(&found.obligation, obligation) => match &found.finding {
            Finding::Solved(point, _) => Some(point),
            Finding::Refuted | Finding::Unknown => None,
        },
        _ => None,
    }
}

// Of what these reasons tell a solution of an obligation's system, if one is seen.
fn known_solution<'k>(known: &'k [Reason], obligation: &Obligation) -> Option<&'k Point>
    ensures { IfSome result (λ point. IsWholeSolution obligation.now.system point.now) }
{
    for reason in known {
        if let Some(point) = point_of(reason, obligation) {
            if point.solves(&obligation.system) {
                return Some(point);
            }
        }
    }
    None
}

/// What settles an obligation's system: a solution that these reasons tell, or else what a quick look
/// finds. An error says that memory ran out.
pub(crate) fn settled(
    alloc: Global,
    known: &[Reason],
    obligation: &Obligation,
) -> Result<Settled, AllocError>
    ensures { IfOk result (IsSettled obligation.now.system) }
{
    if let Some(point) = known_solution(known, obligation) {
        let values = Vec::from_slice(alloc, point.as_slice())?;
        return Ok(Settled::Solved(Point::from_vec(values)));
    }
    match settle(alloc, &obligation.system, &Budget::default()) {
        Ok(settled) => Ok(settled),
        Err(_) => Err(AllocError),
    }
}
