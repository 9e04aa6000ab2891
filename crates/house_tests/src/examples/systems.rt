// Systems of inequalities: one that a certificate refutes, and one that is decided.

ghost use Rattle.std.specs.Prelude.{◌≡◌, IfOk, OnOk};
ghost use Rattle.farkas_cert.specs.Inequalities.{HasNoWholeSolution};

use farkas_cert::{
    CertRefusal, Certificate, Coefs, NarrowSystem, Row, Step, StepList, System, Terms, check_cert,
};
use fm_elim::{Answer, NoMemory, decide};
use std::alloc::{AllocError, Global};

/// `x <= 2` and `-x <= -3`.
pub(crate) fn apart(alloc: Global) -> Result<System, AllocError>
    ensures { IfOk result (λ system. system.vars ≡ 1) }
{
    let mut system = System::empty(alloc, 1);
    for (coef, bound) in [(1, 2), (-1, -3)] {
        let coefs = Coefs::from_slice(alloc, &[coef])?;
        system.push(Row { coefs, bound })?;
    }
    Ok(system)
}

/// That a system has no whole solution: its first two rows are added, which is to give
/// `0 <= bound` with a bound below 0.
pub(crate) fn refute(alloc: Global, system: &System) -> Result<(), CertRefusal>
    ensures { OnOk result (HasNoWholeSolution system.now) }
{
    let sum = Step {
        divisor: 1,
        terms: Terms::from_vec(vec![in alloc; (1, 1), (2, 1)]?),
    };
    let certificate = Certificate {
        steps: StepList::from_vec(vec![in alloc; sum]?),
    };
    check_cert(alloc, system, &certificate)
}

/// Whether a system of one variable has a solution; None where a number in it is too large.
pub(crate) fn decided(alloc: Global, system: System) -> Result<Option<Answer>, NoMemory>
    requires { system.vars ≡ 1 }
{
    let Some(narrow) = NarrowSystem::from_system(system) else {
        return Ok(None);
    };
    Ok(Some(decide(alloc, narrow.as_system(), &[1])?))
}
