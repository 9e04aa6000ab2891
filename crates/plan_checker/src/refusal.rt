// Why a plan is refused.

ghost use Rattle.std.specs.Prelude.{◌≡◌, Some};
ghost use Rattle.plan_checker.specs.RefusalText.{text_of_refusal, text_of_bad};
ghost use Rattle.plan_checker.specs.declared.refusal.PlanRefusal.TheVariants.{NoMemory};

use farkas_cert::CertRefusal;
use std::alloc::AllocError;
use std::error::Error;
use std::fmt;

/// Why a plan is refused. Its text is the line that is printed for it, without its line end.
#[derive(Clone, Copy, Debug, PartialEq, Eq)]
pub enum PlanRefusal {
    /// A field of the plan's shape is wrong for the program: 1 the workers aren't 1 to 64; 2 the
    /// marks aren't as many as the loops; 3 a mark stands where it may not; 4 the anchors or the
    /// kinds aren't as many as the static phases; 5 an anchor of a phase, 6 of a kind, names a loop
    /// that it may not or a named constant that isn't there, or its block isn't 1 to 2147483647;
    /// 8 a row of conditions is malformed, or the version has none; 9 a Sum loop hasn't 1 to 16 sum
    /// scalars, or the version has no such loops; 10 the lists of private scalars aren't as many as
    /// the loops, or one has scalars though the loop's trips aren't dealt or the version has none,
    /// or has more than 16, doesn't rise, or names a scalar that may not be private there. The
    /// least such field, and behind these 7: there are more certificates than obligations.
    Shape(u32),
    /// The first block anchor, the phases' first and then the kinds', whose interval leaves its
    /// blocks.
    Placement { phase: u32, low: i128, high: i128 },
    /// The first static phase, from 1, with a PRINT whose trips are dealt or that has another form
    /// than the constant 0.
    PrintPlace(u32),
    /// The first row of conditions, from 1, that the values of the named constants don't meet.
    Condition(u64),
    /// The program doesn't agree with the one on which the plan was proved.
    Differs,
    /// The first obligation that isn't certified, by its number from 1, has no certificate.
    Missing(u64),
    /// The first obligation that isn't certified, by its number from 1, has a bad certificate,
    /// for this reason.
    Bad(u64, CertRefusal),
    /// Memory ran out. It says nothing of the plan.
    NoMemory,
}

impl From<AllocError> for PlanRefusal {
    ghost from_gives = { λ _ refusal. refusal ≡ NoMemory };

    fn from(_error: AllocError) -> PlanRefusal {
        PlanRefusal::NoMemory
    }
}

/// The line that is printed, without its line end.
impl fmt::Display for PlanRefusal {
    ghost output = { λ refusal. Some (text_of_refusal refusal) };

    fn fmt<W: fmt::Write>(&self, f: &mut fmt::Formatter<W>) -> fmt::Result {
        match self {
            PlanRefusal::Shape(field) => write!(f, "PLAN P1 {field}"),
            PlanRefusal::Placement { phase, low, high } => {
                write!(f, "PLAN P2 {phase} {low} {high}")
            }
            PlanRefusal::PrintPlace(phase) => write!(f, "PLAN P3 {phase}"),
            PlanRefusal::Missing(obligation) => write!(f, "PLAN P4 {obligation}"),
            PlanRefusal::Bad(obligation, reason) => {
                write!(f, "PLAN P5 {obligation} {}", Reason(*reason))
            }
            PlanRefusal::Condition(row) => write!(f, "PLAN P6 {row}"),
            PlanRefusal::Differs => write!(f, "PLAN P7"),
            PlanRefusal::NoMemory => write!(f, "memory ran out"),
        }
    }
}

// Why a certificate is refused, as its code.
#[derive(Drop)]
struct Reason(CertRefusal);

impl fmt::Display for Reason {
    ghost output = { λ reason. Some (text_of_bad reason.0) };

    fn fmt<W: fmt::Write>(&self, f: &mut fmt::Formatter<W>) -> fmt::Result {
        match self.0 {
            CertRefusal::NegativeMultiplier(step) => write!(f, "C1 {step}"),
            CertRefusal::BadRow(step) => write!(f, "C2 {step}"),
            CertRefusal::BadDivisor(step) => write!(f, "C3 {step}"),
            CertRefusal::Wide(step, entry) => write!(f, "C4 {step} {entry}"),
            CertRefusal::NoContradiction(row) => write!(f, "C5 {row}"),
            CertRefusal::NoMemory => write!(f, "memory ran out"),
        }
    }
}

impl Error for PlanRefusal {}
