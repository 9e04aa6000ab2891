// Why bytes are no plan's text.

ghost use Rattle.std.specs.Prelude.{◌≡◌, Some};
ghost use Rattle.plan_text.specs.SyntaxText.{text_of_syntax};
ghost use Rattle.plan_text.specs.declared.syntax.PlanSyntax.TheVariants.{NoMemory};

use std::alloc::{AllocError, AllocFailed};
use std::fmt;

/// Why bytes are not read as a plan.
#[derive(Clone, Copy, Debug, PartialEq, Eq)]
pub enum PlanSyntax {
    /// The first line, from 1, that no plan's text has behind the lines above it. A missing line
    /// counts as the next one, and bytes behind the last line as a line of their own.
    Line(u32),
    /// Memory ran out. It says nothing of the bytes.
    NoMemory,
}

/// The line that is printed, without its line end.
impl fmt::Display for PlanSyntax {
    ghost output = { λ refusal. Some (text_of_syntax refusal) };

    fn fmt<W: fmt::Write>(&self, f: &mut fmt::Formatter<W>) -> fmt::Result {
        match self {
            PlanSyntax::Line(number) => write!(f, "PLAN SYNTAX {number}"),
            PlanSyntax::NoMemory => write!(f, "out of memory"),
        }
    }
}

impl From<AllocError> for PlanSyntax {
    ghost from_gives = { λ _ refusal. refusal ≡ NoMemory };

    fn from(_error: AllocError) -> PlanSyntax {
        PlanSyntax::NoMemory
    }
}

impl<T: Drop> From<AllocFailed<T>> for PlanSyntax {
    ghost from_gives = { λ _ refusal. refusal ≡ NoMemory };

    fn from(_failed: AllocFailed<T>) -> PlanSyntax {
        PlanSyntax::NoMemory
    }
}
