// Why there is no program or no plan, and how the process ends then.

ghost use Rattle.std.specs.Prelude.{◌≡◌, ◌⊎◌, Some};
ghost use Rattle.f77_lines.specs.declared.refusal.LineRefusal.TheVariants as line_refusals;
ghost use Rattle.f77_program.specs.declared.refusal.Refusal.TheVariants as refusals;
ghost use Rattle.plan_checker.specs.declared.refusal.PlanRefusal.TheVariants as misfits;
ghost use Rattle.plan_text.specs.declared.syntax.PlanSyntax.TheVariants as syntaxes;
ghost use Rattle.plan_input.specs.Statuses.{is_told, status_of};
ghost use Rattle.plan_input.specs.ErrorText.{text_of_error};
ghost use Rattle.plan_input.specs.Errors.{IsToldAs};
ghost use Rattle.plan_input.specs.declared.error.InputError.TheVariants as errors;

use crate::status::Status;
use f77_lines::LineRefusal;
use f77_program::Refusal;
use plan_checker::PlanRefusal;
use plan_text::PlanSyntax;
use range_check::OutOfRange;
use std::alloc::AllocError;
use std::io::ErrorKind;
use std::{fmt, io};

/// Why there is no program, or no plan that fits it.
#[derive(Clone, Copy, Debug)]
pub enum InputError {
    /// There are other words than the process takes.
    BadWords,
    /// The words are those, but for a sweep, which has not its form or names no named constant.
    BadSweep,
    /// The input is too long.
    TooLong,
    /// The source is refused by its lines.
    Line(LineRefusal),
    /// The source is refused by a statement, or a setting is wrong.
    Statement(Refusal),
    /// The program passes a limit.
    Limit(nest_tree::Limit),
    /// A subscript of the program is out of range.
    Range(OutOfRange),
    /// What stands behind the source is no plan's text.
    Syntax(PlanSyntax),
    /// The plan does not fit the program.
    Misfit(PlanRefusal),
    /// A read failed.
    ReadFault,
    /// A write failed.
    WriteFault,
    /// Memory ran out.
    NoMemory,
}

impl InputError {
    /// What a fault of the outside is: want of memory, or else this error.
    pub fn from_fault(error: io::Error, other: InputError) -> InputError
        ensures { (result ≡ errors.NoMemory) ⊎ (result ≡ other) }
    {
        if error.kind() == ErrorKind::OutOfMemory {
            InputError::NoMemory
        } else {
            other
        }
    }

    /// How the process ends.
    pub fn status(self) -> Status
        ensures { result ≡ status_of self }
    {
        match self {
            InputError::Statement(Refusal::BadSetting(_)) => Status::BadWords,
            InputError::BadWords | InputError::BadSweep => Status::BadWords,
            InputError::Line(_)
            | InputError::Statement(_)
            | InputError::Limit(_)
            | InputError::Range(_) => { Status::SourceRefused }
            InputError::ReadFault => Status::ReadFault,
            InputError::WriteFault => Status::WriteFault,
            InputError::NoMemory => Status::NoMemory,
            InputError::Syntax(_) | InputError::Misfit(_) => Status::PlanRefused,
            InputError::TooLong => Status::TooLong,
        }
    }

    /// Whether a line is written to standard output that tells it.
    pub fn is_told(self) -> bool
        ensures { result ≡ is_told self }
    {
        match self {
            InputError::Line(_)
            | InputError::Statement(_)
            | InputError::Limit(_)
            | InputError::Range(_) => true,
            InputError::Syntax(_) | InputError::Misfit(_) => true,
            InputError::BadWords | InputError::BadSweep | InputError::TooLong => true,
            InputError::ReadFault | InputError::WriteFault | InputError::NoMemory => false,
        }
    }
}

/// The line that tells it, without its line end.
impl fmt::Display for InputError {
    ghost output = { λ error. Some (text_of_error error) };

    fn fmt<W: fmt::Write>(&self, f: &mut fmt::Formatter<W>) -> fmt::Result {
        match self {
            InputError::BadWords => write!(f, "WORDS 0"),
            InputError::BadSweep => write!(f, "WORDS SWEEP"),
            InputError::TooLong => write!(f, "TOO LONG"),
            InputError::Line(refusal) => write!(f, "{refusal}"),
            InputError::Statement(refusal) => write!(f, "{refusal}"),
            InputError::Limit(limit) => write!(f, "{limit}"),
            InputError::Range(outside) => write!(f, "{outside}"),
            InputError::Syntax(refusal) => write!(f, "{refusal}"),
            InputError::Misfit(refusal) => write!(f, "{refusal}"),
            InputError::ReadFault => write!(f, "a read failed"),
            InputError::WriteFault => write!(f, "a write failed"),
            InputError::NoMemory => write!(f, "memory ran out"),
        }
    }
}

impl From<AllocError> for InputError {
    ghost from_gives = { λ _ error. error ≡ errors.NoMemory };

    fn from(_error: AllocError) -> InputError {
        InputError::NoMemory
    }
}

impl From<LineRefusal> for InputError {
    ghost from_gives = { IsToldAs line_refusals.NoMemory errors.Line };

    fn from(refusal: LineRefusal) -> InputError {
        match refusal {
            LineRefusal::NoMemory => InputError::NoMemory,
            refusal => InputError::Line(refusal),
        }
    }
}

impl From<Refusal> for InputError {
    ghost from_gives = { IsToldAs refusals.NoMemory errors.Statement };

    fn from(refusal: Refusal) -> InputError {
        match refusal {
            Refusal::NoMemory => InputError::NoMemory,
            refusal => InputError::Statement(refusal),
        }
    }
}

impl From<PlanSyntax> for InputError {
    ghost from_gives = { IsToldAs syntaxes.NoMemory errors.Syntax };

    fn from(refusal: PlanSyntax) -> InputError {
        match refusal {
            PlanSyntax::NoMemory => InputError::NoMemory,
            refusal => InputError::Syntax(refusal),
        }
    }
}

impl From<PlanRefusal> for InputError {
    ghost from_gives = { IsToldAs misfits.NoMemory errors.Misfit };

    fn from(refusal: PlanRefusal) -> InputError {
        match refusal {
            PlanRefusal::NoMemory => InputError::NoMemory,
            refusal => InputError::Misfit(refusal),
        }
    }
}
