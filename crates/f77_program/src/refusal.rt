// Why a source stands for no program.

ghost use Rattle.std.specs.Prelude.{◌≡◌, Some};
ghost use Rattle.f77_program.specs.Refusals.{text_of_refusal};
ghost use Rattle.f77_program.specs.declared.refusal.Refusal.TheVariants.{NoMemory};

use std::alloc::AllocError;
use std::error::Error;
use std::fmt;

/// The fault of a statement, with its code in the program's output.
#[derive(Clone, Copy, Debug, PartialEq, Eq)]
pub enum Fault {
    /// F2: something that this language leaves out of FORTRAN 77.
    NotInProfile,
    /// F11: a number past 9223372036854775807.
    LiteralTooLarge,
    /// F1: a text without form, or a statement out of order.
    Syntax,
    /// F4: a name that is not what it is used as.
    Unknown,
    /// F3: a variable that is not INTEGER.
    NotInteger,
    /// F10: a DO variable that is stored to, read outside its loop, or no DO variable.
    LoopVariable,
    /// F5: an array with too many or too few subscripts.
    Rank,
    /// F8: a divisor that is no constant, or is 0.
    BadDivisor,
    /// F6: a subscript, a DO bound or a side of a comparison that is not affine, or a step that is no constant.
    NotAffine,
    /// F7: a step of 0.
    ZeroStep,
    /// F9: a label that is used twice, or that ends loops where they may not end; loops open at END.
    DoLabel,
    /// F12: a limit, with the number that passes it.
    Count(i64),
}

/// Why a source is refused.
#[derive(Clone, Copy, Debug, PartialEq, Eq)]
pub enum Refusal {
    /// The first fault of a statement, with the line where the statement begins, from 1.
    Statement(Fault, u32),
    /// The first setting, by its number from 1, that names no PARAMETER.
    BadSetting(usize),
    NoMemory,
}

impl From<AllocError> for Refusal {
    ghost from_gives = { λ _ e. e ≡ NoMemory };

    fn from(_e: AllocError) -> Refusal {
        Refusal::NoMemory
    }
}

/// The line that the program prints, without its line end.
impl fmt::Display for Refusal {
    ghost output = { λ refusal. Some (text_of_refusal refusal) };

    fn fmt<W: fmt::Write>(&self, f: &mut fmt::Formatter<W>) -> fmt::Result {
        match self {
            Refusal::Statement(fault, line) => {
                let code = fault.code();
                match fault {
                    Fault::Count(count) => write!(f, "REFUSED F{code} LINE {line} COUNT {count}"),
                    _ => write!(f, "REFUSED F{code} LINE {line}"),
                }
            }
            Refusal::BadSetting(index) => write!(f, "WORDS {index}"),
            Refusal::NoMemory => write!(f, "memory ran out"),
        }
    }
}

impl Error for Refusal {}

impl Fault {
    ghost use Rattle.std.specs.Prelude.{◌≡◌};
    ghost use Rattle.f77_program.specs.Refusals.{code_of};

    /// The number of its code, from 1 to 12.
    pub fn code(self) -> u32
        ensures { result ≡ code_of self }
    {
        match self {
            Fault::Syntax => 1,
            Fault::NotInProfile => 2,
            Fault::NotInteger => 3,
            Fault::Unknown => 4,
            Fault::Rank => 5,
            Fault::NotAffine => 6,
            Fault::ZeroStep => 7,
            Fault::BadDivisor => 8,
            Fault::DoLabel => 9,
            Fault::LoopVariable => 10,
            Fault::LiteralTooLarge => 11,
            Fault::Count(_) => 12,
        }
    }
}
