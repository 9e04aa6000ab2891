// Why a source is refused by its lines.

ghost use Rattle.std.specs.Prelude.{◌≡◌, ◌++◌, Some, codes};
ghost use Rattle.f77_lines.specs.declared.refusal.LineRefusal.TheVariants.{NoMemory};
ghost use Rattle.f77_lines.specs.RefusalText.{text_of_refusal};

use std::alloc::AllocError;
use std::error::Error;
use std::fmt;

/// The most bytes that a source may have.
pub const MOST_BYTES: usize = 4_194_304;

/// Why [`statements`](crate::statements) gave no list, each fault with its line from 1.
#[derive(Clone, Copy, Debug, PartialEq, Eq)]
pub enum LineRefusal {
    /// A byte of columns 1 to 72 of a line that is no comment is none of 32 to 126.
    BadCharacter(u32),
    /// Columns 1 to 5 of an initial line hold more than blanks and digits, or only zeros.
    BadLabel(u32),
    /// A continuation line stands in front of the first initial line, is the twentieth of its
    /// statement, or has more than blanks in columns 1 to 5.
    BadContinuation(u32),
    /// No line is END: the line behind the last.
    NoEnd(u32),
    /// A line behind END is no comment. [`statements`](crate::statements) never gives it: see
    /// [`first_behind`](crate::first_behind).
    AfterEnd(u32),
    /// Memory ran out.
    NoMemory,
}

impl From<AllocError> for LineRefusal {
    ghost from_gives = { λ _ e. e ≡ NoMemory };

    fn from(_e: AllocError) -> LineRefusal {
        LineRefusal::NoMemory
    }
}

/// The line that the program prints, without its line end.
impl fmt::Display for LineRefusal {
    ghost output = { λ refusal. Some (text_of_refusal refusal) };

    fn fmt<W: fmt::Write>(&self, f: &mut fmt::Formatter<W>) -> fmt::Result {
        match self {
            LineRefusal::BadCharacter(line) => write!(f, "REFUSED L1 LINE {line}"),
            LineRefusal::BadLabel(line) => write!(f, "REFUSED L2 LINE {line}"),
            LineRefusal::BadContinuation(line) => write!(f, "REFUSED L3 LINE {line}"),
            LineRefusal::NoEnd(line) => write!(f, "REFUSED L4 LINE {line}"),
            LineRefusal::AfterEnd(line) => write!(f, "REFUSED L5 LINE {line}"),
            LineRefusal::NoMemory => write!(f, "memory ran out"),
        }
    }
}

impl Error for LineRefusal {}
