// Why a text has no form, or a part of it gave nothing.

ghost use Rattle.std.specs.Prelude.{◌≡◌};
ghost use Rattle.f77_forms.specs.declared.fault.Fault.TheVariants.{Memory};

use std::alloc::{AllocError, AllocFailed};

/// Why a text gave no statement.
#[derive(Clone, Copy, Debug, PartialEq, Eq)]
pub enum TextFault {
    /// The text has no form and something that this language leaves out of FORTRAN 77: another
    /// statement, `**`, a real number, a dotted word, or a character constant outside the items
    /// of a PRINT.
    NotInProfile,
    /// The text has no form and a number past 9223372036854775807, and nothing that is left out.
    LiteralTooLarge,
    /// The text has no form, for another reason.
    NoForm,
    /// Memory ran out.
    NoMemory,
}

/// Why a part of a text gave nothing.
#[derive(Clone, Copy, Debug, PartialEq, Eq)]
pub enum Fault {
    Memory,
    /// The text has no form here.
    NoForm,
}

impl From<AllocError> for Fault {
    ghost from_gives = { λ _ e. e ≡ Memory };

    fn from(_e: AllocError) -> Fault {
        Fault::Memory
    }
}

impl<T: Drop> From<AllocFailed<T>> for Fault {
    ghost from_gives = { λ _ e. e ≡ Memory };

    fn from(_e: AllocFailed<T>) -> Fault {
        Fault::Memory
    }
}
