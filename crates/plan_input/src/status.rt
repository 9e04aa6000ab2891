// How a process ends.

ghost use Rattle.std.specs.Prelude.{◌≡◌, ◌⊎◌, OnErr, OnOk};
ghost use Rattle.plan_input.specs.Statuses.{code_of};
ghost use Rattle.plan_input.specs.declared.status.Status.TheVariants as statuses;

use crate::error::InputError;
use std::io;

/// How a process ends, which it does with this number.
#[derive(Clone, Copy, Debug, PartialEq, Eq)]
pub enum Status {
    /// 0: all was done.
    Done,
    /// 1: the source is refused.
    SourceRefused,
    /// 2: the words are none that are offered, or a setting is wrong.
    BadWords,
    /// 3: a read failed.
    ReadFault,
    /// 4: a write failed, or took no byte.
    WriteFault,
    /// 5: memory ran out.
    NoMemory,
    /// 6: the plan that is given is refused.
    PlanRefused,
    /// 7: the source is too long.
    TooLong,
}

impl Status {
    /// The number with which the process ends.
    pub fn code(self) -> u8
        ensures { result ≡ code_of self }
    {
        match self {
            Status::Done => 0,
            Status::SourceRefused => 1,
            Status::BadWords => 2,
            Status::ReadFault => 3,
            Status::WriteFault => 4,
            Status::NoMemory => 5,
            Status::PlanRefused => 6,
            Status::TooLong => 7,
        }
    }
}

/// How a process ends where a write went so: as this says where it went well, else with a fault of
/// writing or with want of memory.
pub fn status_of_write(written: io::Result<()>, status: Status) -> Status
    ensures ok { OnOk written (result ≡ status) }
    ensures err { OnErr written ((result ≡ statuses.NoMemory) ⊎ (result ≡ statuses.WriteFault)) }
{
    match written {
        Ok(()) => status,
        Err(error) => InputError::from_fault(error, InputError::WriteFault).status(),
    }
}
