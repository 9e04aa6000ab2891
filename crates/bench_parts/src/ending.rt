// How a run ends.

ghost use Rattle.std.specs.Prelude.{◌≡◌};
ghost use Rattle.std.specs.Option.{option_map};
ghost use Rattle.bench_parts.specs.Endings.{code_of, message_of};

/// How a run ends.
#[derive(Clone, Copy, Debug, PartialEq, Eq)]
pub enum Ending {
    /// All was done.
    Done,
    /// What was read is refused, and the line that tells why was written.
    Refused,
    /// The words name no part that is timed.
    BadWords,
    /// A certificate was refused, and the line that tells so was written.
    BadCertificate,
    /// A read or a write failed.
    Fault,
    /// Memory ran out.
    NoMemory,
}

impl Ending {
    /// The status of the process.
    pub fn code(self) -> u8
        ensures { result ≡ code_of self }
    {
        match self {
            Ending::Done => 0,
            Ending::Refused => 1,
            Ending::BadWords => 2,
            Ending::BadCertificate => 3,
            Ending::Fault => 4,
            Ending::NoMemory => 5,
        }
    }

    /// What is told on standard error.
    pub fn message(self) -> Option<&'static str>
        ensures { option_map (λ message. message.now) result ≡ message_of self }
    {
        match self {
            Ending::Done | Ending::Refused | Ending::BadCertificate => None,
            Ending::BadWords => Some("the words are PART or PART --times"),
            Ending::Fault => Some("a read or a write failed"),
            Ending::NoMemory => Some("memory ran out"),
        }
    }
}
