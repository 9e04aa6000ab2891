// What a part took, by the clock, and what it writes.

use plan_input::InputError;
use std::io;
use std::time::Instant;

/// What is told of a part: its times, and the text that it writes.
#[derive(Drop)]
pub(crate) struct Measure {
    pub(crate) times: String,
    pub(crate) text: Vec<u8>,
}

/// Now, by the clock, whose fault counts as one of a read.
pub(crate) fn now(rt: &HostRuntime) -> Result<Instant, InputError> {
    match Instant::now(rt) {
        Ok(now) => Ok(now),
        Err(error) => Err(fault_of(error)),
    }
}

/// How many microseconds ago that was.
pub(crate) fn micros_since(rt: &HostRuntime, begun: &Instant) -> Result<u128, InputError> {
    match begun.elapsed(rt) {
        Ok(took) => Ok(took.as_micros()),
        Err(error) => Err(fault_of(error)),
    }
}

/// What is told of a part that began then, ends now, and writes this text.
pub(crate) fn measured(
    rt: &HostRuntime,
    part: &str,
    begun: &Instant,
    text: &[u8],
) -> Result<Measure, InputError> {
    let took = micros_since(rt, begun)?;
    let alloc = rt.alloc();
    Ok(Measure {
        times: format!(in alloc; "{part} {took}")?,
        text: text.to_vec(alloc)?,
    })
}

fn fault_of(error: io::Error) -> InputError {
    InputError::from_fault(error, InputError::ReadFault)
}
