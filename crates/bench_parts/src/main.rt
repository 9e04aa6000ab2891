//! Times a part of the command over what it reads from standard input.
//!
//! The first word names the part. With a second word, `--times`, it also writes to standard error
//! how many microseconds the part took.
//!
//! | Part | Reads | Writes |
//! |---|---|---|
//! | `systems` | systems of inequalities, one after the other | a line for each: what elimination says of it |
//! | `source` | a source | how many outermost statements, named constants and variables it has |
//! | `plan` | a plan's text | the text |
//! | `ranges` | a source, whose subscripts are checked | nothing |
//! | `run` | a source | the output of the sequential run |
//! | `machine` | a source and behind it a plan's text | the output of the round robin by the plan |
//! | `join`, `spmd`, `signals` | the same, with a plan that is accepted | the output of the run by fork and join, or over shared words with barriers by arrivals or by signals, on threads |
//! | `own` | what `machine` reads | how many instances the phases have, each given to the one processor that owns it |
//!
//! The input of `systems` is lines. A system is a line `system NAME VARS ROWS`, and then ROWS lines
//! `c1 .. cVARS <= bound`. Words stand between blanks: spaces, tabs and carriage returns. Lines
//! without words, and lines whose first byte is `#`, are passed over.
//!
//! - NAME is one word of visible ASCII characters.
//! - VARS is 0 to 1,000 and ROWS 0 to 4,294,967,295, in decimal digits. Rows are read as they
//!   come, so a large ROWS costs nothing until its lines are there.
//! - Coefficients and bounds are decimal digits, with a minus sign in front or not, at most 2 ^ 126
//!   in size.
//!
//! The variables are removed in the order 1 to VARS. The line of a system is one of
//!
//! ```text
//! NAME INFEASIBLE steps     no whole solution; the certificate of so many steps was checked
//! NAME OPEN                 a rational solution
//! NAME WIDE level           a number past 2 ^ 126 in size at this level
//! NAME MANY level count     so many rows, or more, at this level
//! NAME WORK level pairs     so many pairs in all, up to this level
//! ```
//!
//! Its times are a line for each system in order: the decision, without the reading and without the
//! check.
//!
//! It ends with one of these statuses. What was written before stays written.
//!
//! | Status | Comes | Written |
//! |---|---|---|
//! | 0 | all was done | |
//! | 1 | what was read is refused: in `systems` line n is none of the above, or none at its place | `LINE n: what is wrong`; the command's line for a source or a plan, `TOO LONG` |
//! | 2 | the words are others | a line on standard error |
//! | 3 | a certificate of the system that ends with line n was refused, which is a fault of the program | `LINE n: the certificate was refused: why` |
//! | 4 | a read or a write failed, or the clock | a line on standard error |
//! | 5 | memory ran out | a line on standard error |
#![tactic(auto)]

mod decisions;
mod ending;
mod line;
mod measure;
mod number;
mod own;
mod parts;
mod system;
mod threads;
mod verdict;

use crate::decisions::decisions;
use crate::ending::Ending;
use crate::measure::Measure;
use f77_lines::MOST_BYTES;
use plan_input::InputError;
use spmd_model::Style;
use std::io::{ErrorKind, Read, Write};
use std::process::ExitCode;
use std::thread::Threads;
use std::{env, io};

fn main(rt: HostRuntime) -> ExitCode {
    let ending = match asked(&rt) {
        Ok(Some((part, times))) => timed(&rt, &rt, part, times),
        Ok(None) => Ending::BadWords,
        Err(error) if error.kind() == ErrorKind::OutOfMemory => Ending::NoMemory,
        // words that aren't text are none that are taken
        Err(_) => Ending::BadWords,
    };
    // where nothing can be written, the status is left
    if let Some(message) = ending.message() {
        let _ = eprintln!(rt; "bench_parts: {message}");
    }
    ExitCode::from(ending.code())
}

/// What is timed.
#[derive(Clone, Copy)]
enum Part {
    Systems,
    Source,
    Plan,
    Ranges,
    Run,
    Machine,
    Join,
    Spmd,
    Signals,
    Own,
}

// The part that the words name, and whether they ask for times; None where they are others.
fn asked(rt: &HostRuntime) -> io::Result<Option<(Part, bool)>> {
    let mut words = env::args(rt)?.skip(1);
    let Some(word) = words.next() else {
        return Ok(None);
    };
    let Some(part) = part_of(word.as_str()) else {
        return Ok(None);
    };
    let Some(word) = words.next() else {
        return Ok(Some((part, false)));
    };
    if word.as_str() != "--times" || words.next().is_some() {
        return Ok(None);
    }
    Ok(Some((part, true)))
}

fn part_of(word: &str) -> Option<Part> {
    match word {
        "systems" => Some(Part::Systems),
        "source" => Some(Part::Source),
        "plan" => Some(Part::Plan),
        "ranges" => Some(Part::Ranges),
        "run" => Some(Part::Run),
        "machine" => Some(Part::Machine),
        "join" => Some(Part::Join),
        "spmd" => Some(Part::Spmd),
        "signals" => Some(Part::Signals),
        "own" => Some(Part::Own),
        _ => None,
    }
}

fn timed<R: Threads + Sync>(rt: &HostRuntime, threads: &R, part: Part, times: bool) -> Ending {
    match over_input(rt, threads, part, times) {
        Ok(ending) => ending,
        Err(error) if error.kind() == ErrorKind::OutOfMemory => Ending::NoMemory,
        Err(_) => Ending::Fault,
    }
}

fn over_input<R: Threads + Sync>(
    rt: &HostRuntime,
    threads: &R,
    part: Part,
    times: bool,
) -> io::Result<Ending> {
    if let Part::Systems = part {
        return Ok(decisions(rt, times));
    }
    let mut bytes = Vec::new(rt.alloc());
    rt.stdin().read_to_end(&mut bytes)?;
    match measure_of(rt, threads, part, &bytes) {
        Ok(measure) => tell(rt, &measure, times),
        Err(error) => tell_error(rt, error),
    }
}

// What is told of a part, over these bytes.
fn measure_of<R: Threads + Sync>(
    rt: &HostRuntime,
    threads: &R,
    part: Part,
    bytes: &[u8],
) -> Result<Measure, InputError> {
    if bytes.len() > MOST_BYTES {
        return Err(InputError::TooLong);
    }
    match part {
        Part::Systems | Part::Source => parts::source(rt, bytes),
        Part::Plan => parts::plan(rt, bytes),
        Part::Ranges => parts::ranges(rt, bytes),
        Part::Run => parts::run(rt, bytes),
        Part::Machine => parts::machine(rt, bytes),
        Part::Join => threads::join(rt, threads, bytes),
        Part::Spmd => threads::spmd(rt, threads, bytes, Style::Arrive),
        Part::Signals => threads::spmd(rt, threads, bytes, Style::Dissemination),
        Part::Own => parts::own(rt, bytes),
    }
}

fn tell(rt: &HostRuntime, measure: &Measure, times: bool) -> io::Result<Ending> {
    if times {
        eprintln!(rt; "{}", measure.times)?;
    }
    rt.stdout().write_all(&measure.text)?;
    Ok(Ending::Done)
}

fn tell_error(rt: &HostRuntime, error: InputError) -> io::Result<Ending> {
    if error.is_told() {
        rt.println(error)?;
        return Ok(Ending::Refused);
    }
    match error {
        InputError::NoMemory => Ok(Ending::NoMemory),
        _ => Ok(Ending::Fault),
    }
}
