// The decisions of the systems on standard input.

ghost use Rattle.std.specs.Prelude.{◌≡◌, ◌≢◌, ◌⊎◌, IfErr};
ghost use Rattle.farkas_cert.specs.declared.certificate.CertRefusal.TheVariants as refusals;
ghost use Rattle.farkas_cert.specs.declared.certificate.CertRefusal.{CertRefusal};
ghost use Rattle.bench_parts.specs.declared.ending.Ending.TheVariants as endings;
ghost use Rattle.bench_parts.specs.declared.line.LineFault.TheVariants as faults;
ghost use Rattle.bench_parts.specs.declared.decisions.Failure.TheVariants as failures;

use crate::ending::Ending;
use crate::line::{LineFault, read_line};
use crate::system::{Task, open_behind};
use crate::verdict::{answer_line, decided};
use farkas_cert::CertRefusal;
use fm_elim::NoMemory;
use std::alloc::{AllocError, Global};
use std::io::{self, BufRead, BufReader, ErrorKind, Write};
use std::time::Instant;

/// Why a run stops before the end of the input.
#[derive(Debug, Drop)]
enum Failure {
    Line(LineFault),
    Certificate(CertRefusal),
    Fault,
    NoMemory,
}

impl From<io::Error> for Failure {
    ghost from_gives = { λ _ made. (made ≡ failures.NoMemory) ⊎ (made ≡ failures.Fault) };

    fn from(error: io::Error) -> Failure {
        if error.kind() == ErrorKind::OutOfMemory {
            Failure::NoMemory
        } else {
            Failure::Fault
        }
    }
}

impl From<AllocError> for Failure {
    ghost from_gives = { λ _ made. made ≡ failures.NoMemory };

    fn from(_error: AllocError) -> Failure {
        Failure::NoMemory
    }
}

impl From<NoMemory> for Failure {
    ghost from_gives = { λ _ made. made ≡ failures.NoMemory };

    fn from(_error: NoMemory) -> Failure {
        Failure::NoMemory
    }
}

impl From<LineFault> for Failure {
    ghost from_gives = { λ fault made. (fault ≡ faults.NoMemory → made ≡ failures.NoMemory)
        × (fault ≢ faults.NoMemory → made ≡ failures.Line fault) };

    fn from(fault: LineFault) -> Failure {
        match fault {
            LineFault::NoMemory => Failure::NoMemory,
            fault => Failure::Line(fault),
        }
    }
}

impl From<CertRefusal> for Failure {
    ghost from_gives = { λ refusal made. (refusal ≡ refusals.NoMemory → made ≡ failures.NoMemory)
        × (refusal ≢ refusals.NoMemory → made ≡ failures.Certificate refusal) };

    fn from(refusal: CertRefusal) -> Failure {
        match refusal {
            CertRefusal::NoMemory => Failure::NoMemory,
            refusal => Failure::Certificate(refusal),
        }
    }
}

/// Reads standard input to its end, and decides each system as soon as its rows are there.
pub fn decisions(rt: &HostRuntime, times: bool) -> Ending
    ensures words { result ≢ endings.BadWords }
    ensures certificates { result ≢ endings.BadCertificate }
{
    let mut number = 0;
    match decide_all(rt, times, &mut number) {
        Ok(()) => Ending::Done,
        Err(Failure::Line(fault)) => told(println!(rt; "LINE {number}: {fault}"), Ending::Refused),
        Err(Failure::Certificate(refusal)) => told(
            println!(rt; "LINE {number}: the certificate was refused: {refusal}"),
            Ending::BadCertificate,
        ),
        Err(Failure::Fault) => Ending::Fault,
        Err(Failure::NoMemory) => Ending::NoMemory,
    }
}

// How a run ends whose last line was written or not.
fn told(written: io::Result<()>, ending: Ending) -> Ending
    ensures { (result ≡ ending) ⊎ (result ≡ endings.Fault) }
{
    match written {
        Ok(()) => ending,
        Err(_) => Ending::Fault,
    }
}

// Counts the lines in `number`, which is that of the line at fault, if there is one.
fn decide_all(rt: &HostRuntime, times: bool, number: &mut u64) -> Result<(), Failure>
    ensures { IfErr result (λ made. (refusal : CertRefusal) → made ≢ failures.Certificate refusal) }
{
    let alloc = rt.alloc();
    let mut input = BufReader::new(alloc, rt.reader())?;
    let mut bytes = Vec::new(alloc);
    let mut open = None;
    for count in 1..u64::MAX {
        *number = count;
        bytes.clear();
        if input.read_until(b'\n', &mut bytes)? == 0 {
            break;
        }
        let line = read_line(alloc, bytes.as_slice())?;
        open = match open_behind(alloc, open, line)? {
            Some(task) if task.is_complete() => {
                finish(rt, times, &task)?;
                None
            }
            open => open,
        };
    }
    match open {
        None => Ok(()),
        Some(task) => Err(Failure::Line(LineFault::MissingRows(task.missing))),
    }
}

// Decides a system and writes its line.
fn finish(rt: &HostRuntime, times: bool, task: &Task) -> Result<(), Failure>
    ensures { IfErr result (λ made. (refusal : CertRefusal) → made ≢ failures.Certificate refusal) }
{
    let alloc = rt.alloc();
    let system = task.system.as_system();
    let begun = Instant::now(rt)?;
    let answer = decided(alloc, system)?;
    let taken = begun.elapsed(rt)?;
    let line = answer_line(alloc, task.name.as_slice(), system, &answer)?;
    io::writer(rt).write_all(line.as_slice())?;
    if times {
        let nanos = taken.as_nanos();
        eprintln!(rt; "{}.{:03}", nanos / 1000, nanos % 1000)?;
    }
    Ok(())
}
