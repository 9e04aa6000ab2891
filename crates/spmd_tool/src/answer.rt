// What is due for words and a source, all of which is known before anything is written.

ghost use Rattle.std.specs.Prelude.{◌≡◌, ◌≢◌, ◌≤◌, ◌+◌, ◌<◌, ℕ, List, None, Some, IfOk, OnOk, IsTrue, false, length, true};
ghost use Rattle.std.specs.Io.KnownBytes.{IsAtEnd};
ghost use Rattle.clap.specs.Walk.{texts};
ghost use Rattle.command_words.specs.Wanted.{Wanted, wanted, IsCounted};
ghost use Rattle.spmd_ports.specs.Counts.{Rose};
ghost use Rattle.spmd_answer.specs.Answers.{due_in};
ghost use Rattle.spmd_tool.specs.Due.{ReadFor, first_wrong, is_said, most_bytes, reads, settings_of, source_for};
ghost use Rattle.whole_streams.specs.Streams.{AreTold, TakesBytes};
ghost use Rattle.spmd_tool.specs.Written.{IsAnswerFrom, IsAnswerOf};
ghost use Rattle.spmd_tool.specs.declared.answer.Trouble.TheVariants as trouble;

use clap::Error;
use command_words::{Refused, Request, SettingFault, read_settings, read_words};
use f77_program::Refusal;
use plan_input::{InputError, Status};
use spmd_answer::{Answer, Host, Receipt, answer_to, bench_source, refusal};
use spmd_ports::{Gate, Source};
use std::alloc::{AllocError, Global};
use std::fmt::Write;
use std::thread::Threads;
use whole_streams::{ReadTrouble, read_all};

/// Why there is no answer.
#[derive(Clone, Copy, Debug, PartialEq, Eq)]
pub enum Trouble {
    /// A read failed.
    ReadFault,
    /// Memory ran out.
    NoMemory,
}

impl From<AllocError> for Trouble {
    ghost from_gives = { λ _ reason. reason ≡ trouble.NoMemory };

    fn from(_error: AllocError) -> Trouble {
        Trouble::NoMemory
    }
}

/// The answer to words, which stand without the program's name, from the bytes of the source, and
/// the receipt of a run by a plan, whose workers pass the gate. The source is read only where the
/// words stand for a request that reads it and its settings have the form of settings.
pub fn answer_in<R: Threads + Sync, S: Source, G: Gate + Sync>(
    host: &Host<'_, R, G>,
    words: &[&str],
    source: &mut S,
) -> Result<(Answer, Option<Receipt>), Trouble>
    ensures due { IfOk result (λ r. IsAnswerFrom (texts words.now) (S.left source.old)
        (due_in r.0) r.1) }
    ensures said { IfOk result (λ r. IsTrue (is_said r.0.status)) }
    ensures end { (w : Wanted) → ReadFor (texts words.now) w
        → IfOk result (λ r. r.0.status ≢ Status.TooLong → IsAtEnd (S.left source.new)) }
    ensures stops { IfOk result (λ r. r.0.status ≡ Status.TooLong
        → TakesBytes (S.left source.old) (S.left source.new) (most_bytes + 1)) }
    ensures unread { ((w : Wanted) → ReadFor (texts words.now) w → ⊥) → source.new ≡ source.old }
    ensures reads { result ≡ Err Trouble.ReadFault → (w : Wanted) × ReadFor (texts words.now) w }
    ensures fault { result ≡ Err Trouble.ReadFault
        → Rose (S.faults source.old) (S.faults source.new) }
    ensures no_fault { S.faults source.old < S.faults source.new → result ≡ Err Trouble.ReadFault }
{
    let alloc = host.alloc;
    match read_words(alloc, words) {
        Ok(request) => answer_for(host, &request, source),
        Err(Refused::Shown(error)) => Ok((shown(alloc, &error)?, None)),
        Err(Refused::Faulty) => Ok((refusal(alloc, InputError::BadWords)?, None)),
        Err(Refused::WrongSweep) => Ok((refusal(alloc, InputError::BadSweep)?, None)),
        Err(Refused::NoMemory) => Err(Trouble::NoMemory),
    }
}

// The answer to a request, and the receipt of a run by a plan.
fn answer_for<R: Threads + Sync, S: Source, G: Gate + Sync>(
    host: &Host<'_, R, G>,
    request: &Request,
    source: &mut S,
) -> Result<(Answer, Option<Receipt>), Trouble>
    requires { IsCounted (wanted request.now) }
    ensures due { IfOk result (λ r. IsAnswerOf (wanted request.now) (S.left source.old)
        (due_in r.0) r.1) }
    ensures said { IfOk result (λ r. IsTrue (is_said r.0.status)) }
    ensures end { first_wrong (wanted request.now) ≡ None → reads (wanted request.now) ≡ true
        → IfOk result (λ r. r.0.status ≢ Status.TooLong → IsAtEnd (S.left source.new)) }
    ensures stops { IfOk result (λ r. r.0.status ≡ Status.TooLong
        → TakesBytes (S.left source.old) (S.left source.new) (most_bytes + 1)) }
    ensures unread { (index : ℕ) → first_wrong (wanted request.now) ≡ Some index
        → source.new ≡ source.old }
    ensures unasked { reads (wanted request.now) ≡ false → source.new ≡ source.old }
    ensures reads { result ≡ Err Trouble.ReadFault → (first_wrong (wanted request.now) ≡ None)
        × (reads (wanted request.now) ≡ true) }
    ensures fault { result ≡ Err Trouble.ReadFault
        → Rose (S.faults source.old) (S.faults source.new) }
    ensures no_fault { S.faults source.old < S.faults source.new → result ≡ Err Trouble.ReadFault }
{
    let alloc = host.alloc;
    let settings = match read_settings(alloc, settings_in(request)) {
        Ok(settings) => settings,
        Err(SettingFault::Word(index)) => {
            let error = InputError::Statement(Refusal::BadSetting(index));
            return Ok((refusal(alloc, error)?, None));
        }
        Err(SettingFault::NoMemory) => return Err(Trouble::NoMemory),
    };
    match source_of(alloc, request, source) {
        Ok(bytes) => Ok(answer_to(host, request, &settings, &bytes)?),
        Err(ReadTrouble::TooLong) => Ok((refusal(alloc, InputError::TooLong)?, None)),
        Err(ReadTrouble::Fault) => Err(Trouble::ReadFault),
        Err(ReadTrouble::NoMemory) => Err(Trouble::NoMemory),
    }
}

// The bytes from which a request is answered: all those of the source, or of `bench` those of its
// own program.
fn source_of<S: Source>(
    alloc: Global,
    request: &Request,
    source: &mut S,
) -> Result<Vec<u8>, ReadTrouble>
    requires { IsCounted (wanted request.now) }
    ensures bytes { IfOk result (λ bytes. (all : List ℕ) × AreTold (S.left source.old) all
        × (bytes.items ≡ source_for (wanted request.now) all)) }
    ensures short { IfOk result (λ bytes. length bytes.items ≤ most_bytes) }
    ensures end { reads (wanted request.now) ≡ true → OnOk result (IsAtEnd (S.left source.new)) }
    ensures unread { reads (wanted request.now) ≡ false → source.new ≡ source.old }
    ensures reads { result ≡ Err ReadTrouble.Fault → reads (wanted request.now) ≡ true }
    ensures fault { result ≡ Err ReadTrouble.Fault
        → Rose (S.faults source.old) (S.faults source.new) }
    ensures no_fault { S.faults source.old < S.faults source.new → result ≡ Err ReadTrouble.Fault }
    ensures long { result ≡ Err ReadTrouble.TooLong → (reads (wanted request.now) ≡ true)
        × TakesBytes (S.left source.old) (S.left source.new) (most_bytes + 1) }
{
    match request {
        Request::Bench(bench) => Ok(bench_source(alloc, *bench)?),
        _ => read_all(alloc, source),
    }
}

// The words of a request that are to be settings.
fn settings_in<'a>(request: &'a Request<'a>) -> &'a [&'a str]
    ensures { texts result.now ≡ settings_of (wanted request.entry.now) }
{
    match request {
        Request::Sequential(settings)
        | Request::Verify(settings)
        | Request::Sweep(_, settings)
        | Request::Plan(_, settings)
        | Request::Run(_, settings) => settings,
        Request::Bench(_) => &[],
    }
}

// Help, or the version.
fn shown(alloc: Global, error: &Error) -> Result<Answer, AllocError>
    ensures { IfOk result (λ a. a.status ≡ Status.Done) }
{
    let text = format!(in alloc; "{error}")?;
    Ok(Answer {
        status: Status::Done,
        text: text.into_bytes(),
    })
}
