//! Reads a source on standard input and writes what the words ask for of its plan: with `explain` why
//! it waits and why loops aren't dealt out, with `systems` its obligations as systems of inequalities,
//! with `emit` the program under it as one C11 file. The plan is the one that is made for so many
//! processors, or the one that stands behind the source.
//!
//! It ends with one of these statuses.
//!
//! | Status | Comes | Standard output |
//! |---|---|---|
//! | 0 | all was told | what is told; the help, or the version |
//! | 1 | the source is refused | `REFUSED`, a code, and what it says |
//! | 2 | the words or the i-th setting are wrong | `WORDS 0`; `WORDS i` |
//! | 3 | a read failed | nothing |
//! | 4 | a write failed | the beginning of what was due |
//! | 5 | memory ran out | nothing |
//! | 6 | the plan that is given is refused | `PLAN SYNTAX n`; `PLAN P1 n` and others |
//! | 7 | the input is too long | `TOO LONG` |
#![tactic(auto)]

mod emit;
mod explain;
mod systems;

ghost use Rattle.std.specs.Prelude.{◌≡◌, ◌≤◌, IfOk, length};
ghost use Rattle.plan_words.specs.Wanted.{IsCounted, wanted};

use crate::emit::emitted;
use crate::explain::explained;
use crate::systems::systems_in;
use asked_plan::Asked;
use command_words::read::texts_of;
use command_words::{Refused, SettingFault, read_settings};
use explain_plan::Form;
use f77_lines::MOST_BYTES;
use f77_program::Refusal;
use f77_source::Setting;
use plan_input::{InputError, Status, status_of_write};
use plan_words::{PlanRequest, read_plan_words};
use std::alloc::Global;
use std::io::{Read, Write};
use std::process::ExitCode;
use std::thread::Threads;
use std::{env, io};

fn main(rt: HostRuntime) -> ExitCode {
    let text = match words_of(&rt) {
        Ok(words) => told(&rt, rt.alloc(), &words, rt.stdin()),
        Err(error) => Err(InputError::from_fault(error, InputError::BadWords)),
    };
    let status = match text {
        Ok(text) => status_of_write(rt.stdout().write_all(&text), Status::Done),
        Err(error) if error.is_told() => status_of_write(println!(rt; "{error}"), error.status()),
        Err(error) => error.status(),
    };
    ExitCode::from(status.code())
}

// The words behind the program's name.
fn words_of(rt: &HostRuntime) -> io::Result<Vec<String>> {
    let mut words = Vec::new(rt.alloc());
    for word in env::args(rt)?.skip(1) {
        words.push(word)?;
    }
    Ok(words)
}

// What is told, by the words behind the program's name and a source.
fn told<R: Threads + Sync, S: Read + Drop>(
    rt: &R,
    alloc: Global,
    words: &[String],
    source: S,
) -> Result<Vec<u8>, InputError> {
    let texts = texts_of(alloc, words)?;
    match read_plan_words(alloc, &texts) {
        Ok(request) => answer(rt, alloc, &request, source),
        Err(Refused::Shown(error)) => Ok(format!(in alloc; "{error}")?.into_bytes()),
        Err(Refused::NoMemory) => Err(InputError::NoMemory),
        Err(Refused::Faulty | Refused::WrongSweep) => Err(InputError::BadWords),
    }
}

// What is told for a request. Settings are looked at in front of the source.
fn answer<R: Threads + Sync, S: Read + Drop>(
    rt: &R,
    alloc: Global,
    request: &PlanRequest,
    source: S,
) -> Result<Vec<u8>, InputError>
    requires { IsCounted (wanted request.now) }
{
    let words = words_in(request);
    let settings = settings_of(alloc, words)?;
    let bytes = read_all(alloc, source)?;
    match request {
        PlanRequest::Explain(subject, json, _) => {
            let form = if *json { Form::Json } else { Form::Words };
            explained(rt, alloc, *subject, &settings, form, &bytes)
        }
        PlanRequest::Systems(subject, _) => systems_in(rt, alloc, *subject, &settings, &bytes),
        PlanRequest::Emit(workers, choice, _) => {
            let asked = Asked {
                workers: *workers,
                choice: *choice,
                settings: &settings,
            };
            emitted(rt, alloc, &asked, words, &bytes)
        }
    }
}

// The settings of a request, as they are written.
fn words_in<'r, 'a>(request: &'r PlanRequest<'a>) -> &'r [&'a str] {
    match request {
        PlanRequest::Explain(_, _, words)
        | PlanRequest::Systems(_, words)
        | PlanRequest::Emit(_, _, words) => words.as_slice(),
    }
}

// The settings that words write.
fn settings_of(alloc: Global, words: &[&str]) -> Result<Vec<Setting>, InputError> {
    match read_settings(alloc, words) {
        Ok(settings) => Ok(settings),
        Err(SettingFault::Word(index)) => Err(InputError::Statement(Refusal::BadSetting(index))),
        Err(SettingFault::NoMemory) => Err(InputError::NoMemory),
    }
}

// All bytes of a source, of which there are at most so many.
fn read_all<S: Read + Drop>(alloc: Global, source: S) -> Result<Vec<u8>, InputError>
    ensures { IfOk result (λ bytes. length bytes.items ≤ MOST_BYTES) }
{
    let mut bytes = Vec::new(alloc);
    let most = MOST_BYTES as u64 + 1;
    if let Err(error) = source.take(most).read_to_end(&mut bytes) {
        return Err(InputError::from_fault(error, InputError::ReadFault));
    }
    if bytes.len() > MOST_BYTES {
        Err(InputError::TooLong)
    } else {
        Ok(bytes)
    }
}
