//! Seagrynt's command: it reads a source program on standard input, makes or reads a plan for a
//! parallel run of it, checks a plan that it read, runs the program by the plan, and writes the plan
//! and what the program prints.
//!
//! `tool` is the top call, over any source and any sink; `main` makes the standard ones, calls it
//! and ends with its status.
#![tactic(auto)]

mod answer;
mod laws;
mod tool;

use crate::tool::tool;
use command_words::read::texts_of;
use plan_input::Status;
use spmd_ports::{NoGate, StdSink, StdSource};
use std::io::ErrorKind;
use std::process::ExitCode;
use std::{env, io};

fn main(rt: HostRuntime) -> ExitCode {
    let words = match words_of(&rt) {
        Ok(words) => words,
        Err(e) if e.kind() == ErrorKind::OutOfMemory => {
            return ExitCode::from(Status::NoMemory.code());
        }
        // words that aren't text are none that the tool takes
        Err(_) => Vec::new(rt.alloc()),
    };
    let status = match texts_of(rt.alloc(), &words) {
        Ok(texts) => {
            let mut source = StdSource::new(rt.stdin());
            let mut sink = StdSink::new(rt.stdout());
            let (status, _) = tool(&rt, rt.alloc(), &texts, &mut source, &mut sink, &NoGate);
            status
        }
        Err(_) => Status::NoMemory,
    };
    ExitCode::from(status.code())
}

// The words behind the program's name.
fn words_of(rt: &HostRuntime) -> io::Result<Vec<String>> {
    let mut words = Vec::new(rt.alloc());
    for word in env::args(rt)?.skip(1) {
        words.push(word)?;
    }
    Ok(words)
}
