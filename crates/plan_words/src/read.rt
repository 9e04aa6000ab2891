// Words as a request.

ghost use Rattle.std.specs.Prelude.{◌≡◌, Some, None, IfOk, IfErr, option_map};
ghost use Rattle.clap.specs.Words.{found_of, rows_of, subcommand_rows_of};
ghost use Rattle.clap.specs.Walk.{texts};
ghost use Rattle.command_words.specs.Wanted.{settings_of};
ghost use Rattle.plan_words.specs.Wanted.{IsCounted, IsRefused, IsValueFault, Takes, behind_by, emit_of, explain_of, is_set, subject_by, systems_of, wanted, wanted_by, wanted_in};

use crate::commands;
use crate::request::{PlanRequest, Subject};
use clap::ArgMatches;
use command_words::read::{plan_in, refusal, rest, says, text, workers_in};
use command_words::{PlanChoice, Refused};
use std::alloc::Global;

/// The request that the words stand for, which come without the program's name.
///
/// # Errors
///
/// `Shown` exactly where they ask for help or for the version, `Faulty` exactly where they are none
/// that is offered; `NoMemory` may stand in place of any answer.
pub fn read_plan_words<'a>(alloc: Global, words: &'a [&'a str]) -> Result<PlanRequest<'a>, Refused>
    ensures taken { IfOk result (λ request. Takes (texts words.entry.now) (wanted request)) }
    ensures counted { IfOk result (λ request. IsCounted (wanted request)) }
    ensures refused { IfErr result (IsRefused (texts words.entry.now)) }
{
    let command = commands::tool(alloc)?;
    match command.try_get_matches_from(words) {
        Ok(matches) => request(alloc, &matches),
        Err(error) => Err(refusal(error)),
    }
}

fn request<'a>(alloc: Global, matches: &ArgMatches<'a>) -> Result<PlanRequest<'a>, Refused>
    ensures taken { IfOk result (λ request. wanted_by (subcommand_rows_of matches.now)
        ≡ Some (wanted request)) }
    ensures counted { IfOk result (λ request. IsCounted (wanted request)) }
    ensures refused { IfErr result
        (λ refused. IsValueFault (subcommand_rows_of matches.now) refused) }
{
    match matches.subcommand() {
        None => Err(Refused::Faulty),
        Some((name, inner)) => request_in(alloc, name, inner),
    }
}

fn request_in<'a>(
    alloc: Global,
    name: &str,
    inner: &ArgMatches<'a>,
) -> Result<PlanRequest<'a>, Refused>
    ensures taken { IfOk result (λ request. wanted_in name.now (rows_of (found_of inner.now))
        ≡ Some (wanted request)) }
    ensures refused { IfErr result
        (λ refused. IsValueFault (Some (name.now, rows_of (found_of inner.now))) refused) }
{
    let settings = rest(alloc, inner, "settings")?;
    if says(name, "explain") {
        explain(inner, settings).ok_or(Refused::Faulty)
    } else if says(name, "systems") {
        systems(inner, settings).ok_or(Refused::Faulty)
    } else if says(name, "emit") {
        emit(inner, settings).ok_or(Refused::Faulty)
    } else {
        Err(Refused::Faulty)
    }
}

fn explain<'a>(inner: &ArgMatches<'a>, settings: Vec<&'a str>) -> Option<PlanRequest<'a>>
    requires { texts settings.items ≡ settings_of (rows_of (found_of inner.now)) }
    ensures { option_map wanted result ≡ explain_of (rows_of (found_of inner.now)) }
{
    let subject = subject_in(text(inner, "workers"), text(inner, "plan"))?;
    let json = is_set(text(inner, "json"));
    Some(PlanRequest::Explain(subject, json, settings))
}

fn systems<'a>(inner: &ArgMatches<'a>, settings: Vec<&'a str>) -> Option<PlanRequest<'a>>
    requires { texts settings.items ≡ settings_of (rows_of (found_of inner.now)) }
    ensures { option_map wanted result ≡ systems_of (rows_of (found_of inner.now)) }
{
    let subject = subject_in(text(inner, "workers"), text(inner, "plan"))?;
    Some(PlanRequest::Systems(subject, settings))
}

fn emit<'a>(inner: &ArgMatches<'a>, settings: Vec<&'a str>) -> Option<PlanRequest<'a>>
    requires { texts settings.items ≡ settings_of (rows_of (found_of inner.now)) }
    ensures { option_map wanted result ≡ emit_of (rows_of (found_of inner.now)) }
{
    let workers = workers_in(text(inner, "workers")?)?;
    let choice = plan_in(text(inner, "plan"))?;
    Some(PlanRequest::Emit(workers, choice, settings))
}

// The plan that a number of processors and the name of a plan stand for.
fn subject_in(workers: Option<&str>, plan: Option<&str>) -> Option<Subject>
    ensures { result ≡ subject_by (option_map (λ s. s.now) workers.entry)
        (option_map (λ s. s.now) plan.entry) }
{
    match workers {
        Some(workers) => {
            let workers = workers_in(workers)?;
            let choice = plan_in(plan)?;
            Some(Subject::For(workers, choice))
        }
        None => match plan {
            Some(_) => behind(plan_in(plan)?),
            None => Some(Subject::Behind),
        },
    }
}

// The plan that is told of for no number of processors.
fn behind(choice: PlanChoice) -> Option<Subject>
    ensures { result ≡ behind_by choice }
{
    match choice {
        PlanChoice::Given => Some(Subject::Behind),
        PlanChoice::Made | PlanChoice::Barrier => None,
    }
}

// Whether an option without a value stands among the words, by its text.
fn is_set(text: Option<&str>) -> bool
    ensures { result ≡ is_set (option_map (λ s. s.now) text.entry) }
{
    match text {
        Some(text) => says(text, "true"),
        None => false,
    }
}
