// Words as a request.

ghost use Rattle.std.specs.Prelude.{◌≡◌, Some, None, map, IfOk, IfErr, option_map, string_bytes};
ghost use Rattle.std.specs.Char.{is_ascii_digit};
ghost use Rattle.std.specs.List.{list_all};
ghost use Rattle.std.specs.Str.{bytes_eq};
ghost use Rattle.clap.specs.Words.{first_of, rows_of, found_of, subcommand_rows_of};
ghost use Rattle.clap.specs.Walk.{texts};
ghost use Rattle.command_words.specs.Wanted.{wanted, wanted_by, wanted_in, make_of, run_of, verify_of, bench_of, workers_of, plan_of, choice_of, style_of, barrier_of, engine_of, by_of, rest_of, settings_of, sizes_of, sizes_named, size_of, is_numeral as numeral, IsCounted, Takes, within as within_of};
ghost use Rattle.command_words.specs.Refusals.{IsRefused, IsSweepFault, IsValueFault, refusal_of};

use crate::commands;
use crate::request::{Bench, Engine, PlanChoice, Refused, Request, Run};
use crate::sweep::sweep_in;
use clap::error::ErrorKind;
use clap::{ArgMatches, Error};
use spmd_model::Style;
use std::alloc::{AllocError, Global};

// The most points of the program that `bench` runs, and the most sweeps over them.
const MOST_POINTS: u32 = 500_000;

const MOST_SWEEPS: u32 = 1_000_000;

/// The request that the words stand for, which come without the program's name.
///
/// # Errors
///
/// `Shown` exactly where they ask for help or for the version, `WrongSweep` exactly where they are
/// offered but for the form of a sweep, `Faulty` exactly where they are none that is offered;
/// `NoMemory` may stand in place of any answer.
pub fn read_words<'a>(alloc: Global, words: &'a [&'a str]) -> Result<Request<'a>, Refused>
    ensures taken { IfOk result (λ request. Takes (texts words.entry.now) (wanted request)) }
    ensures counted { IfOk result (λ request. IsCounted (wanted request)) }
    ensures refused { IfErr result (IsRefused (texts words.entry.now)) }
{
    let command = commands::tool(alloc)?;
    match command.try_get_matches_from(words) {
        Ok(matches) => request(alloc, &matches),
        Err(error) => Err(refusal(error)),
    }
}

/// What an error of `clap` is here.
pub fn refusal(error: Error) -> Refused
    ensures { result ≡ refusal_of error }
{
    match error.kind() {
        ErrorKind::OutOfMemory => Refused::NoMemory,
        ErrorKind::DisplayHelp | ErrorKind::DisplayVersion => Refused::Shown(error),
        _ => Refused::Faulty,
    }
}

fn request<'a>(alloc: Global, matches: &ArgMatches<'a>) -> Result<Request<'a>, Refused>
    ensures taken { IfOk result (λ request. wanted_by (subcommand_rows_of matches.now)
        ≡ Some (wanted request)) }
    ensures counted { IfOk result (λ request. IsCounted (wanted request)) }
    ensures refused { IfErr result
        (λ refused. IsValueFault (subcommand_rows_of matches.now) refused) }
{
    match matches.subcommand() {
        None => Err(Refused::Faulty),
        Some((name, inner)) => request_in(alloc, name, inner),
    }
}

fn request_in<'a>(alloc: Global, name: &str, inner: &ArgMatches<'a>) -> Result<Request<'a>, Refused>
    ensures taken { IfOk result (λ request. wanted_in name.now (rows_of (found_of inner.now))
        ≡ Some (wanted request)) }
    ensures refused { IfErr result
        (λ refused. IsValueFault (Some (name.now, rows_of (found_of inner.now))) refused) }
{
    if says(name, "bench") {
        let sizes = rest(alloc, inner, "sizes")?;
        return bench(inner, &sizes).ok_or(Refused::Faulty);
    }
    let settings = rest(alloc, inner, "settings")?;
    if says(name, "seq") {
        Ok(Request::Sequential(settings))
    } else if says(name, "plan") {
        plan(inner, settings).ok_or(Refused::Faulty)
    } else if says(name, "run") {
        run(inner, settings).ok_or(Refused::Faulty)
    } else if says(name, "verify") {
        verify(alloc, inner, settings)
    } else {
        Err(Refused::Faulty)
    }
}

fn verify<'a>(
    alloc: Global,
    inner: &ArgMatches<'a>,
    settings: Vec<&'a str>,
) -> Result<Request<'a>, Refused>
    requires { texts settings.items ≡ settings_of (rows_of (found_of inner.now)) }
    ensures taken { IfOk result (λ request. verify_of (rows_of (found_of inner.now))
        ≡ Some (wanted request)) }
    ensures refused { IfErr result
        (λ refused. IsSweepFault (verify_of (rows_of (found_of inner.now))) refused) }
{
    let Some(word) = text(inner, "sweep") else {
        return Ok(Request::Verify(settings));
    };
    match sweep_in(alloc, word)? {
        Some(sweep) => Ok(Request::Sweep(sweep, settings)),
        None => Err(Refused::WrongSweep),
    }
}

fn plan<'a>(inner: &ArgMatches<'a>, settings: Vec<&'a str>) -> Option<Request<'a>>
    requires { texts settings.items ≡ settings_of (rows_of (found_of inner.now)) }
    ensures { option_map wanted result ≡ make_of (rows_of (found_of inner.now)) }
{
    let workers = workers_in(text(inner, "workers")?)?;
    Some(Request::Plan(workers, settings))
}

fn run<'a>(inner: &ArgMatches<'a>, settings: Vec<&'a str>) -> Option<Request<'a>>
    requires { texts settings.items ≡ settings_of (rows_of (found_of inner.now)) }
    ensures { option_map wanted result ≡ run_of (rows_of (found_of inner.now)) }
{
    let workers = workers_in(text(inner, "workers")?)?;
    let choice = plan_in(text(inner, "plan"))?;
    let style = style_in(text(inner, "barrier"))?;
    let engine = engine_in(style, text(inner, "by"))?;
    let run = Run {
        workers,
        choice,
        engine,
    };
    Some(Request::Run(run, settings))
}

fn bench<'a>(inner: &ArgMatches<'a>, sizes: &[&str]) -> Option<Request<'a>>
    requires { texts sizes.now ≡ sizes_of (rows_of (found_of inner.now)) }
    ensures { option_map wanted result ≡ bench_of (rows_of (found_of inner.now)) }
{
    let workers = workers_in(text(inner, "workers")?)?;
    let (points, sweeps) = sizes_in(sizes)?;
    Some(Request::Bench(Bench {
        workers,
        points,
        sweeps,
    }))
}

// How many points and how many sweeps words name.
fn sizes_in(words: &[&str]) -> Option<(u32, u32)>
    ensures { result ≡ sizes_named (texts words.now) }
{
    let (points, behind) = words.split_first()?;
    let (sweeps, behind) = behind.split_first()?;
    match behind.split_first() {
        None => Some((
            size_in(points, 1, MOST_POINTS)?,
            size_in(sweeps, 0, MOST_SWEEPS)?,
        )),
        Some(_) => None,
    }
}

/// The texts of words. The error is that memory ran out.
pub fn texts_of(alloc: Global, words: &[String]) -> Result<Vec<&str>, AllocError>
    ensures { IfOk result (λ refs. texts refs.items ≡ map string_bytes words.now) }
{
    let mut refs = Vec::new(alloc);
    for word in words {
        refs.push(word.as_str())?;
    }
    Ok(refs)
}

/// The first value of an argument.
pub fn text<'a>(inner: &ArgMatches<'a>, id: &str) -> Option<&'a str>
    ensures { option_map (λ s. s.now) result ≡ first_of id.now (rows_of (found_of inner.now)) }
{
    inner.get_str(id)
}

/// The words behind the options, by the argument's name. The error is that memory ran out.
pub fn rest<'a>(alloc: Global, inner: &ArgMatches<'a>, id: &str) -> Result<Vec<&'a str>, AllocError>
    ensures { IfOk result (λ v. texts v.items ≡ rest_of id.now (rows_of (found_of inner.now))) }
{
    match inner.get_raw(id) {
        Some(given) => Vec::from_slice(alloc, given),
        None => Ok(Vec::new(alloc)),
    }
}

/// Whether a word is this text.
pub fn says(word: &str, text: &str) -> bool
    ensures { result ≡ bytes_eq word.now text.now }
{
    word == text
}

/// A number of workers: 1 to 64, in decimal digits without leading zeros.
pub fn workers_in(word: &str) -> Option<u32>
    ensures { result ≡ workers_of word.now }
{
    match word.as_bytes() {
        [d] if d.is_ascii_digit() => within(*d as u32 - 48),
        [c, d] if b'1' <= *c && *c <= b'9' && d.is_ascii_digit() => {
            within(10 * (*c as u32 - 48) + (*d as u32 - 48))
        }
        _ => None,
    }
}

fn within(n: u32) -> Option<u32>
    ensures { result ≡ within_of n }
{
    if 1 <= n && n <= 64 { Some(n) } else { None }
}

/// The plan that a word names: the one that is made, where there is no word.
pub fn plan_in(word: Option<&str>) -> Option<PlanChoice>
    ensures { result ≡ choice_of (option_map (λ s. s.now) word.entry) }
{
    match word {
        None => Some(PlanChoice::Made),
        Some(word) => plan_named(word),
    }
}

fn plan_named(word: &str) -> Option<PlanChoice>
    ensures { result ≡ plan_of word.now }
{
    if says(word, "made") {
        Some(PlanChoice::Made)
    } else if says(word, "barrier") {
        Some(PlanChoice::Barrier)
    } else if says(word, "given") {
        Some(PlanChoice::Given)
    } else {
        None
    }
}

fn style_in(word: Option<&str>) -> Option<Style>
    ensures { result ≡ barrier_of (option_map (λ s. s.now) word.entry) }
{
    match word {
        None => Some(Style::Arrive),
        Some(word) => style_named(word),
    }
}

fn style_named(word: &str) -> Option<Style>
    ensures { result ≡ style_of word.now }
{
    if says(word, "arrive") {
        Some(Style::Arrive)
    } else if says(word, "dissemination") {
        Some(Style::Dissemination)
    } else {
        None
    }
}

fn engine_in(style: Style, word: Option<&str>) -> Option<Engine>
    ensures { result ≡ by_of style (option_map (λ s. s.now) word.entry) }
{
    match word {
        None => Some(Engine::Spmd(style)),
        Some(word) => engine_named(style, word),
    }
}

fn engine_named(style: Style, word: &str) -> Option<Engine>
    ensures { result ≡ engine_of style word.now }
{
    if says(word, "core") {
        Some(Engine::Core(style))
    } else if says(word, "join") {
        Some(Engine::Join)
    } else if says(word, "spmd") {
        Some(Engine::Spmd(style))
    } else {
        None
    }
}

// The number that a word writes in decimal digits without leading zeros, within these bounds.
fn size_in(word: &str, low: u32, high: u32) -> Option<u32>
    ensures { result ≡ size_of low high word.now }
{
    if !is_numeral(word.as_bytes()) {
        return None;
    }
    match word.parse::<u32>() {
        Ok(size) if low <= size && size <= high => Some(size),
        _ => None,
    }
}

fn is_numeral(digits: &[u8]) -> bool
    ensures { result ≡ numeral digits.now }
{
    match digits.split_first() {
        Some((first, rest)) => are_digits(digits) && (*first != b'0' || rest.is_empty()),
        None => false,
    }
}

fn are_digits(bytes: &[u8]) -> bool
    ensures { result ≡ list_all is_ascii_digit bytes.now }
{
    bytes.iter().all(|byte| byte.is_ascii_digit())
}
