// A plan that is proved once, for the values of a named constant.

ghost use Rattle.std.specs.Prelude.{◌≡◌, ◌≤◌, ◌^◌, ◌≤ℤ◌, ◌+ℤ◌, pos, List, IfOk, IsTrue, length, map};
ghost use Rattle.clap.specs.Words.{Text};
ghost use Rattle.nest_tree.specs.View.{tree_of};
ghost use Rattle.command_words.specs.Sweeps.{are_bounds, sweep_of};
ghost use Rattle.command_words.specs.Wanted.{swept as wanted_sweep, wanted};
ghost use Rattle.f77_source.specs.Sources.{setting_of};
ghost use Rattle.plan_checker.specs.Proved.{first_unfit};
ghost use Rattle.spmd_answer.specs.Answers.{due_in};
ghost use Rattle.spmd_answer.specs.Due.{IsDueOn, count_in as values_in, fit_text as text_of_fit, reading_text as text_of_reading, settings_at as with_value, settings_for as all_settings, swept_text, value_line};
ghost use Rattle.spmd_answer.specs.Inputs.{reading_with, readings_of};

use crate::due::{Answer, done, refusal, told_as};
use crate::host::Host;
use crate::run::joined;
use crate::source::Behind;
use command_words::{Request, Sweep};
use f77_lines::MOST_BYTES;
use f77_source::Setting;
use nest_tree::Program;
use plan_checker::{Proven, prove};
use plan_input::{InputError, read_inside};
use plan_text::read_plan;
use std::alloc::{AllocError, Global};
use std::thread::Threads;

/// What a request is answered from.
#[derive(Drop)]
pub struct Input<'a> {
    /// Of a sweep without its own.
    pub settings: &'a [Setting],
    /// Of the source, with the plan behind it.
    pub bytes: &'a [u8],
    /// Those behind the line end of END.
    pub behind: &'a [u8],
}

/// The settings with which the source of a request is read: of a sweep its own too, with the lowest
/// value. The error is that memory ran out.
pub fn settings_for(
    alloc: Global,
    request: &Request,
    settings: &[Setting],
) -> Result<Vec<Setting>, AllocError>
    ensures { IfOk result (λ all. map setting_of all.items ≡ all_settings (wanted request.now)
        (map setting_of settings.now)) }
{
    match request {
        Request::Sweep(sweep, _) => settings_at(alloc, sweep, settings, sweep.low),
        _ => copied(alloc, settings),
    }
}

// The settings with which the source of a sweep is read where its constant has this value: the first
// says which name is looked up first, and the last which value counts.
fn settings_at(
    alloc: Global,
    sweep: &Sweep,
    settings: &[Setting],
    value: i64,
) -> Result<Vec<Setting>, AllocError>
    ensures { IfOk result (λ all. map setting_of all.items
        ≡ with_value (sweep_of sweep.now) (map setting_of settings.now) value) }
{
    let mut all = copied(alloc, settings)?;
    all.insert(0, setting(alloc, &sweep.name, value)?)?;
    all.push(setting(alloc, &sweep.name, value)?)?;
    Ok(all)
}

fn copied(alloc: Global, settings: &[Setting]) -> Result<Vec<Setting>, AllocError>
    ensures { IfOk result (λ all. map setting_of all.items ≡ map setting_of settings.now) }
{
    let mut all = Vec::new(alloc);
    for given in settings {
        all.push(setting(alloc, &given.name, given.value)?)?;
    }
    Ok(all)
}

fn setting(alloc: Global, name: &[u8], value: i64) -> Result<Setting, AllocError>
    ensures { IfOk result (λ s. setting_of s ≡ (name.now, value)) }
{
    Ok(Setting {
        name: name.to_vec(alloc)?,
        value,
    })
}

/// What is due for a sweep on the program with its lowest value: where the plan behind END is proved
/// on it a line for each value, from the lowest on. The error is that memory ran out.
pub fn swept<R: Threads + Sync, G>(
    host: &Host<'_, R, G>,
    program: &Program,
    sweep: &Sweep,
    input: &Input,
) -> Result<Answer, AllocError>
    requires short { length input.now.bytes.now ≤ MOST_BYTES }
    requires behind { length input.now.behind.now ≤ MOST_BYTES }
    requires bounds { IsTrue (are_bounds sweep.now.low sweep.now.high) }
    ensures { (settings : List Text)
        → IfOk result (λ a. IsDueOn (wanted_sweep (sweep_of sweep.now) settings)
        (tree_of program.now) (readings_of input.now) input.now.behind.now (due_in a)) }
{
    let plan = match read_plan(host.alloc, input.behind) {
        Ok(plan) => plan,
        Err(syntax) => return refusal(host.alloc, InputError::from(syntax)),
    };
    match prove(host.rt, host.alloc, program, &plan) {
        Ok(proven) => {
            let sweeping = Sweeping {
                proven: &proven,
                sweep,
                input,
            };
            Ok(done(sweeping.lines(host.alloc)?))
        }
        Err(reason) => refusal(host.alloc, InputError::from(reason)),
    }
}

// A plan that is proved for a sweep.
#[derive(Drop)]
struct Sweeping<'a> {
    proven: &'a Proven<'a>,
    sweep: &'a Sweep,
    input: &'a Input<'a>,
}

impl Sweeping<'_> {
    // A line for each value.
    fn lines(&self, alloc: Global) -> Result<Vec<u8>, AllocError>
        requires short { length self.now.input.now.bytes.now ≤ MOST_BYTES }
        requires bounds { IsTrue (are_bounds self.now.sweep.now.low self.now.sweep.now.high) }
        ensures { IfOk result (λ t. t.items
            ≡ swept_text (tree_of self.now.proven.now.program.now) self.now.proven.now.plan.now
            (readings_of self.now.input.now (sweep_of self.now.sweep.now))
            (sweep_of self.now.sweep.now)) }
    {
        let mut text = Vec::new(alloc);
        for step in 0..count_in(self.sweep) {
            let line = self.line_at(alloc, self.sweep.low + step as i64)?;
            text.extend_from_slice(&line)?;
        }
        Ok(text)
    }

    // The line of a value.
    fn line_at(&self, alloc: Global, value: i64) -> Result<Vec<u8>, AllocError>
        requires short { length self.now.input.now.bytes.now ≤ MOST_BYTES }
        ensures { IfOk result (λ t. t.items
            ≡ value_line
            (λ v. text_of_reading
            (tree_of self.now.proven.now.program.now) self.now.proven.now.plan.now
            (readings_of self.now.input.now (sweep_of self.now.sweep.now) v)) value) }
    {
        let given = settings_at(alloc, self.sweep, self.input.settings, value)?;
        let text = reading_text(alloc, self.proven, &given, self.input.bytes)?;
        let front = format!(in alloc; "{value} ")?;
        joined(front.into_bytes(), &text)
    }
}

// How many values a sweep has.
fn count_in(sweep: &Sweep) -> u32
    requires { IsTrue (are_bounds sweep.now.low sweep.now.high) }
    ensures count { result ≡ values_in (sweep_of sweep.now) }
    ensures within { (sweep.now.low +ℤ pos result) ≤ℤ pos (2 ^ 63) }
    ensures few { result ≤ 1000 }
{
    (sweep.high - sweep.low + 1) as u32
}

// The first refusal of a source with these settings, or else of the plan for its program, or that
// the plan is accepted.
fn reading_text(
    alloc: Global,
    proven: &Proven,
    settings: &[Setting],
    bytes: &[u8],
) -> Result<Vec<u8>, AllocError>
    requires short { length bytes.now ≤ MOST_BYTES }
    ensures { IfOk result (λ t. t.items
        ≡ text_of_reading (tree_of proven.now.program.now) proven.now.plan.now
        (reading_with settings.now bytes.now)) }
{
    match read_inside(alloc, bytes, settings, false) {
        Ok((program, _)) => fit_text(alloc, proven, &program),
        Err(error) => Ok(refusal(alloc, told_as(Behind::SweptPlan, error))?.text),
    }
}

// Why a plan that is proved on one program doesn't fit another, or that it is accepted there.
fn fit_text(alloc: Global, proven: &Proven, program: &Program) -> Result<Vec<u8>, AllocError>
    ensures { IfOk result (λ t. t.items
        ≡ text_of_fit (first_unfit (tree_of proven.now.program.now) proven.now.plan.now
        (tree_of program.now))) }
{
    match proven.fits(program) {
        Ok(()) => b"ACCEPTED\n".to_vec(alloc),
        Err(reason) => Ok(refusal(alloc, InputError::Misfit(reason))?.text),
    }
}
