// The first fault of a statement.

ghost use Rattle.std.specs.Prelude.{◌≡◌, ◌<◌, ◌^◌, not};
ghost use Rattle.std.specs.List.{list_any};
ghost use Rattle.std.specs.Option.{option_copied, option_map};
ghost use Rattle.f77_program.specs.declared.measure.Measure.{Measure};
ghost use Rattle.f77_scene.specs.Reading.{first_of};
ghost use Rattle.f77_program.specs.Faults as spec;
ghost use Rattle.f77_program.specs.Firsts as numbers;
ghost use Rattle.f77_program.specs.Refusals.{fault_of};
ghost use Rattle.f77_program.specs.Surveys.{survey_view};

use crate::measure::Measure;
use crate::reach::Reach;
use crate::refusal::Fault;
use crate::survey::Survey;
use crate::tested::Tested;
use nest_tree::is_small;

/// The first fault of names.
pub fn first_named(tested: &Tested, survey: &Survey, declares: bool) -> Option<Fault>
    ensures { option_map fault_of result ≡ first_of (spec.named_tests declares tested.now
        (survey_view survey.now)) }
{
    if tested.misplaced || survey.marks.lone_call {
        return Some(Fault::Syntax);
    }
    if has_unknown(tested, survey, declares) {
        return Some(Fault::Unknown);
    }
    if tested.other_type {
        return Some(Fault::NotInteger);
    }
    if tested.stores_to_loop || survey.marks.read_outside || tested.bad_loop {
        return Some(Fault::LoopVariable);
    }
    if tested.bad_rank || survey.marks.wrong_subscripts {
        return Some(Fault::Rank);
    }
    None
}

fn has_unknown(tested: &Tested, survey: &Survey, declares: bool) -> bool
    ensures { result ≡ spec.has_unknown declares tested.now (survey_view survey.now) }
{
    survey.marks.unknown_call
        || tested.bad_target
        || (declares && has_variable(&survey.measures))
        || tested.again
}

/// Whether one is no constant.
fn has_variable(measures: &[Measure]) -> bool
    ensures { result ≡ list_any (λ (m : Measure). not m.constant) measures.now }
{
    measures.iter().any(|measure| !measure.constant)
}

fn has_bad_divisor(measures: &[Measure]) -> bool
    ensures { result ≡ list_any (λ (m : Measure). m.divided) measures.now }
{
    measures.iter().any(|measure| measure.divided)
}

/// The first fault of values, forms and labels.
pub fn first_formed(
    tested: &Tested,
    survey: &Survey,
    reach: Reach,
    step: Option<&Measure>,
) -> Option<Fault>
    ensures { option_map fault_of result ≡ first_of (spec.formed_tests tested.now
        (survey_view survey.now) reach (option_copied step.entry)) }
{
    if has_bad_divisor(&survey.measures) {
        return Some(Fault::BadDivisor);
    }
    if reach == Reach::NotAffine || is_variable(step) {
        return Some(Fault::NotAffine);
    }
    if is_zero(step) {
        return Some(Fault::ZeroStep);
    }
    if tested.bad_label {
        return Some(Fault::DoLabel);
    }
    None
}

fn is_variable(step: Option<&Measure>) -> bool
    ensures { result ≡ spec.is_variable (option_copied step.entry) }
{
    match step {
        Some(step) => !step.constant,
        None => false,
    }
}

fn is_zero(step: Option<&Measure>) -> bool
    ensures { result ≡ spec.is_zero (option_copied step.entry) }
{
    match step {
        Some(step) => step.value == 0,
        None => false,
    }
}

/// The most statements of a program, END among them.
const MOST_STATEMENTS: usize = 400;

/// The most loops in one another.
const MOST_LOOPS: usize = 6;

/// The first number that passes a limit, where so many statements stand in front and so many
/// loops are open.
pub fn first_limit(
    tested: &Tested,
    count: usize,
    loops: Option<usize>,
    reach: Reach,
    step: Option<&Measure>,
) -> Option<i64>
    requires count { count < 2 ^ 62 }
    requires loops { spec.IsFew loops }
    ensures { result ≡ numbers.first_of (spec.limit_numbers tested.now count loops reach
        (option_copied step.entry)) }
{
    if count >= MOST_STATEMENTS {
        return Some(count as i64 + 1);
    }
    if let Some(number) = tested.past {
        return Some(number);
    }
    if let Some(loops) = loops {
        if loops >= MOST_LOOPS {
            return Some(loops as i64 + 1);
        }
    }
    if let Reach::Past(number) = reach {
        return Some(number);
    }
    match step {
        Some(step) if !is_small(step.value) => Some(step.value),
        _ => None,
    }
}
