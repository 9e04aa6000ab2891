// An answer, and the one with which something is refused.

ghost use Rattle.std.specs.Prelude.{◌≡◌, ◌≢◌, IfOk};
ghost use Rattle.plan_input.specs.declared.error.InputError.TheVariants as errors;
ghost use Rattle.spmd_answer.specs.Answers.{due_in};
ghost use Rattle.spmd_answer.specs.Due as due;
ghost use Rattle.spmd_answer.specs.Due.{due_for};

use crate::source::Behind;
use f77_program::Refusal;
use plan_input::{InputError, Status};
use std::alloc::{AllocError, Global};
use std::fmt::Write;

/// A status and the text that is written with it.
#[derive(Drop)]
pub struct Answer {
    pub status: Status,
    pub text: Vec<u8>,
}

/// All was done, with this text.
pub(crate) fn done(text: Vec<u8>) -> Answer
    ensures { due_in result ≡ due.done text.items }
{
    Answer {
        status: Status::Done,
        text,
    }
}

/// The answer that tells an error. The error of the call is that memory ran out: where the error to tell
/// is want of memory there is no answer.
pub fn refusal(alloc: Global, error: InputError) -> Result<Answer, AllocError>
    ensures { IfOk result (λ a. (error ≢ errors.NoMemory) × (due_in a ≡ due_for error)) }
{
    match error {
        InputError::NoMemory => Err(AllocError),
        error => {
            let text = format!(in alloc; "{error}\n")?;
            Ok(Answer {
                status: error.status(),
                text: text.into_bytes(),
            })
        }
    }
}

/// An error of a source behind whose END line this may stand, as it is told: of a sweep the first
/// setting is its own, and isn't counted among those of the words.
pub fn told_as(behind: Behind, error: InputError) -> InputError
    ensures { result ≡ due.told_as behind error }
{
    match error {
        InputError::Statement(refusal) => statement_error(behind, refusal),
        error => error,
    }
}

fn statement_error(behind: Behind, refusal: Refusal) -> InputError
    ensures { result ≡ due.statement_error behind refusal }
{
    match refusal {
        Refusal::BadSetting(index) => setting_error(behind, index),
        Refusal::Statement(..) | Refusal::NoMemory => InputError::Statement(refusal),
    }
}

// A setting, by its number from 1, that names no named constant.
fn setting_error(behind: Behind, index: usize) -> InputError
    ensures { result ≡ due.setting_error behind index }
{
    match behind {
        Behind::Comments | Behind::PlanText => InputError::Statement(Refusal::BadSetting(index)),
        Behind::SweptPlan => {
            if index == 1 {
                InputError::BadSweep
            } else {
                InputError::Statement(Refusal::BadSetting(index.saturating_sub(1)))
            }
        }
    }
}
