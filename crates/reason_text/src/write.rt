// The text of reasons, written.

ghost use Rattle.std.specs.Prelude.{◌≡◌, ◌++◌, ◌∷◌, [], OnOk, map};
ghost use Rattle.std.specs.Fmt.{decimal};
ghost use Rattle.nest_tree.specs.View.{tree_of};
ghost use Rattle.plan_text.specs.PlanText.{text_of};
ghost use Rattle.plan_text.specs.Words.{spaced};
ghost use Rattle.reason_text.specs.ReasonText as spec;

use nest_tree::Program;
use plan_maker::cause::{Cause, Word};
use plan_maker::reasons::{Bar, LoopReason, PhaseReason, Reasons};
use plan_maker::tries::Tried;
use plan_text::{put_kind, put_natural, put_word};
use std::alloc::AllocError;

/// Appends the text of the reasons of a program's plan, in which variables have the program's
/// names. The error is that memory ran out: a part may be appended then.
pub fn push_reasons(
    text: &mut Vec<u8>,
    program: &Program,
    reasons: &Reasons,
) -> Result<(), AllocError>
    ensures { OnOk result (text.new.items ≡ text.old.items
        ++ spec.reason_text (tree_of program.now) reasons.now) }
{
    push_loops(text, program, reasons.loops.as_slice())?;
    push_phases(text, program, reasons.phases.as_slice())?;
    text.extend_from_slice(b"END REASONS\n")?;
    Ok(())
}

// The lines of the loops that aren't dealt out.
fn push_loops(
    text: &mut Vec<u8>,
    program: &Program,
    reasons: &[LoopReason],
) -> Result<(), AllocError>
    ensures { OnOk result (text.new.items ≡ text.old.items
        ++ text_of (map (spec.loop_line (tree_of program.now)) reasons.now)) }
{
    for reason in reasons {
        push_loop(text, program, *reason)?;
    }
    Ok(())
}

// The lines of the weaker kinds.
fn push_phases(
    text: &mut Vec<u8>,
    program: &Program,
    reasons: &[PhaseReason],
) -> Result<(), AllocError>
    ensures { OnOk result (text.new.items ≡ text.old.items
        ++ text_of (map (spec.phase_line (tree_of program.now)) reasons.now)) }
{
    for reason in reasons {
        push_phase(text, program, reason)?;
    }
    Ok(())
}

// A line of a loop, with its end.
fn push_loop(text: &mut Vec<u8>, program: &Program, reason: LoopReason) -> Result<(), AllocError>
    ensures { OnOk result (text.new.items ≡ text.old.items
        ++ (spec.loop_line (tree_of program.now) reason ++ 10 ∷ [])) }
{
    text.extend_from_slice(b"LOOP")?;
    push_number(text, reason.number)?;
    text.extend_from_slice(b" NOT")?;
    put_word(text, tried_word(reason.tried))?;
    push_bar(text, program, reason.bar)?;
    text.push(b'\n')?;
    Ok(())
}

// The words, each with a blank in front, of why a try fails.
fn push_bar(text: &mut Vec<u8>, program: &Program, bar: Bar) -> Result<(), AllocError>
    ensures { OnOk result (text.new.items ≡ text.old.items
        ++ spaced (spec.bar_words (tree_of program.now) bar)) }
{
    match bar {
        Bar::Print => put_word(text, b"PRINT"),
        Bar::Meeting(cause) => {
            push_accesses(text, program, &cause)?;
            put_word(text, answer_word(cause.word))
        }
    }
}

// A line of a weaker kind, with its end.
fn push_phase(text: &mut Vec<u8>, program: &Program, reason: &PhaseReason) -> Result<(), AllocError>
    ensures { OnOk result (text.new.items ≡ text.old.items
        ++ (spec.phase_line (tree_of program.now) reason.now ++ 10 ∷ [])) }
{
    text.extend_from_slice(b"PHASE")?;
    push_number(text, reason.phase)?;
    text.extend_from_slice(b" NOT")?;
    put_kind(text, &reason.kind)?;
    push_why(text, program, &reason.cause)?;
    text.push(b'\n')?;
    Ok(())
}

// The words of a system that is kept, each with a blank in front.
fn push_why(text: &mut Vec<u8>, program: &Program, cause: &Cause) -> Result<(), AllocError>
    ensures { OnOk result (text.new.items ≡ text.old.items
        ++ spaced (spec.why_words (tree_of program.now) cause.now)) }
{
    push_accesses(text, program, cause)?;
    push_place(text, cause)
}

// The words of the two accesses of a system, each with a blank in front.
fn push_accesses(text: &mut Vec<u8>, program: &Program, cause: &Cause) -> Result<(), AllocError>
    ensures { OnOk result (text.new.items ≡ text.old.items
        ++ spaced (spec.accesses_words (tree_of program.now) cause.now)) }
{
    put_word(text, b"LINES")?;
    push_number(text, cause.lines.0)?;
    push_number(text, cause.lines.1)?;
    put_word(text, b"NAME")?;
    put_word(text, name_of(program, cause.variable))
}

// The words of the level, the piece and the answer of a system, each with a blank in front.
fn push_place(text: &mut Vec<u8>, cause: &Cause) -> Result<(), AllocError>
    ensures { OnOk result (text.new.items ≡ text.old.items ++ spaced (spec.place_words cause.now)) }
{
    put_word(text, b"LEVEL")?;
    push_number(text, cause.level)?;
    put_word(text, b"PIECE")?;
    push_number(text, cause.piece)?;
    put_word(text, answer_word(cause.word))
}

// A number with a blank in front.
fn push_number(text: &mut Vec<u8>, number: u32) -> Result<(), AllocError>
    ensures { OnOk result (text.new.items ≡ text.old.items ++ spaced (decimal number ∷ [])) }
{
    text.push(b' ')?;
    put_natural(text, u64::from(number))
}

// The name of a variable by its number from 1; an empty one where there is no such variable.
fn name_of(program: &Program, variable: u32) -> &[u8]
    ensures { result.now ≡ spec.name_of (tree_of program.now) variable }
{
    let place = variable.saturating_sub(1) as usize;
    if place < program.variables.len() {
        program.variables[place].name.as_slice()
    } else {
        b""
    }
}

// How it was tried to deal a loop out.
fn tried_word(tried: Tried) -> &'static [u8]
    ensures { result.now ≡ spec.tried_word tried }
{
    match tried {
        Tried::Doall => b"DOALL",
        Tried::Private => b"PRIVATE",
        Tried::Sum => b"SUM",
    }
}

// The answer by which a system is kept.
fn answer_word(word: Word) -> &'static [u8]
    ensures { result.now ≡ spec.answer_word word }
{
    match word {
        Word::Open => b"OPEN",
        Word::Wide => b"WIDE",
        Word::Many => b"MANY",
        Word::Work | Word::Spent => b"WORK",
    }
}
