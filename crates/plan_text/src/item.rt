// The lines of a plan's text, read one by one: each is taken where it is the line of what it says.

ghost use Rattle.std.specs.Prelude.{◌≡◌, ◌+◌, ◌∷◌, ◌++◌, ◌&&◌, ◌==◌, not, length, IfOk, IfErr, true};
ghost use Rattle.nest_tree.specs.Form.{is_small, rises_above};
ghost use Rattle.std.specs.List.{list_all};
ghost use Rattle.plan_text.specs.Unbroken.{is_glyph};
ghost use Rattle.plan_text.specs.PlanText.{has_loop, is_32, is_64, is_loop_shown, is_phase_shown, is_row_shown, is_step_shown};
ghost use Rattle.plan_text.specs.Stops.{RefusesLine};
ghost use Rattle.plan_text.specs.Words as spec;

use crate::line::{put_cert, put_count, put_loop, put_phase, put_row, put_step};
use crate::lines::{Lines, is_same};
use crate::loose::{
    behind_first, loop_of, number_32, number_64, phase_of, row_of, step_of, word_at, words_of,
};
use crate::syntax::PlanSyntax;
use farkas_cert::Step;
use nest_tree::{is_small, rises};
use owner_partition::{Anchor, Mark, Privates};
use std::alloc::Global;
use sync_plan::{ConditionRow, Kind, Version};

/// The line of a count of 32 bits.
pub(crate) fn read_count_32(
    alloc: Global,
    lines: &mut Lines,
    word: &[u8],
) -> Result<u32, PlanSyntax>
    requires { list_all is_glyph word.now ≡ true }
    ensures ok { IfOk result (λ n. lines.old.rest.now ≡ spec.count_line word.now n
        ++ (10 ∷ lines.new.rest.now)) }
    ensures taken { IfOk result (λ n. lines.new.taken ≡ lines.old.taken + 1) }
    ensures fits { IfOk result (λ n. is_32 n ≡ true) }
    ensures refused { IfErr result
        (RefusesLine (spec.count_line word.now) is_32 lines.old.rest.now lines.old.taken) }
{
    let line = lines.next()?;
    let words = words_of(alloc, line)?;
    let count = number_32(word_at(&words, 1));
    let mut written = Vec::with_capacity(alloc, line.len())?;
    put_count(&mut written, word, u64::from(count))?;
    if is_same(line, &written) {
        Ok(count)
    } else {
        Err(lines.refusal())
    }
}

/// The line of a count of 64 bits.
pub(crate) fn read_count_64(
    alloc: Global,
    lines: &mut Lines,
    word: &[u8],
) -> Result<u64, PlanSyntax>
    requires { list_all is_glyph word.now ≡ true }
    ensures ok { IfOk result (λ n. lines.old.rest.now ≡ spec.count_line word.now n
        ++ (10 ∷ lines.new.rest.now)) }
    ensures taken { IfOk result (λ n. lines.new.taken ≡ lines.old.taken + 1) }
    ensures fits { IfOk result (λ n. is_64 n ≡ true) }
    ensures refused { IfErr result
        (RefusesLine (spec.count_line word.now) is_64 lines.old.rest.now lines.old.taken) }
{
    let line = lines.next()?;
    let words = words_of(alloc, line)?;
    let count = number_64(word_at(&words, 1));
    let mut written = Vec::with_capacity(alloc, line.len())?;
    put_count(&mut written, word, count)?;
    if is_same(line, &written) {
        Ok(count)
    } else {
        Err(lines.refusal())
    }
}

/// The line of the loop with this number, in a plan of this version.
pub(crate) fn read_loop(
    alloc: Global,
    lines: &mut Lines,
    version: Version,
    number: u32,
) -> Result<(Mark, Privates), PlanSyntax>
    ensures ok { IfOk result (λ l. lines.old.rest.now ≡ spec.loop_line number l
        ++ (10 ∷ lines.new.rest.now)) }
    ensures taken { IfOk result (λ l. lines.new.taken ≡ lines.old.taken + 1) }
    ensures shown { IfOk result (λ l. is_loop_shown version l ≡ true) }
    ensures refused { IfErr result (RefusesLine (spec.loop_line number)
        (is_loop_shown version) lines.old.rest.now lines.old.taken) }
{
    let line = lines.next()?;
    let words = words_of(alloc, line)?;
    let (mark, privates) = loop_of(alloc, &words)?;
    let mut written = Vec::with_capacity(alloc, line.len())?;
    put_loop(&mut written, number, mark, privates.as_slice())?;
    if !is_same(line, &written) {
        return Err(lines.refusal());
    }
    if has_loop(version, mark, &privates) {
        Ok((mark, privates))
    } else {
        Err(lines.refusal())
    }
}

// Whether a version has such a loop: Sum loops, and private scalars where a loop's trips are dealt
// out.
fn has_loop(version: Version, mark: Mark, privates: &Privates) -> bool
    ensures { result ≡ has_loop version (mark, privates.now) }
{
    let may_sum = !mark.is_sum() || version.has_sums();
    let may_own = privates.as_slice().is_empty() || (version.has_privates() && mark.is_doall());
    may_sum && may_own
}

/// The line of the phase with this number.
pub(crate) fn read_phase(
    alloc: Global,
    lines: &mut Lines,
    number: u32,
) -> Result<(Kind, Anchor), PlanSyntax>
    ensures ok { IfOk result (λ phase. lines.old.rest.now ≡ spec.phase_line number phase
        ++ (10 ∷ lines.new.rest.now)) }
    ensures taken { IfOk result (λ phase. lines.new.taken ≡ lines.old.taken + 1) }
    ensures shown { IfOk result (λ phase. is_phase_shown phase ≡ true) }
    ensures refused { IfErr result
        (RefusesLine (spec.phase_line number) is_phase_shown lines.old.rest.now lines.old.taken) }
{
    let line = lines.next()?;
    let words = words_of(alloc, line)?;
    let Some((kind, anchor)) = phase_of(alloc, behind_first(&words))? else {
        return Err(lines.refusal());
    };
    let mut written = Vec::with_capacity(alloc, line.len())?;
    put_phase(&mut written, number, &kind, &anchor)?;
    if is_same(line, &written) {
        Ok((kind, anchor))
    } else {
        Err(lines.refusal())
    }
}

/// The line of the row of conditions with this number.
pub(crate) fn read_row(
    alloc: Global,
    lines: &mut Lines,
    number: u32,
) -> Result<ConditionRow, PlanSyntax>
    ensures ok { IfOk result (λ row. lines.old.rest.now ≡ spec.row_line number row
        ++ (10 ∷ lines.new.rest.now)) }
    ensures taken { IfOk result (λ row. lines.new.taken ≡ lines.old.taken + 1) }
    ensures shown { IfOk result (λ row. is_row_shown row ≡ true) }
    ensures refused { IfErr result
        (RefusesLine (spec.row_line number) is_row_shown lines.old.rest.now lines.old.taken) }
{
    let line = lines.next()?;
    let words = words_of(alloc, line)?;
    let row = row_of(alloc, &words)?;
    let mut written = Vec::with_capacity(alloc, line.len())?;
    put_row(&mut written, number, &row)?;
    if !is_same(line, &written) {
        return Err(lines.refusal());
    }
    if is_shown(&row) {
        Ok(row)
    } else {
        Err(lines.refusal())
    }
}

// Whether a row names a named constant, and only by rising numbers, with numbers as a form has them.
fn is_shown(row: &ConditionRow) -> bool
    ensures { result ≡ (not (length row.now.coefs == 0) && rises_above 0 row.now.coefs
        && is_small row.now.bound) }
{
    let coefs = row.coefs.as_slice();
    !coefs.is_empty() && rises(coefs) && is_small(row.bound)
}

/// The number of steps of the certificate with this number, from its line.
pub(crate) fn read_steps(alloc: Global, lines: &mut Lines, number: u64) -> Result<u64, PlanSyntax>
    ensures ok { IfOk result (λ steps. lines.old.rest.now ≡ spec.cert_line number steps
        ++ (10 ∷ lines.new.rest.now)) }
    ensures taken { IfOk result (λ steps. lines.new.taken ≡ lines.old.taken + 1) }
    ensures fits { IfOk result (λ steps. is_64 steps ≡ true) }
    ensures refused { IfErr result
        (RefusesLine (spec.cert_line number) is_64 lines.old.rest.now lines.old.taken) }
{
    let line = lines.next()?;
    let words = words_of(alloc, line)?;
    let steps = number_64(word_at(&words, 2));
    let mut written = Vec::with_capacity(alloc, line.len())?;
    put_cert(&mut written, number, steps)?;
    if is_same(line, &written) {
        Ok(steps)
    } else {
        Err(lines.refusal())
    }
}

/// The line of a step.
pub(crate) fn read_step(alloc: Global, lines: &mut Lines) -> Result<Step, PlanSyntax>
    ensures ok { IfOk result (λ step. lines.old.rest.now ≡ spec.step_line step
        ++ (10 ∷ lines.new.rest.now)) }
    ensures taken { IfOk result (λ step. lines.new.taken ≡ lines.old.taken + 1) }
    ensures shown { IfOk result (λ step. is_step_shown step ≡ true) }
    ensures refused { IfErr result
        (RefusesLine spec.step_line is_step_shown lines.old.rest.now lines.old.taken) }
{
    let line = lines.next()?;
    let words = words_of(alloc, line)?;
    let step = step_of(alloc, &words)?;
    let mut written = Vec::with_capacity(alloc, line.len())?;
    put_step(&mut written, &step)?;
    if is_same(line, &written) {
        Ok(step)
    } else {
        Err(lines.refusal())
    }
}
