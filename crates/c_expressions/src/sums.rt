// How a sum stands: of numbers where none of its partial sums leaves 64 bits, else of words.

ghost use Rattle.std.specs.Prelude.{◌≡◌, ◌*◌, ◌^◌, ◌++◌, ◌+ℤ◌, ◌*ℤ◌, ℕ, ℤ, List, true, false, unsigned_abs, IfOk, OnOk, string_bytes};
ghost use Rattle.c_expressions.specs.Names.{term_name};
ghost use Rattle.c_expressions.specs.Sums.{AppendsSum, AppendsWords, GoesOn, IsPlain, Values, factor_text, multiple_text, sign_text};

use crate::sum::{Sum, Term};
use crate::text::{put_loop, put_natural, put_number, put_text, put_word};
use std::alloc::AllocError;

/// Appends a sum: of numbers where none of its partial sums leaves 64 bits, else of words, whose last
/// value is exact.
pub fn put_sum(out: &mut String, sum: &Sum) -> Result<(), AllocError>
    ensures { OnOk result (AppendsSum sum.now (string_bytes out.old) (string_bytes out.new)) }
{
    if sum.is_plain() {
        put_plain(out, sum)
    } else {
        put_words(out, sum)
    }
}

// Appends a sum of numbers.
fn put_plain(out: &mut String, sum: &Sum) -> Result<(), AllocError>
    requires { IsPlain sum.now }
    ensures { OnOk result (AppendsSum sum.now (string_bytes out.old) (string_bytes out.new)) }
{
    let mut is_first = true;
    for &(term, coefficient) in sum.terms() {
        is_first = put_part(out, is_first, coefficient, term)?;
    }
    put_constant(out, is_first, sum.constant())
}

// Appends a multiple of a term behind what there is, if it isn't 0, and gives whether there is nothing
// still.
fn put_part(
    out: &mut String,
    is_first: bool,
    coefficient: i64,
    term: Term,
) -> Result<bool, AllocError>
    ensures { IfOk result (λ first. GoesOn (string_bytes out.old) is_first
        (string_bytes out.new) first (λ v. coefficient *ℤ v (term_name term))
        (unsigned_abs coefficient * 2 ^ 32)) }
{
    if coefficient == 0 {
        return Ok(is_first);
    }
    put_sign(out, is_first, coefficient.is_negative())?;
    put_multiple(out, coefficient.unsigned_abs(), term)?;
    Ok(false)
}

// Appends the last part, a constant, if it isn't 0 or nothing else stands there.
fn put_constant(out: &mut String, is_first: bool, constant: i64) -> Result<(), AllocError>
    ensures { OnOk result (GoesOn (string_bytes out.old) is_first (string_bytes out.new) false
        (λ v. constant) (unsigned_abs constant)) }
{
    if is_first {
        put_number(out, constant)
    } else if constant == 0 {
        Ok(())
    } else {
        put_sign(out, false, constant.is_negative())?;
        put_natural(out, constant.unsigned_abs())
    }
}

// Appends the sign in front of a part, which may be the first one.
fn put_sign(out: &mut String, is_first: bool, is_negative: bool) -> Result<(), AllocError>
    ensures { OnOk result (string_bytes out.new ≡ string_bytes out.old
        ++ sign_text is_first is_negative) }
{
    if is_first {
        if is_negative {
            put_text(out, "-")
        } else {
            Ok(())
        }
    } else if is_negative {
        put_text(out, " - ")
    } else {
        put_text(out, " + ")
    }
}

fn put_multiple(out: &mut String, size: u64, term: Term) -> Result<(), AllocError>
    ensures { OnOk result (string_bytes out.new ≡ string_bytes out.old ++ multiple_text size term) }
{
    put_factor(out, size)?;
    put_term(out, term)
}

fn put_factor(out: &mut String, size: u64) -> Result<(), AllocError>
    ensures { OnOk result (string_bytes out.new ≡ string_bytes out.old ++ factor_text size) }
{
    if size == 1 {
        Ok(())
    } else {
        put_natural(out, size)?;
        put_text(out, "*")
    }
}

fn put_term(out: &mut String, term: Term) -> Result<(), AllocError>
    ensures { OnOk result (string_bytes out.new ≡ string_bytes out.old ++ term_name term) }
{
    match term {
        Term::Loop(number) => put_loop(out, number),
        Term::Last => put_text(out, "z"),
        Term::Processor => put_text(out, "p"),
    }
}

// Appends a sum of words, taken back to a number.
fn put_words(out: &mut String, sum: &Sum) -> Result<(), AllocError>
    ensures { OnOk result (AppendsSum sum.now (string_bytes out.old) (string_bytes out.new)) }
{
    put_text(out, "(number)(")?;
    put_word(out, sum.constant())?;
    for &(term, coefficient) in sum.terms() {
        put_word_part(out, coefficient, term)?;
    }
    put_text(out, ")")
}

// Appends a multiple of a term behind words, if it isn't 0.
fn put_word_part(out: &mut String, coefficient: i64, term: Term) -> Result<(), AllocError>
    ensures { OnOk result ((old : List ℕ) (part : Values → ℤ)
        → AppendsWords old (string_bytes out.old) part
        → AppendsWords old (string_bytes out.new)
        (λ v. part v +ℤ (coefficient *ℤ v (term_name term)))) }
{
    if coefficient == 0 {
        return Ok(());
    }
    put_text(out, " + ")?;
    put_word(out, coefficient)?;
    put_text(out, "*W(")?;
    put_term(out, term)?;
    put_text(out, ")")
}
