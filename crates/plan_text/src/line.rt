// The lines of a plan's text, without their ends.

ghost use Rattle.std.specs.Prelude.{◌≡◌, ◌++◌, ◌∷◌, [], map, OnOk, codes};
ghost use Rattle.std.specs.Fmt.{decimal, signed_decimal};
ghost use Rattle.plan_text.specs.Words as spec;

use farkas_cert::Step;
use itoa::Buffer;
use nest_tree::Affine;
use owner_partition::{Anchor, Dist, Mark};
use std::alloc::AllocError;
use sync_plan::{ConditionRow, Kind, Version};

/// Appends a number. Where memory runs out, here and below, a part may be appended.
pub fn put_natural(out: &mut Vec<u8>, number: u64) -> Result<(), AllocError>
    ensures { OnOk result (out.new.items ≡ out.old.items ++ decimal number) }
{
    let mut buffer = Buffer::new();
    out.extend_from_slice(buffer.format(number).as_bytes())
}

fn put_signed(out: &mut Vec<u8>, number: i64) -> Result<(), AllocError>
    ensures { OnOk result (out.new.items ≡ out.old.items ++ signed_decimal number) }
{
    let mut buffer = Buffer::new();
    out.extend_from_slice(buffer.format(number).as_bytes())
}

fn put_wide(out: &mut Vec<u8>, number: i128) -> Result<(), AllocError>
    ensures { OnOk result (out.new.items ≡ out.old.items ++ signed_decimal number) }
{
    let mut buffer = Buffer::new();
    out.extend_from_slice(buffer.format(number).as_bytes())
}

/// Appends a blank and a word.
pub fn put_word(out: &mut Vec<u8>, word: &[u8]) -> Result<(), AllocError>
    ensures { OnOk result (out.new.items ≡ out.old.items ++ spec.spaced (word.now ∷ [])) }
{
    out.push(b' ')?;
    out.extend_from_slice(word)
}

/// Appends the line of the version.
pub(crate) fn put_version(out: &mut Vec<u8>, version: Version) -> Result<(), AllocError>
    ensures { OnOk result (out.new.items ≡ out.old.items ++ spec.version_line version) }
{
    out.extend_from_slice(b"SPMD PLAN ")?;
    out.extend_from_slice(match version {
        Version::One => b"1",
        Version::Two => b"2",
        Version::Three => b"3",
        Version::Four => b"4",
        Version::Five => b"5",
    })
}

/// Appends the line of a count.
pub(crate) fn put_count(out: &mut Vec<u8>, word: &[u8], count: u64) -> Result<(), AllocError>
    ensures { OnOk result (out.new.items ≡ out.old.items ++ spec.count_line word.now count) }
{
    out.extend_from_slice(word)?;
    out.push(b' ')?;
    put_natural(out, count)
}

/// Appends the line of a loop.
pub(crate) fn put_loop(
    out: &mut Vec<u8>,
    number: u32,
    mark: Mark,
    privates: &[u32],
) -> Result<(), AllocError>
    ensures { OnOk result (out.new.items ≡ out.old.items
        ++ spec.loop_line number (mark, privates.now)) }
{
    put_natural(out, u64::from(number))?;
    put_word(out, mark_word(mark))?;
    put_privates(out, privates)
}

// The words of private scalars, if there are some.
fn put_privates(out: &mut Vec<u8>, privates: &[u32]) -> Result<(), AllocError>
    ensures { OnOk result (out.new.items ≡ out.old.items
        ++ spec.spaced (spec.private_words privates.now)) }
{
    match privates {
        [] => Ok(()),
        [_, ..] => {
            put_word(out, b"PRIVATE")?;
            put_scalars(out, privates)
        }
    }
}

fn put_scalars(out: &mut Vec<u8>, scalars: &[u32]) -> Result<(), AllocError>
    ensures { OnOk result (out.new.items ≡ out.old.items
        ++ spec.spaced (map spec.private_word scalars.now)) }
{
    for &scalar in scalars {
        put_scalar(out, scalar)?;
    }
    Ok(())
}

fn put_scalar(out: &mut Vec<u8>, scalar: u32) -> Result<(), AllocError>
    ensures { OnOk result (out.new.items ≡ out.old.items ++ 32 ∷ spec.private_word scalar) }
{
    out.extend_from_slice(b" V")?;
    put_natural(out, u64::from(scalar))
}

fn mark_word(mark: Mark) -> &'static [u8]
    ensures { result.now ≡ spec.mark_word mark }
{
    match mark {
        Mark::Outer => b"OUTER",
        Mark::Doall => b"DOALL",
        Mark::Single => b"SINGLE",
        Mark::Inner => b"INNER",
        Mark::Sum => b"SUM",
    }
}

/// Appends the line of a phase.
pub(crate) fn put_phase(
    out: &mut Vec<u8>,
    number: u32,
    kind: &Kind,
    anchor: &Anchor,
) -> Result<(), AllocError>
    ensures { OnOk result (out.new.items ≡ out.old.items
        ++ spec.phase_line number (kind.now, anchor.now)) }
{
    put_natural(out, u64::from(number))?;
    put_kind(out, kind)?;
    put_word(out, b"AT")?;
    put_anchor(out, anchor)
}

/// Appends the words of a kind, each with a blank in front.
pub fn put_kind(out: &mut Vec<u8>, kind: &Kind) -> Result<(), AllocError>
    ensures { OnOk result (out.new.items ≡ out.old.items
        ++ spec.spaced (spec.kind_words kind.now)) }
{
    put_word(out, kind.word().as_bytes())?;
    match kind.anchor() {
        Some(anchor) => put_anchor(out, anchor),
        None => Ok(()),
    }
}

fn put_anchor(out: &mut Vec<u8>, anchor: &Anchor) -> Result<(), AllocError>
    ensures { OnOk result (out.new.items ≡ out.old.items
        ++ spec.spaced (spec.anchor_words anchor.now)) }
{
    put_form(out, &anchor.form)?;
    put_dist(out, anchor.dist)
}

fn put_dist(out: &mut Vec<u8>, dist: Dist) -> Result<(), AllocError>
    ensures { OnOk result (out.new.items ≡ out.old.items ++ spec.spaced (spec.dist_words dist)) }
{
    match dist {
        Dist::Block(length) => put_count(out, b" BLOCK", u64::from(length)),
        Dist::Cyclic => put_word(out, b"CYCLIC"),
    }
}

fn put_form(out: &mut Vec<u8>, form: &Affine) -> Result<(), AllocError>
    ensures { OnOk result (out.new.items ≡ out.old.items
        ++ spec.spaced (spec.form_words form.now)) }
{
    out.push(b' ')?;
    put_signed(out, form.constant())?;
    put_pairs(out, b"L", form.loops())?;
    put_pairs(out, b"P", form.params())
}

fn put_pairs(out: &mut Vec<u8>, letter: &[u8], pairs: &[(u32, i64)]) -> Result<(), AllocError>
    ensures { OnOk result (out.new.items ≡ out.old.items
        ++ spec.spaced (map (spec.pair_word letter.now) pairs.now)) }
{
    for &(number, coefficient) in pairs {
        put_pair(out, letter, number, coefficient)?;
    }
    Ok(())
}

fn put_pair(
    out: &mut Vec<u8>,
    letter: &[u8],
    number: u32,
    coefficient: i64,
) -> Result<(), AllocError>
    ensures { OnOk result (out.new.items ≡ out.old.items ++ 32
        ∷ spec.pair_word letter.now (number, coefficient)) }
{
    out.push(b' ')?;
    put_signed(out, coefficient)?;
    out.push(b'*')?;
    out.extend_from_slice(letter)?;
    put_natural(out, u64::from(number))
}

/// Appends the line of a row of conditions.
pub(crate) fn put_row(out: &mut Vec<u8>, number: u32, row: &ConditionRow) -> Result<(), AllocError>
    ensures { OnOk result (out.new.items ≡ out.old.items ++ spec.row_line number row.now) }
{
    put_natural(out, u64::from(number))?;
    put_pairs(out, b"P", row.coefs.as_slice())?;
    out.extend_from_slice(b" <= ")?;
    put_signed(out, row.bound)
}

/// Appends the first line of a certificate.
pub(crate) fn put_cert(out: &mut Vec<u8>, number: u64, steps: u64) -> Result<(), AllocError>
    ensures { OnOk result (out.new.items ≡ out.old.items ++ spec.cert_line number steps) }
{
    put_natural(out, number)?;
    put_count(out, b" STEPS", steps)
}

/// Appends the line of a step.
pub(crate) fn put_step(out: &mut Vec<u8>, step: &Step) -> Result<(), AllocError>
    ensures { OnOk result (out.new.items ≡ out.old.items ++ spec.step_line step.now) }
{
    put_wide(out, step.divisor)?;
    put_terms(out, step.terms.as_slice())
}

fn put_terms(out: &mut Vec<u8>, terms: &[(u64, i128)]) -> Result<(), AllocError>
    ensures { OnOk result (out.new.items ≡ out.old.items
        ++ spec.spaced (map spec.term_word terms.now)) }
{
    for &(row, multiplier) in terms {
        put_term(out, row, multiplier)?;
    }
    Ok(())
}

fn put_term(out: &mut Vec<u8>, row: u64, multiplier: i128) -> Result<(), AllocError>
    ensures { OnOk result (out.new.items ≡ out.old.items ++ 32 ∷ spec.term_word (row, multiplier)) }
{
    out.push(b' ')?;
    put_natural(out, row)?;
    out.push(b'*')?;
    put_wide(out, multiplier)
}
