// The fault of a text without form.

ghost use Rattle.std.specs.Prelude.{◌≡◌, ◌==◌, ◌&&◌, not, codes, drop, false, length, ◌≤◌, IfOk};
ghost use Rattle.std.specs.List.{list_any};
ghost use Rattle.f77_forms.specs.Marks as marks;
ghost use Rattle.f77_forms.specs.Reading.{FailsForMemory};
ghost use Rattle.f77_forms.specs.Statements.{begins_with};

use crate::characters::{is_capital, is_capital_or_digit, is_digit, is_name};
use crate::fault::{Fault, TextFault};
use crate::statement::split_digits;
use std::alloc::Global;

/// The greatest number that a source may have.
const GREATEST: u64 = 9223372036854775807;

/// A text with blanks for its character constants.
#[tactic(auto, unfolding(crate::specs::Marks::masked))]
fn masked(alloc: Global, text: &[u8]) -> Result<Vec<u8>, Fault>
    ensures masked { IfOk result (λ v. v.items ≡ marks.masked false text.now) }
    ensures err { FailsForMemory result }
{
    let mut masked = Vec::new(alloc);
    let mut quoted = false;
    for byte in text {
        masked.push(if quoted || *byte == b'\'' {
            b' '
        } else {
            *byte
        })?;
        if *byte == b'\'' {
            quoted = !quoted;
        }
    }
    Ok(masked)
}

fn has_constant(text: &[u8]) -> bool
    ensures { result ≡ marks.has_constant text.now }
{
    text.iter().filter(|byte| **byte == b'\'').count() >= 2
}

fn begins_digit(text: &[u8]) -> bool
    ensures { result ≡ marks.begins_digit text.now }
{
    match text {
        [first, ..] => is_digit(*first),
        [] => false,
    }
}

/// A sign and a digit.
fn begins_signed(text: &[u8]) -> bool
    ensures { result ≡ marks.begins_signed text.now }
{
    match text {
        [first, behind @ ..] => (*first == b'+' || *first == b'-') && begins_digit(behind),
        [] => false,
    }
}

fn begins_dot(text: &[u8]) -> bool
    ensures { result ≡ marks.begins_dot text.now }
{
    match text {
        [first, ..] => *first == b'.',
        [] => false,
    }
}

/// E or D, and a digit with a sign or none.
#[tactic(auto, unfolding(crate::specs::Marks::is_exponent))]
fn is_exponent(text: &[u8]) -> bool
    ensures { result ≡ marks.is_exponent text.now }
{
    match text {
        [letter, behind @ ..] => {
            (*letter == b'E' || *letter == b'D') && (begins_digit(behind) || begins_signed(behind))
        }
        [] => false,
    }
}

/// Whether digits, and a dot or an exponent, stand in front.
fn begins_real(text: &[u8]) -> bool
    ensures { result ≡ marks.begins_real text.now }
{
    let (digits, behind) = split_digits(text);
    !digits.is_empty() && (begins_dot(behind) || is_exponent(behind))
}

/// Whether capitals and a dot stand in front.
#[tactic(auto, unfolding(crate::specs::Marks::ends_dotted))]
fn ends_dotted(text: &[u8]) -> bool
    ensures { result ≡ marks.ends_dotted text.now }
{
    for byte in text {
        if *byte == b'.' {
            return true;
        }
        if !is_capital(*byte) {
            return false;
        }
    }
    false
}

/// Whether one capital at least and a dot stand in front.
#[tactic(auto, unfolding(crate::specs::Marks::is_dotted))]
fn is_dotted(text: &[u8]) -> bool
    ensures { result ≡ marks.is_dotted text.now }
{
    match text {
        [first, behind @ ..] => is_capital(*first) && ends_dotted(behind),
        [] => false,
    }
}

/// Whether `**`, a dot and a digit, a dotted word, or a character that is part of no name and a
/// real number stand in front.
#[tactic(auto, unfolding(crate::specs::Marks::begins_mark))]
fn begins_mark(text: &[u8]) -> bool
    ensures { result ≡ marks.begins_mark text.now }
{
    match text {
        [first, behind @ ..] => match behind {
            [second, ..] => {
                (*first == b'*' && *second == b'*')
                    || (*first == b'.' && is_digit(*second))
                    || (*first == b'.' && is_dotted(behind))
                    || (!is_capital_or_digit(*first) && begins_real(behind))
            }
            [] => false,
        },
        [] => false,
    }
}

#[tactic(auto, unfolding(crate::specs::Marks::holds_mark))]
fn holds_mark(text: &[u8]) -> bool
    ensures { result ≡ marks.holds_mark text.now }
{
    let mut rest = text;
    while let [_, behind @ ..] = rest {
        if begins_mark(rest) {
            return true;
        }
        rest = behind;
    }
    false
}

fn has_mark(text: &[u8]) -> bool
    ensures { result ≡ marks.has_mark text.now }
{
    begins_real(text) || holds_mark(text)
}

/// Whether a comma stands outside parentheses.
#[tactic(auto, unfolding(crate::specs::Marks::has_comma_outside))]
fn has_comma_outside(text: &[u8]) -> bool
    ensures { result ≡ marks.has_comma_outside 0 text.now }
{
    let mut depth: usize = 0;
    for byte in text {
        match *byte {
            b'(' => depth += 1,
            b')' => depth = depth.saturating_sub(1),
            b',' if depth == 0 => return true,
            _ => {}
        }
    }
    false
}

/// What stands behind the parenthesis that closes one that is open.
#[tactic(auto, unfolding(crate::specs::Marks::behind_group))]
fn behind_group(text: &[u8]) -> &[u8]
    ensures { result.now ≡ marks.behind_group 1 text.now }
{
    let mut depth: usize = 1;
    for (place, byte) in text.iter().enumerate() {
        match *byte {
            b'(' => depth += 1,
            b')' => {
                if depth <= 1 {
                    return text.split_at(place + 1).1;
                }
                depth -= 1;
            }
            _ => {}
        }
    }
    text.split_at(text.len()).1
}

/// The capitals and digits in front of a text, and what stands behind them.
#[tactic(auto, unfolding(crate::specs::Marks::word_in, crate::specs::Marks::behind_word))]
fn split_word(text: &[u8]) -> (&[u8], &[u8])
    ensures word { result.0.now ≡ marks.word_in text.now }
    ensures behind { result.1.now ≡ marks.behind_word text.now }
{
    for (place, byte) in text.iter().enumerate() {
        if !is_capital_or_digit(*byte) {
            return text.split_at(place);
        }
    }
    text.split_at(text.len())
}

/// What stands behind a pair of parentheses, where there is one in front.
#[tactic(auto, unfolding(crate::specs::Marks::behind_parentheses))]
fn behind_parentheses(text: &[u8]) -> &[u8]
    ensures { result.now ≡ marks.behind_parentheses text.now }
{
    match text {
        [b'(', behind @ ..] => behind_group(behind),
        _ => text,
    }
}

/// Whether `=` stands in front, with no comma outside behind it.
#[tactic(auto, unfolding(crate::specs::Marks::begins_equals, crate::specs::Marks::tail))]
fn is_stored(text: &[u8]) -> bool
    ensures { result ≡ marks.is_stored text.now }
{
    match text {
        [b'=', behind @ ..] => !has_comma_outside(behind),
        _ => false,
    }
}

fn begins_capital(text: &[u8]) -> bool
    ensures { result ≡ marks.begins_capital text.now }
{
    match text {
        [first, ..] => is_capital(*first),
        [] => false,
    }
}

/// Whether a text looks like an assignment.
fn looks_assigned(text: &[u8]) -> bool
    ensures { result ≡ marks.looks_assigned text.now }
{
    let (_, behind) = split_word(text);
    begins_capital(text) && is_stored(behind_parentheses(behind))
}

fn begins_compare(text: &[u8]) -> bool
    ensures { result ≡ marks.begins_compare text.now }
{
    text.starts_with(b".LT.")
        || text.starts_with(b".LE.")
        || text.starts_with(b".EQ.")
        || text.starts_with(b".GE.")
        || text.starts_with(b".GT.")
}

/// Whether the operator of a comparison stands in front, where so many parentheses are open.
fn is_compared(depth: usize, text: &[u8]) -> bool
    ensures { result ≡ ((depth == 1) && marks.begins_compare text.now) }
{
    depth == 1 && begins_compare(text)
}

/// The text in front of the operator of a comparison, and from there on, where a parenthesis is
/// open.
#[tactic(auto, unfolding(crate::specs::Marks::before_compare, crate::specs::Marks::from_compare))]
fn split_compare(text: &[u8]) -> (&[u8], &[u8])
    ensures front { result.0.now ≡ marks.before_compare 1 text.now }
    ensures back { result.1.now ≡ marks.from_compare 1 text.now }
{
    let mut depth: usize = 1;
    for (place, byte) in text.iter().enumerate() {
        if is_compared(depth, text.split_at(place).1) {
            return text.split_at(place);
        }
        match *byte {
            b'(' => depth += 1,
            b')' => {
                if depth <= 1 {
                    return text.split_at(text.len());
                }
                depth -= 1;
            }
            _ => {}
        }
    }
    text.split_at(text.len())
}

/// Whether what stands behind `IF(` looks like a comparison and an assignment.
fn looks_guarded(text: &[u8]) -> bool
    ensures { result ≡ marks.looks_guarded text.now }
{
    !split_compare(text).1.is_empty() && looks_assigned(behind_group(text))
}

/// Whether what stands behind `DO` looks like a DO without a label.
#[tactic(auto, unfolding(crate::specs::Marks::begins_equals, crate::specs::Marks::tail))]
fn looks_unlabelled(text: &[u8]) -> bool
    ensures { result ≡ marks.looks_unlabelled text.now }
{
    let (name, behind) = split_word(text);
    match behind {
        [b'=', bounds @ ..] => is_name(name) && has_comma_outside(bounds),
        _ => false,
    }
}

/// Whether a text begins with one of these words.
fn begins_with_one(words: &[&[u8]], text: &[u8]) -> bool
    ensures { result ≡ list_any (λ word. begins_with word.now text.now) words.now }
{
    words.iter().any(|word| text.starts_with(*word))
}

/// Whether a text begins with one of the words of other statements.
fn begins_other(text: &[u8]) -> bool
    ensures { result ≡ list_any (λ word. begins_with word text.now) marks.other_words }
{
    begins_with_one(&OTHER_WORDS, text)
}

/// The words with which other statements begin.
const OTHER_WORDS: [&[u8]; 35] = [
    b"IF(",
    b"ELSE",
    b"ENDIF",
    b"ENDDO",
    b"ENDFILE",
    b"DOWHILE",
    b"GOTO",
    b"ASSIGN",
    b"CALL",
    b"RETURN",
    b"READ",
    b"WRITE",
    b"FORMAT",
    b"DATA",
    b"COMMON",
    b"EQUIVALENCE",
    b"SUBROUTINE",
    b"FUNCTION",
    b"EXTERNAL",
    b"INTRINSIC",
    b"SAVE",
    b"IMPLICIT",
    b"REAL",
    b"DOUBLEPRECISION",
    b"COMPLEX",
    b"LOGICAL",
    b"CHARACTER",
    b"BLOCKDATA",
    b"ENTRY",
    b"PAUSE",
    b"OPEN",
    b"CLOSE",
    b"INQUIRE",
    b"BACKSPACE",
    b"REWIND",
];

/// Whether a text begins with this word, and something stands behind it.
fn goes_on(text: &[u8], word: &[u8]) -> bool
    ensures { result ≡ marks.goes_on word.now text.now }
{
    text.starts_with(word) && text.len() > word.len()
}

fn is_other_print(text: &[u8]) -> bool
    ensures { result ≡ (marks.goes_on (codes "PRINT") text.now
        && not (begins_with (codes "PRINT*,") text.now)) }
{
    goes_on(text, b"PRINT") && !text.starts_with(b"PRINT*,")
}

/// Whether a text is another statement by its first word, a PRINT, STOP or INTEGER of another
/// kind, or a DO without a label.
fn names_other(text: &[u8]) -> bool
    ensures { result ≡ marks.names_other text.now }
{
    begins_other(text)
        || is_other_print(text)
        || goes_on(text, b"STOP")
        || goes_on(text, b"INTEGER*")
        || is_unlabelled_do(text)
}

fn is_unlabelled_do(text: &[u8]) -> bool
    ensures { result ≡ (begins_with (codes "DO") text.now
        && marks.looks_unlabelled (drop 2 text.now)) }
{
    match text.strip_prefix(b"DO") {
        Some(behind) => looks_unlabelled(behind),
        None => false,
    }
}

/// Whether something outside constants is left out.
#[tactic(auto, unfolding(crate::specs::Marks::is_marked))]
fn is_marked(text: &[u8]) -> bool
    ensures { result ≡ marks.is_marked text.now }
{
    if let Some(behind) = text.strip_prefix(b"IF(") {
        if looks_guarded(behind) {
            let (front, back) = split_compare(behind);
            return has_mark(front) || has_mark(behind_operator(back));
        }
    }
    has_mark(text) || (names_other(text) && !looks_assigned(text))
}

/// A text without the four characters of an operator in front.
fn behind_operator(text: &[u8]) -> &[u8]
    ensures { result.now ≡ drop 4 text.now }
{
    text.split_at(text.len().min(4)).1
}

/// Whether a number is past the greatest.
#[tactic(auto, unfolding(crate::specs::Marks::holds_large))]
fn holds_large(text: &[u8]) -> bool
    ensures { result ≡ marks.holds_large 0 text.now }
{
    let mut value: u64 = 0;
    for byte in text {
        if is_digit(*byte) {
            let digit = u64::from(*byte - b'0');
            if value > (GREATEST - digit) / 10 {
                return true;
            }
            value = 10 * value + digit;
        } else {
            value = 0;
        }
    }
    false
}

/// The fault of a text without form.
#[tactic(auto, unfolding(crate::specs::Marks::text_fault, crate::specs::Marks::is_outside_profile))]
pub fn text_fault(alloc: Global, text: &[u8]) -> Result<TextFault, Fault>
    ensures fault { IfOk result (λ fault. fault ≡ marks.text_fault text.now) }
    ensures err { FailsForMemory result }
{
    if has_constant(text) && !text.starts_with(b"PRINT*,") {
        return Ok(TextFault::NotInProfile);
    }
    let open = masked(alloc, text)?;
    if is_marked(open.as_slice()) {
        return Ok(TextFault::NotInProfile);
    }
    if holds_large(open.as_slice()) {
        return Ok(TextFault::LiteralTooLarge);
    }
    Ok(TextFault::NoForm)
}
