// What a line would say if it were a line of a plan's text. It is one where it is the line of what
// it says: who reads it compares the two, so nothing else of its form is looked at here.

ghost use Rattle.std.specs.Prelude.{◌≡◌, ◌==◌, ◌+◌, ◌-◌, ◌%◌, [], map, drop, IfOk, position, ◌<◌};
ghost use Rattle.std.specs.List.{after_first, before_first};
ghost use Rattle.std.specs.Str.{bytes_eq};
ghost use Rattle.plan_text.specs.Loose as spec;

use farkas_cert::{Step, Terms};
use nest_tree::{Affine, Listed, Pairs, is_small, rises};
use owner_partition::{Anchor, Dist, Mark, Privates};
use std::alloc::{AllocError, Global};
use sync_plan::{ConditionRow, Kind};

/// The words of a line: what stands between blanks.
pub(crate) fn words_of(alloc: Global, line: &[u8]) -> Result<Vec<&[u8]>, AllocError>
    ensures { IfOk result (λ words. map (λ w. w.now) words.items ≡ spec.words_of line.now) }
{
    line.split(|byte| *byte == b' ').collect(alloc)
}

/// The word at a place, empty where there is none.
pub(crate) fn word_at<'a>(words: &[&'a [u8]], place: usize) -> &'a [u8]
    ensures { result.now ≡ spec.word_at place (map (λ w. w.now) words.now) }
{
    if place < words.len() {
        words[place]
    } else {
        &[]
    }
}

pub(crate) fn last_word<'a>(words: &[&'a [u8]]) -> &'a [u8]
    ensures { result.now ≡ spec.last_word (map (λ w. w.now) words.now) }
{
    word_at(words, words.len().saturating_sub(1))
}

/// The number of these decimal digits, modulo 2^128.
fn number_of(word: &[u8]) -> u128
    ensures { result ≡ spec.number_of word.now }
{
    let mut number = 0u128;
    for byte in word {
        let digit = u128::from(byte.saturating_sub(b'0'));
        number = number.wrapping_mul(10).wrapping_add(digit);
    }
    number
}

pub(crate) fn number_32(word: &[u8]) -> u32
    ensures { result ≡ spec.number_32 word.now }
{
    (number_of(word) % (1 << 32)) as u32
}

pub(crate) fn number_64(word: &[u8]) -> u64
    ensures { result ≡ spec.number_64 word.now }
{
    (number_of(word) % (1 << 64)) as u64
}

/// A signed number of 128 bits, with a minus sign in front or not.
fn signed_of(word: &[u8]) -> i128
    ensures { result ≡ spec.signed_of word.now }
{
    match word {
        [b'-', digits @ ..] => negated(number_of(digits)),
        [] => 0,
        _ => kept(number_of(word)),
    }
}

fn negated(number: u128) -> i128
    ensures { result ≡ spec.negated number }
{
    if 0 < number && number <= 1 << 127 {
        -((number - 1) as i128) - 1
    } else {
        0
    }
}

fn kept(number: u128) -> i128
    ensures { result ≡ spec.kept number }
{
    if number < 1 << 127 { number as i128 } else { 0 }
}

fn narrow_of(word: &[u8]) -> i64
    ensures { result ≡ spec.narrow_of word.now }
{
    narrow(signed_of(word))
}

fn narrow(number: i128) -> i64
    ensures { result ≡ spec.narrow number }
{
    if i128::from(i64::MIN) <= number && number <= i128::from(i64::MAX) {
        number as i64
    } else {
        0
    }
}

// What stands before and behind the first asterisk.
fn at_star(word: &[u8]) -> (&[u8], &[u8])
    ensures before { result.0.now ≡ spec.before_star word.now }
    ensures after { result.1.now ≡ spec.after_star word.now }
{
    match star_place(word) {
        Some(place) => (&word[..place], &word[place + 1..]),
        None => (word, &word[word.len()..]),
    }
}

// The place of the first asterisk.
fn star_place(word: &[u8]) -> Option<usize>
    ensures { result ≡ position (λ b. b == 42) word.now }
{
    word.iter().position(|byte| *byte == b'*')
}

// A coefficient times a variable with this letter.
fn pair_of(letter: u8, word: &[u8]) -> Option<(u32, i64)>
    ensures { result ≡ spec.pair_of letter word.now }
{
    let (before, after) = at_star(word);
    match after {
        [found, digits @ ..] if *found == letter => Some((number_32(digits), narrow_of(before))),
        _ => None,
    }
}

fn pairs_of(alloc: Global, letter: u8, words: &[&[u8]]) -> Result<Pairs, AllocError>
    ensures { IfOk result (λ pairs. pairs ≡ spec.pairs_of letter (map (λ w. w.now) words.now)) }
{
    let mut pairs = Pairs::new(alloc);
    for word in words {
        if let Some((number, coefficient)) = pair_of(letter, word) {
            pairs.push(number, coefficient)?;
        }
    }
    Ok(pairs)
}

// A form whose constant is the first word, with the pairs among the words; none where its numbers
// are no form's.
fn form_of(alloc: Global, words: &[&[u8]]) -> Result<Option<Affine>, AllocError>
    ensures { IfOk result (λ form. form ≡ spec.form_of (map (λ w. w.now) words.now)) }
{
    let constant = narrow_of(word_at(words, 0));
    let loops = pairs_of(alloc, b'L', words)?;
    let params = pairs_of(alloc, b'P', words)?;
    Ok(as_form(constant, loops, params))
}

fn as_form(constant: i64, loops: Pairs, params: Pairs) -> Option<Affine>
    ensures { result
        ≡ spec.as_form (record { constant = constant; loops = loops; params = params }) }
{
    if is_small(constant) && rises(loops.as_slice()) && rises(params.as_slice()) {
        Some(Affine::new(constant, loops, params))
    } else {
        None
    }
}

fn dist_of(word: &[u8]) -> Dist
    ensures { result ≡ spec.dist_of word.now }
{
    if is_same(word, b"CYCLIC") {
        Dist::Cyclic
    } else {
        Dist::Block(number_32(word))
    }
}

fn anchor_of(alloc: Global, words: &[&[u8]]) -> Result<Option<Anchor>, AllocError>
    ensures { IfOk result (λ anchor. anchor ≡ spec.anchor_of (map (λ w. w.now) words.now)) }
{
    let dist = dist_of(last_word(words));
    let form = form_of(alloc, words)?;
    Ok(form.map(|form| Anchor { form, dist }))
}

fn is_same(word: &[u8], other: &[u8]) -> bool
    ensures { result ≡ bytes_eq word.now other.now }
{
    word == other
}

// The mark that a word names.
fn mark_of(word: &[u8]) -> Mark
    ensures { result ≡ spec.mark_of word.now }
{
    if is_same(word, b"OUTER") {
        Mark::Outer
    } else if is_same(word, b"DOALL") {
        Mark::Doall
    } else if is_same(word, b"SUM") {
        Mark::Sum
    } else if is_same(word, b"SINGLE") {
        Mark::Single
    } else {
        Mark::Inner
    }
}

// Private scalars.
fn privates_of(alloc: Global, words: &[&[u8]]) -> Result<Privates, AllocError>
    ensures { IfOk result (λ privates. privates
        ≡ map spec.private_of (map (λ w. w.now) words.now)) }
{
    let mut numbers = Vec::with_capacity(alloc, words.len())?;
    for word in words {
        numbers.push(private_of(word))?;
    }
    Ok(Listed::from_vec(numbers))
}

fn private_of(word: &[u8]) -> u32
    ensures { result ≡ spec.private_of word.now }
{
    match word {
        [_, digits @ ..] => number_32(digits),
        [] => number_32(word),
    }
}

/// A loop's mark and its private scalars.
pub(crate) fn loop_of(alloc: Global, words: &[&[u8]]) -> Result<(Mark, Privates), AllocError>
    ensures { IfOk result (λ l. l ≡ spec.loop_of (map (λ w. w.now) words.now)) }
{
    let mark = mark_of(word_at(words, 1));
    let privates = privates_of(alloc, behind_third(words))?;
    Ok((mark, privates))
}

// The words behind the third.
fn behind_third<'a, 'b>(words: &'b [&'a [u8]]) -> &'b [&'a [u8]]
    ensures { map (λ w. w.now) result.now ≡ drop 3 (map (λ w. w.now) words.now) }
{
    match words {
        [_, _, _, behind @ ..] => behind,
        _ => &words[words.len()..],
    }
}

fn kind_of(alloc: Global, words: &[&[u8]]) -> Result<Option<Kind>, AllocError>
    ensures { IfOk result (λ kind. kind ≡ spec.kind_of (map (λ w. w.now) words.now)) }
{
    let word = word_at(words, 0);
    if !is_same(word, b"PRODUCER") {
        return Ok(Some(Kind::plain(word)));
    }
    let anchor = anchor_of(alloc, behind_first(words))?;
    Ok(anchor.map(Kind::Producer))
}

/// A phase's kind and anchor.
pub(crate) fn phase_of(alloc: Global, words: &[&[u8]]) -> Result<Option<(Kind, Anchor)>, AllocError>
    ensures { IfOk result (λ phase. phase ≡ spec.phase_of (map (λ w. w.now) words.now)) }
{
    let (before, after) = at_word(words);
    let kind = kind_of(alloc, before)?;
    let anchor = anchor_of(alloc, after)?;
    Ok(both(kind, anchor))
}

// The words before and behind the first word AT.
fn at_word<'a, 'b>(words: &'b [&'a [u8]]) -> (&'b [&'a [u8]], &'b [&'a [u8]])
    ensures before { map (λ w. w.now) result.0.now
        ≡ before_first spec.is_at (map (λ w. w.now) words.now) }
    ensures after { map (λ w. w.now) result.1.now
        ≡ after_first spec.is_at (map (λ w. w.now) words.now) }
{
    match at_place(words) {
        Some(place) => (&words[..place], &words[place + 1..]),
        None => (words, &words[words.len()..]),
    }
}

// The place of the first word AT.
fn at_place(words: &[&[u8]]) -> Option<usize>
    ensures { result ≡ position (λ w. spec.is_at w.now) words.now }
{
    words.iter().position(|word| is_same(word, b"AT"))
}

fn both(kind: Option<Kind>, anchor: Option<Anchor>) -> Option<(Kind, Anchor)>
    ensures { result ≡ spec.both kind anchor }
{
    match (kind, anchor) {
        (Some(kind), Some(anchor)) => Some((kind, anchor)),
        _ => None,
    }
}

/// A row of conditions.
pub(crate) fn row_of(alloc: Global, words: &[&[u8]]) -> Result<ConditionRow, AllocError>
    ensures { IfOk result (λ row. row ≡ spec.row_of (map (λ w. w.now) words.now)) }
{
    Ok(ConditionRow {
        coefs: pairs_of(alloc, b'P', words)?,
        bound: narrow_of(last_word(words)),
    })
}

fn term_of(word: &[u8]) -> (u64, i128)
    ensures { result ≡ spec.term_of word.now }
{
    let (before, after) = at_star(word);
    (number_64(before), signed_of(after))
}

/// A step.
pub(crate) fn step_of(alloc: Global, words: &[&[u8]]) -> Result<Step, AllocError>
    ensures { IfOk result (λ step. step ≡ spec.step_of (map (λ w. w.now) words.now)) }
{
    Ok(Step {
        divisor: signed_of(word_at(words, 0)),
        terms: terms_of(alloc, behind_first(words))?,
    })
}

fn terms_of(alloc: Global, words: &[&[u8]]) -> Result<Terms, AllocError>
    ensures { IfOk result (λ terms. terms ≡ map spec.term_of (map (λ w. w.now) words.now)) }
{
    let mut terms = Vec::with_capacity(alloc, words.len())?;
    for word in words {
        terms.push(term_of(word))?;
    }
    Ok(Terms::from_vec(terms))
}

/// The words behind the first.
pub(crate) fn behind_first<'a, 'b>(words: &'b [&'a [u8]]) -> &'b [&'a [u8]]
    ensures { map (λ w. w.now) result.now ≡ drop 1 (map (λ w. w.now) words.now) }
{
    match words {
        [_, behind @ ..] => behind,
        [] => words,
    }
}
