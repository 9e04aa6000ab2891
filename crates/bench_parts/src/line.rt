// What a line of the input says.

ghost use Rattle.std.specs.Prelude.{◌≡◌, ◌≢◌, ◌↔◌, ◌+◌, ◌<◌, ◌^◌, IfOk, IfErr, IsTrue, Ok, Err, map};
ghost use Rattle.std.specs.List.{All, list_all};
ghost use Rattle.farkas_cert.specs.Combination.{is_narrow};
ghost use Rattle.std.specs.Str.{bytes_eq};
ghost use Rattle.bench_parts.specs.Lines as spec;
ghost use Rattle.bench_parts.specs.Tasks.{IsNarrowLine};
ghost use Rattle.bench_parts.specs.declared.line.LineFault.TheVariants.{NoMemory};

use crate::number::{entry_of, natural_up_to};
use farkas_cert::{Coefs, Row};
use std::alloc::{AllocError, AllocFailed, Global};
use std::marker::Model;
use thiserror::Error;

/// The most variables of a system.
pub const MOST_VARIABLES: u32 = 1000;

/// The name of a system. Contracts see its bytes.
#[derive(Drop)]
pub struct Name {
    bytes: Vec<u8>,
}

impl Model for Name {
    ghost use Rattle.std.specs.Prelude.{List, ℕ};

    ghost Value = { List ℕ };

    ghost view = { λ n. n.bytes.items };
}

impl Name {
    /// The bytes of the name.
    pub fn as_slice(&self) -> &[u8]
        ensures { result.now ≡ self.now }
    {
        self.bytes.as_slice()
    }
}

/// The head of a system.
#[derive(Drop)]
pub struct Head {
    pub name: Name,
    pub variables: u32,
    pub rows: u32,
}

/// What a line says.
#[derive(Drop)]
pub enum Line {
    /// It is passed over.
    Nothing,
    Head(Head),
    Row(Row),
}

/// What has to stand at a place of a line.
#[derive(Clone, Copy, Debug, PartialEq, Eq, Error)]
pub enum Wanted {
    #[error("a name of visible characters")]
    Name,
    #[error("the number of variables, 0 to 1000 in decimal digits")]
    Variables,
    #[error("the number of rows, 0 to 4294967295 in decimal digits")]
    Rows,
    #[error("a coefficient, a whole number of at most 2 ^ 126 in size, or <=")]
    Coefficient,
    #[error("the bound, a whole number of at most 2 ^ 126 in size")]
    Bound,
    #[error("the end of the line")]
    End,
}

/// What is wrong with a line.
#[derive(Clone, Copy, Debug, PartialEq, Eq, Error)]
pub enum LineFault {
    /// The word of this number, from 1, is not what has to stand there, or is missing.
    #[error("word {0}: wanted is {1}")]
    Word(u64, Wanted),
    /// A row has so many coefficients, where the system has so many variables.
    #[error("a row of {0} coefficients: wanted is one for each of {1} variables")]
    WrongCount(u64, u32),
    #[error("a row: wanted is a line that begins with the word system")]
    NoSystem,
    /// A system begins where so many rows are missing of the one before.
    #[error("wanted are {0} more rows of the system before")]
    MissingRows(u32),
    /// Memory ran out. It says nothing of the line.
    #[error("out of memory")]
    NoMemory,
}

impl From<AllocError> for LineFault {
    ghost from_gives = { λ _ fault. fault ≡ NoMemory };

    fn from(_error: AllocError) -> LineFault {
        LineFault::NoMemory
    }
}

impl<T: Drop> From<AllocFailed<T>> for LineFault {
    ghost from_gives = { λ _ fault. fault ≡ NoMemory };

    fn from(_failed: AllocFailed<T>) -> LineFault {
        LineFault::NoMemory
    }
}

/// What the line says; its end may be there or not.
pub fn read_line(alloc: Global, bytes: &[u8]) -> Result<Line, LineFault>
    ensures line { IfOk result (λ line. spec.line_of bytes.now ≡ Ok line) }
    ensures malformed { IfErr result (λ fault. fault ≢ NoMemory
        → spec.line_of bytes.now ≡ Err fault) }
    ensures narrow { IfOk result IsNarrowLine }
{
    if is_comment(bytes) {
        return Ok(Line::Nothing);
    }
    let words = words_of(alloc, bytes)?;
    match words.first() {
        None => Ok(Line::Nothing),
        Some(word) if is_same(word, b"system") => Ok(Line::Head(head_of(alloc, &words[1..])?)),
        Some(_) => Ok(Line::Row(row_of(alloc, words.as_slice())?)),
    }
}

fn is_same(word: &[u8], other: &[u8]) -> bool
    ensures { result ≡ bytes_eq word.now other.now }
{
    word == other
}

fn is_comment(bytes: &[u8]) -> bool
    ensures { result ≡ spec.is_comment bytes.now }
{
    match bytes {
        [first, ..] => *first == b'#',
        [] => false,
    }
}

// A space, a tab, or what ends a line.
fn is_blank(byte: u8) -> bool
    ensures { result ≡ spec.is_blank byte }
{
    byte == b' ' || byte == b'\t' || byte == b'\r' || byte == b'\n'
}

// The words of a line, in order: what stands between blanks.
fn words_of(alloc: Global, bytes: &[u8]) -> Result<Vec<&[u8]>, AllocError>
    ensures { IfOk result (λ words. map (λ w. w.now) words.items ≡ spec.words_of bytes.now) }
{
    bytes
        .split(|byte| is_blank(*byte))
        .filter(|word| !word.is_empty())
        .collect(alloc)
}

// A character of ASCII that shows, no blank.
fn is_visible(byte: u8) -> bool
    ensures { result ≡ spec.is_visible byte }
{
    33 <= byte && byte <= 126
}

// Whether the word has visible characters alone.
fn is_name(word: &[u8]) -> bool
    ensures { result ≡ list_all spec.is_visible word.now }
{
    word.iter().all(|byte| is_visible(*byte))
}

// The head that the words behind `system` give.
fn head_of(alloc: Global, words: &[&[u8]]) -> Result<Head, LineFault>
    ensures head { IfOk result (λ head. spec.head_of (map (λ w. w.now) words.now) ≡ Ok head) }
    ensures malformed { IfErr result (λ fault. fault ≢ NoMemory
        → spec.head_of (map (λ w. w.now) words.now) ≡ Err fault) }
{
    let [name, rest @ ..] = words else {
        return Err(LineFault::Word(2, Wanted::Name));
    };
    if !is_name(name) {
        return Err(LineFault::Word(2, Wanted::Name));
    }
    variables_after(alloc, name, rest)
}

// The head of this name, whose variables and rows these words give.
fn variables_after(alloc: Global, name: &[u8], words: &[&[u8]]) -> Result<Head, LineFault>
    ensures head { IfOk result (λ head. spec.variables_after name.now (map (λ w. w.now) words.now)
        ≡ Ok head) }
    ensures malformed { IfErr result (λ fault. fault ≢ NoMemory
        → spec.variables_after name.now (map (λ w. w.now) words.now) ≡ Err fault) }
{
    let [word, rest @ ..] = words else {
        return Err(LineFault::Word(3, Wanted::Variables));
    };
    let Some(variables) = natural_up_to(MOST_VARIABLES as u128, word) else {
        return Err(LineFault::Word(3, Wanted::Variables));
    };
    rows_after(alloc, name, variables as u32, rest)
}

// The head of this name and so many variables, whose rows these words give.
fn rows_after(
    alloc: Global,
    name: &[u8],
    variables: u32,
    words: &[&[u8]],
) -> Result<Head, LineFault>
    ensures head { IfOk result (λ head. spec.rows_after name.now variables
        (map (λ w. w.now) words.now) ≡ Ok head) }
    ensures malformed { IfErr result (λ fault. fault ≢ NoMemory
        → spec.rows_after name.now variables (map (λ w. w.now) words.now) ≡ Err fault) }
{
    let [word, rest @ ..] = words else {
        return Err(LineFault::Word(4, Wanted::Rows));
    };
    let Some(rows) = natural_up_to(u32::MAX as u128, word) else {
        return Err(LineFault::Word(4, Wanted::Rows));
    };
    if !rest.is_empty() {
        return Err(LineFault::Word(5, Wanted::End));
    }
    Ok(Head {
        name: Name {
            bytes: name.to_vec(alloc)?,
        },
        variables,
        rows: rows as u32,
    })
}

// The row that the words give: coefficients, `<=` and a bound.
fn row_of(alloc: Global, words: &[&[u8]]) -> Result<Row, LineFault>
    ensures row { IfOk result (λ row. spec.row_from 1 (map (λ w. w.now) words.now) ≡ Ok row) }
    ensures malformed { IfErr result (λ fault. fault ≢ NoMemory
        → spec.row_from 1 (map (λ w. w.now) words.now) ≡ Err fault) }
    ensures coefs { IfOk result (λ row. All (λ a. IsTrue (is_narrow a)) row.coefs) }
    ensures bound { IfOk result (λ row. IsTrue (is_narrow row.bound)) }
{
    let mut coefs = Coefs::with_capacity(alloc, words.len())?;
    for (place, word) in words.iter().enumerate() {
        let number = place as u64 + 1;
        if is_same(word, b"<=") {
            let bound = bound_of(number + 1, &words[place + 1..])?;
            return Ok(Row { coefs, bound });
        }
        let Some(coef) = entry_of(word) else {
            return Err(LineFault::Word(number, Wanted::Coefficient));
        };
        coefs.push(coef)?;
    }
    Err(LineFault::Word(words.len() as u64 + 1, Wanted::Coefficient))
}

// The bound that the words behind `<=` give, the first of which has this number.
fn bound_of(number: u64, words: &[&[u8]]) -> Result<i128, LineFault>
    requires { number + 1 < 2 ^ 64 }
    ensures bound { IfOk result (λ bound. spec.bound_from number (map (λ w. w.now) words.now)
        ≡ Ok bound) }
    ensures malformed { IfErr result (λ fault. spec.bound_from number (map (λ w. w.now) words.now)
        ≡ Err fault) }
    ensures narrow { IfOk result (λ bound. IsTrue (is_narrow bound)) }
{
    let [word, rest @ ..] = words else {
        return Err(LineFault::Word(number, Wanted::Bound));
    };
    let Some(bound) = entry_of(word) else {
        return Err(LineFault::Word(number, Wanted::Bound));
    };
    if !rest.is_empty() {
        return Err(LineFault::Word(number + 1, Wanted::End));
    }
    Ok(bound)
}
