// Rows of 64-bit numbers.

/// What each coefficient is multiplied by in a hash: odd, and with no pattern.
const FACTOR: u64 = 0x9FCC_F645_4385_DF65;

/// A row that stands, or that a variable was removed from: `coefs . x <= bound`, in its lowest terms. Its
/// coefficients stand in the list of those of all rows.
#[derive(Clone, Copy)]
pub(crate) struct WorkRow {
    /// Where its coefficients begin.
    pub start: usize,
    pub bound: i64,
    /// Its number among the given and the made rows, from 1.
    pub number: usize,
    /// The hash of its coefficients. That of the opposite ones is its negative.
    pub hash: u64,
    /// The row is half of an equality: its opposite stands too, and their bounds add to 0.
    pub is_tight: bool,
}

/// The hash of coefficients.
pub(crate) fn hash_of(coefs: &[i64]) -> u64 {
    let mut hash = 0u64;
    for coef in coefs {
        hash = hash.wrapping_add(coef.cast_unsigned()).wrapping_mul(FACTOR);
    }
    hash
}

/// Whether these coefficients are those with the other sign.
pub(crate) fn are_opposite(these: &[i64], those: &[i64]) -> bool {
    these
        .iter()
        .zip(those)
        .all(|(coef, other)| coef.checked_add(*other) == Some(0))
}

/// How many coefficients aren't 0, and many more where none is 1 or -1.
pub(crate) fn weight_of(coefs: &[i64]) -> usize {
    let others = coefs.iter().filter(|coef| **coef != 0).count();
    if coefs.iter().any(|coef| coef.unsigned_abs() == 1) {
        others
    } else {
        others.saturating_add(1000)
    }
}

/// Which rows a variable was removed from, by their places among those that are gone: those that bound it
/// from above begin at the first, those from below at the middle, and end in front of the end.
#[derive(Clone, Copy)]
pub(crate) struct Bounds {
    pub first: usize,
    pub middle: usize,
    pub end: usize,
}
