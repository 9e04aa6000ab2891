// Sums of multiples of rows, in their lowest terms.

use cert_arithmetic::divisors::small_common_divisor;

/// How a row is made: the sum of multiples of rows, by their numbers, and what it is divided by.
#[derive(Clone, Copy)]
pub(crate) struct Sum {
    pub divisor: i64,
    pub first: (usize, i64),
    pub second: Option<(usize, i64)>,
}

impl Sum {
    /// The row of this number itself.
    pub(crate) fn copy(number: usize) -> Self {
        Sum {
            divisor: 1,
            first: (number, 1),
            second: None,
        }
    }
}

/// m * a + n * b, where it and the products have 64 bits.
pub(crate) fn weighted_sum(m: i64, a: i64, n: i64, b: i64) -> Option<i64> {
    m.checked_mul(a)?.checked_add(n.checked_mul(b)?)
}

/// The greatest common divisor of these numbers, 0 where all are 0.
pub(crate) fn common_divisor(numbers: &[i64]) -> u64 {
    let mut divisor = 0;
    for number in numbers {
        if *number != 0 {
            divisor = small_common_divisor(number.unsigned_abs(), divisor);
        }
        if divisor == 1 {
            return 1;
        }
    }
    divisor
}

/// The least multipliers by which a variable with these coefficients, one above 0 and one below, cancels.
pub(crate) fn multipliers(upper: i64, lower: i64) -> Option<(i64, i64)> {
    let above = upper.unsigned_abs();
    let below = lower.unsigned_abs();
    let divisor = small_common_divisor(above, below);
    let m = below.checked_div(divisor)?;
    let n = above.checked_div(divisor)?;
    match (i64::try_from(m), i64::try_from(n)) {
        (Ok(m), Ok(n)) => Some((m, n)),
        _ => None,
    }
}

/// Divides each number, with the remainder dropped; false where a quotient has more than 64 bits.
pub(crate) fn divide(numbers: &mut [i64], divisor: i64) -> bool {
    for number in numbers.iter_mut() {
        match number.checked_div(divisor) {
            Some(quotient) => *number = quotient,
            None => return false,
        }
    }
    true
}

/// Makes the coefficients of m times those of a row and n times those of another; false where a number
/// has more than 64 bits.
pub(crate) fn combine(m: i64, upper: &[i64], n: i64, lower: &[i64], coefs: &mut [i64]) -> bool {
    for (coef, (a, b)) in coefs.iter_mut().zip(upper.iter().zip(lower)) {
        match weighted_sum(m, *a, n, *b) {
            Some(sum) => *coef = sum,
            None => return false,
        }
    }
    true
}
