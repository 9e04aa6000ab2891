// Numbers, as words in decimal digits.

ghost use Rattle.std.specs.Prelude.{◌≡◌, ◌≤◌, IfSome, IsTrue};
ghost use Rattle.farkas_cert.specs.Combination.{is_narrow};
ghost use Rattle.bench_parts.specs.Numbers.{natural_of, within, entry_of};

/// The largest size of a coefficient and of a bound, 2 ^ 126.
const MOST_SIZE: u128 = 1 << 126;

/// The number that the decimal digits stand for, if it is at most the limit. None where there is
/// another byte than a digit, or none at all.
pub fn natural_up_to(limit: u128, word: &[u8]) -> Option<u128>
    ensures number { result ≡ within limit (natural_of word.now) }
    ensures small { IfSome result (λ number. number ≤ limit) }
{
    if word.is_empty() {
        return None;
    }
    let mut number = 0u128;
    for byte in word {
        if !byte.is_ascii_digit() {
            return None;
        }
        let digit = u128::from(*byte - b'0');
        number = number.checked_mul(10)?.checked_add(digit)?;
        if number > limit {
            return None;
        }
    }
    Some(number)
}

/// The whole number that the word stands for, if it is at most 2 ^ 126 in size: decimal digits,
/// with a minus sign in front or not.
pub fn entry_of(word: &[u8]) -> Option<i128>
    ensures number { result ≡ entry_of word.now }
    ensures narrow { IfSome result (λ number. IsTrue (is_narrow number)) }
{
    match word {
        [b'-', digits @ ..] => Some(-(natural_up_to(MOST_SIZE, digits)? as i128)),
        _ => Some(natural_up_to(MOST_SIZE, word)? as i128),
    }
}
