// Characters and names.

ghost use Rattle.std.specs.Prelude.{◌≡◌};
ghost use Rattle.std.specs.List.{list_all};
ghost use Rattle.f77_forms.specs.Characters as spec;

/// 0 to 9.
pub fn is_digit(c: u8) -> bool
    ensures { result ≡ spec.is_digit c }
{
    b'0' <= c && c <= b'9'
}

/// A to Z.
pub fn is_capital(c: u8) -> bool
    ensures { result ≡ spec.is_capital c }
{
    b'A' <= c && c <= b'Z'
}

/// A to Z and 0 to 9.
pub fn is_capital_or_digit(c: u8) -> bool
    ensures { result ≡ spec.is_capital_or_digit c }
{
    is_capital(c) || is_digit(c)
}

/// 1 to 6 capitals and digits that begin with a capital.
pub fn is_name(word: &[u8]) -> bool
    ensures { result ≡ spec.is_name word.now }
{
    match word.split_first() {
        Some((first, others)) => {
            is_capital(*first) && others.len() <= 5 && are_capitals_or_digits(others)
        }
        None => false,
    }
}

fn are_capitals_or_digits(word: &[u8]) -> bool
    ensures { result ≡ list_all spec.is_capital_or_digit word.now }
{
    word.iter().all(|c| is_capital_or_digit(*c))
}
