// What keeps numbers at most 2 ^ 126 in size.

ghost use Rattle.std.specs.Prelude.{◌≡◌, ◌↔◌, ◌+ℤ◌, ◌*ℤ◌, IsTrue, true, if◌then◌else◌, Some, None};
ghost use Rattle.std.specs.List.{All};
ghost use Rattle.cert_arithmetic.specs.Numbers.{is_narrow as narrow};

/// The greatest size of a narrow number, 2 ^ 126.
pub const LIMIT: u128 = 1 << 126;

/// Whether the number is at most 2 ^ 126 in size.
#[inline(always)]
pub fn is_narrow(number: i128) -> bool
    ensures { result ≡ narrow number }
{
    match i64::try_from(number) {
        Ok(_) => true,
        Err(_) => number.unsigned_abs() <= LIMIT,
    }
}

/// Whether these numbers are all at most 2 ^ 126 in size.
pub fn are_narrow(numbers: &[i128]) -> bool
    ensures { IsTrue result ↔ All (λ a. IsTrue (narrow a)) numbers.now }
{
    numbers.iter().all(|number| is_narrow(*number))
}

// The product of two numbers of 64 bits, which one multiplication gives and which is narrow.
fn small_product(a: i64, b: i64) -> i128
    ensures product { result ≡ a *ℤ b }
    ensures narrow { narrow (a *ℤ b) ≡ true }
{
    i128::from(a) * i128::from(b)
}

// The product of any two numbers, if it is at most 2 ^ 126 in size.
fn wide_product(a: i128, b: i128) -> Option<i128>
    ensures { result ≡ (if narrow (a *ℤ b) then Some (a *ℤ b) else None) }
{
    a.checked_mul(b).filter(|product| is_narrow(*product))
}

/// The product, if it is at most 2 ^ 126 in size.
pub fn narrow_product(a: i128, b: i128) -> Option<i128>
    ensures { result ≡ (if narrow (a *ℤ b) then Some (a *ℤ b) else None) }
{
    match (i64::try_from(a), i64::try_from(b)) {
        (Ok(a), Ok(b)) => Some(small_product(a, b)),
        _ => wide_product(a, b),
    }
}

/// The sum, if it is at most 2 ^ 126 in size.
pub fn narrow_sum(a: i128, b: i128) -> Option<i128>
    ensures { result ≡ (if narrow (a +ℤ b) then Some (a +ℤ b) else None) }
{
    a.checked_add(b).filter(|sum| is_narrow(*sum))
}
