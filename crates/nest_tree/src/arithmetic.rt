// Value arithmetic, in whole numbers of 64 bits.

ghost use Rattle.std.specs.Prelude.{◌≡◌, ◌<◌, ◌+ℤ◌, ◌-ℤ◌, ◌*ℤ◌, neg_ℤ, unsigned_abs};
ghost use Rattle.nest_tree.specs.Values.{quotient, wrapped};

/// A negative, modulo 2^64.
#[inline(always)]
pub fn negated(a: i64) -> i64
    ensures { result ≡ wrapped (neg_ℤ a) }
{
    a.wrapping_neg()
}

/// A sum, modulo 2^64.
#[inline(always)]
pub fn sum(a: i64, b: i64) -> i64
    ensures { result ≡ wrapped (a +ℤ b) }
{
    a.wrapping_add(b)
}

/// A difference, modulo 2^64.
#[inline(always)]
pub fn difference(a: i64, b: i64) -> i64
    ensures { result ≡ wrapped (a -ℤ b) }
{
    a.wrapping_sub(b)
}

/// A product, modulo 2^64.
#[inline(always)]
pub fn product(a: i64, b: i64) -> i64
    ensures { result ≡ wrapped (a *ℤ b) }
{
    a.wrapping_mul(b)
}

/// A quotient, truncated toward zero (ANSI X3.9-1978, 6.1.5); -2^63 divided by -1 is itself.
#[inline(always)]
pub fn truncated_quotient(a: i64, divisor: i64) -> i64
    requires { 0 < unsigned_abs divisor }
    ensures { result ≡ quotient a divisor }
{
    a.wrapping_div(divisor)
}

/// A sum and one product more, modulo 2^64.
#[inline(always)]
pub fn with_product(sum: i64, coefficient: i64, value: i64) -> i64
    ensures { result ≡ wrapped (sum +ℤ (coefficient *ℤ value)) }
{
    sum.wrapping_add(coefficient.wrapping_mul(value))
}
