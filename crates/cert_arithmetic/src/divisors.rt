// The greatest common divisor.

ghost use Rattle.std.specs.Prelude.{◌≤◌, max};
ghost use Rattle.std.specs.Int.{IsGcd};

/// The greatest common divisor of numbers of 64 bits, by Euclid's algorithm.
pub fn small_common_divisor(a: u64, b: u64) -> u64
    ensures common { IsGcd a b result }
    ensures size { result ≤ max a b }
{
    let mut x = a;
    let mut y = b;
    while y != 0 {
        let rest = x % y;
        x = y;
        y = rest;
    }
    x
}
