// The least combination of a pair of rows of opposite sign.

ghost use Rattle.std.specs.Prelude.{◌≡◌, ◌↔◌, ℕ, ◌+◌, ◌*◌, ◌/◌, ◌≤◌, ◌^◌, ℤ, pos, ◌+ℤ◌, ◌*ℤ◌, ◌<ℤ◌, unsigned_abs, nat_le, IsTrue, IfOk, MatchOption, ◌&&◌, if◌then◌else◌, Some, None, [], ◌∷◌, length};
ghost use Rattle.std.specs.Int.{IsGcd};
ghost use Rattle.std.specs.Bool.{MatchBool};
ghost use Rattle.std.specs.List.{All};
ghost use Rattle.farkas_cert.specs.Combination.{is_narrow as narrow, stays_narrow};
ghost use Rattle.elim_rows.specs.Pairs.{combination as combination_of, IsWide, IsNarrow};

use crate::reduction::{greatest_common_divisor, size_quotient};
use farkas_cert::Row;
use farkas_cert::narrow::{narrow_product, narrow_sum};
use std::alloc::AllocError;

// m * a + n * b, if both products and their sum are at most 2 ^ 126 in size.
fn weighted_sum(m: i128, a: i128, n: i128, b: i128) -> Option<i128>
    ensures { let p = m *ℤ a in let q = n *ℤ b in result ≡ (if narrow p && narrow q
        && narrow (p +ℤ q) then Some (p +ℤ q) else None) }
{
    narrow_sum(narrow_product(m, a)?, narrow_product(n, b)?)
}

/// The least multipliers by which a variable with these coefficients, one above 0 and one below, cancels.
pub fn multipliers(upper: i128, lower: i128) -> (i128, i128)
    requires above { pos 0 <ℤ upper }
    requires below { lower <ℤ pos 0 }
    requires upper_narrow { IsTrue (narrow upper) }
    requires lower_narrow { IsTrue (narrow lower) }
    ensures { (g : ℕ) × IsGcd (unsigned_abs upper) (unsigned_abs lower) g
        × (result.0 ≡ pos (unsigned_abs lower / g)) × (result.1 ≡ pos (unsigned_abs upper / g)) }
{
    let above = upper.unsigned_abs();
    let below = lower.unsigned_abs();
    let divisor = greatest_common_divisor(above, below);
    if divisor == 1 {
        return (below as i128, above as i128);
    }
    let m = size_quotient(below, divisor) as i128;
    let n = size_quotient(above, divisor) as i128;
    (m, n)
}

/// Whether no product and no sum of m times the first row and n times the other passes 2 ^ 126 in size.
pub fn is_narrow_combination(m: i128, upper: &Row, n: i128, lower: &Row) -> bool
    requires { length lower.now.coefs ≡ length upper.now.coefs }
    ensures { let vars = length upper.now.coefs in
        MatchBool result (IsNarrow vars m upper.now n lower.now)
        (IsWide vars m upper.now n lower.now) }
{
    if weighted_sum(m, upper.bound, n, lower.bound).is_none() {
        return false;
    }
    let others = lower.coefs.as_slice();
    for (k, coef) in upper.coefs.as_slice().iter().enumerate() {
        if weighted_sum(m, *coef, n, others[k]).is_none() {
            return false;
        }
    }
    true
}

// m * a + n * b, where both products and their sum are at most 2 ^ 126 in size.
#[inline(always)]
fn narrow_weighted_sum(m: i128, a: i128, n: i128, b: i128) -> i128
    requires { IsTrue (stays_narrow (pos 0) ((m *ℤ a) ∷ (n *ℤ b) ∷ [])) }
    ensures { result ≡ m *ℤ a +ℤ n *ℤ b }
{
    if m == 1 && n == 1 {
        return a + b;
    }
    m * a + n * b
}

/// Makes the coefficients of m times the first row and n times the other, where no product and no sum
/// passes 2 ^ 126 in size, and gives the bound. An error says that memory ran out.
#[inline(always)]
pub fn combine(
    m: i128,
    upper: &Row,
    n: i128,
    lower: &Row,
    coefs: &mut Vec<i128>,
) -> Result<i128, AllocError>
    requires same { length lower.now.coefs ≡ length upper.now.coefs }
    requires narrow { IsNarrow (length upper.now.coefs) m upper.now n lower.now }
    ensures { IfOk result (λ bound. (record { coefs = coefs.new.items; bound = bound })
        ≡ combination_of m upper.now n lower.now) }
{
    let others = lower.coefs.as_slice();
    coefs.clear();
    for (k, coef) in upper.coefs.as_slice().iter().enumerate() {
        coefs.push(narrow_weighted_sum(m, *coef, n, others[k]))?;
    }
    let bound = narrow_weighted_sum(m, upper.bound, n, lower.bound);
    Ok(bound)
}
