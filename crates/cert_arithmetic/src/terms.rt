// Terms, each the number of a row, from 1, and a multiplier.

ghost use Rattle.std.specs.Prelude.{◌≡◌, ◌+◌, ◌+ℤ◌, ◌*ℤ◌, ◌&&◌, if◌then◌else◌, Some, None};
ghost use Rattle.cert_arithmetic.specs.Numbers.{is_narrow as narrow};
ghost use Rattle.cert_arithmetic.specs.Terms.{has_negative as negative, names_bad_row as bad_row};

use crate::counting::Steps;
use crate::narrow::{narrow_product, narrow_sum};
use std::sync::ledger::Ledger;

/// Whether a multiplier is below 0.
pub fn has_negative(terms: &[(u64, i128)]) -> bool
    ensures { result ≡ negative terms.now }
{
    terms.iter().any(|term| term.1 < 0)
}

/// Whether a term names no row of so many: row 0, or one past the last.
pub fn names_bad_row(count: usize, terms: &[(u64, i128)]) -> bool
    ensures { result ≡ bad_row count terms.now }
{
    terms
        .iter()
        .any(|term| term.0 < 1 || term.0 as usize > count)
}

/// The sum and one product more, if neither the product nor the new sum passes the limit. It
/// counts one unit.
pub fn with_product<L: Ledger>(
    sum: i128,
    multiplier: i128,
    entry: i128,
    steps: &mut Steps<L>,
) -> Option<i128>
    ensures sum { let product = multiplier *ℤ entry in result ≡ (if narrow product
        && narrow (sum +ℤ product) then Some (sum +ℤ product) else None) }
    ensures counted { steps.new ≡ steps.old + 1 }
{
    steps.tick();
    narrow_sum(sum, narrow_product(multiplier, entry)?)
}
