// What keeps numbers at most 2 ^ 126 in size.

ghost use Rattle.std.specs.Prelude.{◌↔◌, IsTrue};
ghost use Rattle.farkas_cert.specs.Narrow.{IsNarrowRow, AreNarrow};

use crate::system::Row;
pub use cert_arithmetic::narrow::{LIMIT, are_narrow, is_narrow, narrow_product, narrow_sum};

/// Whether the coefficients and the bound of the row are at most 2 ^ 126 in size.
pub fn is_narrow_row(row: &Row) -> bool
    ensures { IsTrue result ↔ IsNarrowRow row.now }
{
    are_narrow(row.coefs.as_slice()) && is_narrow(row.bound)
}

/// Whether the coefficients and the bounds of these rows are at most 2 ^ 126 in size.
pub fn are_narrow_rows(rows: &[Row]) -> bool
    ensures { IsTrue result ↔ AreNarrow rows.now }
{
    rows.iter().all(|row| is_narrow_row(row))
}
