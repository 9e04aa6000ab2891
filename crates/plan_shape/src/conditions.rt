// The conditions of a plan on the named constants.

ghost use Rattle.std.specs.Prelude.{◌≡◌, IsTrue, length, map};
ghost use Rattle.std.specs.List.{list_all};
ghost use Rattle.nest_tree.specs.declared.tree.Parameter.{Parameter};
ghost use Rattle.sync_plan.specs.Fit.{meets, unmet, unmet_among};
ghost use Rattle.sync_plan.specs.declared.plan.Version.TheVariants.{Three};
ghost use Rattle.sync_plan.specs.Shape.{are_good_conditions, is_good_row};

use crate::anchors::are_numbers_of;
use nest_tree::{Parameter, constant_sum, is_small, rises};
use sync_plan::{ConditionRow, Conditions, Version};

/// Whether conditions may stand in this version, and their rows name only named constants of which
/// there are so many, by rising numbers, with numbers within plus or minus 2147483647.
pub(crate) fn are_good_conditions(
    constants: usize,
    version: Version,
    conditions: &Conditions,
) -> bool
    ensures { result ≡ are_good_conditions constants version conditions.now }
{
    match conditions {
        Conditions::Values => true,
        Conditions::Rows(rows) => version.has_rows() && are_good_rows(constants, rows.as_slice()),
    }
}

fn are_good_rows(constants: usize, rows: &[ConditionRow]) -> bool
    ensures { result ≡ list_all (is_good_row constants) rows.now }
{
    for row in rows {
        if !is_good_row(constants, row) {
            return false;
        }
    }
    true
}

fn is_good_row(constants: usize, row: &ConditionRow) -> bool
    ensures { result ≡ is_good_row constants row.now }
{
    let coefs = row.coefs.as_slice();
    !coefs.is_empty() && rises(coefs) && are_numbers_of(constants, coefs) && is_small(row.bound)
}

/// The first row of conditions, from 1, that the values of the named constants don't meet.
pub fn unmet(constants: &[Parameter], conditions: &Conditions) -> Option<u64>
    requires { IsTrue (are_good_conditions (length constants.now) Three conditions.now) }
    ensures { result ≡ unmet (map (λ (p : Parameter). p.value) constants.now) conditions.now }
{
    match conditions {
        Conditions::Values => None,
        Conditions::Rows(rows) => unmet_among(constants, rows.as_slice()),
    }
}

fn unmet_among(constants: &[Parameter], rows: &[ConditionRow]) -> Option<u64>
    requires { IsTrue (list_all (is_good_row (length constants.now)) rows.now) }
    ensures { result ≡ unmet_among 1 (map (λ (p : Parameter). p.value) constants.now) rows.now }
{
    for (place, row) in rows.iter().enumerate() {
        if !meets(constants, row) {
            return Some(place as u64 + 1);
        }
    }
    None
}

// Whether the values of the named constants meet a row.
fn meets(constants: &[Parameter], row: &ConditionRow) -> bool
    requires { IsTrue (is_good_row (length constants.now) row.now) }
    ensures { result ≡ meets (map (λ (p : Parameter). p.value) constants.now) row.now }
{
    constant_sum(0, row.coefs.as_slice(), constants) <= i128::from(row.bound)
}
