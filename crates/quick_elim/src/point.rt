// Values of variables, checked and not trusted.

ghost use Rattle.std.specs.Prelude.{◌≡◌, ◌↔◌, IsTrue};
ghost use Rattle.std.specs.Option.{SomeIff};
ghost use Rattle.farkas_cert.specs.Inequalities.{Holds, left_side};
ghost use Rattle.quick_elim.specs.Points.{IsSeenSolution, SumsFit};

use farkas_cert::{Row, System};
use std::marker::Model;

/// A value for each variable of a system. Contracts see the list of them.
#[derive(Drop)]
pub struct Point {
    values: Vec<i128>,
}

impl Model for Point {
    ghost use Rattle.std.specs.Prelude.{List, ℤ};

    ghost Value = { List ℤ };

    ghost view = { λ p. p.values.items };
}

impl Point {
    /// The point with these values. It takes no memory.
    pub fn from_vec(values: Vec<i128>) -> Self
        ensures { result ≡ values.items }
    {
        Point { values }
    }

    /// The values, in order.
    pub fn as_slice(&self) -> &[i128]
        ensures { result.now ≡ self.now }
    {
        self.values.as_slice()
    }

    /// Whether the point is seen to solve a system: it has a value for each variable, each row holds,
    /// and no product and no sum in a row passes 128 bits.
    pub fn solves(&self, system: &System) -> bool
        ensures { IsTrue result ↔ IsSeenSolution system.now self.now }
    {
        let values = self.values.as_slice();
        values.len() == system.vars() as usize
            && system.rows().iter().all(|row| holds_at(row, values))
    }
}

// The left side of a row, if no product and no sum passes the type.
fn left_side_at(coefs: &[i128], values: &[i128]) -> Option<i128>
    ensures { SomeIff result (SumsFit coefs.now values.now) (left_side coefs.now values.now) }
{
    match coefs {
        [] => Some(0),
        [coef, coefs @ ..] => match values {
            [] => Some(0),
            [value, values @ ..] => {
                let rest = left_side_at(coefs, values)?;
                coef.checked_mul(*value)?.checked_add(rest)
            }
        },
    }
}

// Whether a row is seen to hold.
fn holds_at(row: &Row, values: &[i128]) -> bool
    ensures { IsTrue result ↔ (SumsFit row.now.coefs values.now × Holds row.now values.now) }
{
    match left_side_at(row.coefs.as_slice(), values) {
        Some(sum) => sum <= row.bound,
        None => false,
    }
}
