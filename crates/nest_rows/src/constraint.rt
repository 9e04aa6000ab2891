// Sums of unknowns that are at most a number.

ghost use Rattle.std.specs.Prelude.{◌≡◌, IsTrue};
ghost use Rattle.nest_tree.specs.Form.{is_small};
ghost use Rattle.farkas_cert.specs.Combination.{is_narrow};
ghost use Rattle.nest_rows.specs.Groups.{sign_of};
ghost use Rattle.nest_rows.specs.Signs.{flipped, signed};

use nest_tree::Pairs;

/// Whether a sum counts as it is, or each of its terms with the other sign.
#[derive(Clone, Copy, Debug, PartialEq, Eq)]
pub enum Sign {
    Plus,
    Minus,
}

impl Sign {
    /// The sign that turns the order of a loop with this step to a rising one.
    pub fn of_step(step: i64) -> Self
        ensures { result ≡ sign_of step }
    {
        if step >= 0 { Sign::Plus } else { Sign::Minus }
    }

    /// A number within plus or minus 2147483647, with this sign.
    pub fn of(self, number: i64) -> i64
        requires { IsTrue (is_small number) }
        ensures value { result ≡ signed self number }
        ensures small { IsTrue (is_small result) }
    {
        match self {
            Sign::Plus => number,
            Sign::Minus => -number,
        }
    }

    /// Any number of 64 bits, with this sign.
    pub fn of_wide(self, number: i64) -> i128
        ensures value { result ≡ signed self number }
        ensures narrow { IsTrue (is_narrow result) }
    {
        match self {
            Sign::Plus => i128::from(number),
            Sign::Minus => -i128::from(number),
        }
    }

    /// The other sign.
    pub fn flipped(self) -> Sign
        ensures { result ≡ flipped self }
    {
        match self {
            Sign::Plus => Sign::Minus,
            Sign::Minus => Sign::Plus,
        }
    }
}

/// Terms, each an unknown by its number from 1 and its coefficient, whose sum is at most a bound.
/// An unknown may stand in several terms.
#[derive(Drop)]
pub struct Constraint {
    pub terms: Pairs,
    pub bound: i128,
}
