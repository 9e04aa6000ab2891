// Whether expressions are affine and within the limit of their numbers.

ghost use Rattle.std.specs.Prelude.{◌≡◌};
ghost use Rattle.f77_program.specs.Reaches as spec;

use crate::linear::Linear;

/// What expressions are that have to be affine.
#[derive(Clone, Copy, Debug, PartialEq, Eq)]
pub enum Reach {
    /// One of them is not.
    NotAffine,
    /// They are, and this is the first number past plus or minus 2147483647 on the way.
    Past(i64),
    /// They are, within the limit.
    Within,
}

impl Reach {
    /// Of these expressions and of others behind them.
    pub fn also(self, others: Reach) -> Reach
        ensures { result ≡ spec.also self others }
    {
        match (self, others) {
            (Reach::NotAffine, _) | (_, Reach::NotAffine) => Reach::NotAffine,
            (Reach::Past(number), _) | (_, Reach::Past(number)) => Reach::Past(number),
            (Reach::Within, Reach::Within) => Reach::Within,
        }
    }
}

/// Of one expression.
pub fn reach_of(linear: &Linear) -> Reach
    ensures { result ≡ spec.reach_at linear.now }
{
    match linear {
        Linear::NotAffine => Reach::NotAffine,
        Linear::Past(number) => Reach::Past(*number),
        Linear::Within(_) => Reach::Within,
    }
}
