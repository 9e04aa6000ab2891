// What an expression comes to.

use crate::linear::Linear;
use crate::reach::Reach;

/// What an expression comes to.
#[derive(Drop)]
pub struct Measure {
    /// Whether it is a constant.
    pub constant: bool,
    /// Its value, where it is one.
    pub value: i64,
    /// Whether the variable of a loop round this place stands in it.
    pub looped: bool,
    /// What it is as an affine form.
    pub linear: Linear,
    /// Whether a divisor in it is no constant or is 0.
    pub divided: bool,
    /// What the subscripts in it are.
    pub subscripts: Reach,
}
