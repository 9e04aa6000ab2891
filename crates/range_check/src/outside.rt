// A subscript out of range.

ghost use Rattle.std.specs.Prelude.{Some};
ghost use Rattle.range_check.specs.OutsideText.{text_of_outside};

use std::fmt;

/// A subscript that is below the lower bound or above the upper bound of its dimension.
#[derive(Clone, Copy, Debug, PartialEq, Eq)]
pub struct OutOfRange {
    /// The line of the statement, from 1.
    pub line: u32,
    /// The dimension, from 1.
    pub dimension: u32,
    /// The subscript's value.
    pub value: i64,
    /// The bound that it passes.
    pub bound: i64,
}

/// One line without its end, as `REFUSED S1 LINE 3 DIMENSION 1 VALUE 0 BOUND 1`.
impl fmt::Display for OutOfRange {
    ghost output = { λ outside. Some (text_of_outside outside) };

    fn fmt<W: fmt::Write>(&self, f: &mut fmt::Formatter<W>) -> fmt::Result {
        let OutOfRange {
            line,
            dimension,
            value,
            bound,
        } = self;
        write!(
            f,
            "REFUSED S1 LINE {line} DIMENSION {dimension} VALUE {value} BOUND {bound}"
        )
    }
}
