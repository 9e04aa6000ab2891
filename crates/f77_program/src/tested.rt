// What the tests of a statement come to that look at no expression.

/// What the tests of a statement come to that look at no expression.
#[derive(Clone, Copy, Debug, PartialEq, Eq)]
pub struct Tested {
    /// It does not stand in its place.
    pub misplaced: bool,
    /// It stores to a named constant, or to a name with parentheses that is no array.
    pub bad_target: bool,
    /// It declares a name again.
    pub again: bool,
    /// A variable in it is not INTEGER.
    pub other_type: bool,
    /// It stores to the variable of a loop.
    pub stores_to_loop: bool,
    /// It begins a loop with a variable that may not be one.
    pub bad_loop: bool,
    /// It stores to an array with too many or too few subscripts.
    pub bad_rank: bool,
    /// Its label is used twice, or ends loops that may not end there, or loops are open at END.
    pub bad_label: bool,
    /// The first number of its declarators that passes a limit.
    pub past: Option<i64>,
}
