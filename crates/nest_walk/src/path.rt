// The loops round a place.

ghost use Rattle.std.specs.Prelude.{◌≡◌, ◌+◌, ◌<◌, ◌≤◌, [], ◌∷◌, IsTrue, List, drop, length, pos, slice_set};
ghost use Rattle.std.specs.List.{list_all};
ghost use Rattle.nest_walk.specs.Paths.{Round, by_depth, is_zero, origin, rounds_to, value_among};

/// The most loops that lie in one another.
pub const MOST_LOOPS: usize = 6;

/// The loops round a place, by depth from the outermost: their numbers and the values of their DO
/// variables, 0 in the places left over.
#[derive(Clone, Copy, Debug)]
pub struct Path {
    pub(crate) depth: usize,
    pub(crate) numbers: [u32; MOST_LOOPS],
    pub(crate) values: [i64; MOST_LOOPS],
    ghost within: { depth ≤ 6 },
    ghost six: { length values ≡ 6 },
    ghost left_over: { IsTrue (list_all is_zero (drop depth values)) },
}

impl Path {
    ghost use Rattle.nest_walk.specs.RoundsOf.{rounds_of};

    /// No loop.
    pub fn new() -> Self
        ensures { rounds_of result ≡ [] }
    {
        Path {
            depth: 0,
            numbers: [0; MOST_LOOPS],
            values: [0; MOST_LOOPS],
        }
    }

    /// How many loops there are, at most 6.
    pub fn depth(&self) -> usize
        ensures count { result ≡ length (rounds_of self.now) }
        ensures within { result ≤ 6 }
    {
        self.depth
    }

    /// The values by depth, 0 in the places left over.
    pub fn values(&self) -> &[i64; MOST_LOOPS]
        ensures { result.now ≡ by_depth (rounds_of self.now) }
    {
        &self.values
    }

    /// One more loop, inside the others.
    pub fn push(&mut self, number: u32, value: i64)
        requires { length (rounds_of self.old) < 6 }
        ensures { rounds_of self.new ≡ record { number = number; value = value }
            ∷ rounds_of self.old }
    {
        self.numbers[self.depth] = number;
        self.values[self.depth] = value;
        self.depth += 1;
    }

    /// The number of the innermost loop.
    pub fn innermost(&self) -> u32
        requires { 0 < length (rounds_of self.now) }
        ensures { (r : Round) (rounds : List Round) → rounds_of self.now ≡ r ∷ rounds
            → result ≡ r.number }
    {
        self.numbers[self.depth - 1]
    }

    /// The innermost loop has another value.
    pub fn set(&mut self, value: i64)
        requires { 0 < length (rounds_of self.old) }
        ensures { (r : Round) (rounds : List Round) → rounds_of self.old ≡ r ∷ rounds
            → rounds_of self.new ≡ record { number = r.number; value = value } ∷ rounds }
    {
        self.values[self.depth - 1] = value;
    }

    /// The innermost loop is left.
    pub fn pop(&mut self)
        requires { 0 < length (rounds_of self.old) }
        ensures { (r : Round) (rounds : List Round) → rounds_of self.old ≡ r ∷ rounds
            → rounds_of self.new ≡ rounds }
    {
        self.depth -= 1;
        self.values[self.depth] = 0;
    }

    /// The value of the loop with this number, 0 where it isn't among these.
    pub fn value_of(&self, number: u32) -> i64
        ensures { result ≡ value_among (rounds_of self.now) number }
    {
        for depth in (0..self.depth).rev() {
            if self.numbers[depth] == number {
                return self.values[depth];
            }
        }
        0
    }

    // The same loops, each at 0.
    pub(crate) fn at_origin(&self) -> Self
        ensures { rounds_of result ≡ rounds_to self.now.numbers origin self.now.depth }
    {
        Path {
            depth: self.depth,
            numbers: self.numbers,
            values: [0; MOST_LOOPS],
        }
    }

    // The same loops, each at 0 but the one at this depth, from 0, which is at 1.
    pub(crate) fn one_along(&self, depth: usize) -> Self
        requires { depth < self.now.depth }
        ensures { rounds_of result
            ≡ rounds_to self.now.numbers (slice_set origin depth (pos 1)) self.now.depth }
    {
        let mut values = [0; MOST_LOOPS];
        values[depth] = 1;
        Path {
            depth: self.depth,
            numbers: self.numbers,
            values,
        }
    }
}
