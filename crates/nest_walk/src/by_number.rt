// The values of loops by number.

ghost use Rattle.std.specs.Prelude.{◌≡◌, IsTrue, length};
ghost use Rattle.std.specs.List.{list_all};
ghost use Rattle.nest_tree.specs.WellFormed.{is_number_of};
ghost use Rattle.nest_walk.specs.ByNumber.{with_rounds};
ghost use Rattle.nest_walk.specs.Paths.{Round};
ghost use Rattle.nest_walk.specs.RoundsOf.{rounds_of};

use crate::path::Path;

impl Path {
    /// Writes the loops' values into a list of values by number, from 1; the others stay.
    pub fn write_to(&self, loops: &mut [i64])
        requires { IsTrue (list_all (λ (r : Round). is_number_of (length loops.old) r.number)
            (rounds_of self.now)) }
        ensures { loops.new ≡ with_rounds loops.old (rounds_of self.now) }
    {
        for depth in 0..self.depth {
            loops[self.numbers[depth] as usize - 1] = self.values[depth];
        }
    }
}
