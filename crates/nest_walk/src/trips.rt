// The values of a loop's trips.

ghost use Rattle.std.specs.Prelude.{◌≡◌, ◌↔◌, ◌<◌, [], ◌∷◌, length, IsTrue, nat_lt, unsigned_abs};
ghost use Rattle.std.specs.List.{list_all};
ghost use Rattle.nest_tree.specs.Form.{form_value, is_small};
ghost use Rattle.nest_tree.specs.Tree.{param_values};
ghost use Rattle.nest_tree.specs.View.{tree_of};
ghost use Rattle.nest_tree.specs.WellFormed.{is_number_of, loops_of};
ghost use Rattle.nest_model.specs.Instances.{head_trips, trip_count, trips};
ghost use Rattle.nest_walk.specs.Cursors.{loops_in};
ghost use Rattle.nest_walk.specs.Frames.{head_of};
ghost use Rattle.nest_walk.specs.Paths.{Round};
ghost use Rattle.nest_walk.specs.Progressions.{progression};
ghost use Rattle.nest_walk.specs.RoundsOf.{rounds_of};
ghost use Rattle.nest_walk.specs.Walkable.{is_small_head};
ghost use Rattle.nest_walk.specs.TripsLeft.{trips_left};

use crate::form::value_at;
use crate::path::Path;
use nest_tree::arithmetic::with_product;
use nest_tree::{Affine, Nest, Program};

/// Values in equal steps, of which so many are left.
#[derive(Clone, Copy, Debug)]
pub struct Trips {
    pub(crate) next: i64,
    pub(crate) step: i64,
    pub(crate) count: u64,
}

impl Trips {
    /// So many values from the first on.
    pub fn new(first: i64, step: i64, count: u64) -> Self
        ensures { trips_left result ≡ progression first step count }
    {
        Trips {
            next: first,
            step,
            count,
        }
    }

    /// The trips of a DO loop with these bounds and this step: max(int((m2 - m1 + m3) / m3), 0)
    /// (ANSI X3.9-1978, 11.10.3).
    pub fn of_loop(m1: i64, m2: i64, m3: i64) -> Self
        requires first { IsTrue (is_small m1) }
        requires last { IsTrue (is_small m2) }
        requires step { IsTrue (is_small m3) }
        requires moves { IsTrue (nat_lt 0 (unsigned_abs m3)) }
        ensures { trips_left result ≡ trips m1 m2 m3 }
    {
        Trips::new(m1, m3, trip_count(m1, m2, m3))
    }

    /// The trips of a loop of a program, where these loops are round it.
    pub fn of_nest(program: &Program, nest: &Nest, path: &Path) -> Self
        requires numbered { IsTrue
            (list_all (λ (r : Round). is_number_of (loops_of (tree_of program.now).items) r.number)
            (rounds_of path.now)) }
        requires head { IsTrue (is_small_head (param_values (tree_of program.now))
            (loops_in (tree_of program.now) (rounds_of path.now)) (head_of nest.now)) }
        ensures { trips_left result ≡ head_trips (param_values (tree_of program.now))
            (head_of nest.now) (loops_in (tree_of program.now) (rounds_of path.now)) }
    {
        let m1 = small_value(program, &nest.m1, path);
        let m2 = small_value(program, &nest.m2, path);
        Trips::of_loop(m1, m2, nest.step)
    }

    /// Whether none is left.
    pub fn is_empty(&self) -> bool
        ensures { IsTrue result ↔ (trips_left self.now ≡ []) }
    {
        self.count == 0
    }

    /// The next value, of those that are within plus or minus 2147483647.
    pub fn take(&mut self) -> i64
        requires some { 0 < length (trips_left self.old) }
        requires small { IsTrue (list_all is_small (trips_left self.old)) }
        ensures { trips_left self.old ≡ result ∷ trips_left self.new }
    {
        let value = self.next;
        self.next = with_product(value, 1, self.step);
        self.count -= 1;
        value
    }
}

/// The value of a form on a path, where it is small.
pub fn small_value(program: &Program, form: &Affine, path: &Path) -> i64
    requires numbered { IsTrue
        (list_all (λ (r : Round). is_number_of (loops_of (tree_of program.now).items) r.number)
        (rounds_of path.now)) }
    requires small { IsTrue
        (is_small (form_value form.now (loops_in (tree_of program.now) (rounds_of path.now))
        (param_values (tree_of program.now)))) }
    ensures { result ≡ form_value form.now (loops_in (tree_of program.now) (rounds_of path.now))
        (param_values (tree_of program.now)) }
{
    value_at(form, path, &program.params)
}

/// How many trips a DO loop with these bounds and this step makes.
pub fn trip_count(m1: i64, m2: i64, m3: i64) -> u64
    requires first { IsTrue (is_small m1) }
    requires last { IsTrue (is_small m2) }
    requires step { IsTrue (is_small m3) }
    requires moves { IsTrue (nat_lt 0 (unsigned_abs m3)) }
    ensures { result ≡ trip_count m1 m2 m3 }
{
    let quotient = (m2 - m1 + m3) / m3;
    if quotient > 0 { quotient as u64 } else { 0 }
}
