// Whether a loop is in its last trip.

ghost use Rattle.std.specs.Prelude.{◌≡◌, IsTrue};
ghost use Rattle.std.specs.List.{list_all};
ghost use Rattle.nest_tree.specs.Tree.{param_values};
ghost use Rattle.nest_tree.specs.View.{tree_of};
ghost use Rattle.nest_tree.specs.WellFormed.{is_number_of, loops_of};
ghost use Rattle.nest_walk.specs.Cursors.{loops_in};
ghost use Rattle.nest_walk.specs.Frames.{head_of};
ghost use Rattle.nest_walk.specs.Paths.{Round};
ghost use Rattle.nest_walk.specs.RoundsOf.{rounds_of};
ghost use Rattle.own_cells.specs.FinalTrips.{is_final, is_past};

use nest_tree::{Nest, Program};
use nest_walk::{Path, value_at};

/// Whether a loop that is in a trip, with these loops round it and its own value among them, has no
/// trip behind that one.
pub fn is_final(program: &Program, path: &Path, nest: &Nest) -> bool
    requires numbered { IsTrue
        (list_all (λ (r : Round). is_number_of (loops_of (tree_of program.now).items) r.number)
        (rounds_of path.now)) }
    requires number { IsTrue (is_number_of (loops_of (tree_of program.now).items) nest.now.number) }
    ensures { result ≡ is_final (param_values (tree_of program.now)) (head_of nest.now)
        (loops_in (tree_of program.now) (rounds_of path.now)) }
{
    let value = path.value_of(nest.number);
    let last = value_at(&nest.m2, path, &program.params);
    is_past(value, nest.step, last)
}

// Whether a value with one step more is past the last one.
fn is_past(value: i64, step: i64, last: i64) -> bool
    ensures { result ≡ is_past value step last }
{
    let next = i128::from(value) + i128::from(step);
    if step > 0 {
        i128::from(last) < next
    } else {
        next < i128::from(last)
    }
}
