// Cells as forms of the loops' values by depth.

ghost use Rattle.std.specs.Prelude.{◌≡◌, ◌-◌, ◌<◌, ◌+ℤ◌, ◌-ℤ◌, ◌*ℤ◌, IsTrue, length, map, pos};
ghost use Rattle.std.specs.List.{list_all};
ghost use Rattle.nest_tree.specs.Values.{wrapped};
ghost use Rattle.nest_tree.specs.View.{tree_of};
ghost use Rattle.nest_tree.specs.WellFormed.{is_good_access, is_good_dimension, scope_of};
ghost use Rattle.nest_tree.specs.declared.tree.Parameter.{Parameter};
ghost use Rattle.nest_walk.specs.Places.{IsThere, cell_among, numbers_of, place_among};
ghost use Rattle.nest_walk.specs.RoundsOf.{rounds_of};

use crate::form::value_at;
use crate::path::{MOST_LOOPS, Path};
use nest_tree::arithmetic::{difference, with_product};
use nest_tree::{Access, Affine, Parameter, Program};

/// Where the cell of an access lies: a base and one step for each loop round it, by depth from the
/// outermost, with parameters, bounds and strides folded in, all modulo 2^64.
#[derive(Clone, Copy, Debug, PartialEq, Eq)]
pub struct CellForm {
    pub(crate) base: i64,
    pub(crate) steps: [i64; MOST_LOOPS],
}

impl CellForm {
    ghost use Rattle.nest_walk.specs.CellForms.{IsCellForm, cell_at, start_at, step_at};

    /// The form of an access inside these loops, whatever their values.
    pub fn of_access(program: &Program, access: &Access, path: &Path) -> Self
        requires good { IsTrue (is_good_access (scope_of (tree_of program.now))
            (numbers_of (rounds_of path.now)) access.now) }
        ensures { IsCellForm (tree_of program.now) access.now
            (numbers_of (rounds_of path.now)) result }
    {
        let base = cell_on(program, access, &path.at_origin());
        let mut steps = [0; MOST_LOOPS];
        for depth in 0..path.depth() {
            steps[depth] = difference(cell_on(program, access, &path.one_along(depth)), base);
        }
        CellForm { base, steps }
    }

    /// The cell where the loops have these values by depth.
    pub fn at(&self, values: &[i64; MOST_LOOPS]) -> usize
        ensures { result ≡ cell_at self.now values.now }
    {
        let sum = self.start(values);
        if sum > 0 { sum as usize } else { 0 }
    }

    /// The sum that gives the cell where the loops have these values by depth, in 64 bits: the cell
    /// itself where it isn't below 0.
    #[inline(always)]
    pub fn start(&self, values: &[i64; MOST_LOOPS]) -> i64
        ensures { result ≡ start_at self.now values.now }
    {
        let mut sum = self.base;
        for depth in 0..MOST_LOOPS {
            sum = with_product(sum, self.steps[depth], values[depth]);
        }
        sum
    }

    /// How much that sum grows with the value of the loop at this depth, from 0.
    pub fn along(&self, depth: usize) -> i64
        requires { depth < 6 }
        ensures step { result ≡ step_at self.now depth }
        ensures six { length self.now.steps ≡ 6 }
    {
        self.steps[depth]
    }
}

// The cell of an access on a path, modulo 2^64.
fn cell_on(program: &Program, access: &Access, path: &Path) -> i64
    requires there { IsThere (tree_of program.now) access.now }
    ensures { result ≡ wrapped (cell_among (tree_of program.now) access.now (rounds_of path.now)) }
{
    let first = i64::from(program.layout().first_cell(access.variable));
    let bounds = &program.variables[access.variable as usize - 1].bounds;
    let place = place_on(bounds, access.subscripts.as_slice(), path, &program.params);
    with_product(first, 1, place)
}

// The place of an element in its array on a path, modulo 2^64: the first subscript varies fastest.
fn place_on(bounds: &[(i64, i64)], subscripts: &[Affine], path: &Path, params: &[Parameter]) -> i64
    requires good { IsTrue (list_all is_good_dimension bounds.now) }
    requires as_many { length subscripts.now ≡ length bounds.now }
    ensures { result
        ≡ wrapped (place_among bounds.now subscripts.now (rounds_of path.now)
        (map (λ (p : Parameter). p.value) params.now)) }
{
    let mut place = 0;
    for dimension in (0..bounds.len()).rev() {
        let subscript = value_at(&subscripts[dimension], path, params);
        place = dimension_place(bounds[dimension], subscript, place);
    }
    place
}

// The place that a subscript and the place in the later dimensions give, wrapped to 64 bits.
fn dimension_place(bounds: (i64, i64), subscript: i64, later: i64) -> i64
    requires { IsTrue (is_good_dimension bounds) }
    ensures { result
        ≡ wrapped ((subscript -ℤ bounds.0) +ℤ (bounds.1 -ℤ bounds.0 +ℤ pos 1) *ℤ later) }
{
    let (low, high) = bounds;
    with_product(difference(subscript, low), high - low + 1, later)
}
