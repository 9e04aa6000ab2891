// Cells in equal steps along a loop.

ghost use Rattle.std.specs.Prelude.{◌≡◌, ◌<◌, ◌≤◌, length, take};
ghost use Rattle.std.specs.List.{AllZip};
ghost use Rattle.nest_walk.specs.RoundsOf.{rounds_of};
ghost use Rattle.flat_code.specs.Lines.{IsLineOf, IsLoadLine, cell_on};

use nest_tree::arithmetic::with_product;
use nest_walk::{CellForm, LoadCells, Path};

/// The cells that a form gives along a loop: the one where the loop is at 0, and how far those of
/// neighbouring values lie apart, modulo 2^64.
#[derive(Clone, Copy, Debug, PartialEq, Eq)]
pub struct Line {
    pub origin: i64,
    pub stride: i64,
}

impl Line {
    /// The cell where the loop has this value.
    #[inline(always)]
    pub fn at(&self, value: i64) -> usize
        ensures { result ≡ cell_on self.now value }
    {
        let cell = with_product(self.origin, self.stride, value);
        if cell > 0 { cell as usize } else { 0 }
    }
}

/// The line of a form along the innermost of these loops.
pub fn line_of(form: &CellForm, path: &Path) -> Line
    requires { 0 < length (rounds_of path.now) }
    ensures { IsLineOf form.now (rounds_of path.now) result }
{
    let mut origin = *path;
    origin.set(0);
    Line {
        origin: form.start(origin.values()),
        stride: form.along(path.depth() - 1),
    }
}

/// The line of a load's first cell along the innermost of these loops.
pub fn line_of_load(load: &LoadCells, path: &Path) -> Line
    requires { 0 < length (rounds_of path.now) }
    ensures { IsLoadLine load.now (rounds_of path.now) result }
{
    match load {
        LoadCells::Element(form) => line_of(form, path),
        LoadCells::Array { first, .. } => Line {
            origin: i64::from(*first),
            stride: 0,
        },
    }
}

/// The lines of loads along the innermost of these loops, as the first of those in the list.
pub fn lay_lines(loads: &[LoadCells], path: &Path, lines: &mut [Line])
    requires loop_there { 0 < length (rounds_of path.now) }
    requires room { length loads.now ≤ length lines.old }
    ensures laid { AllZip (λ load line. IsLoadLine load (rounds_of path.now) line) loads.now
        (take (length loads.now) lines.new) }
    ensures room { length lines.new ≡ length lines.old }
{
    for (k, load) in loads.iter().enumerate() {
        lines[k] = line_of_load(load, path);
    }
}
