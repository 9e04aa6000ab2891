// Which cell of memory a variable's element has.

ghost use Rattle.std.specs.Prelude.{◌≡◌, ◌+◌, ◌≤◌, ◌<◌, ◌^◌, ◌-ℤ◌, length, IsTrue};
ghost use Rattle.std.specs.List.{list_all};
ghost use Rattle.nest_tree.specs.Layout.{are_inside, bounds_of, cell_count, cell_of, count_of, element_count, element_place, extent, first_cell, is_inside};
ghost use Rattle.nest_tree.specs.LaidOut.{laid_out};
ghost use Rattle.nest_tree.specs.View.{declaration_of, tree_of};
ghost use Rattle.nest_tree.specs.WellFormed.{is_good_declaration, is_good_dimension};

use crate::program::Program;
use crate::tree::Variable;

/// The cells of a program's variables.
#[derive(Drop)]
pub struct Layout<'a> {
    program: &'a Program,
}

impl Program {
    /// Where this program's variables lie. It takes no memory.
    pub fn layout(&self) -> Layout<'_>
        ensures { laid_out result ≡ tree_of self.now }
    {
        Layout { program: self }
    }
}

impl Variable {
    /// How many elements the variable has, 1 for a scalar.
    pub fn element_count(&self) -> u128
        requires { IsTrue (is_good_declaration (declaration_of self.now)) }
        ensures count { result ≡ element_count self.now.bounds.items }
        ensures most { result ≤ 2 ^ 96 }
    {
        let mut count = 1;
        for &bounds in &self.bounds {
            count *= u128::from(extent(bounds));
        }
        count
    }
}

impl Layout<'_> {
    /// The first cell, from 0, of the variable with this number, from 1.
    pub fn first_cell(&self, variable: u32) -> u32
        requires low { 1 ≤ variable }
        requires high { variable ≤ length (laid_out self.now).variables }
        ensures { result ≡ first_cell (laid_out self.now) variable }
    {
        let mut cells = 0;
        for before in &self.program.variables[..variable as usize - 1] {
            cells += before.element_count();
        }
        cells as u32
    }

    /// The cell, from 0, of an element of the variable with this number, from 1; a scalar has no
    /// subscripts. Arrays lie in column-major order (ANSI X3.9-1978, 5.2.5).
    pub fn cell_of(&self, variable: u32, subscripts: &[i64]) -> u32
        requires low { 1 ≤ variable }
        requires high { variable ≤ length (laid_out self.now).variables }
        requires as_many { length subscripts.now ≡ length (bounds_of (laid_out self.now) variable) }
        requires inside { IsTrue (are_inside (bounds_of (laid_out self.now) variable)
            subscripts.now) }
        ensures cell { result ≡ cell_of (laid_out self.now) variable subscripts.now }
        ensures below { result < cell_count (laid_out self.now) }
    {
        let bounds = &self.program.variables[variable as usize - 1].bounds;
        self.first_cell(variable) + element_place(bounds, subscripts)
    }
}

// How many places a dimension has.
pub(crate) fn extent(bounds: (i64, i64)) -> u32
    requires { IsTrue (is_good_dimension bounds) }
    ensures extent { result ≡ extent bounds }
    ensures some { 1 ≤ result }
{
    (bounds.1 - bounds.0 + 1) as u32
}

// The place of a subscript in its dimension, from 0.
fn offset(bounds: (i64, i64), subscript: i64) -> u32
    requires good { IsTrue (is_good_dimension bounds) }
    requires inside { IsTrue (is_inside bounds subscript) }
    ensures offset { result ≡ count_of (subscript -ℤ bounds.0) }
    ensures below { result < extent bounds }
{
    (subscript - bounds.0) as u32
}

// The place of an element in its array, from 0.
fn element_place(bounds: &[(i64, i64)], subscripts: &[i64]) -> u32
    requires good { IsTrue (list_all is_good_dimension bounds.now) }
    requires few { element_count bounds.now ≤ 1048576 }
    requires as_many { length subscripts.now ≡ length bounds.now }
    requires inside { IsTrue (are_inside bounds.now subscripts.now) }
    ensures place { result ≡ element_place bounds.now subscripts.now }
    ensures below { result < element_count bounds.now }
{
    let mut place = 0;
    let mut stride = 1;
    for (dimension, &bounds) in bounds.iter().enumerate() {
        place += offset(bounds, subscripts[dimension]) * stride;
        stride *= extent(bounds);
    }
    place
}
