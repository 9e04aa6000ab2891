// The place of a value among those that an instance loads.

ghost use Rattle.std.specs.Prelude.{◌≡◌, ℕ, suc, Some, slice_get};
ghost use Rattle.nest_tree.specs.Tree.{Tree};
ghost use Rattle.nest_walk.specs.declared.path.Path.{Path};

use crate::loads::width;
use nest_walk::{CellTable, LoadCells, Path, Stop};

/// The load of an instance that comes next, from 0, and how many of its elements are loaded.
#[derive(Clone, Copy, Debug, PartialEq, Eq)]
pub struct LoadPlace {
    load: usize,
    element: u32,
}

impl LoadPlace {
    ghost use Rattle.nest_model.specs.Accesses.{loads_of};
    ghost use Rattle.instance_runs.specs.LoadPlaces.{IsAtLoad};

    /// In front of the first value.
    pub fn first() -> Self
        ensures load { result.load ≡ 0 }
        ensures element { result.element ≡ 0 }
    {
        LoadPlace {
            load: 0,
            element: 0,
        }
    }

    /// The cell that the instance at a stop with these loops round it loads next, where it loads
    /// one more.
    pub fn cell(&self, table: &CellTable, stop: Stop, path: &Path) -> Option<usize>
        requires { (tree : Tree) × (done : ℕ)
            × IsAtLoad tree table.now path.now stop done self.now }
        ensures { (tree : Tree) (done : ℕ)
            (at : IsAtLoad tree table.now path.now stop.entry done self.now)
            → result ≡ slice_get (loads_of tree at.comes.instance) done }
    {
        match table.work(stop.first).loads.get(self.load)? {
            LoadCells::Element(form) => Some(form.at(path.values())),
            LoadCells::Array { first, .. } => Some(*first as usize + self.element as usize),
        }
    }

    /// Past a value that the instance at a stop loads.
    pub fn advance(&mut self, table: &CellTable, stop: Stop)
        requires { (tree : Tree) × (path : Path) × (done cell : ℕ)
            × (at : IsAtLoad tree table.now path stop done self.old)
            × (slice_get (loads_of tree at.comes.instance) done ≡ Some cell) }
        ensures { (tree : Tree) (path : Path) (done : ℕ)
            → IsAtLoad tree table.now path stop.entry done self.old
            → IsAtLoad tree table.now path stop.entry (suc done) self.new }
    {
        let Some(load) = table.work(stop.first).loads.get(self.load) else {
            unreachable!()
        };
        let values = width(load);
        self.element += 1;
        if self.element == values {
            self.load += 1;
            self.element = 0;
        }
    }
}
