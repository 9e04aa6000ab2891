// A worker's stores since a phase began.

ghost use Rattle.std.specs.Prelude.{◌≡◌, ◌<◌, ◌≤◌, ◌+◌, ◌-◌, ◌^◌, ◌++◌, ◌∷◌, ℕ, ℤ, false, IfOk, List, MatchOption, [], get_or, length, slice_set, vec_capacity};
ghost use Rattle.std.specs.List.{range_with_len};
ghost use Rattle.nest_model.specs.Memory.{cell_value};
ghost use Rattle.fork_join.specs.Overlays.{laid_in, stores_to, stretched, unmarked};

use std::alloc::{AllocError, Global};

/// The stores of one worker since a phase began: the cells that have one, in stretches of cells that
/// stand side by side, and by cells whether there is one, and the last value.
#[derive(Drop)]
pub(crate) struct Stores {
    // first cells, each with how many there are from it on
    stretches: Vec<(u32, u32)>,
    stored: Vec<bool>,
    values: Vec<i64>,
}

impl Stores {
    ghost use Rattle.fork_join.specs.StoreLists.{AreKept, cells_of, entries_of};

    /// No store yet, with room for one to each of so many cells.
    pub fn new(alloc: Global, cells: u32) -> Result<Self, AllocError>
        ensures none { IfOk result (λ s. entries_of s ≡ []) }
        ensures kept { IfOk result (λ s. AreKept s) }
        ensures cells { IfOk result (λ s. cells_of s ≡ cells) }
    {
        Ok(Stores {
            stretches: Vec::with_capacity(alloc, cells as usize)?,
            stored: vec![in alloc; false; cells as usize]?,
            values: vec![in alloc; 0; cells as usize]?,
        })
    }

    /// No store, and no cell: what stands in the place of stores that are lent.
    pub fn away(alloc: Global) -> Self
        ensures none { entries_of result ≡ [] }
        ensures cells { cells_of result ≡ 0 }
    {
        Stores {
            stretches: Vec::new(alloc),
            stored: Vec::new(alloc),
            values: Vec::new(alloc),
        }
    }

    /// What the cell holds, where there is a store to it.
    #[inline(always)]
    pub fn get(&self, cell: u32) -> Option<i64>
        requires kept { AreKept self.now }
        requires inside { cell < cells_of self.now }
        ensures { (memory : List ℤ) → cell < length memory
            → MatchOption result (cell_value (laid_in (entries_of self.now) memory) cell
            ≡ cell_value memory cell) (λ v. cell_value (laid_in (entries_of self.now) memory) cell
            ≡ v) }
    {
        if self.stored[cell as usize] {
            Some(self.values[cell as usize])
        } else {
            None
        }
    }

    /// Stores the value into the cell. It takes no memory.
    #[inline(always)]
    pub fn set(&mut self, cell: u32, value: i64)
        requires kept { AreKept self.old }
        requires inside { cell < cells_of self.old }
        ensures kept { AreKept self.new }
        ensures cells { cells_of self.new ≡ cells_of self.old }
        ensures laid { (memory : List ℤ) → laid_in (entries_of self.new) memory
            ≡ slice_set (laid_in (entries_of self.old) memory) cell value }
    {
        if self.stored[cell as usize] {
            self.values[cell as usize] = value;
        } else {
            self.add(cell, value);
        }
    }

    // The first store to a cell.
    #[inline(always)]
    fn add(&mut self, cell: u32, value: i64)
        requires kept { AreKept self.old }
        requires inside { cell < cells_of self.old }
        requires none { get_or self.old.stored.items cell false ≡ false }
        ensures kept { AreKept self.new }
        ensures cells { cells_of self.new ≡ cells_of self.old }
        ensures laid { (memory : List ℤ) → laid_in (entries_of self.new) memory
            ≡ slice_set (laid_in (entries_of self.old) memory) cell value }
    {
        self.stored[cell as usize] = true;
        self.values[cell as usize] = value;
        self.log(cell);
    }

    // The cell behind those of the stretches.
    #[inline(always)]
    fn log(&mut self, cell: u32)
        requires few { length (stretched self.old.stretches.items) < 2 ^ 32 - 1 }
        requires room { length (stretched self.old.stretches.items)
            < vec_capacity self.old.stretches }
        requires spread { length self.old.stretches.items
            ≤ length (stretched self.old.stretches.items) }
        ensures logged { stretched self.new.stretches.items ≡ stretched self.old.stretches.items
            ++ cell ∷ [] }
        ensures spread { length self.new.stretches.items
            ≤ length (stretched self.new.stretches.items) }
        ensures room { vec_capacity self.old.stretches ≤ vec_capacity self.new.stretches }
        ensures stored { self.new.stored ≡ self.old.stored }
        ensures values { self.new.values ≡ self.old.values }
    {
        let count = self.stretches.len();
        if count > 0 {
            let (first, long) = self.stretches[count - 1];
            if u64::from(first) + u64::from(long) == u64::from(cell) {
                self.stretches[count - 1] = (first, long + 1);
                return;
            }
        }
        self.stretches.push((cell, 1)).unwrap();
    }

    /// Lays the stores into memory: there is none then.
    pub fn lay_in(&mut self, memory: &mut [i64])
        requires kept { AreKept self.old }
        requires cells { cells_of self.old ≡ length memory.old }
        ensures kept { AreKept self.new }
        ensures cells { cells_of self.new ≡ cells_of self.old }
        ensures none { entries_of self.new ≡ [] }
        ensures laid { memory.new ≡ laid_in (entries_of self.old) memory.old }
    {
        while let Some((first, count)) = self.stretches.pop() {
            copy_stretch(&self.values, first, count, memory);
            unmark(&mut self.stored, first, count);
        }
    }
}

// The values of so many cells from one on, into memory.
fn copy_stretch(values: &[i64], first: u32, count: u32, memory: &mut [i64])
    requires inside { (k : ℕ) → k < count → first + k < length memory.old }
    requires values { (k : ℕ) → k < count → first + k < length values.now }
    ensures { memory.new ≡ laid_in (stores_to (range_with_len first count) values.now) memory.old }
{
    let first = first as usize;
    for k in 0..count as usize {
        memory[first + k] = values[first + k];
    }
}

// The marks of so many cells from one on are taken away.
fn unmark(stored: &mut [bool], first: u32, count: u32)
    requires inside { (k : ℕ) → k < count → first + k < length stored.old }
    ensures { stored.new ≡ unmarked (range_with_len first count) stored.old }
{
    let first = first as usize;
    for k in 0..count as usize {
        stored[first + k] = false;
    }
}
