// Loads and stores of cells.

ghost use Rattle.std.specs.Prelude.{◌≡◌, ◌++◌, ◌≤◌, IsTrue, OnOk, length, map, nat_lt, take};
ghost use Rattle.std.specs.List.{flat_map, list_all};
ghost use Rattle.nest_model.specs.Memory.{cell_value};
ghost use Rattle.flat_code.specs.Lines.{cell_on, first_of_load};
ghost use Rattle.seq_meaning.specs.Loads.{cells_of_load, is_first_within, is_load_within};

use flat_code::Line;
use nest_walk::{LoadCells, MOST_LOOPS};
use std::alloc::AllocError;

// What loads give in a memory where the loops have these values by depth.
pub(crate) fn load(
    memory: &[i64],
    loads: &[LoadCells],
    values: &[i64; MOST_LOOPS],
    loaded: &mut Vec<i64>,
) -> Result<(), AllocError>
    requires { IsTrue (list_all (is_load_within (length memory.now) values.now) loads.now) }
    ensures { OnOk result (loaded.new.items
        ≡ map (cell_value memory.now) (flat_map (cells_of_load values.now) loads.now)) }
{
    loaded.clear();
    for cells in loads {
        push_loaded(memory, cells, values, loaded)?;
    }
    Ok(())
}

// What a load gives, behind the values in the list.
fn push_loaded(
    memory: &[i64],
    cells: &LoadCells,
    values: &[i64; MOST_LOOPS],
    loaded: &mut Vec<i64>,
) -> Result<(), AllocError>
    requires { IsTrue (is_load_within (length memory.now) values.now cells.now) }
    ensures { OnOk result (loaded.new.items ≡ loaded.old.items
        ++ map (cell_value memory.now) (cells_of_load values.now cells.now)) }
{
    match cells {
        LoadCells::Element(form) => {
            loaded.push(memory[form.at(values)])?;
            Ok(())
        }
        LoadCells::Array { first, count } => {
            let first = *first as usize;
            loaded.extend_from_slice(&memory[first..][..*count as usize])?;
            Ok(())
        }
    }
}

// What the first cells of loads hold where the loops have these values by depth, into the first
// registers.
pub(crate) fn load_firsts(
    memory: &[i64],
    loads: &[LoadCells],
    values: &[i64; MOST_LOOPS],
    registers: &mut [i64],
)
    requires there { IsTrue (list_all (is_first_within (length memory.now) values.now) loads.now) }
    requires room { length loads.now ≤ length registers.old }
    ensures loaded { take (length loads.now) registers.new
        ≡ map (λ l. cell_value memory.now (first_of_load values.now l)) loads.now }
    ensures room { length registers.new ≡ length registers.old }
{
    for (k, load) in loads.iter().enumerate() {
        registers[k] = memory[first_cell(load, values)];
    }
}

// What the cells of lines hold where their loop has this value, into the first registers.
#[inline(always)]
pub(crate) fn load_lines(memory: &[i64], lines: &[Line], value: i64, registers: &mut [i64])
    requires there { IsTrue
        (list_all (λ line. nat_lt (cell_on line value) (length memory.now)) lines.now) }
    requires room { length lines.now ≤ length registers.old }
    ensures loaded { take (length lines.now) registers.new
        ≡ map (λ line. cell_value memory.now (cell_on line value)) lines.now }
    ensures room { length registers.new ≡ length registers.old }
{
    for (k, line) in lines.iter().enumerate() {
        registers[k] = memory[line.at(value)];
    }
}

// The first cell of a load where the loops have these values by depth.
pub(crate) fn first_cell(load: &LoadCells, values: &[i64; MOST_LOOPS]) -> usize
    ensures { result ≡ first_of_load values.now load.now }
{
    match load {
        LoadCells::Element(form) => form.at(values),
        LoadCells::Array { first, .. } => *first as usize,
    }
}
