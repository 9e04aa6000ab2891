// The cells of all accesses of a program, made once.

ghost use Rattle.std.specs.Prelude.{◌≡◌, ℕ, ◌-◌, ◌≤◌, [], ◌∷◌, IfOk, IsTrue, List, OnOk, Some, length, map, slice_get};
ghost use Rattle.std.specs.List.{flat_map, list_all};
ghost use Rattle.nest_tree.specs.Loads.{loads_among, loads_in};
ghost use Rattle.nest_tree.specs.View.{expression_of, expressions_from, printed_of, statement_of, statements_from, tree_of};
ghost use Rattle.nest_tree.specs.WellFormed.{are_good_expressions, are_good_statements, is_good_access, is_good_expression, is_good_item, is_good_statement, scope_of};
ghost use Rattle.nest_model.specs.Visits.{every};
ghost use Rattle.nest_walk.specs.Grown.{GrewBy};
ghost use Rattle.nest_walk.specs.Places.{numbers_of};
ghost use Rattle.nest_walk.specs.RoundsOf.{rounds_of};
ghost use Rattle.nest_walk.specs.Tables.{AreCells, AreLoadCells, ArePlacedCells, IsCellTable, array, element, entries, loaded_in_item};
ghost use Rattle.nest_walk.specs.Texts.{placed_in, placed_of};

use crate::cells::CellForm;
use crate::path::Path;
use nest_tree::{Access, Expr, Item, PrintItem, Program};
use std::alloc::{AllocError, Global};

/// The cells of a load.
#[derive(Clone, Copy, Debug, PartialEq, Eq)]
pub enum LoadCells {
    /// That of a scalar or an element.
    Element(CellForm),
    /// Those of an array that is printed whole: the first, from 0, and how many there are.
    Array { first: u32, count: u32 },
}

/// The cells of a piece of work: those of its loads, in text order, and that of what it stores.
#[derive(Drop)]
pub struct WorkCells {
    pub loads: Vec<LoadCells>,
    pub store: Option<CellForm>,
}

/// The cells of all accesses of a program, by the number of the piece of work.
#[derive(Drop)]
pub struct CellTable {
    works: Vec<WorkCells>,
}

impl CellTable {
    /// The table of a program.
    pub fn new(alloc: Global, program: &Program) -> Result<Self, AllocError>
        ensures { IfOk result (λ table. IsCellTable (tree_of program.now) table) }
    {
        let mut works = Vec::new(alloc);
        push_works(alloc, program, &program.items, &Path::new(), &mut works)?;
        Ok(CellTable { works })
    }

    /// The cells of the piece of work with this number, from 1, as a stop of a walk has it.
    pub fn work(&self, number: u32) -> &WorkCells
        requires low { 1 ≤ number }
        requires high { number ≤ length (entries self.now) }
        ensures { slice_get (entries self.now) (number - 1) ≡ Some result.now }
    {
        &self.works[number as usize - 1]
    }
}

// The cells of the pieces of work in these statements, behind those in the list.
#[cycle(works)]
fn push_works(
    alloc: Global,
    program: &Program,
    items: &[Item],
    path: &Path,
    works: &mut Vec<WorkCells>,
) -> Result<(), AllocError>
    requires good { (first : ℕ)
        × IsTrue (are_good_statements (scope_of (tree_of program.now))
        (numbers_of (rounds_of path.now)) first (statements_from items.now)) }
    ensures { OnOk result (GrewBy (ArePlacedCells (tree_of program.now))
        (placed_of every (numbers_of (rounds_of path.now))
        (statements_from items.now)) works.old.items works.new.items) }
{
    for item in items {
        push_item_works(alloc, program, item, path, works)?;
    }
    Ok(())
}

#[cycle(works)]
fn push_item_works(
    alloc: Global,
    program: &Program,
    item: &Item,
    path: &Path,
    works: &mut Vec<WorkCells>,
) -> Result<(), AllocError>
    requires good { (first : ℕ)
        × IsTrue (is_good_statement (scope_of (tree_of program.now))
        (numbers_of (rounds_of path.now)) first (statement_of item.now)) }
    ensures { OnOk result (GrewBy (ArePlacedCells (tree_of program.now))
        (placed_in every (numbers_of (rounds_of path.now)) (statement_of item.now)) works.old.items
        works.new.items) }
{
    match item {
        Item::Loop(nest) => {
            let mut inside = *path;
            inside.push(nest.number, 0);
            push_works(alloc, program, &nest.items, &inside, works)
        }
        Item::Assign(target, value, _, _) => {
            works.push(assigned_cells(alloc, program, target, value, path)?)?;
            Ok(())
        }
        Item::Print(items, _) => {
            works.push(printed_cells(alloc, program, items, path)?)?;
            Ok(())
        }
        Item::Continue(_) => Ok(()),
    }
}

// The cells of an assignment.
fn assigned_cells(
    alloc: Global,
    program: &Program,
    target: &Access,
    value: &Expr,
    path: &Path,
) -> Result<WorkCells, AllocError>
    requires target { IsTrue (is_good_access (scope_of (tree_of program.now))
        (numbers_of (rounds_of path.now)) target.now) }
    requires value { IsTrue (is_good_expression (scope_of (tree_of program.now))
        (numbers_of (rounds_of path.now)) (expression_of value.now)) }
    ensures { IfOk result (λ cells. AreCells (tree_of program.now) (numbers_of (rounds_of path.now))
        (map element (loads_in (expression_of value.now))) (target.now ∷ []) cells) }
{
    let mut loads = Vec::new(alloc);
    push_loads(program, value, path, &mut loads)?;
    let store = CellForm::of_access(program, target, path);
    Ok(WorkCells {
        loads,
        store: Some(store),
    })
}

// The cells of a PRINT.
fn printed_cells(
    alloc: Global,
    program: &Program,
    items: &[PrintItem],
    path: &Path,
) -> Result<WorkCells, AllocError>
    requires good { IsTrue
        (list_all (is_good_item (scope_of (tree_of program.now)) (numbers_of (rounds_of path.now)))
        (map printed_of items.now)) }
    ensures { IfOk result (λ cells. AreCells (tree_of program.now) (numbers_of (rounds_of path.now))
        (flat_map loaded_in_item (map printed_of items.now)) [] cells) }
{
    let mut loads = Vec::new(alloc);
    for item in items {
        push_item_cells(program, item, path, &mut loads)?;
    }
    Ok(WorkCells { loads, store: None })
}

// The cells that an item of a PRINT loads, behind those in the list.
fn push_item_cells(
    program: &Program,
    item: &PrintItem,
    path: &Path,
    loads: &mut Vec<LoadCells>,
) -> Result<(), AllocError>
    requires good { IsTrue (is_good_item (scope_of (tree_of program.now))
        (numbers_of (rounds_of path.now)) (printed_of item.now)) }
    ensures { OnOk result
        (GrewBy (AreLoadCells (tree_of program.now) (numbers_of (rounds_of path.now)))
        (loaded_in_item (printed_of item.now)) loads.old.items loads.new.items) }
{
    match item {
        PrintItem::Value(e) => push_loads(program, e, path, loads),
        PrintItem::Whole(variable) => {
            loads.push(whole_cells(program, *variable))?;
            Ok(())
        }
        PrintItem::Text(_) => Ok(()),
    }
}

// The cells of the variable with this number, from 1.
fn whole_cells(program: &Program, variable: u32) -> LoadCells
    requires low { 1 ≤ variable }
    requires high { variable ≤ length (tree_of program.now).variables }
    ensures { (around : List ℕ)
        → AreLoadCells (tree_of program.now) around (array variable) result }
{
    let first = program.layout().first_cell(variable);
    let count = program.variables[variable as usize - 1].element_count();
    LoadCells::Array {
        first,
        count: count as u32,
    }
}

// The cells that an expression loads, behind those in the list.
#[cycle(loads)]
fn push_loads(
    program: &Program,
    e: &Expr,
    path: &Path,
    loads: &mut Vec<LoadCells>,
) -> Result<(), AllocError>
    requires good { IsTrue (is_good_expression (scope_of (tree_of program.now))
        (numbers_of (rounds_of path.now)) (expression_of e.now)) }
    ensures { OnOk result
        (GrewBy (AreLoadCells (tree_of program.now) (numbers_of (rounds_of path.now)))
        (map element (loads_in (expression_of e.now))) loads.old.items loads.new.items) }
{
    match e {
        Expr::Number(_) | Expr::LoopValue(_) | Expr::Param(_) => Ok(()),
        Expr::Load(access) => {
            let form = CellForm::of_access(program, access, path);
            loads.push(LoadCells::Element(form))?;
            Ok(())
        }
        Expr::Neg(a) | Expr::Div(a, _) => push_loads(program, a, path, loads),
        Expr::Add(a, b) | Expr::Sub(a, b) | Expr::Mul(a, b) => {
            push_loads(program, a, path, loads)?;
            push_loads(program, b, path, loads)
        }
        Expr::Min(arguments) => push_all_loads(program, arguments, path, loads),
        Expr::Max(arguments) => push_all_loads(program, arguments, path, loads),
    }
}

// The cells that arguments load.
#[cycle(loads)]
fn push_all_loads(
    program: &Program,
    arguments: &[Expr],
    path: &Path,
    loads: &mut Vec<LoadCells>,
) -> Result<(), AllocError>
    requires good { IsTrue (are_good_expressions (scope_of (tree_of program.now))
        (numbers_of (rounds_of path.now)) (expressions_from arguments.now)) }
    ensures { OnOk result
        (GrewBy (AreLoadCells (tree_of program.now) (numbers_of (rounds_of path.now)))
        (map element (loads_among (expressions_from arguments.now))) loads.old.items
        loads.new.items) }
{
    for argument in arguments {
        push_loads(program, argument, path, loads)?;
    }
    Ok(())
}
