// How much room a run needs.

ghost use Rattle.std.specs.Prelude.{◌≡◌, ◌+◌, ◌*◌, ◌≤◌, ℕ, IfSome, Some, length, map, slice_get, sum_by};
ghost use Rattle.nest_tree.specs.Layout.{bounds_of, element_count};
ghost use Rattle.nest_tree.specs.View.{printed_of, statement_of, statements_from, tree_of};
ghost use Rattle.nest_model.specs.Instances.{works_in, works_of};
ghost use Rattle.nest_model.specs.Visits.{visits};
ghost use Rattle.nest_walk.specs.Tables.{IsCellTable, entries};
ghost use Rattle.nest_walk.specs.Walks.{enters_but};
ghost use Rattle.nest_walk.specs.declared.table.WorkCells.{WorkCells};
ghost use Rattle.seq_meaning.specs.Room.{longest_item, longest_items};
ghost use Rattle.sync_plan.specs.Fit.{has_print, have_print};
ghost use Rattle.instance_runs.specs.Rooms.{AreSilent, IsReached, IsSilent, StayOpen, is_closed, is_printing_among, is_printing_in, visit_room};
ghost use Rattle.instance_runs.specs.Loads.{widths};
ghost use Rattle.std.specs.Prelude.{IsTrue, ◌-◌, true, false};

use crate::loads::width;
use nest_tree::{Item, PrintItem, Program};
use nest_walk::{CellTable, Cursor, LoadCells};

// No array of a program within its limits has more elements.
const MOST_ELEMENTS: u128 = 1 << 32;

// How many pieces of work stand in these statements, if they can be counted.
#[cycle(works)]
fn work_count(items: &[Item]) -> Option<u32>
    ensures { IfSome result (λ n. n ≡ works_of (statements_from items.now)) }
{
    let mut count: u32 = 0;
    for item in items {
        count = count.checked_add(works_in(item)?)?;
    }
    Some(count)
}

#[cycle(works)]
fn works_in(item: &Item) -> Option<u32>
    ensures { IfSome result (λ n. n ≡ works_in (statement_of item.now)) }
{
    match item {
        Item::Loop(nest) => work_count(&nest.items),
        Item::Assign(..) | Item::Print(..) => Some(1),
        Item::Continue(_) => Some(0),
    }
}

/// The greatest number of values that the loads of one piece of work give, if it can be counted.
pub fn most_loads(program: &Program, table: &CellTable) -> Option<usize>
    requires { IsCellTable (tree_of program.now) table.now }
    ensures most { IfSome result (λ n. (k : ℕ) (cells : WorkCells)
        → slice_get (entries table.now) k ≡ Some cells → widths cells.loads.items ≤ n) }
    ensures reached { IfSome result (λ n. IsReached (entries table.now) n) }
{
    let mut most = 0;
    for number in 0..work_count(&program.items)? {
        most = most.max(values_of(&table.work(number + 1).loads)?);
    }
    Some(most)
}

// How many values loads give, if they can be counted.
fn values_of(loads: &[LoadCells]) -> Option<usize>
    ensures { IfSome result (λ n. n ≡ widths loads.now) }
{
    let mut count: usize = 0;
    for load in loads {
        count = count.checked_add(width(load) as usize)?;
    }
    Some(count)
}

/// The greatest number of bytes that the PRINTs where a walk stops can write, if it can be counted.
/// The walk enters the loops that aren't marked.
pub fn longest_output(program: &Program, closed: &[bool]) -> Option<usize>
    ensures { IfSome result (λ n. n ≡ sum_by (visit_room (tree_of program.now))
        (visits (tree_of program.now) (enters_but closed.now))) }
{
    let mut room: usize = 0;
    let mut cursor = Cursor::new(program, closed);
    while let Some(stop) = cursor.next() {
        if let Item::Print(items, _) = stop.item {
            room = room.checked_add(longest_line(program, items)?)?;
        }
    }
    Some(room)
}

// The greatest number of bytes that the line of a PRINT can have, if it can be counted.
fn longest_line(program: &Program, items: &[PrintItem]) -> Option<usize>
    ensures { IfSome result (λ n. n ≡ longest_items (tree_of program.now) (map printed_of items.now)
        + 1) }
{
    let mut room: usize = 1;
    for item in items {
        room = room.checked_add(longest_item(program, item)?)?;
    }
    Some(room)
}

fn longest_item(program: &Program, item: &PrintItem) -> Option<usize>
    ensures { IfSome result (λ n. n ≡ longest_item (tree_of program.now) (printed_of item.now)) }
{
    match item {
        PrintItem::Value(_) => Some(21),
        PrintItem::Text(characters) => characters.len().checked_add(1),
        PrintItem::Whole(variable) => longest_array(program, *variable),
    }
}

// The greatest number of bytes that the elements of the variable with this number, from 1, can
// take, if it is there and they can be counted.
fn longest_array(program: &Program, variable: u32) -> Option<usize>
    ensures { IfSome result (λ n. n
        ≡ 21 * element_count (bounds_of (tree_of program.now) variable)) }
{
    let number = variable as usize;
    if number == 0 || program.variables.len() < number {
        return None;
    }
    let count = program.variables[number - 1].element_count();
    if count > MOST_ELEMENTS {
        return None;
    }
    Some(21 * count as usize)
}

/// Whether a PRINT stands in these statements. Of the loops among them and inside, the marks of
/// those with a PRINT inside are taken away, and no others.
#[cycle(printing)]
pub fn open_printing(items: &[Item], closed: &mut [bool]) -> bool
    ensures prints { result ≡ have_print (statements_from items.now) }
    ensures kept { StayOpen closed.old closed.new }
    ensures silent { AreSilent closed.new (statements_from items.now) }
    ensures only { (n : ℕ) → is_closed closed.old n ≡ true → is_closed closed.new n ≡ false
        → IsTrue (is_printing_among (n - 1) (statements_from items.now)) }
{
    let mut prints = false;
    for item in items {
        if opens(item, closed) {
            prints = true;
        }
    }
    prints
}

#[cycle(printing)]
fn opens(item: &Item, closed: &mut [bool]) -> bool
    ensures prints { result ≡ has_print (statement_of item.now) }
    ensures kept { StayOpen closed.old closed.new }
    ensures silent { IsSilent closed.new (statement_of item.now) }
    ensures only { (n : ℕ) → is_closed closed.old n ≡ true → is_closed closed.new n ≡ false
        → IsTrue (is_printing_in (n - 1) (statement_of item.now)) }
{
    match item {
        Item::Loop(nest) => {
            let prints = open_printing(&nest.items, closed);
            if prints {
                unmark(closed, nest.number);
            }
            prints
        }
        Item::Print(..) => true,
        Item::Assign(..) | Item::Continue(_) => false,
    }
}

// The mark of the loop with this number, from 1, is taken away.
fn unmark(closed: &mut [bool], number: u32)
    ensures kept { StayOpen closed.old closed.new }
    ensures gone { is_closed closed.new number ≡ false }
    ensures only { (n : ℕ) → is_closed closed.old n ≡ true → is_closed closed.new n ≡ false
        → n - 1 ≡ number - 1 }
{
    let place = (number as usize).saturating_sub(1);
    if place < closed.len() {
        closed[place] = false;
    }
}
