// What stands in statements: how many loops, and whether a PRINT.

ghost use Rattle.std.specs.Prelude.{◌≡◌, ◌<◌, ◌^◌};
ghost use Rattle.nest_tree.specs.Prints.{has_print, have_print};
ghost use Rattle.nest_tree.specs.View.{statement_of, statements_from, tree_of};
ghost use Rattle.nest_tree.specs.WellFormed.{loops_in, loops_of};

use crate::program::Program;
use crate::tree::Item;

impl Program {
    /// How many loops the program has.
    pub fn loop_count(&self) -> u32
        requires { loops_of (tree_of self.now).items < 2 ^ 32 }
        ensures { result ≡ loops_of (tree_of self.now).items }
    {
        loops_in_items(&self.items)
    }
}

impl Item {
    /// Whether the statement is a PRINT, or a loop with one inside.
    pub fn has_print(&self) -> bool
        ensures { result ≡ has_print (statement_of self.now) }
    {
        prints(self)
    }
}

// How many loops there are in these statements.
#[cycle(loops)]
fn loops_in_items(items: &[Item]) -> u32
    requires { loops_of (statements_from items.now) < 2 ^ 32 }
    ensures { result ≡ loops_of (statements_from items.now) }
{
    let mut count = 0;
    for item in items {
        count += loops_in_item(item);
    }
    count
}

#[cycle(loops)]
fn loops_in_item(item: &Item) -> u32
    requires { loops_in (statement_of item.now) < 2 ^ 32 }
    ensures { result ≡ loops_in (statement_of item.now) }
{
    match item {
        Item::Loop(nest) => 1 + loops_in_items(&nest.items),
        Item::Assign(..) | Item::Print(..) | Item::Continue(_) => 0,
    }
}

// Whether a PRINT stands in these statements.
#[cycle(print)]
fn have_print(items: &[Item]) -> bool
    ensures { result ≡ have_print (statements_from items.now) }
{
    for item in items {
        if prints(item) {
            return true;
        }
    }
    false
}

#[cycle(print)]
fn prints(item: &Item) -> bool
    ensures { result ≡ has_print (statement_of item.now) }
{
    match item {
        Item::Loop(nest) => have_print(&nest.items),
        Item::Print(..) => true,
        Item::Assign(..) | Item::Continue(_) => false,
    }
}
