// The loops of a program by number.

ghost use Rattle.std.specs.Prelude.{◌≡◌, ◌≤◌, IfSome, Some, option_map};
ghost use Rattle.std.specs.Option.{option_copied};
ghost use Rattle.nest_tree.specs.Prints.{have_print};
ghost use Rattle.nest_tree.specs.View.{statement_of, statements_from, tree_of};
ghost use Rattle.nest_tree.specs.WellFormed.{loops_of};
ghost use Rattle.maker_marks.specs.Tries.{body_among, body_at, body_in, nest_body};

use nest_tree::{Item, Nest, Program};

/// The loop with this number, from 1, among these statements, if it stands there.
#[cycle(nest)]
pub(crate) fn nest_among(items: &[Item], number: u32) -> Option<&Nest>
    ensures body { option_map nest_body (option_copied result)
        ≡ body_among number (statements_from items.now) }
    ensures number { IfSome result (λ nest. nest.now.number ≡ number) }
{
    for item in items {
        let found = nest_in(item, number);
        if found.is_some() {
            return found;
        }
    }
    None
}

#[cycle(nest)]
fn nest_in(item: &Item, number: u32) -> Option<&Nest>
    ensures body { option_map nest_body (option_copied result)
        ≡ body_in number (statement_of item.now) }
    ensures number { IfSome result (λ nest. nest.now.number ≡ number) }
{
    match item {
        Item::Loop(nest) => nest_at(nest, number),
        Item::Assign(..) | Item::Print(..) | Item::Continue(_) => None,
    }
}

// The same of a loop.
#[cycle(nest)]
fn nest_at(nest: &Nest, number: u32) -> Option<&Nest>
    ensures body { option_map nest_body (option_copied result)
        ≡ body_at number nest.now.number (nest_body nest.now) }
    ensures number { IfSome result (λ nest. nest.now.number ≡ number) }
{
    if nest.number == number {
        Some(nest)
    } else {
        nest_among(&nest.items, number)
    }
}

/// The loop with this number, from 1.
pub fn nest_of(program: &Program, number: u32) -> &Nest
    requires some { 1 ≤ number }
    requires there { number ≤ loops_of (tree_of program.now).items }
    ensures body { body_among number (tree_of program.now).items ≡ Some (nest_body result.now) }
    ensures number { result.now.number ≡ number }
{
    match nest_among(&program.items, number) {
        Some(nest) => nest,
        None => unreachable!(),
    }
}

/// Whether a PRINT stands in these statements.
pub fn have_print(items: &[Item]) -> bool
    ensures { result ≡ have_print (statements_from items.now) }
{
    for item in items {
        if item.has_print() {
            return true;
        }
    }
    false
}
