// Whether statements are equal.

ghost use Rattle.std.specs.Prelude.{◌≡◌, ◌==◌};
ghost use Rattle.nest_tree.specs.View.{head_of, loop_of, printed_of, statement_of};
ghost use Rattle.nest_agree.specs.Same.{same_bytes, same_head, same_list, same_printed, same_statement};

use crate::expressions::same;
use crate::forms::{same_access, same_form, same_guard};
use nest_tree::{Item, Nest, PrintItem};

/// Whether two texts of characters are equal.
pub(crate) fn same_bytes(a: &[u8], b: &[u8]) -> bool
    ensures { result ≡ same_bytes a.now b.now }
{
    a == b
}

fn same_printed(a: &PrintItem, b: &PrintItem) -> bool
    ensures { result ≡ same_printed (printed_of a.now) (printed_of b.now) }
{
    match a {
        PrintItem::Value(e) => match b {
            PrintItem::Value(f) => same(e, f),
            PrintItem::Whole(_) | PrintItem::Text(_) => false,
        },
        PrintItem::Whole(v) => match b {
            PrintItem::Whole(w) => v == w,
            PrintItem::Value(_) | PrintItem::Text(_) => false,
        },
        PrintItem::Text(x) => match b {
            PrintItem::Text(y) => same_bytes(x, y),
            PrintItem::Value(_) | PrintItem::Whole(_) => false,
        },
    }
}

fn same_items(a: &[PrintItem], b: &[PrintItem]) -> bool
    ensures { result ≡ same_list (λ x y. same_printed (printed_of x) (printed_of y)) a.now b.now }
{
    for (place, item) in a.iter().enumerate() {
        if place >= b.len() || !same_printed(item, &b[place]) {
            return false;
        }
    }
    b.len() <= a.len()
}

fn same_head(a: &Nest, b: &Nest) -> bool
    ensures { result ≡ same_head (head_of a.now) (head_of b.now) }
{
    a.number == b.number
        && same_form(&a.m1, &b.m1)
        && same_form(&a.m2, &b.m2)
        && a.step == b.step
        && a.line == b.line
}

/// Whether statements are equal, one by one.
#[cycle(same)]
pub(crate) fn same_statements(a: &[Item], b: &[Item]) -> bool
    ensures { result ≡ same_list (λ s t. same_statement (statement_of s) (statement_of t)) a.now
        b.now }
{
    for (place, item) in a.iter().enumerate() {
        if place >= b.len() || !same_statement(item, &b[place]) {
            return false;
        }
    }
    b.len() <= a.len()
}

#[cycle(same)]
fn same_statement(a: &Item, b: &Item) -> bool
    ensures { result ≡ same_statement (statement_of a.now) (statement_of b.now) }
{
    match a {
        Item::Loop(x) => match b {
            Item::Loop(y) => same_head(x, y) && same_statements(&x.items, &y.items),
            Item::Assign(..) | Item::Print(..) | Item::Continue(_) => false,
        },
        Item::Assign(target, value, guard, line) => match b {
            Item::Assign(other, added, compared, number) => {
                same_access(target, other)
                    && same(value, added)
                    && same_guard(guard, compared)
                    && line == number
            }
            Item::Loop(_) | Item::Print(..) | Item::Continue(_) => false,
        },
        Item::Print(items, line) => match b {
            Item::Print(others, number) => same_items(items, others) && line == number,
            Item::Loop(_) | Item::Assign(..) | Item::Continue(_) => false,
        },
        Item::Continue(line) => match b {
            Item::Continue(number) => line == number,
            Item::Loop(_) | Item::Assign(..) | Item::Print(..) => false,
        },
    }
}
