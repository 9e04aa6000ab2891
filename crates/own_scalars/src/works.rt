// What pieces of work do with a scalar.

ghost use Rattle.std.specs.Prelude.{◌≡◌, ℕ, Option, map};
ghost use Rattle.std.specs.List.{flat_map, list_any};
ghost use Rattle.nest_tree.specs.declared.tree.Guard.{Guard};
ghost use Rattle.nest_tree.specs.Loads.{loads_in_item};
ghost use Rattle.nest_tree.specs.Tree.{assign, print};
ghost use Rattle.nest_tree.specs.View.{expression_of, printed_of, statement_of, statements_from};
ghost use Rattle.own_scalars.specs.OwnScalars.{is_of, some_in, some_of};
ghost use Rattle.own_scalars.specs.Looks.{passes};

use crate::expressions::{adds_to, is_of, loads};
use nest_tree::{Access, Expr, Item, PrintItem};

// What is looked for in pieces of work.
#[derive(Clone, Copy)]
pub(crate) enum Look {
    // A store of the scalar.
    Store,
    // A load or a store of it.
    Access,
    // An access of it otherwise than by an addition to it.
    Other,
}

impl Look {
    // Whether an assignment is what is looked for.
    fn is_assignment(self, target: &Access, value: &Expr, scalar: u32) -> bool
        ensures { (guard : Option Guard) (line : ℕ)
            → result
            ≡ passes self scalar
            (assign
            (record {
              target = target.now;
              value = expression_of value.now;
              guard = guard;
              line = line;
            })) }
    {
        match self {
            Look::Store => is_of(target, scalar),
            Look::Access => loads(value, scalar) || is_of(target, scalar),
            Look::Other => {
                (loads(value, scalar) || is_of(target, scalar))
                    && !(is_of(target, scalar) && adds_to(value, scalar))
            }
        }
    }

    // Whether a PRINT is.
    fn is_printing(self, items: &[PrintItem], scalar: u32) -> bool
        ensures { (line : ℕ)
            → result
            ≡ passes self scalar
            (print (record { items = map printed_of items.now; line = line })) }
    {
        match self {
            Look::Store => false,
            Look::Access | Look::Other => one_item_loads(items, scalar),
        }
    }
}

// Whether one of these items of a PRINT loads the scalar.
fn one_item_loads(items: &[PrintItem], scalar: u32) -> bool
    ensures { result ≡ list_any (is_of scalar) (flat_map loads_in_item (map printed_of items.now)) }
{
    for item in items {
        if item_loads(item, scalar) {
            return true;
        }
    }
    false
}

fn item_loads(item: &PrintItem, scalar: u32) -> bool
    ensures { result ≡ list_any (is_of scalar) (loads_in_item (printed_of item.now)) }
{
    match item {
        PrintItem::Value(e) => loads(e, scalar),
        PrintItem::Whole(_) | PrintItem::Text(_) => false,
    }
}

// Whether one of the pieces of work in these statements is what is looked for.
#[cycle(some)]
pub(crate) fn some_of(items: &[Item], look: Look, scalar: u32) -> bool
    ensures { result ≡ some_of (passes look scalar) (statements_from items.now) }
{
    for item in items {
        if some_in(item, look, scalar) {
            return true;
        }
    }
    false
}

#[cycle(some)]
pub(crate) fn some_in(item: &Item, look: Look, scalar: u32) -> bool
    ensures { result ≡ some_in (passes look scalar) (statement_of item.now) }
{
    match item {
        Item::Loop(nest) => some_of(&nest.items, look, scalar),
        Item::Assign(target, value, _, _) => look.is_assignment(target, value, scalar),
        Item::Print(items, _) => look.is_printing(items, scalar),
        Item::Continue(_) => false,
    }
}
