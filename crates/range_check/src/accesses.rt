// The accesses of a piece of work.

ghost use Rattle.std.specs.Prelude.{◌≡◌, ◌++◌, IfOk, OnOk, map};
ghost use Rattle.std.specs.List.{flat_map};
ghost use Rattle.nest_tree.specs.Loads.{loads_among, loads_in, loads_in_item};
ghost use Rattle.nest_tree.specs.Tree.{Work, work};
ghost use Rattle.nest_tree.specs.View.{expression_of, expressions_from, printed_of, statement_of};
ghost use Rattle.nest_model.specs.Ranges.{accesses_of};
ghost use Rattle.range_check.specs.Seen.{accesses_seen};

use nest_tree::{Access, Expr, Item, PrintItem};
use std::alloc::{AllocError, Global};

// An access of the text.
#[derive(Clone, Copy)]
pub(crate) struct Found<'a> {
    pub(crate) access: &'a Access,
}

// The accesses to scalars and elements of a piece of work: its loads in text order, then its store.
pub(crate) fn accesses_in(alloc: Global, item: &Item) -> Result<Vec<Found>, AllocError>
    ensures { (w : Work) → statement_of item.now ≡ work w
        → IfOk result (λ found. accesses_seen found.items ≡ accesses_of w) }
{
    let mut found = Vec::new(alloc);
    match item {
        Item::Assign(target, value, _, _) => {
            push_loads(value, &mut found)?;
            found.push(Found { access: target })?;
        }
        Item::Print(items, _) => push_items(items, &mut found)?,
        Item::Loop(_) | Item::Continue(_) => {}
    }
    Ok(found)
}

// What the items of a PRINT load, behind the others.
fn push_items<'a>(items: &'a [PrintItem], found: &mut Vec<Found<'a>>) -> Result<(), AllocError>
    ensures { OnOk result (accesses_seen found.new.items ≡ accesses_seen found.old.items
        ++ flat_map loads_in_item (map printed_of items.now)) }
{
    for item in items {
        if let PrintItem::Value(e) = item {
            push_loads(e, found)?;
        }
    }
    Ok(())
}

// What an expression loads, behind the others.
#[cycle(loads)]
fn push_loads<'a>(e: &'a Expr, found: &mut Vec<Found<'a>>) -> Result<(), AllocError>
    ensures { OnOk result (accesses_seen found.new.items ≡ accesses_seen found.old.items
        ++ loads_in (expression_of e.now)) }
{
    match e {
        Expr::Number(_) | Expr::LoopValue(_) | Expr::Param(_) => Ok(()),
        Expr::Load(access) => {
            found.push(Found { access })?;
            Ok(())
        }
        Expr::Neg(a) | Expr::Div(a, _) => push_loads(a, found),
        Expr::Add(a, b) | Expr::Sub(a, b) | Expr::Mul(a, b) => {
            push_loads(a, found)?;
            push_loads(b, found)
        }
        Expr::Min(arguments) => push_all_loads(arguments, found),
        Expr::Max(arguments) => push_all_loads(arguments, found),
    }
}

// What arguments load, behind the others.
#[cycle(loads)]
fn push_all_loads<'a>(arguments: &'a [Expr], found: &mut Vec<Found<'a>>) -> Result<(), AllocError>
    ensures { OnOk result (accesses_seen found.new.items ≡ accesses_seen found.old.items
        ++ loads_among (expressions_from arguments.now)) }
{
    for argument in arguments {
        push_loads(argument, found)?;
    }
    Ok(())
}
