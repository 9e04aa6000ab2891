// The accesses of a piece of the text, in text order.

ghost use Rattle.std.specs.Prelude.{◌≡◌, ◌++◌, [], ◌∷◌, IsTrue, OnOk, map, false, true};
ghost use Rattle.std.specs.List.{flat_map};
ghost use Rattle.nest_tree.specs.Loads.{loads_among, loads_in};
ghost use Rattle.nest_tree.specs.View.{expression_of, expressions_from, printed_of, statement_of, statements_from};
ghost use Rattle.nest_walk.specs.Tables.{element, loaded_in_item};
ghost use Rattle.nest_rows.specs.Nested.{nested_among, nested_in};
ghost use Rattle.nest_rows.specs.Views.{heads_of};
ghost use Rattle.conflict_rules.specs.References.{references_in};
ghost use Rattle.conflict_rules.specs.SmallSteps.{are_small_steps, has_small_steps, have_small_steps};
ghost use Rattle.conflict_rules.specs.Seen.{reference_seen, target_seen};
ghost use Rattle.comm_system.specs.Seen.{referred};

use crate::place::Place;
use conflict_rules::reference::{Reference, Target};
use nest_rows::Around;
use nest_tree::{Expr, Item, PrintItem};
use std::alloc::{AllocError, Global};

// The accesses of a statement, behind the others.
#[cycle(works)]
pub(crate) fn push_references<'a>(
    alloc: Global,
    item: &'a Item,
    around: &mut Vec<Around<'a>>,
    found: &mut Vec<Reference<'a>>,
) -> Result<(), AllocError>
    requires around { IsTrue (are_small_steps (heads_of around.old.items)) }
    requires steps { IsTrue (has_small_steps (statement_of item.now)) }
    ensures found { OnOk result (map reference_seen found.new.items
        ≡ map reference_seen found.old.items
        ++ flat_map references_in (nested_in (heads_of around.old.items) (statement_of item.now))) }
    ensures around { OnOk result (around.new.items ≡ around.old.items) }
{
    match item {
        Item::Loop(nest) => {
            around.push(Around { nest })?;
            push_all_references(alloc, &nest.items, around, found)?;
            around.pop();
            Ok(())
        }
        Item::Assign(target, value, guard, line) => {
            let place = Place {
                around: around.as_slice(),
                guard: guard.as_ref(),
                line: *line,
            };
            push_loads(alloc, place, value, found)?;
            push_reference(alloc, place, Target::Element(target), true, found)
        }
        Item::Print(items, line) => {
            let place = Place {
                around: around.as_slice(),
                guard: None,
                line: *line,
            };
            push_items(alloc, place, items, found)
        }
        Item::Continue(_) => Ok(()),
    }
}

// Those of these statements.
#[cycle(works)]
fn push_all_references<'a>(
    alloc: Global,
    items: &'a [Item],
    around: &mut Vec<Around<'a>>,
    found: &mut Vec<Reference<'a>>,
) -> Result<(), AllocError>
    requires around { IsTrue (are_small_steps (heads_of around.old.items)) }
    requires steps { IsTrue (have_small_steps (statements_from items.now)) }
    ensures found { OnOk result (map reference_seen found.new.items
        ≡ map reference_seen found.old.items
        ++ flat_map references_in (nested_among (heads_of around.old.items)
        (statements_from items.now))) }
    ensures around { OnOk result (around.new.items ≡ around.old.items) }
{
    for item in items {
        push_references(alloc, item, around, found)?;
    }
    Ok(())
}

// What the items of a PRINT load, behind the others.
fn push_items<'a>(
    alloc: Global,
    place: Place<'_, 'a>,
    items: &'a [PrintItem],
    found: &mut Vec<Reference<'a>>,
) -> Result<(), AllocError>
    ensures { OnOk result (map reference_seen found.new.items ≡ map reference_seen found.old.items
        ++ map (referred place.entry false) (flat_map loaded_in_item (map printed_of items.now))) }
{
    for item in items {
        push_item(alloc, place, item, found)?;
    }
    Ok(())
}

// What an item of a PRINT loads.
fn push_item<'a>(
    alloc: Global,
    place: Place<'_, 'a>,
    item: &'a PrintItem,
    found: &mut Vec<Reference<'a>>,
) -> Result<(), AllocError>
    ensures { OnOk result (map reference_seen found.new.items ≡ map reference_seen found.old.items
        ++ map (referred place.entry false) (loaded_in_item (printed_of item.now))) }
{
    match item {
        PrintItem::Value(e) => push_loads(alloc, place, e, found),
        PrintItem::Whole(variable) => {
            push_reference(alloc, place, Target::Whole(*variable), false, found)
        }
        PrintItem::Text(_) => Ok(()),
    }
}

// What an expression loads, behind the others.
#[cycle(loads)]
fn push_loads<'a>(
    alloc: Global,
    place: Place<'_, 'a>,
    e: &'a Expr,
    found: &mut Vec<Reference<'a>>,
) -> Result<(), AllocError>
    ensures { OnOk result (map reference_seen found.new.items ≡ map reference_seen found.old.items
        ++ map (referred place.entry false) (map element (loads_in (expression_of e.now)))) }
{
    match e {
        Expr::Number(_) | Expr::LoopValue(_) | Expr::Param(_) => Ok(()),
        Expr::Load(access) => {
            push_reference(alloc, place, Target::Element(access), false, found)
        }
        Expr::Neg(a) | Expr::Div(a, _) => push_loads(alloc, place, a, found),
        Expr::Add(a, b) | Expr::Sub(a, b) | Expr::Mul(a, b) => {
            push_loads(alloc, place, a, found)?;
            push_loads(alloc, place, b, found)
        }
        Expr::Min(arguments) => push_all_loads(alloc, place, arguments, found),
        Expr::Max(arguments) => push_all_loads(alloc, place, arguments, found),
    }
}

// What arguments load, behind the others.
#[cycle(loads)]
fn push_all_loads<'a>(
    alloc: Global,
    place: Place<'_, 'a>,
    arguments: &'a [Expr],
    found: &mut Vec<Reference<'a>>,
) -> Result<(), AllocError>
    ensures { OnOk result (map reference_seen found.new.items ≡ map reference_seen found.old.items
        ++ map (referred place.entry false)
        (map element (loads_among (expressions_from arguments.now)))) }
{
    for argument in arguments {
        push_loads(alloc, place, argument, found)?;
    }
    Ok(())
}

// One access more.
fn push_reference<'a>(
    alloc: Global,
    place: Place<'_, 'a>,
    target: Target<'a>,
    stores: bool,
    found: &mut Vec<Reference<'a>>,
) -> Result<(), AllocError>
    ensures { OnOk result (map reference_seen found.new.items ≡ map reference_seen found.old.items
        ++ referred place.entry stores (target_seen target.entry) ∷ []) }
{
    let around = Vec::from_slice(alloc, place.around)?;
    found.push(Reference {
        target,
        stores,
        around,
        guard: place.guard,
        line: place.line,
    })?;
    Ok(())
}
