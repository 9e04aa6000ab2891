// The pieces of work of a program, each with the loops round it.

ghost use Rattle.std.specs.Prelude.{◌≡◌, IfOk, OnOk};
ghost use Rattle.std.specs.List.{AllZip};
ghost use Rattle.nest_tree.specs.View.{statement_of, statements_from, tree_of};
ghost use Rattle.nest_walk.specs.Grown.{GrewBy};
ghost use Rattle.nest_rows.specs.Nested.{nested_among, nested_in, nested_works as nested_in_text};
ghost use Rattle.nest_rows.specs.Views.{HasOneMore, IsView, heads_of};

use crate::terms::Around;
use nest_tree::{Item, Program};
use std::alloc::{AllocError, Global};

/// An assignment or a PRINT, and the loops round it from the outermost.
#[derive(Drop)]
pub struct Nested<'a> {
    pub item: &'a Item,
    pub around: Vec<Around<'a>>,
}

/// The pieces of work of a program in text order: the one with number n, from 1, stands at n - 1.
pub fn nested_works(alloc: Global, program: &Program) -> Result<Vec<Nested>, AllocError>
    ensures { IfOk result
        (λ works. AllZip IsView (nested_in_text (tree_of program.now)) works.items) }
{
    let mut works = Vec::new(alloc);
    let mut around = Vec::new(alloc);
    push_works(alloc, &program.items, &mut around, &mut works)?;
    Ok(works)
}

// The pieces of work in these statements, behind those in the list.
#[cycle(works)]
fn push_works<'a>(
    alloc: Global,
    items: &'a [Item],
    around: &mut Vec<Around<'a>>,
    works: &mut Vec<Nested<'a>>,
) -> Result<(), AllocError>
    ensures works { OnOk result
        (GrewBy IsView (nested_among (heads_of around.old.items)
        (statements_from items.now)) works.old.items works.new.items) }
    ensures around { OnOk result (around.new.items ≡ around.old.items) }
{
    for item in items {
        push_item_works(alloc, item, around, works)?;
    }
    Ok(())
}

#[cycle(works)]
fn push_item_works<'a>(
    alloc: Global,
    item: &'a Item,
    around: &mut Vec<Around<'a>>,
    works: &mut Vec<Nested<'a>>,
) -> Result<(), AllocError>
    ensures works { OnOk result
        (GrewBy IsView (nested_in (heads_of around.old.items)
        (statement_of item.now)) works.old.items works.new.items) }
    ensures around { OnOk result (around.new.items ≡ around.old.items) }
{
    match item {
        Item::Loop(nest) => {
            around.push(Around { nest })?;
            push_works(alloc, &nest.items, around, works)?;
            around.pop();
            Ok(())
        }
        Item::Assign(..) | Item::Print(..) => push_work(alloc, item, around.as_slice(), works),
        Item::Continue(_) => Ok(()),
    }
}

// A piece of work, behind those in the list.
fn push_work<'a>(
    alloc: Global,
    item: &'a Item,
    around: &[Around<'a>],
    works: &mut Vec<Nested<'a>>,
) -> Result<(), AllocError>
    ensures { OnOk result (HasOneMore item.now around.now works.old.items works.new.items) }
{
    let around = Vec::from_slice(alloc, around)?;
    works.push(Nested { item, around })?;
    Ok(())
}
