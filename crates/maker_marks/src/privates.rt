// The private scalars of loops, by how these are dealt out and which each has then.

ghost use Rattle.std.specs.Prelude.{◌≡◌, ◌++◌, IfOk, OnOk};
ghost use Rattle.nest_tree.specs.View.{statement_of, statements_from};
ghost use Rattle.maker_marks.specs.Privates.{loop_privates, none_in, none_of, own_at, privates_in, privates_of};
ghost use Rattle.maker_marks.specs.Tries.{nest_body, tried_at};

use crate::tries::{Tried, tried_at};
use nest_tree::{Item, Listed, Nest};
use owner_partition::Privates;
use std::alloc::{AllocError, Global};

/// By which try each loop is dealt out, by number from 1, and with which private scalars.
#[derive(Clone, Copy)]
pub struct DealtBy<'x> {
    pub tries: &'x [Option<Tried>],
    pub privates: &'x [Privates],
}

impl DealtBy<'_> {
    // The private scalars of the loop with this number; none where the list is shorter.
    fn privates_at(&self, alloc: Global, number: u32) -> Result<Privates, AllocError>
        ensures { IfOk result (λ own. own ≡ own_at self.now.privates.now number) }
    {
        let place = (number as usize).saturating_sub(1);
        if place < self.privates.len() {
            let scalars = self.privates[place].as_slice();
            Ok(Listed::from_vec(Vec::from_slice(alloc, scalars)?))
        } else {
            Ok(Listed::new(alloc))
        }
    }
}

// None of each loop in these statements.
#[cycle(none)]
fn push_none(alloc: Global, lists: &mut Vec<Privates>, items: &[Item]) -> Result<(), AllocError>
    ensures { OnOk result (lists.new.items ≡ lists.old.items
        ++ none_of (statements_from items.now)) }
{
    for item in items {
        push_none_in(alloc, lists, item)?;
    }
    Ok(())
}

#[cycle(none)]
fn push_none_in(alloc: Global, lists: &mut Vec<Privates>, item: &Item) -> Result<(), AllocError>
    ensures { OnOk result (lists.new.items ≡ lists.old.items ++ none_in (statement_of item.now)) }
{
    match item {
        Item::Loop(nest) => {
            lists.push(Listed::new(alloc))?;
            push_none(alloc, lists, &nest.items)
        }
        Item::Assign(..) | Item::Print(..) | Item::Continue(_) => Ok(()),
    }
}

/// The private scalars of the loops in these statements, behind the others, where these say how
/// loops may be dealt out, by number from 1.
#[cycle(privates)]
pub(crate) fn push_privates(
    alloc: Global,
    lists: &mut Vec<Privates>,
    dealt: DealtBy,
    items: &[Item],
) -> Result<(), AllocError>
    ensures { OnOk result (lists.new.items ≡ lists.old.items
        ++ privates_of (tried_at dealt.entry.tries.now) (own_at dealt.entry.privates.now)
        (statements_from items.now)) }
{
    for item in items {
        push_privates_in(alloc, lists, dealt, item)?;
    }
    Ok(())
}

#[cycle(privates)]
fn push_privates_in(
    alloc: Global,
    lists: &mut Vec<Privates>,
    dealt: DealtBy,
    item: &Item,
) -> Result<(), AllocError>
    ensures { OnOk result (lists.new.items ≡ lists.old.items
        ++ privates_in (tried_at dealt.entry.tries.now) (own_at dealt.entry.privates.now)
        (statement_of item.now)) }
{
    match item {
        Item::Loop(nest) => push_loop_privates(alloc, lists, dealt, nest),
        Item::Assign(..) | Item::Print(..) | Item::Continue(_) => Ok(()),
    }
}

// Those of a loop, and of the loops in its body.
#[cycle(privates)]
fn push_loop_privates(
    alloc: Global,
    lists: &mut Vec<Privates>,
    dealt: DealtBy,
    nest: &Nest,
) -> Result<(), AllocError>
    ensures { OnOk result (lists.new.items ≡ lists.old.items
        ++ loop_privates (tried_at dealt.entry.tries.now) (own_at dealt.entry.privates.now)
        nest.now.number (nest_body nest.now)) }
{
    if tried_at(dealt.tries, nest.number).is_some() {
        lists.push(dealt.privates_at(alloc, nest.number)?)?;
        push_none(alloc, lists, &nest.items)
    } else {
        lists.push(Listed::new(alloc))?;
        push_privates(alloc, lists, dealt, &nest.items)
    }
}
