// The marks of loops, by how these are dealt out.

ghost use Rattle.std.specs.Prelude.{◌≡◌, ◌++◌, ◌∷◌, ◌||◌, is_some, OnOk};
ghost use Rattle.nest_tree.specs.View.{statement_of, statements_from};
ghost use Rattle.maker_marks.specs.Marks.{has_free, have_free, inner_in, inner_of, loop_marks, marks_in, marks_of};
ghost use Rattle.maker_marks.specs.Tries.{tried_at};

use crate::tries::{Tried, tried_at};
use nest_tree::Item;
use owner_partition::Mark;
use std::alloc::AllocError;

// Each loop in these statements is Inner.
#[cycle(inner)]
fn push_inner(marks: &mut Vec<Mark>, items: &[Item]) -> Result<(), AllocError>
    ensures { OnOk result (marks.new.items ≡ marks.old.items
        ++ inner_of (statements_from items.now)) }
{
    for item in items {
        push_inner_in(marks, item)?;
    }
    Ok(())
}

#[cycle(inner)]
fn push_inner_in(marks: &mut Vec<Mark>, item: &Item) -> Result<(), AllocError>
    ensures { OnOk result (marks.new.items ≡ marks.old.items ++ inner_in (statement_of item.now)) }
{
    match item {
        Item::Loop(nest) => {
            marks.push(Mark::Inner)?;
            push_inner(marks, &nest.items)
        }
        Item::Assign(..) | Item::Print(..) | Item::Continue(_) => Ok(()),
    }
}

// Whether a loop that may be dealt out stands in these statements.
#[cycle(free)]
fn have_free(tries: &[Option<Tried>], items: &[Item]) -> bool
    ensures { result ≡ have_free (tried_at tries.now) (statements_from items.now) }
{
    for item in items {
        if has_free(tries, item) {
            return true;
        }
    }
    false
}

#[cycle(free)]
fn has_free(tries: &[Option<Tried>], item: &Item) -> bool
    ensures { result ≡ has_free (tried_at tries.now) (statement_of item.now) }
{
    match item {
        Item::Loop(nest) => is_free(tries, nest.number, &nest.items),
        Item::Assign(..) | Item::Print(..) | Item::Continue(_) => false,
    }
}

// Whether the loop with this number and body may be dealt out, or one inside it.
#[cycle(free)]
fn is_free(tries: &[Option<Tried>], number: u32, items: &[Item]) -> bool
    ensures { result ≡ (is_some (tried_at tries.now number)
        || have_free (tried_at tries.now) (statements_from items.now)) }
{
    tried_at(tries, number).is_some() || have_free(tries, items)
}

// The marks of a loop that is a phase, and of the loops in its body.
fn push_closed(marks: &mut Vec<Mark>, mark: Mark, items: &[Item]) -> Result<(), AllocError>
    ensures { OnOk result (marks.new.items ≡ marks.old.items ++ mark
        ∷ inner_of (statements_from items.now)) }
{
    marks.push(mark)?;
    push_inner(marks, items)
}

/// The marks of the loops in these statements, behind the others, where these say how loops may be
/// dealt out, by number from 1.
#[cycle(marks)]
pub(crate) fn push_marks(
    marks: &mut Vec<Mark>,
    tries: &[Option<Tried>],
    items: &[Item],
) -> Result<(), AllocError>
    ensures { OnOk result (marks.new.items ≡ marks.old.items
        ++ marks_of (tried_at tries.now) (statements_from items.now)) }
{
    for item in items {
        push_mark(marks, tries, item)?;
    }
    Ok(())
}

#[cycle(marks)]
fn push_mark(marks: &mut Vec<Mark>, tries: &[Option<Tried>], item: &Item) -> Result<(), AllocError>
    ensures { OnOk result (marks.new.items ≡ marks.old.items
        ++ marks_in (tried_at tries.now) (statement_of item.now)) }
{
    match item {
        Item::Loop(nest) => push_loop(marks, tries, nest.number, &nest.items),
        Item::Assign(..) | Item::Print(..) | Item::Continue(_) => Ok(()),
    }
}

// The marks of the loop with this number and body.
#[cycle(marks)]
fn push_loop(
    marks: &mut Vec<Mark>,
    tries: &[Option<Tried>],
    number: u32,
    items: &[Item],
) -> Result<(), AllocError>
    ensures { OnOk result (marks.new.items ≡ marks.old.items
        ++ loop_marks (tried_at tries.now) number (statements_from items.now)) }
{
    if let Some(tried) = tried_at(tries, number) {
        push_closed(marks, tried.mark(), items)
    } else if have_free(tries, items) {
        marks.push(Mark::Outer)?;
        push_marks(marks, tries, items)
    } else {
        push_closed(marks, Mark::Single, items)
    }
}
