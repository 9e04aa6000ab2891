// How many stops and pieces of work stand in the text.

ghost use Rattle.std.specs.Prelude.{◌≡◌, ◌-◌, ◌<◌, ◌^◌, slice_index_or, false};
ghost use Rattle.nest_tree.specs.View.{statement_of, statements_from};
ghost use Rattle.nest_model.specs.Instances.{works_in, works_of};
ghost use Rattle.nest_model.specs.Visits.{stops_in, stops_of};
ghost use Rattle.nest_walk.specs.Walks.{enters_but};

use nest_tree::Item;

// Whether a walk with these marks stops at the loop with this number.
pub(crate) fn is_marked(marks: &[bool], number: u32) -> bool
    ensures { result ≡ slice_index_or marks.now (number - 1) false }
{
    let place = (number as usize).saturating_sub(1);
    place < marks.len() && marks[place]
}

// How many stops of a walk with these marks stand in these statements.
#[cycle(stops)]
pub(crate) fn stop_count(marks: &[bool], items: &[Item]) -> u32
    requires { stops_of (enters_but marks.now) (statements_from items.now) < 2 ^ 32 }
    ensures { result ≡ stops_of (enters_but marks.now) (statements_from items.now) }
{
    let mut count = 0;
    for item in items {
        count += stops_in_item(marks, item);
    }
    count
}

#[cycle(stops)]
fn stops_in_item(marks: &[bool], item: &Item) -> u32
    requires { stops_in (enters_but marks.now) (statement_of item.now) < 2 ^ 32 }
    ensures { result ≡ stops_in (enters_but marks.now) (statement_of item.now) }
{
    match item {
        Item::Loop(nest) => {
            if is_marked(marks, nest.number) {
                1
            } else {
                stop_count(marks, &nest.items)
            }
        }
        Item::Continue(_) => 0,
        Item::Assign(..) | Item::Print(..) => 1,
    }
}

// How many pieces of work stand in these statements.
#[cycle(works)]
pub(crate) fn work_count(items: &[Item]) -> u32
    requires { works_of (statements_from items.now) < 2 ^ 32 }
    ensures { result ≡ works_of (statements_from items.now) }
{
    let mut count = 0;
    for item in items {
        count += works_in_item(item);
    }
    count
}

#[cycle(works)]
pub(crate) fn works_in_item(item: &Item) -> u32
    requires { works_in (statement_of item.now) < 2 ^ 32 }
    ensures { result ≡ works_in (statement_of item.now) }
{
    match item {
        Item::Loop(nest) => work_count(&nest.items),
        Item::Continue(_) => 0,
        Item::Assign(..) | Item::Print(..) => 1,
    }
}
