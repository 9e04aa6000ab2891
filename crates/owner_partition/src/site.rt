// Where a phase stands in the text.

ghost use Rattle.std.specs.Prelude.{◌≡◌, ◌+◌, ◌-◌, ◌<◌, ◌^◌, [], ℕ, IsTrue, MatchOption, Some, None, pos, slice_index_or};
ghost use Rattle.nest_tree.specs.View.{statement_of, statements_from, tree_of};
ghost use Rattle.nest_tree.specs.WellFormed.{Scope, are_good_statements, is_good_statement};
ghost use Rattle.nest_model.specs.Instances.{works_in, works_of};
ghost use Rattle.nest_model.specs.Visits.{stops_in, stops_of};
ghost use Rattle.nest_walk.specs.Places.{numbers_of};
ghost use Rattle.nest_walk.specs.RoundsOf.{rounds_of};
ghost use Rattle.nest_walk.specs.Walks.{enters_but};
ghost use Rattle.owner_partition.specs.Marks.{enters_outer};
ghost use Rattle.owner_partition.specs.Sites.{site_among, site_in};

use crate::cut::{Cut, is_closed_at, phases_in};
use nest_tree::{Item, Program};
use nest_walk::{MOST_LOOPS, Path};

// A static phase in the text: its statement, and the number of its first piece of work, from 1.
#[derive(Clone, Copy)]
pub(crate) struct Site<'a> {
    pub(crate) item: &'a Item,
    pub(crate) first: u32,
}

// The static phase with this number, from 1 in text order; the path, on which no loop stands, gets
// the Outer loops round it, with their values by depth.
pub(crate) fn site_of<'a>(
    program: &'a Program,
    cut: &Cut,
    outer: &[i64; MOST_LOOPS],
    number: u32,
    path: &mut Path,
) -> Option<Site<'a>>
    requires bare { rounds_of path.old ≡ [] }
    ensures { MatchOption result (site_among (enters_outer cut.now.marks) outer.now []
        (tree_of program.now).items (number - 1) 1 ≡ None)
        (λ s. site_among (enters_outer cut.now.marks) outer.now [] (tree_of program.now).items
        (number - 1) 1
        ≡ Some
        (record { what = statement_of s.item.now; first = s.first; rounds = rounds_of path.new })) }
{
    let before = number.saturating_sub(1);
    site_among(&program.items, cut.closed(), outer, before, 1, path)
}

// The static phase that is so many places behind the first one of these statements, whose first
// piece of work has this number; the path gets the Outer loops round it, with their values by
// depth.
#[cycle(site)]
fn site_among<'a>(
    items: &'a [Item],
    closed: &[bool],
    outer: &[i64; MOST_LOOPS],
    place: u32,
    first: u32,
    path: &mut Path,
) -> Option<Site<'a>>
    requires good { (scope : Scope) × (number : ℕ)
        × IsTrue (are_good_statements scope (numbers_of (rounds_of path.old)) number
        (statements_from items.now)) }
    requires stops { stops_of (enters_but closed.now) (statements_from items.now) < 2 ^ 32 }
    requires works { first + works_of (statements_from items.now) < 2 ^ 32 }
    ensures { MatchOption result (site_among (enters_but closed.now) outer.now (rounds_of path.old)
        (statements_from items.now) place first ≡ None)
        (λ s. site_among (enters_but closed.now) outer.now (rounds_of path.old)
        (statements_from items.now) place first
        ≡ Some
        (record { what = statement_of s.item.now; first = s.first; rounds = rounds_of path.new })) }
{
    let mut left = place;
    let mut number = first;
    for item in items {
        let phases = phases_in(closed, item);
        if left < phases {
            return site_in(item, closed, outer, left, number, path);
        }
        left -= phases;
        number += phases_in(&[], item); // as many as it has pieces of work
    }
    None
}

#[cycle(site)]
fn site_in<'a>(
    item: &'a Item,
    closed: &[bool],
    outer: &[i64; MOST_LOOPS],
    place: u32,
    first: u32,
    path: &mut Path,
) -> Option<Site<'a>>
    requires good { (scope : Scope) × (number : ℕ)
        × IsTrue (is_good_statement scope (numbers_of (rounds_of path.old)) number
        (statement_of item.now)) }
    requires stops { stops_in (enters_but closed.now) (statement_of item.now) < 2 ^ 32 }
    requires works { first + works_in (statement_of item.now) < 2 ^ 32 }
    ensures { MatchOption result (site_in (enters_but closed.now) outer.now (rounds_of path.old)
        (statement_of item.now) place first ≡ None) (λ s. site_in (enters_but closed.now) outer.now
        (rounds_of path.old) (statement_of item.now) place first
        ≡ Some
        (record { what = statement_of s.item.now; first = s.first; rounds = rounds_of path.new })) }
{
    match item {
        Item::Loop(nest) => {
            if is_closed_at(closed, nest.number) {
                return Some(Site { item, first });
            }
            let value = value_at(outer, path.depth());
            path.push(nest.number, value);
            site_among(&nest.items, closed, outer, place, first, path)
        }
        Item::Assign(..) | Item::Print(..) => Some(Site { item, first }),
        Item::Continue(_) => None,
    }
}

// The value at this depth, from 0.
fn value_at(values: &[i64; MOST_LOOPS], depth: usize) -> i64
    requires { depth < 6 }
    ensures { result ≡ slice_index_or values.now depth (pos 0) }
{
    values[depth]
}
