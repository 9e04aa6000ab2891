// Which marks a program's loops may have.

ghost use Rattle.std.specs.Prelude.{◌≡◌, ◌||◌};
ghost use Rattle.nest_tree.specs.View.{statement_of, statements_from};
ghost use Rattle.owner_partition.specs.Marks.{is_closed};
ghost use Rattle.sync_plan.specs.Shape.{are_marked_well, fits_mark, is_marked_well};

use nest_tree::Item;
use owner_partition::{Cut, Mark};

// Whether a loop may have this mark, inside a phase or not.
fn fits_mark(inside: bool, mark: Mark) -> bool
    ensures { result ≡ fits_mark inside mark }
{
    match mark {
        Mark::Outer | Mark::Doall | Mark::Sum | Mark::Single => !inside,
        Mark::Inner => inside,
    }
}

// Whether the body of a loop with this mark stands inside a phase.
fn is_in_phase(inside: bool, mark: Mark) -> bool
    ensures { result ≡ (inside || is_closed mark) }
{
    inside || mark.is_closed()
}

/// Whether each loop in these statements has a mark that it may have, where they stand inside a
/// phase or not.
#[cycle(marked)]
pub(crate) fn are_marked_well(cut: &Cut, inside: bool, items: &[Item]) -> bool
    ensures { result ≡ are_marked_well cut.now.marks inside (statements_from items.now) }
{
    for item in items {
        if !is_marked_well(cut, inside, item) {
            return false;
        }
    }
    true
}

#[cycle(marked)]
fn is_marked_well(cut: &Cut, inside: bool, item: &Item) -> bool
    ensures { result ≡ is_marked_well cut.now.marks inside (statement_of item.now) }
{
    match item {
        Item::Loop(nest) => {
            let mark = cut.mark(nest.number);
            fits_mark(inside, mark) && are_marked_well(cut, is_in_phase(inside, mark), &nest.items)
        }
        Item::Assign(..) | Item::Print(..) | Item::Continue(_) => true,
    }
}
