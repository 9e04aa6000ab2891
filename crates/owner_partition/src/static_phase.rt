// Static phases in the text.

ghost use Rattle.std.specs.Prelude.{◌≡◌, ◌==◌, ◌-◌, ◌<◌, ◌^◌, ℕ, IsTrue, MatchOption, None, Some, length, slice_get};
ghost use Rattle.std.specs.List.{list_any};
ghost use Rattle.nest_tree.specs.View.{statement_of, statements_from, tree_of};
ghost use Rattle.nest_tree.specs.WellFormed.{Scope, are_good_statements, is_good_statement};
ghost use Rattle.nest_model.specs.Visits.{stops_in, stops_of};
ghost use Rattle.nest_walk.specs.Texts.{placed, placed_in, placed_of};
ghost use Rattle.nest_walk.specs.Walks.{enters_but};
ghost use Rattle.nest_rows.specs.declared.terms.Around.{Around};
ghost use Rattle.owner_partition.specs.Marks.{enters_outer};
ghost use Rattle.owner_partition.specs.StaticPhases.{loops_of, loops_round, numbers_round};

use crate::cut::{Cut, is_closed_at, phase_count, phases_in};
use crate::outer_loops::OuterLoops;
use nest_rows::Around;
use nest_tree::{Item, Program};

/// A static phase: a loop that isn't Outer, or an assignment or PRINT, outside all such loops; and
/// the Outer loops round it.
#[derive(Clone, Copy)]
pub struct StaticPhase<'a> {
    pub item: &'a Item,
    pub outer: OuterLoops<'a>,
}

impl<'a> StaticPhase<'a> {
    /// The one with this number, from 1 in text order; none where there is no such phase. It takes
    /// no memory, and goes down the text once.
    pub fn at(program: &'a Program, cut: &Cut, number: u32) -> Option<Self>
        ensures { MatchOption result
            (slice_get (placed (tree_of program.now) (enters_outer cut.now.marks)) (number - 1)
            ≡ None) (λ s. slice_get (placed (tree_of program.now) (enters_outer cut.now.marks))
            (number - 1)
            ≡ Some (record { what = statement_of s.item.now; around = loops_round s })) }
    {
        let place = number.saturating_sub(1);
        phase_among(&program.items, cut.closed(), OuterLoops::new(), place)
    }

    /// How many there are.
    pub fn count(program: &Program, cut: &Cut) -> u32
        ensures { result ≡ length (placed (tree_of program.now) (enters_outer cut.now.marks)) }
    {
        phase_count(cut.closed(), &program.items)
    }

    /// Whether the loop with this number is an Outer loop round it.
    pub fn is_round(&self, number: u32) -> bool
        ensures { result ≡ list_any (λ l. l == number) (loops_round self.now) }
    {
        has_loop(self.outer.as_slice(), number)
    }
}

// Whether the loop with this number is one of these.
fn has_loop(around: &[Around], number: u32) -> bool
    ensures { result ≡ list_any (λ (a : Around). a.nest.now.number == number) around.now }
{
    around.iter().any(|one| one.nest.number == number)
}

// The static phase that is so many places behind the first one of these statements.
#[cycle(phase)]
fn phase_among<'a>(
    items: &'a [Item],
    closed: &[bool],
    outer: OuterLoops<'a>,
    place: u32,
) -> Option<StaticPhase<'a>>
    requires good { (scope : Scope) × (number : ℕ)
        × IsTrue (are_good_statements scope (numbers_round (loops_of outer)) number
        (statements_from items.now)) }
    requires stops { stops_of (enters_but closed.now) (statements_from items.now) < 2 ^ 32 }
    ensures { MatchOption result
        (slice_get (placed_of (enters_but closed.now) (numbers_round (loops_of outer.entry))
        (statements_from items.now)) place ≡ None)
        (λ s. slice_get (placed_of (enters_but closed.now) (numbers_round (loops_of outer.entry))
        (statements_from items.now)) place
        ≡ Some (record { what = statement_of s.item.now; around = loops_round s })) }
{
    let mut left = place;
    for item in items {
        let phases = phases_in(closed, item);
        if left < phases {
            return phase_in(item, closed, outer, left);
        }
        left -= phases;
    }
    None
}

#[cycle(phase)]
fn phase_in<'a>(
    item: &'a Item,
    closed: &[bool],
    outer: OuterLoops<'a>,
    place: u32,
) -> Option<StaticPhase<'a>>
    requires good { (scope : Scope) × (number : ℕ)
        × IsTrue (is_good_statement scope (numbers_round (loops_of outer)) number
        (statement_of item.now)) }
    requires stops { stops_in (enters_but closed.now) (statement_of item.now) < 2 ^ 32 }
    requires place { place < stops_in (enters_but closed.now) (statement_of item.now) }
    ensures { MatchOption result
        (slice_get (placed_in (enters_but closed.now) (numbers_round (loops_of outer.entry))
        (statement_of item.now)) place ≡ None)
        (λ s. slice_get (placed_in (enters_but closed.now) (numbers_round (loops_of outer.entry))
        (statement_of item.now)) place
        ≡ Some (record { what = statement_of s.item.now; around = loops_round s })) }
{
    match item {
        Item::Loop(nest) => {
            if is_closed_at(closed, nest.number) {
                Some(StaticPhase { item, outer })
            } else {
                phase_among(&nest.items, closed, outer.with_inner(nest), place)
            }
        }
        Item::Assign(..) | Item::Print(..) => Some(StaticPhase { item, outer }),
        Item::Continue(_) => None,
    }
}
