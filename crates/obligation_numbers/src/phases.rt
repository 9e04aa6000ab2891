// Sums over the static phases of a program.

ghost use Rattle.std.specs.Prelude.{◌≡◌, ◌+◌, ◌-◌, ◌<◌, ◌≤◌, ◌^◌, ℕ, List, IsTrue, length};
ghost use Rattle.std.specs.Io.Iter.{u64_saturate};
ghost use Rattle.nest_tree.specs.View.{statement_of, statements_from, tree_of};
ghost use Rattle.nest_tree.specs.WellFormed.{Scope, are_good_statements, is_good_statement, statement_count, statements_in};
ghost use Rattle.nest_model.specs.Visits.{stops_in, stops_of};
ghost use Rattle.nest_rows.specs.Views.{heads_of};
ghost use Rattle.nest_walk.specs.Walks.{enters_but};
ghost use Rattle.comm_system.specs.References.{StaticPhase as PhaseSeen, phases_among, phases_in, phases_of};
ghost use Rattle.comm_system.specs.StaticViews.{static_phase_seen};
ghost use Rattle.owner_partition.specs.StaticPhases.{loops_of};
ghost use Rattle.obligation_numbers.specs.Sums.{sum_from};

use nest_tree::{Item, Program};
use owner_partition::{Cut, OuterLoops, StaticPhase, is_closed_at};

// What a static phase weighs, by its number, from 1.
pub(crate) trait PhaseWeight {
    ghost weight: { Self → ℕ → PhaseSeen → ℕ };

    // Past 64 bits the greatest number.
    fn weigh(&self, number: u32, phase: &StaticPhase) -> u64
        ensures { result ≡ u64_saturate (weight self.now number (static_phase_seen phase.now)) };
}

// What the phases so far weigh, and the number of the next one.
#[derive(Drop)]
struct Sum {
    next: u32,
    total: u64,
}

// What the static phases of a program weigh; past 64 bits the greatest number.
pub(crate) fn phases_weight<W: PhaseWeight>(weight: &W, program: &Program, cut: &Cut) -> u64
    ensures { result
        ≡ u64_saturate
        (sum_from (W.weight weight.now) 1 (phases_of (tree_of program.now) cut.now.marks)) }
{
    let mut sum = Sum { next: 1, total: 0 };
    add_all(
        weight,
        cut.closed(),
        OuterLoops::new(),
        &program.items,
        &mut sum,
    );
    sum.total
}

// Those in these statements, behind the others.
#[cycle(phases)]
fn add_all<'a, W: PhaseWeight>(
    weight: &W,
    closed: &[bool],
    outer: OuterLoops<'a>,
    items: &'a [Item],
    sum: &mut Sum,
)
    requires good { (scope : Scope) × (around : List ℕ) × (number : ℕ)
        × (length around ≡ length (loops_of outer))
        × IsTrue (are_good_statements scope around number (statements_from items.now)) }
    requires few { sum.old.next + statement_count (statements_from items.now) < 2 ^ 32 }
    requires fits { sum.old.total < 2 ^ 64 }
    ensures next { sum.new.next ≡ sum.old.next + stops_of (enters_but closed.now)
        (statements_from items.now) }
    ensures few { sum.new.next ≤ sum.old.next + statement_count (statements_from items.now) }
    ensures total { sum.new.total
        ≡ u64_saturate (sum.old.total + sum_from (W.weight weight.now) sum.old.next
        (phases_among (enters_but closed.now) (heads_of (loops_of outer.entry))
        (statements_from items.now))) }
{
    for item in items {
        add_in(weight, closed, outer, item, sum);
    }
}

#[cycle(phases)]
fn add_in<'a, W: PhaseWeight>(
    weight: &W,
    closed: &[bool],
    outer: OuterLoops<'a>,
    item: &'a Item,
    sum: &mut Sum,
)
    requires good { (scope : Scope) × (around : List ℕ) × (number : ℕ)
        × (length around ≡ length (loops_of outer))
        × IsTrue (is_good_statement scope around number (statement_of item.now)) }
    requires few { sum.old.next + statements_in (statement_of item.now) < 2 ^ 32 }
    requires fits { sum.old.total < 2 ^ 64 }
    ensures next { sum.new.next ≡ sum.old.next + stops_in (enters_but closed.now)
        (statement_of item.now) }
    ensures few { sum.new.next ≤ sum.old.next + statements_in (statement_of item.now) }
    ensures total { sum.new.total
        ≡ u64_saturate (sum.old.total + sum_from (W.weight weight.now) sum.old.next
        (phases_in (enters_but closed.now) (heads_of (loops_of outer.entry))
        (statement_of item.now))) }
{
    match item {
        Item::Loop(nest) => {
            if is_closed_at(closed, nest.number) {
                add_phase(weight, &StaticPhase { item, outer }, sum);
            } else {
                add_all(weight, closed, outer.with_inner(nest), &nest.items, sum);
            }
        }
        Item::Assign(..) | Item::Print(..) => {
            add_phase(weight, &StaticPhase { item, outer }, sum);
        }
        Item::Continue(_) => {}
    }
}

// One phase more.
fn add_phase<W: PhaseWeight>(weight: &W, phase: &StaticPhase, sum: &mut Sum)
    requires { sum.old.next + 1 < 2 ^ 32 }
    ensures next { sum.new.next ≡ sum.old.next + 1 }
    ensures total { sum.new.total
        ≡ u64_saturate (sum.old.total + W.weight weight.now sum.old.next
        (static_phase_seen phase.now)) }
{
    sum.total = sum.total.saturating_add(weight.weigh(sum.next, phase));
    sum.next += 1;
}
