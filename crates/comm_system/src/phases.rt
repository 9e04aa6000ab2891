// The static phases of a program.

ghost use Rattle.std.specs.Prelude.{◌≡◌, ◌<◌, ◌++◌, ℕ, List, [], ◌∷◌, IfOk, IsTrue, OnOk, length, map};
ghost use Rattle.nest_tree.specs.View.{statement_of, statements_from, tree_of};
ghost use Rattle.nest_tree.specs.WellFormed.{Scope, are_good_statements, is_good_statement};
ghost use Rattle.nest_walk.specs.Walks.{enters_but};
ghost use Rattle.nest_rows.specs.Views.{heads_of};
ghost use Rattle.conflict_rules.specs.References.{phases_among, phases_in, phases_of};
ghost use Rattle.conflict_rules.specs.SmallSteps.{are_small_steps, has_small_steps, have_small_steps};
ghost use Rattle.comm_system.specs.PhaseViews.{phase_seen};
ghost use Rattle.conflict_rules.specs.StaticViews.{static_phase_seen};
ghost use Rattle.owner_partition.specs.StaticPhases.{loops_of};

use crate::phase::Phase;
use crate::references::push_references;
use nest_tree::{Item, Program};
use owner_partition::{Cut, OuterLoops, StaticPhase, is_closed_at};
use std::alloc::{AllocError, Global};

/// The static phases of a program, in text order: the one with number u, from 1, stands at u - 1.
pub fn phases<'a>(
    alloc: Global,
    program: &'a Program,
    cut: &Cut,
) -> Result<Vec<Phase<'a>>, AllocError>
    ensures phases { IfOk result (λ found. map phase_seen found.items
        ≡ phases_of (tree_of program.now) cut.now.marks) }
    ensures few { IfOk result (λ found. length found.items < 400) }
{
    let outer = OuterLoops::new();
    let mut found = Vec::new(alloc);
    push_all_phases(alloc, &program.items, cut.closed(), outer, &mut found)?;
    Ok(found)
}

// The static phases in these statements, behind those in the list.
#[cycle(phases)]
fn push_all_phases<'a>(
    alloc: Global,
    items: &'a [Item],
    closed: &[bool],
    outer: OuterLoops<'a>,
    found: &mut Vec<Phase<'a>>,
) -> Result<(), AllocError>
    requires good { (scope : Scope) × (around : List ℕ) × (number : ℕ)
        × (length around ≡ length (loops_of outer))
        × IsTrue (are_good_statements scope around number (statements_from items.now)) }
    requires outer { IsTrue (are_small_steps (heads_of (loops_of outer))) }
    requires steps { IsTrue (have_small_steps (statements_from items.now)) }
    ensures { OnOk result (map phase_seen found.new.items ≡ map phase_seen found.old.items
        ++ phases_among (enters_but closed.now) (heads_of (loops_of outer.entry))
        (statements_from items.now)) }
{
    for item in items {
        push_phases(alloc, item, closed, outer, found)?;
    }
    Ok(())
}

#[cycle(phases)]
fn push_phases<'a>(
    alloc: Global,
    item: &'a Item,
    closed: &[bool],
    outer: OuterLoops<'a>,
    found: &mut Vec<Phase<'a>>,
) -> Result<(), AllocError>
    requires good { (scope : Scope) × (around : List ℕ) × (number : ℕ)
        × (length around ≡ length (loops_of outer))
        × IsTrue (is_good_statement scope around number (statement_of item.now)) }
    requires outer { IsTrue (are_small_steps (heads_of (loops_of outer))) }
    requires steps { IsTrue (has_small_steps (statement_of item.now)) }
    ensures { OnOk result (map phase_seen found.new.items ≡ map phase_seen found.old.items
        ++ phases_in (enters_but closed.now) (heads_of (loops_of outer.entry))
        (statement_of item.now)) }
{
    match item {
        Item::Loop(nest) => {
            if is_closed_at(closed, nest.number) {
                push_phase(alloc, StaticPhase { item, outer }, found)
            } else {
                push_all_phases(alloc, &nest.items, closed, outer.with_inner(nest), found)
            }
        }
        Item::Assign(..) | Item::Print(..) => {
            push_phase(alloc, StaticPhase { item, outer }, found)
        }
        Item::Continue(_) => Ok(()),
    }
}

// One phase more.
fn push_phase<'a>(
    alloc: Global,
    text: StaticPhase<'a>,
    found: &mut Vec<Phase<'a>>,
) -> Result<(), AllocError>
    requires outer { IsTrue (are_small_steps (heads_of (loops_of text.outer))) }
    requires steps { IsTrue (has_small_steps (statement_of text.item.now)) }
    ensures { OnOk result (map phase_seen found.new.items ≡ map phase_seen found.old.items
        ++ static_phase_seen text.entry ∷ []) }
{
    let mut around = Vec::from_slice(alloc, text.outer.as_slice())?;
    let mut references = Vec::new(alloc);
    push_references(alloc, text.item, &mut around, &mut references)?;
    found.push(Phase { text, references })?;
    Ok(())
}
