// What the anchors of phases and of kinds may name.

ghost use Rattle.std.specs.Prelude.{◌≡◌, ◌==◌, ◌<◌, ◌^◌, List, ℕ, length};
ghost use Rattle.std.specs.List.{list_all, list_any};
ghost use Rattle.nest_tree.specs.View.{statement_of, tree_of};
ghost use Rattle.nest_tree.specs.WellFormed.{is_number_of, names_only};
ghost use Rattle.owner_partition.specs.StaticPhases.{loops_round};
ghost use Rattle.sync_plan.specs.Shape.{are_good_anchors, are_good_kinds, is_good_anchor, is_good_kind, own_loops, static_phases};
ghost use Rattle.plan_shape.specs.Named.{with_own};

use nest_tree::{Affine, Item, Program};
use owner_partition::{Anchor, Cut, StaticPhase};
use sync_plan::Kind;

/// Whether the anchors of the static phases name only what they may, and have blocks of a length.
pub(crate) fn are_good_anchors(program: &Program, cut: &Cut, anchors: &[Anchor]) -> bool
    requires few { length anchors.now < 2 ^ 32 }
    ensures { result ≡ are_good_anchors (length (tree_of program.now).params) cut.now.marks
        (static_phases (tree_of program.now) cut.now.marks) anchors.now }
{
    let constants = constant_count(program);
    for (place, anchor) in anchors.iter().enumerate() {
        let Some(phase) = StaticPhase::at(program, cut, place as u32 + 1) else {
            return true;
        };
        let own = own_loop(cut, phase.item);
        if !is_good_anchor(constants, &phase, own, anchor) {
            return false;
        }
    }
    true
}

/// The same of the kinds in front of the static phases.
pub(crate) fn are_good_kinds(program: &Program, cut: &Cut, kinds: &[Kind]) -> bool
    requires few { length kinds.now < 2 ^ 32 }
    ensures { result ≡ are_good_kinds (length (tree_of program.now).params)
        (static_phases (tree_of program.now) cut.now.marks) kinds.now }
{
    let constants = constant_count(program);
    for (place, kind) in kinds.iter().enumerate() {
        let Some(phase) = StaticPhase::at(program, cut, place as u32 + 1) else {
            return true;
        };
        if !is_good_kind(constants, &phase, kind) {
            return false;
        }
    }
    true
}

/// How many named constants there are.
pub(crate) fn constant_count(program: &Program) -> usize
    ensures { result ≡ length (tree_of program.now).params }
{
    program.params.as_slice().len()
}

/// The number of the loop that a static phase is, where the phase's anchor may name it: its trips
/// are dealt.
pub fn own_loop(cut: &Cut, item: &Item) -> Option<u32>
    ensures { (around : List ℕ) → own_loops cut.now.marks (statement_of item.now) around
        ≡ with_own result around }
{
    match item {
        Item::Loop(nest) if cut.is_doall(nest.number) => Some(nest.number),
        Item::Loop(_) | Item::Assign(..) | Item::Print(..) | Item::Continue(_) => None,
    }
}

fn is_good_kind(constants: usize, phase: &StaticPhase, kind: &Kind) -> bool
    ensures { result ≡ is_good_kind constants (loops_round phase.now) kind.now }
{
    match kind.anchor() {
        Some(anchor) => is_good_anchor(constants, phase, None, anchor),
        None => true,
    }
}

/// Whether an anchor names only loops round the phase, or this one, and named constants of which
/// there are so many, and has a block of 1 to 2147483647 places.
pub fn is_good_anchor(
    constants: usize,
    phase: &StaticPhase,
    own: Option<u32>,
    anchor: &Anchor,
) -> bool
    ensures { result ≡ is_good_anchor constants (with_own own (loops_round phase.now)) anchor.now }
{
    names_only(constants, phase, own, &anchor.form) && anchor.dist.has_places()
}

fn names_only(constants: usize, phase: &StaticPhase, own: Option<u32>, form: &Affine) -> bool
    ensures { result ≡ names_only constants (with_own own (loops_round phase.now)) form.now }
{
    are_named(phase, own, form.loops()) && are_numbers_of(constants, form.params())
}

// Whether these pairs name only loops round the phase, or this one.
fn are_named(phase: &StaticPhase, own: Option<u32>, pairs: &[(u32, i64)]) -> bool
    ensures { result
        ≡ list_all
        (λ p. list_any (λ l. l == p.0) (with_own own (loops_round phase.now))) pairs.now }
{
    for &(number, _) in pairs {
        if !is_named(phase, own, number) {
            return false;
        }
    }
    true
}

fn is_named(phase: &StaticPhase, own: Option<u32>, number: u32) -> bool
    ensures { result ≡ list_any (λ l. l == number) (with_own own (loops_round phase.now)) }
{
    match own {
        Some(loop_number) => loop_number == number || phase.is_round(number),
        None => phase.is_round(number),
    }
}

/// Whether these pairs name only things of which there are so many.
pub(crate) fn are_numbers_of(count: usize, pairs: &[(u32, i64)]) -> bool
    ensures { result ≡ list_all (λ p. is_number_of count p.0) pairs.now }
{
    for &(number, _) in pairs {
        if number < 1 || number as usize > count {
            return false;
        }
    }
    true
}
