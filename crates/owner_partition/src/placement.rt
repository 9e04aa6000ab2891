// Whether each block anchor keeps within its blocks.

ghost use Rattle.std.specs.Prelude.{◌≡◌, ◌-◌, ◌<◌, ◌^◌, IsTrue, Some, None, ◌∷◌, [], if◌then◌else◌, length, map};
ghost use Rattle.std.specs.List.{list_all};
ghost use Rattle.std.specs.Result.{result_err};
ghost use Rattle.nest_tree.specs.Form.{is_given, reach_within, rises_above};
ghost use Rattle.nest_tree.specs.Given.{are_all_given, are_given, is_all_given};
ghost use Rattle.nest_tree.specs.Intervals.{head_interval};
ghost use Rattle.nest_tree.specs.Limits.{no_ends, wide_forms, wide_in, wide_of};
ghost use Rattle.nest_tree.specs.View.{head_of, loop_of, statement_of, statements_from, tree_of};
ghost use Rattle.nest_tree.specs.WellFormed.{loops_of};
ghost use Rattle.nest_model.specs.Visits.{stops_in, stops_of};
ghost use Rattle.nest_walk.specs.Walks.{enters_but};
ghost use Rattle.owner_partition.specs.Owners.{reaches};
ghost use Rattle.owner_partition.specs.Placement.{ends_among, ends_in, is_anchor_given, misplaced, misplaced_within, names_empty, unplaced};

use crate::anchor::{Anchor, Dist};
use crate::cut::{Cut, is_closed_at, phases_in};
use nest_tree::{Item, Nest, Parameter, Program};

/// A block anchor that leaves its blocks: the static phase that it stands at, numbered from 1 in
/// text order, and the interval of its form.
#[derive(Clone, Copy, Debug, PartialEq, Eq)]
pub struct Placement {
    pub phase: u32,
    pub low: i128,
    pub high: i128,
}

// No program has so many loops.
const MOST_STATEMENTS: usize = 400;

/// The first of these anchors, each with the number of its static phase, that is a block anchor
/// and whose interval isn't within 0 to the block's length times the workers, less 1. An anchor
/// passes where an Outer loop of its phase is empty, and where a loop that its form names is. It
/// takes no memory.
pub fn check_placement(
    program: &Program,
    cut: &Cut,
    anchors: &[(u32, Anchor)],
    workers: u32,
) -> Result<(), Placement>
    requires given { IsTrue (list_all (is_anchor_given (tree_of program.now)) anchors.now) }
    ensures { result_err result ≡ unplaced (tree_of program.now) cut.now.marks workers anchors.now }
{
    for (phase, anchor) in anchors {
        check_anchor(program, cut, *phase, anchor, workers)?;
    }
    Ok(())
}

/// Whether the anchor of this static phase, numbered from 1 in text order, passes: the refusal is
/// that of [`check_placement`] where the anchor stands alone in the list. It takes no memory.
pub fn check_anchor(
    program: &Program,
    cut: &Cut,
    phase: u32,
    anchor: &Anchor,
    workers: u32,
) -> Result<(), Placement>
    requires given { IsTrue (is_given anchor.now.form (loops_of (tree_of program.now).items)
        (length (tree_of program.now).params)) }
    ensures { result_err result
        ≡ misplaced (tree_of program.now) cut.now.marks workers phase anchor.now }
{
    let mut ends = [(0, 0); MOST_STATEMENTS];
    check_from(program, cut, &mut ends, phase, anchor, workers)
}

// Whether it passes, where no loop has an interval yet.
fn check_from(
    program: &Program,
    cut: &Cut,
    ends: &mut [(i64, i64)],
    phase: u32,
    anchor: &Anchor,
    workers: u32,
) -> Result<(), Placement>
    requires given { IsTrue (is_given anchor.now.form (loops_of (tree_of program.now).items)
        (length (tree_of program.now).params)) }
    requires ends { ends.old ≡ no_ends }
    ensures { result_err result
        ≡ misplaced (tree_of program.now) cut.now.marks workers phase anchor.now }
{
    let place = phase.saturating_sub(1);
    if seek(&program.items, cut.closed(), ends, &program.params, place) {
        check_interval(ends, &program.params, phase, anchor, workers)
    } else {
        Ok(())
    }
}

// Whether there is such a static phase, counted from 0, with no empty Outer loop round it; `ends`
// gets the intervals of the loops there.
#[cycle(seek)]
fn seek(
    items: &[Item],
    closed: &[bool],
    ends: &mut [(i64, i64)],
    constants: &[Parameter],
    place: u32,
) -> bool
    requires given { IsTrue (are_all_given (length ends.old) (length constants.now)
        (statements_from items.now)) }
    requires narrow { wide_of (map (λ p. p.value) constants.now) ends.old
        (statements_from items.now) ≡ None }
    requires counted { stops_of (enters_but closed.now) (statements_from items.now) < 2 ^ 32 }
    ensures ends { ends_among (map (λ p. p.value) constants.now) (enters_but closed.now) ends.old
        (statements_from items.now) place ≡ (if result then Some ends.new else None) }
    ensures long { length ends.new ≡ length ends.old }
{
    let mut left = place;
    for item in items {
        let phases = phases_in(closed, item);
        if left < phases {
            return seek_in(item, closed, ends, constants, left);
        }
        left -= phases;
    }
    false
}

#[cycle(seek)]
fn seek_in(
    item: &Item,
    closed: &[bool],
    ends: &mut [(i64, i64)],
    constants: &[Parameter],
    place: u32,
) -> bool
    requires given { IsTrue (is_all_given (length ends.old) (length constants.now)
        (statement_of item.now)) }
    requires narrow { wide_in (map (λ p. p.value) constants.now) ends.old (statement_of item.now)
        ≡ None }
    requires counted { stops_in (enters_but closed.now) (statement_of item.now) < 2 ^ 32 }
    ensures ends { ends_in (map (λ p. p.value) constants.now) (enters_but closed.now) ends.old
        (statement_of item.now) place ≡ (if result then Some ends.new else None) }
    ensures long { length ends.new ≡ length ends.old }
{
    match item {
        Item::Loop(nest) => seek_inside(nest, closed, ends, constants, place),
        Item::Assign(..) | Item::Print(..) => true,
        Item::Continue(_) => false,
    }
}

#[cycle(seek)]
fn seek_inside(
    nest: &Nest,
    closed: &[bool],
    ends: &mut [(i64, i64)],
    constants: &[Parameter],
    place: u32,
) -> bool
    requires given { IsTrue (is_all_given (length ends.old) (length constants.now)
        (loop_of nest.now)) }
    requires narrow { wide_in (map (λ p. p.value) constants.now) ends.old (loop_of nest.now)
        ≡ None }
    requires counted { stops_in (enters_but closed.now) (loop_of nest.now) < 2 ^ 32 }
    ensures ends { ends_in (map (λ p. p.value) constants.now) (enters_but closed.now) ends.old
        (loop_of nest.now) place ≡ (if result then Some ends.new else None) }
    ensures long { length ends.new ≡ length ends.old }
{
    let interval = narrow_interval(nest, ends, constants);
    if is_closed_at(closed, nest.number) {
        ends[nest.number as usize - 1] = interval;
        return true; // the loop of the phase
    }
    if interval.0 > interval.1 {
        return false;
    }
    ends[nest.number as usize - 1] = interval;
    seek(&nest.items, closed, ends, constants, place)
}

// The interval of a loop whose bounds have small ones.
fn narrow_interval(nest: &Nest, ends: &[(i64, i64)], constants: &[Parameter]) -> (i64, i64)
    requires given { IsTrue (are_given (length ends.now) (length constants.now)
        ((head_of nest.now).m1 ∷ (head_of nest.now).m2 ∷ [])) }
    requires narrow { wide_forms (map (λ p. p.value) constants.now) ends.now ((head_of nest.now).m1
        ∷ (head_of nest.now).m2 ∷ []) ≡ None }
    ensures { result ≡ head_interval (map (λ p. p.value) constants.now) ends.now
        (head_of nest.now) }
{
    match nest.interval(ends, constants) {
        Ok(interval) => interval,
        Err(_) => unreachable!(),
    }
}

// Whether the anchor of this static phase passes, where the loops have these intervals.
fn check_interval(
    ends: &[(i64, i64)],
    constants: &[Parameter],
    phase: u32,
    anchor: &Anchor,
    workers: u32,
) -> Result<(), Placement>
    requires { IsTrue (is_given anchor.now.form (length ends.now) (length constants.now)) }
    ensures { result_err result
        ≡ misplaced_within (map (λ p. p.value) constants.now) workers phase anchor.now ends.now }
{
    if names_empty(anchor.form.loops(), ends) {
        return Ok(());
    }
    let (low, high) = anchor.form.interval_among(ends, constants);
    if reaches(anchor.dist, workers, low, high) {
        Ok(())
    } else {
        Err(Placement { phase, low, high })
    }
}

// Whether one of the loops that these pairs name is empty.
fn names_empty(pairs: &[(u32, i64)], ends: &[(i64, i64)]) -> bool
    requires rising { IsTrue (rises_above 0 pairs.now) }
    requires given { IsTrue (reach_within (length ends.now) pairs.now) }
    ensures { result ≡ names_empty ends.now pairs.now }
{
    for &(number, _) in pairs {
        let (low, high) = ends[number as usize - 1];
        if low > high {
            return true;
        }
    }
    false
}

// Whether an interval lies within the blocks of so many workers.
fn reaches(dist: Dist, workers: u32, low: i128, high: i128) -> bool
    ensures { result ≡ reaches dist workers (low, high) }
{
    match dist {
        Dist::Block(length) => low >= 0 && high < i128::from(length) * i128::from(workers),
        Dist::Cyclic => true,
    }
}
