// The instances of a phase that a processor owns.

ghost use Rattle.std.specs.Prelude.{[], ◌≡◌, ◌==◌, ◌+◌, ◌-◌, ◌*◌, ◌^◌, ◌<◌, ◌≤◌, ℕ, ℤ, pos, ◌+ℤ◌, ◌-ℤ◌, ◌*ℤ◌, ◌≤ℤ◌, IsTrue, length, map, unsigned_abs};
ghost use Rattle.nest_tree.specs.Form.{IsForm, form_value, is_small, reach_within};
ghost use Rattle.nest_tree.specs.Tree.{param_values};
ghost use Rattle.nest_tree.specs.View.{statement_of, tree_of};
ghost use Rattle.nest_tree.specs.WellFormed.{is_number_of, loops_of};
ghost use Rattle.std.specs.List.{list_all};
ghost use Rattle.nest_model.specs.Instances.{head_trips};
ghost use Rattle.nest_walk.specs.Paths.{Round};
ghost use Rattle.nest_walk.specs.Walkable.{is_small_head};
ghost use Rattle.nest_tree.specs.declared.tree.Item.{Item};
ghost use Rattle.nest_model.specs.Visits.{every};
ghost use Rattle.nest_walk.specs.Cursors.{is_reached, loops_in, visit_at};
ghost use Rattle.nest_walk.specs.Frames.{head_of};
ghost use Rattle.nest_walk.specs.InstancesLeft.{instances_left, instances_tree};
ghost use Rattle.nest_walk.specs.Places.{numbers_of};
ghost use Rattle.nest_walk.specs.RoundsOf.{rounds_of};
ghost use Rattle.nest_walk.specs.Texts.{StandFrom, placed_in, works};
ghost use Rattle.nest_walk.specs.TripsLeft.{trips_left};
ghost use Rattle.owner_partition.specs.declared.anchor.Dist.TheVariants.{Block};
ghost use Rattle.owner_partition.specs.OwnInstances.{is_owned, names_no_inner, own_values};
ghost use Rattle.owner_partition.specs.OwnTrips.{own_numbers, strided};
ghost use Rattle.owner_partition.specs.Owners.{own_instances};

use crate::anchor::{Anchor, Dist};
use crate::exact::exact_on;
use crate::own_trips::{Strided, own_trips};
use nest_tree::{Affine, Item, Nest, Program};
use nest_walk::{Instances, Path, Stop, Trips, small_value, trip_count};

/// The instances of a phase that a processor owns, in sequential order, as stops of a walk.
pub type OwnStops<'a> = Instances<'a>;

// No block lies as far from 0, and no trip's place comes back from there.
const FAR: i128 = 1 << 125;

// The trips that a processor owns of so many, however far the form's value is from 0.
fn own_trips_from(dist: Dist, workers: u32, p: u32, start: i128, rise: i128, count: u64) -> Strided
    requires worker { p < workers }
    requires block { (length : ℕ) → dist ≡ Block length → 1 ≤ length }
    requires rise { unsigned_abs rise ≤ 2 ^ 62 }
    requires count { count ≤ 2 ^ 32 }
    ensures { own_numbers dist workers p start rise count
        ≡ strided result.first result.stride result.count }
{
    match dist {
        Dist::Block(_) => own_trips(dist, workers, p, clamped(start), rise, count),
        Dist::Cyclic => own_trips(dist, workers, p, start, rise, count),
    }
}

// The value, or one that is FAR from 0 on its side of it.
fn clamped(value: i128) -> i128
    ensures size { unsigned_abs result ≤ 2 ^ 125 }
    ensures near { unsigned_abs value ≤ 2 ^ 125 → result ≡ value }
    ensures above { pos (2 ^ 125) ≤ℤ value → result ≡ pos (2 ^ 125) }
    ensures below { value ≤ℤ (pos 0 -ℤ pos (2 ^ 125)) → result ≡ pos 0 -ℤ pos (2 ^ 125) }
{
    if value > FAR {
        FAR
    } else if value < -FAR {
        -FAR
    } else {
        value
    }
}

// The values of these trips of a loop, by their numbers.
fn strided_values(m1: i64, m3: i64, own: Strided) -> Trips
    requires first { IsTrue (is_small m1) }
    requires step { IsTrue (is_small m3) }
    requires within { (k : ℕ) → k < own.count → own.first + k * own.stride < 2 ^ 32 }
    ensures { trips_left result
        ≡ map (λ n. m1 +ℤ (pos n *ℤ m3)) (strided own.first own.stride own.count) }
{
    if own.count == 0 {
        return Trips::new(m1, m3, 0);
    }
    Trips::new(
        m1 + multiple(own.first, m3),
        stride_step(m3, own),
        own.count,
    )
}

// From one of these trips to the next, where there is one.
fn stride_step(m3: i64, own: Strided) -> i64
    requires step { IsTrue (is_small m3) }
    requires within { 1 < own.count → own.stride < 2 ^ 32 }
    ensures { 1 < own.count → result ≡ pos own.stride *ℤ m3 }
{
    if own.count > 1 {
        multiple(own.stride, m3)
    } else {
        m3
    }
}

// So many times a step.
fn multiple(count: u64, m3: i64) -> i64
    requires count { count < 2 ^ 32 }
    requires step { IsTrue (is_small m3) }
    ensures value { result ≡ pos count *ℤ m3 }
    ensures near { unsigned_abs result < 2 ^ 63 - 2 ^ 32 }
{
    count as i64 * m3
}

// The value of a form on a path.
pub(crate) fn exact_value(program: &Program, path: &Path, form: &Affine) -> i128
    requires numbered { IsTrue
        (list_all (λ (r : Round). is_number_of (loops_of (tree_of program.now).items) r.number)
        (rounds_of path.now)) }
    requires given { IsTrue (reach_within (length (tree_of program.now).params) form.now.params) }
    ensures form { IsForm form.now }
    ensures value { result
        ≡ form_value form.now (loops_in (tree_of program.now) (rounds_of path.now))
        (param_values (tree_of program.now)) }
    ensures near { unsigned_abs result ≤ 2 ^ 127 - 2 ^ 94 }
{
    exact_on(form, path, &program.params)
}

// A product of small numbers.
fn small_product(a: i64, b: i64) -> i128
    requires first { IsTrue (is_small a) }
    requires second { IsTrue (is_small b) }
    ensures value { result ≡ a *ℤ b }
    ensures near { unsigned_abs result ≤ 2 ^ 62 }
{
    i128::from(a) * i128::from(b)
}

// The values of a loop's trips that a processor owns.
fn own_values(
    program: &Program,
    path: &Path,
    nest: &Nest,
    anchor: &Anchor,
    p: u32,
    workers: u32,
) -> Trips
    requires head { IsTrue (is_small_head (param_values (tree_of program.now))
        (loops_in (tree_of program.now) (rounds_of path.now)) (head_of nest.now)) }
    requires trips { IsTrue
        (list_all is_small (head_trips (param_values (tree_of program.now)) (head_of nest.now)
        (loops_in (tree_of program.now) (rounds_of path.now)))) }
    requires numbered { IsTrue
        (list_all (λ (r : Round). is_number_of (loops_of (tree_of program.now).items) r.number)
        (rounds_of path.now)) }
    requires number { IsTrue (is_number_of (loops_of (tree_of program.now).items) nest.now.number) }
    requires room { length (rounds_of path.now) < 6 }
    requires given { IsTrue
        (reach_within (length (tree_of program.now).params) anchor.now.form.params) }
    requires worker { p < workers }
    requires block { (length : ℕ) → anchor.now.dist ≡ Block length → 1 ≤ length }
    ensures form { IsForm anchor.now.form }
    ensures trips { trips_left result
        ≡ own_values (param_values (tree_of program.now)) anchor.now workers p (head_of nest.now)
        (loops_in (tree_of program.now) (rounds_of path.now)) }
{
    let m1 = small_value(program, &nest.m1, path);
    let m2 = small_value(program, &nest.m2, path);
    let coefficient = anchor.coefficient(nest.number);
    let mut before = *path;
    before.push(nest.number, 0);
    let fixed = exact_value(program, &before, &anchor.form);
    let start = fixed + small_product(coefficient, m1);
    let rise = small_product(coefficient, nest.step);
    let count = trip_count(m1, m2, nest.step);
    let own = own_trips_from(anchor.dist, workers, p, start, rise, count);
    strided_values(m1, nest.step, own)
}

// In place of none that is left, the instances of a phase that processor `p` of so many owns, in
// sequential order: of the phase at this stop, with these loops round it, and this anchor. The
// anchor's form names no loop inside that of the phase. It comes to no trip of another processor: a
// block's trips are found by division, those in turn by one congruence.
pub(crate) fn restart_own<'a>(
    own: &mut OwnStops<'a>,
    path: &Path,
    stop: Stop<'a>,
    anchor: &Anchor,
    p: u32,
    workers: u32,
)
    requires none { instances_left own.old ≡ [] }
    requires reached { IsTrue (is_reached (instances_tree own.old) (rounds_of path.now) stop) }
    requires text { StandFrom (works (instances_tree own.old)) stop.first
        (placed_in every (numbers_of (rounds_of path.now)) (statement_of stop.item.now)) }
    requires outside { IsTrue (names_no_inner (statement_of stop.item.now) anchor.now.form) }
    requires given { IsTrue
        (reach_within (length (instances_tree own.old).params) anchor.now.form.params) }
    requires worker { p < workers }
    requires block { (length : ℕ) → anchor.now.dist ≡ Block length → 1 ≤ length }
    ensures own { instances_left own.new
        ≡ own_instances (param_values (instances_tree own.old)) anchor.now workers p
        (visit_at (instances_tree own.old) (rounds_of path.now) stop.entry) }
    ensures program { instances_tree own.new ≡ instances_tree own.old }
{
    let program = own.program();
    match stop.item {
        Item::Loop(nest) => {
            let trips = own_values(program, path, nest, anchor, p, workers);
            if !trips.is_empty() {
                own.restart_trips(path, stop, nest, trips);
            }
        }
        Item::Assign(..) | Item::Print(..) | Item::Continue(_) => {
            if is_own(program, path, anchor, p, workers) {
                own.restart(path, stop);
            }
        }
    }
}

// Whether an anchor names processor `p` where these loops are round it.
fn is_own(program: &Program, path: &Path, anchor: &Anchor, p: u32, workers: u32) -> bool
    requires numbered { IsTrue
        (list_all (λ (r : Round). is_number_of (loops_of (tree_of program.now).items) r.number)
        (rounds_of path.now)) }
    requires given { IsTrue
        (reach_within (length (tree_of program.now).params) anchor.now.form.params) }
    requires worker { p < workers }
    requires block { (length : ℕ) → anchor.now.dist ≡ Block length → 1 ≤ length }
    ensures form { IsForm anchor.now.form }
    ensures owned { result ≡ is_owned (param_values (tree_of program.now)) anchor.now workers p
        (loops_in (tree_of program.now) (rounds_of path.now)) }
{
    let place = exact_value(program, path, &anchor.form);
    own_trips_from(anchor.dist, workers, p, place, 0, 1).count > 0
}
