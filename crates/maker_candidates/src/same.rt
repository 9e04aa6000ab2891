//! Anchors that name the same processor.

ghost use Rattle.std.specs.Prelude.{◌≡◌, ◌≤◌, ◌+ℤ◌, IsTrue, List, ℤ, length, map};
ghost use Rattle.std.specs.Cmp.Lexicographic.{pointwise};
ghost use Rattle.nest_tree.specs.Form.{dot, reach_within};
ghost use Rattle.nest_tree.specs.Tree.{param_values};
ghost use Rattle.nest_tree.specs.View.{tree_of};
ghost use Rattle.nest_tree.specs.declared.tree.Parameter.{Parameter};
ghost use Rattle.owner_partition.specs.Owners.{anchor_owner, dealt, has_places, is_same_pair};
ghost use Rattle.maker_candidates.specs.Same.{fixed_value, is_same_deal, is_same_one, says_same};

use nest_tree::{Affine, Parameter, Program, constant_sum};
use owner_partition::{Anchor, Dist};

// Whether pairs have no number above this one.
fn are_within(pairs: &[(u32, i64)], most: usize) -> bool
    ensures { result ≡ reach_within most pairs.now }
{
    pairs.iter().all(|pair| pair.0 as usize <= most)
}

// Whether a form names none but these constants.
fn is_known(form: &Affine, constants: &[Parameter]) -> bool
    ensures { result ≡ reach_within (length constants.now) form.now.params }
{
    are_within(form.params(), constants.len())
}

// What such a form comes to where all loops are 0.
fn known_value(form: &Affine, constants: &[Parameter]) -> i128
    requires { IsTrue (reach_within (length constants.now) form.now.params) }
    ensures { result ≡ form.now.constant +ℤ dot form.now.params
        (map (λ (p : Parameter). p.value) constants.now) }
{
    constant_sum(i128::from(form.constant()), form.params(), constants)
}

// What a form comes to where all loops are 0, if it names none but these constants.
fn fixed_value(form: &Affine, constants: &[Parameter]) -> Option<i128>
    ensures { result ≡ fixed_value (map (λ (p : Parameter). p.value) constants.now) form.now }
{
    if is_known(form, constants) {
        Some(known_value(form, constants))
    } else {
        None
    }
}

// Whether two forms have the same coefficients of loops.
fn have_same_loops(one: &Affine, other: &Affine) -> bool
    ensures { result ≡ pointwise is_same_pair one.now.loops other.now.loops }
{
    one.loops() == other.loops()
}

// The processor of a value.
fn processor(dist: Dist, workers: u32, value: i128) -> i128
    requires places { IsTrue (has_places dist) }
    requires some { 1 ≤ workers }
    ensures { result ≡ dealt dist workers value }
{
    match dist {
        Dist::Block(length) => value.div_euclid(i128::from(length)),
        Dist::Cyclic => value.rem_euclid(i128::from(workers)),
    }
}

// Whether two values to which these loops add are of one processor.
fn is_same_deal(workers: u32, loops: &[(u32, i64)], one: (Dist, i128), other: (Dist, i128)) -> bool
    requires { 1 ≤ workers }
    ensures { result ≡ is_same_deal workers loops.now one.0 one.1 other.0 other.1 }
{
    match loops {
        [] => {
            one.0.has_places()
                && other.0.has_places()
                && processor(one.0, workers, one.1) == processor(other.0, workers, other.1)
        }
        [..] => one.0 == other.0 && one.1 == other.1,
    }
}

// The same where a value may be unknown.
fn is_same_one(
    workers: u32,
    loops: &[(u32, i64)],
    one: (Dist, Option<i128>),
    other: (Dist, Option<i128>),
) -> bool
    requires { 1 ≤ workers }
    ensures { result ≡ is_same_one workers loops.now one.0 one.1 other.0 other.1 }
{
    match one.1 {
        Some(value) => match other.1 {
            Some(second) => is_same_deal(workers, loops, (one.0, value), (other.0, second)),
            None => false,
        },
        None => false,
    }
}

/// Whether two anchors name the same processor among so many wherever the loops are: they have the
/// same coefficients of loops, and at the program's named constants the same value besides, dealt
/// out the same way; or they name no loop, and one processor.
pub fn says_same(program: &Program, workers: u32, one: &Anchor, other: &Anchor) -> bool
    requires { 1 ≤ workers }
    ensures same { result
        ≡ says_same (param_values (tree_of program.now)) workers one.now other.now }
    ensures owner { IsTrue result → (loops : List ℤ)
        → anchor_owner one.now workers loops (param_values (tree_of program.now))
        ≡ anchor_owner other.now workers loops (param_values (tree_of program.now)) }
{
    let constants = program.params.as_slice();
    let value = fixed_value(&one.form, constants);
    let second = fixed_value(&other.form, constants);
    let loops = one.form.loops();
    have_same_loops(&one.form, &other.form)
        && is_same_one(workers, loops, (one.dist, value), (other.dist, second))
}
