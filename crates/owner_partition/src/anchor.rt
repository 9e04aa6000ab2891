// Anchors, and the owners that they name.

ghost use Rattle.std.specs.Prelude.{◌≡◌, ◌<◌, ◌≤◌, ◌↔◌, IsTrue, length, min};
ghost use Rattle.nest_tree.specs.Form.{IsForm, form_value, is_given, is_small, rises_above};
ghost use Rattle.nest_tree.specs.Layout.{count_of};
ghost use Rattle.owner_partition.specs.Owners.{anchor_owner, dealt, has_places, reaches};
ghost use Rattle.owner_partition.specs.OwnInstances.{coefficient_of};

use nest_tree::Affine;
use std::alloc::{AllocError, Global};

/// How owners are dealt: blocks of so many neighbouring places, or places in turn.
#[derive(Clone, Copy, Debug, PartialEq, Eq)]
pub enum Dist {
    /// The length of a block, from 1.
    Block(u32),
    Cyclic,
}

impl Dist {
    /// Whether a block has 1 to 2147483647 places.
    pub fn has_places(self) -> bool
        ensures { result ≡ has_places self }
    {
        match self {
            Dist::Block(length) => (1..=2147483647).contains(&length),
            Dist::Cyclic => true,
        }
    }
}

/// A form with its distribution: it says which processor owns what stands at the form's value.
#[derive(Drop)]
pub struct Anchor {
    pub form: Affine,
    pub dist: Dist,
}

impl Anchor {
    ghost use Rattle.std.specs.Prelude.{IfOk};
    ghost use Rattle.owner_partition.specs.Owners.{is_same_anchor};

    /// The same anchor.
    pub fn copy(&self, alloc: Global) -> Result<Self, AllocError>
        ensures { IfOk result (λ copy. copy ≡ self.now) }
    {
        Ok(Anchor {
            form: self.form.copy(alloc)?,
            dist: self.dist,
        })
    }

    /// Whether both have the same form and deal its places the same way.
    pub fn is_same(&self, other: &Anchor) -> bool
        ensures same { result ≡ is_same_anchor self.now other.now }
        ensures exact { IsTrue result ↔ (self.now ≡ other.now) }
    {
        self.form.constant() == other.form.constant()
            && self.form.loops() == other.form.loops()
            && self.form.params() == other.form.params()
            && self.dist == other.dist
    }

    /// The coefficient of the loop with this number in the form, 0 where it isn't named.
    pub fn coefficient(&self, number: u32) -> i64
        ensures value { result ≡ coefficient_of self.now.form.loops number }
        ensures small { IsTrue (is_small result) }
        ensures form { IsForm self.now.form }
    {
        coefficient_among(self.form.loops(), number)
    }
}

// The coefficient of the loop with this number, 0 where it isn't named.
fn coefficient_among(pairs: &[(u32, i64)], number: u32) -> i64
    requires { IsTrue (rises_above 0 pairs.now) }
    ensures value { result ≡ coefficient_of pairs.now number }
    ensures small { IsTrue (is_small result) }
{
    for &(loop_number, coefficient) in pairs {
        if loop_number == number {
            return coefficient;
        }
    }
    0
}

/// The processor that the anchor names where the loops and the named constants, by number from 1,
/// have these values: the value divided by the block's length, or its remainder by the workers,
/// which is never negative. A block's value lies within its blocks; a cyclic one may lie anywhere.
pub fn owner(anchor: &Anchor, loops: &[i64], params: &[i64], workers: u32) -> u32
    requires given { IsTrue (is_given anchor.now.form (length loops.now) (length params.now)) }
    requires workers { 1 ≤ workers }
    requires placed { IsTrue
        (reaches anchor.now.dist workers (
          form_value anchor.now.form loops.now params.now,
          form_value anchor.now.form loops.now
              params.now,
        )) }
    ensures owner { result ≡ anchor_owner anchor.now workers loops.now params.now }
    ensures worker { result < workers }
{
    let value = anchor.form.exact_value(loops, params);
    match anchor.dist {
        Dist::Block(length) => value.div_euclid(i128::from(length)) as u32,
        Dist::Cyclic => value.rem_euclid(i128::from(workers)) as u32,
    }
}

// The processor to whom a place is dealt, 0 below the first, and the number of workers past them.
pub(crate) fn clamped_owner(dist: Dist, place: i128, workers: u32) -> u32
    requires places { IsTrue (has_places dist) }
    requires some { 1 ≤ workers }
    ensures { result ≡ min (count_of (dealt dist workers place)) workers }
{
    match dist {
        Dist::Block(length) => clamped(place.div_euclid(i128::from(length)), workers),
        Dist::Cyclic => clamped(place.rem_euclid(i128::from(workers)), workers),
    }
}

// A processor's number, 0 for one below 0, and the number of workers for one past them.
fn clamped(owner: i128, workers: u32) -> u32
    ensures { result ≡ min (count_of owner) workers }
{
    if owner < 0 {
        0
    } else if owner < i128::from(workers) {
        owner as u32
    } else {
        workers
    }
}
