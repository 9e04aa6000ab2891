// Affine forms: a constant plus multiples of DO variables and of named constants.

ghost use Rattle.std.specs.Prelude.{◌≡◌, ℕ, ◌+◌, ◌-◌, ◌^◌, ◌≤◌, ◌++◌, [], ◌∷◌, ◌+ℤ◌, ◌*ℤ◌, IfOk, OnOk, OnErr, IsTrue, length, map, unsigned_abs};
ghost use Rattle.nest_tree.specs.Form.{dot, is_small, reach_within, rises_above};
ghost use Rattle.nest_tree.specs.Intervals.{dot_ends, multiple, plus};
ghost use Rattle.nest_tree.specs.Values.{wrapped};

use crate::arithmetic::with_product;
use crate::tree::Parameter;
use smallvec::SmallVec;
use std::alloc::{AllocError, Global};
use std::marker::Model;

/// Coefficients: pairs of a number (of a loop or of a named constant, from 1) and its
/// coefficient. Contracts see the list of pairs.
#[derive(Drop)]
pub struct Pairs {
    items: SmallVec<(u32, i64), 4, Global>,
}

impl Model for Pairs {
    ghost use Rattle.std.specs.Prelude.{List, ℕ};
    ghost use Rattle.std.specs.Prelude.{ℤ};

    ghost Value = { List (ℕ × ℤ) };

    ghost view = { λ p. p.items.items };
}

impl Pairs {
    /// No pair.
    pub fn new(alloc: Global) -> Self
        ensures { result ≡ [] }
    {
        Pairs {
            items: SmallVec::new(alloc),
        }
    }

    /// These pairs.
    pub fn from_slice(alloc: Global, pairs: &[(u32, i64)]) -> Result<Self, AllocError>
        ensures { IfOk result (λ made. made ≡ pairs.now) }
    {
        let mut made = Pairs::new(alloc);
        for &(number, coefficient) in pairs {
            made.push(number, coefficient)?;
        }
        Ok(made)
    }

    /// The pairs, in order.
    pub fn as_slice(&self) -> &[(u32, i64)]
        ensures { result.now ≡ self.now }
    {
        self.items.as_slice()
    }

    /// One more pair at the end. Where memory runs out nothing has changed.
    pub fn push(&mut self, number: u32, coefficient: i64) -> Result<(), AllocError>
        ensures ok { OnOk result (self.new ≡ self.old ++ (number, coefficient) ∷ []) }
        ensures err { OnErr result (self.new ≡ self.old) }
    {
        self.items.push((number, coefficient))?;
        Ok(())
    }
}

/// An affine form `constant + sum of coefficient * loop + sum of coefficient * parameter`, in
/// the one way in which a form is written: each list of pairs rises by its numbers, no
/// coefficient is 0, and each number is within plus or minus 2147483647. Contracts see the form.
#[derive(Drop)]
pub struct Affine {
    constant: i64,
    loops: Pairs,
    params: Pairs,
}

impl Model for Affine {
    ghost use Rattle.nest_tree.specs.Form.{Form, IsForm};

    ghost Value = { Form };

    ghost view = { λ a. record { constant = a.constant; loops = a.loops; params = a.params } };

    ghost invariant = { λ a. IsForm (record {
      constant = a.constant;
      loops = a.loops;
      params =
          a.params;
    }) };
}

impl Affine {
    ghost use Rattle.std.specs.Prelude.{IsTrue, length, map};
    ghost use Rattle.nest_tree.specs.Form.{Form, IsForm, form_value, is_given, is_small};
    ghost use Rattle.nest_tree.specs.Intervals.{form_interval};

    /// The form of these parts.
    pub fn new(constant: i64, loops: Pairs, params: Pairs) -> Self
        requires { IsForm (record { constant = constant; loops = loops; params = params }) }
        ensures { result ≡ record { constant = constant; loops = loops; params = params } }
    {
        Affine {
            constant,
            loops,
            params,
        }
    }

    /// The same form.
    pub fn copy(&self, alloc: Global) -> Result<Self, AllocError>
        ensures { IfOk result (λ copy. copy ≡ self.now) }
    {
        let loops = Pairs::from_slice(alloc, self.loops())?;
        let params = Pairs::from_slice(alloc, self.params())?;
        Ok(Affine::new(self.constant, loops, params))
    }

    /// The constant.
    pub fn constant(&self) -> i64
        ensures value { result ≡ self.now.constant }
        ensures form { IsForm self.now }
    {
        self.constant
    }

    /// The coefficients of DO variables, by the number of the loop.
    pub fn loops(&self) -> &[(u32, i64)]
        ensures pairs { result.now ≡ self.now.loops }
        ensures form { IsForm self.now }
    {
        self.loops.as_slice()
    }

    /// The coefficients of named constants, by their number.
    pub fn params(&self) -> &[(u32, i64)]
        ensures pairs { result.now ≡ self.now.params }
        ensures form { IsForm self.now }
    {
        self.params.as_slice()
    }

    /// The value where the loops and the named constants, by number from 1, have these values.
    /// It is within plus or minus 2147483647; what is added up on the way need not be.
    pub fn value(&self, loops: &[i64], params: &[i64]) -> i64
        requires given { IsTrue (is_given self.now (length loops.now) (length params.now)) }
        requires small { IsTrue (is_small (form_value self.now loops.now params.now)) }
        ensures { result ≡ form_value self.now loops.now params.now }
    {
        let varying = wrapped_sum(self.constant, self.loops.as_slice(), loops);
        wrapped_sum(varying, self.params.as_slice(), params)
    }

    /// The value where the loops and the named constants, by number from 1, have these values,
    /// however far it is from 0.
    pub fn exact_value(&self, loops: &[i64], params: &[i64]) -> i128
        requires { IsTrue (is_given self.now (length loops.now) (length params.now)) }
        ensures { result ≡ form_value self.now loops.now params.now }
    {
        let varying = exact_sum(i128::from(self.constant), self.loops.as_slice(), loops);
        exact_sum(varying, self.params.as_slice(), params)
    }

    /// The interval from the least to the greatest value, where the loops have these intervals
    /// and the named constants these values, by number from 1.
    pub fn interval(&self, ends: &[(i64, i64)], params: &[i64]) -> (i128, i128)
        requires { IsTrue (is_given self.now (length ends.now) (length params.now)) }
        ensures { result ≡ form_interval self.now ends.now params.now }
    {
        let fixed = exact_sum(i128::from(self.constant), self.params.as_slice(), params);
        interval_sum(fixed, self.loops.as_slice(), ends)
    }

    /// The interval, as `interval` has it, with the values that the program's named constants have.
    pub fn interval_among(&self, ends: &[(i64, i64)], constants: &[Parameter]) -> (i128, i128)
        requires { IsTrue (is_given self.now (length ends.now) (length constants.now)) }
        ensures { result ≡ form_interval self.now ends.now (map (λ p. p.value) constants.now) }
    {
        let fixed = constant_sum(i128::from(self.constant), self.params.as_slice(), constants);
        interval_sum(fixed, self.loops.as_slice(), ends)
    }
}

// The sum of a start and of coefficients times values by number, wrapped to 64 bits.
fn wrapped_sum(start: i64, pairs: &[(u32, i64)], values: &[i64]) -> i64
    requires rising { IsTrue (rises_above 0 pairs.now) }
    requires given { IsTrue (reach_within (length values.now) pairs.now) }
    ensures { result ≡ wrapped (start +ℤ dot pairs.now values.now) }
{
    let mut sum = start;
    for &(number, coefficient) in pairs {
        sum = with_product(sum, coefficient, values[number as usize - 1]);
    }
    sum
}

// The sum of a start and of coefficients times values by number.
fn exact_sum(start: i128, pairs: &[(u32, i64)], values: &[i64]) -> i128
    requires rising { IsTrue (rises_above 0 pairs.now) }
    requires given { IsTrue (reach_within (length values.now) pairs.now) }
    requires start { unsigned_abs start ≤ 2 ^ 126 }
    ensures value { result ≡ start +ℤ dot pairs.now values.now }
    ensures near { unsigned_abs result ≤ unsigned_abs start + (2 ^ 126 - 2 ^ 94) }
{
    let mut sum = start;
    for &(number, coefficient) in pairs {
        sum += product(coefficient, values[number as usize - 1]);
    }
    sum
}

/// The sum of a start, within 2^126, and of coefficients times the values of named constants by
/// number. The numbers rise, and each coefficient is within plus or minus 2147483647.
pub fn constant_sum(start: i128, pairs: &[(u32, i64)], constants: &[Parameter]) -> i128
    requires rising { IsTrue (rises_above 0 pairs.now) }
    requires given { IsTrue (reach_within (length constants.now) pairs.now) }
    requires start { unsigned_abs start ≤ 2 ^ 126 }
    ensures value { result ≡ start +ℤ dot pairs.now (map (λ p. p.value) constants.now) }
    ensures near { unsigned_abs result ≤ unsigned_abs start + (2 ^ 126 - 2 ^ 94) }
{
    let mut sum = start;
    for &(number, coefficient) in pairs {
        sum += product(coefficient, constants[number as usize - 1].value);
    }
    sum
}

// The interval of a number and of coefficients times values in intervals by number.
fn interval_sum(fixed: i128, pairs: &[(u32, i64)], ends: &[(i64, i64)]) -> (i128, i128)
    requires rising { IsTrue (rises_above 0 pairs.now) }
    requires given { IsTrue (reach_within (length ends.now) pairs.now) }
    requires fixed { unsigned_abs fixed ≤ 2 ^ 126 }
    ensures { result ≡ plus (fixed, fixed) (dot_ends pairs.now ends.now) }
{
    let mut low = fixed;
    let mut high = fixed;
    for &(number, coefficient) in pairs {
        let (least, greatest) = multiple(coefficient, ends[number as usize - 1]);
        low += least;
        high += greatest;
    }
    (low, high)
}

// A multiple of an interval: a negative coefficient turns it round.
fn multiple(coefficient: i64, ends: (i64, i64)) -> (i128, i128)
    requires { IsTrue (is_small coefficient) }
    ensures value { result ≡ multiple coefficient ends }
    ensures low { unsigned_abs result.0 ≤ 2 ^ 94 }
    ensures high { unsigned_abs result.1 ≤ 2 ^ 94 }
{
    let first = product(coefficient, ends.0);
    let second = product(coefficient, ends.1);
    if coefficient >= 0 {
        (first, second)
    } else {
        (second, first)
    }
}

/// A coefficient, within plus or minus 2147483647, times a value.
pub fn product(coefficient: i64, value: i64) -> i128
    requires { IsTrue (is_small coefficient) }
    ensures value { result ≡ coefficient *ℤ value }
    ensures near { unsigned_abs result ≤ 2 ^ 94 }
{
    i128::from(coefficient) * i128::from(value)
}

/// Whether a number is within plus or minus 2147483647, as a form's numbers are.
pub fn is_small(number: i64) -> bool
    ensures { result ≡ is_small number }
{
    number.unsigned_abs() <= 2147483647
}

/// Whether pairs are a form's: the numbers rise from 1 on, and no coefficient is 0 or past plus or
/// minus 2147483647.
pub fn rises(pairs: &[(u32, i64)]) -> bool
    ensures { result ≡ rises_above 0 pairs.now }
{
    let mut least = 0;
    for &(number, coefficient) in pairs {
        if number <= least || coefficient == 0 || !is_small(coefficient) {
            return false;
        }
        least = number;
    }
    true
}
