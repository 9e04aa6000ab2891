// The rows and columns of a system of constraints that play a part.

ghost use Rattle.std.specs.Prelude.{◌≡◌, ◌+◌, ◌-◌, ◌*◌, ◌<◌, ◌≤◌, ◌^◌, ℕ, [], ◌∷◌, ◌++◌, IfOk, IsTrue, OnOk, length, map, true};
ghost use Rattle.std.specs.List.{All, flat_map, list_all, range_with_len};
ghost use Rattle.farkas_cert.specs.Narrow.{IsNarrowRow};
ghost use Rattle.nest_tree.specs.Form.{is_small};
ghost use Rattle.nest_tree.specs.declared.tree.Parameter.{Parameter as Named};
ghost use Rattle.presolve.specs.Columns.{AreRising, is_kept};
ghost use Rattle.nest_rows.specs.Constraints.{is_tame};
ghost use Rattle.nest_rows.specs.Groups.{equal};
ghost use Rattle.nest_rows.specs.declared.constraint.Sign.TheVariants.{Minus, Plus};
ghost use Rattle.nest_systems.specs.Kept.{HasKept, HasTaken, IsConstant, named_in, number_among as number_in, numbers_of, row_over as row_of_kept, unknowns_in, value_of};

use crate::groups::bounded;
use crate::rows::row;
use farkas_cert::{NarrowSystem, Row};
use nest_rows::{Constraint, Sign};
use nest_tree::{Pairs, Parameter};
use std::alloc::{AllocError, Global};

// The number, from 1, of an unknown among those of these columns; 0 where it isn't among them.
fn number_among(columns: &[u32], unknown: u32) -> u32
    requires rising { (vars : ℕ) × AreRising 0 vars columns.now }
    requires few { length columns.now < 2 ^ 32 }
    ensures { result ≡ number_in 1 columns.now unknown }
{
    if unknown == 0 {
        return 0;
    }
    match columns.binary_search(&(unknown - 1)) {
        Ok(place) => place as u32 + 1,
        Err(_) => 0,
    }
}

// The terms with the numbers of their unknowns among those of these columns, behind the others.
fn push_numbered(terms: &mut Pairs, columns: &[u32], named: &[(u32, i64)]) -> Result<(), AllocError>
    requires rising { (vars : ℕ) × AreRising 0 vars columns.now }
    requires few { length columns.now < 2 ^ 32 }
    requires small { IsTrue (list_all (λ t. is_small t.1) named.now) }
    requires before { IsTrue (list_all (λ t. is_small t.1) terms.old) }
    ensures small { OnOk result (IsTrue (list_all (λ t. is_small t.1) terms.new)) }
    ensures terms { OnOk result (terms.new ≡ terms.old
        ++ map (λ t. (number_in 1 columns.now t.0, t.1)) named.now) }
{
    for &(unknown, coefficient) in named {
        terms.push(number_among(columns, unknown), coefficient)?;
    }
    Ok(())
}

/// The row of a constraint over these columns alone, by their places from 0.
pub fn row_over(
    alloc: Global,
    count: u32,
    columns: &[u32],
    constraint: &Constraint,
) -> Result<Row, AllocError>
    requires count { count ≡ length columns.now }
    requires rising { (vars : ℕ) × AreRising 0 vars columns.now }
    requires tame { IsTrue (is_tame constraint.now) }
    ensures row { IfOk result (λ r. r ≡ row_of_kept columns.now constraint.now) }
    ensures narrow { IfOk result (λ r. IsNarrowRow r) }
{
    let mut terms = Pairs::new(alloc);
    push_numbered(&mut terms, columns, constraint.terms.as_slice())?;
    let numbered = Constraint {
        terms,
        bound: constraint.bound,
    };
    row(alloc, count, &numbered)
}

// One of so many constants more, if the unknown is one.
fn take_constant(kept: &mut Vec<u32>, constants: u32, unknown: u32) -> Result<(), AllocError>
    ensures { OnOk result (HasTaken constants (unknown ∷ []) kept.old.items kept.new.items) }
{
    if unknown >= 1 && unknown <= constants {
        kept.push(unknown)?;
    }
    Ok(())
}

// Those of so many constants that are among these unknowns.
fn take_constants(kept: &mut Vec<u32>, constants: u32, unknowns: &[u32]) -> Result<(), AllocError>
    ensures { OnOk result (HasTaken constants unknowns.now kept.old.items kept.new.items) }
{
    for &unknown in unknowns {
        take_constant(kept, constants, unknown)?;
    }
    Ok(())
}

// Those that these terms name.
fn take_named(kept: &mut Vec<u32>, constants: u32, terms: &[(u32, i64)]) -> Result<(), AllocError>
    ensures { OnOk result
        (HasTaken constants (unknowns_in terms.now) kept.old.items kept.new.items) }
{
    for &(unknown, _) in terms {
        take_constant(kept, constants, unknown)?;
    }
    Ok(())
}

// Those that these constraints name.
fn take_all_named(
    kept: &mut Vec<u32>,
    constants: u32,
    constraints: &[Constraint],
) -> Result<(), AllocError>
    ensures { OnOk result
        (HasTaken constants (named_in constraints.now) kept.old.items kept.new.items) }
{
    for constraint in constraints {
        take_named(kept, constants, constraint.terms.as_slice())?;
    }
    Ok(())
}

// The last constant with a value, where no constraint stands behind the values.
fn take_last(
    kept: &mut Vec<u32>,
    constants: u32,
    valued: u32,
    constraints: &[Constraint],
) -> Result<(), AllocError>
    ensures taken { OnOk result (HasTaken constants [] kept.old.items kept.new.items) }
    ensures last { constraints.now ≡ [] → IsConstant constants valued
        → OnOk result (is_kept kept.new.items valued ≡ true) }
{
    if constraints.is_empty() {
        return take_constant(kept, constants, valued);
    }
    Ok(())
}

// Rises, each number once.
fn sort_once(kept: &mut Vec<u32>, constants: u32)
    requires { All (IsConstant constants) kept.old.items }
    ensures rising { AreRising 1 (constants + 1) kept.new.items }
    ensures same { (n : ℕ) → is_kept kept.old.items n ≡ true → is_kept kept.new.items n ≡ true }
{
    kept.sort_unstable();
    kept.dedup();
}

/// Those of so many constants that these constraints or these unknowns name, rising; and the last one
/// with a value where there is no constraint.
pub(crate) fn kept_constants(
    alloc: Global,
    constants: u32,
    valued: u32,
    constraints: &[Constraint],
    wanted: &[u32],
) -> Result<Vec<u32>, AllocError>
    ensures rising { IfOk result (λ kept. AreRising 1 (constants + 1) kept.items) }
    ensures named { IfOk result (λ kept. (n : ℕ) → IsConstant constants n
        → is_kept (named_in constraints.now) n ≡ true → is_kept kept.items n ≡ true) }
    ensures wanted { IfOk result (λ kept. (n : ℕ) → IsConstant constants n
        → is_kept wanted.now n ≡ true → is_kept kept.items n ≡ true) }
    ensures last { IfOk result (λ kept. constraints.now ≡ [] → IsConstant constants valued
        → is_kept kept.items valued ≡ true) }
{
    let mut kept = Vec::new(alloc);
    take_all_named(&mut kept, constants, constraints)?;
    take_constants(&mut kept, constants, wanted)?;
    take_last(&mut kept, constants, valued, constraints)?;
    sort_once(&mut kept, constants);
    Ok(kept)
}

/// The columns of these constants, and of all unknowns behind so many.
pub(crate) fn columns_of(
    alloc: Global,
    kept: &[u32],
    constants: u32,
    vars: u32,
) -> Result<Vec<u32>, AllocError>
    requires rising { AreRising 1 (constants + 1) kept.now }
    requires within { constants ≤ vars }
    ensures { IfOk result (λ columns. columns.items ≡ map (λ n. n - 1) kept.now
        ++ range_with_len constants (vars - constants)) }
{
    let mut columns = Vec::with_capacity(alloc, kept.len())?;
    for &number in kept {
        columns.push(number - 1)?;
    }
    for place in constants..vars {
        columns.push(place)?;
    }
    Ok(columns)
}

/// Rows that are kept, over the columns that are kept.
#[derive(Drop)]
pub(crate) struct KeptRows<'c> {
    pub(crate) columns: &'c [u32],
    // Of the whole system, from 1.
    pub(crate) numbers: Vec<u64>,
    pub(crate) system: NarrowSystem,
}

impl KeptRows<'_> {
    // The row of a constraint, which has this number.
    fn push(
        &mut self,
        alloc: Global,
        number: u64,
        constraint: &Constraint,
    ) -> Result<(), AllocError>
        requires rising { (vars : ℕ) × AreRising 0 vars self.old.columns.now }
        requires vars { self.old.system.vars ≡ length self.old.columns.now }
        requires tame { IsTrue (is_tame constraint.now) }
        ensures { OnOk result (HasKept (constraint.now ∷ []) (number ∷ []) self.old self.new) }
    {
        let count = self.system.as_system().vars();
        let row = row_over(alloc, count, self.columns, constraint)?;
        self.numbers.push(number)?;
        self.system.push(row)
    }

    // The two rows for a constant's value.
    fn push_both(&mut self, alloc: Global, number: u32, value: i64) -> Result<(), AllocError>
        requires rising { (vars : ℕ) × AreRising 0 vars self.old.columns.now }
        requires vars { self.old.system.vars ≡ length self.old.columns.now }
        requires number { 1 ≤ number }
        ensures { OnOk result (HasKept (equal Plus number value ∷ equal Minus number value ∷ [])
            ((2 * number - 1) ∷ 2 * number ∷ []) self.old self.new) }
    {
        let second = 2 * u64::from(number);
        self.push(
            alloc,
            second - 1,
            &bounded(alloc, Sign::Plus, number, value)?,
        )?;
        self.push(alloc, second, &bounded(alloc, Sign::Minus, number, value)?)
    }

    // The two rows for a constant's value, if it has one.
    fn push_value(
        &mut self,
        alloc: Global,
        values: &[Parameter],
        number: u32,
    ) -> Result<(), AllocError>
        requires rising { (vars : ℕ) × AreRising 0 vars self.old.columns.now }
        requires vars { self.old.system.vars ≡ length self.old.columns.now }
        requires number { 1 ≤ number }
        ensures { OnOk result (HasKept (value_of (map (λ (p : Named). p.value) values.now) number)
            (numbers_of (length values.now) number) self.old self.new) }
    {
        let place = number as usize - 1;
        if place >= values.len() {
            return Ok(());
        }
        self.push_both(alloc, number, values[place].value)
    }

    /// The rows for the values of these constants, of which those up to so many have values.
    pub(crate) fn push_values(
        &mut self,
        alloc: Global,
        values: &[Parameter],
        kept: &[u32],
    ) -> Result<(), AllocError>
        requires rising { (vars : ℕ) × AreRising 0 vars self.old.columns.now }
        requires vars { self.old.system.vars ≡ length self.old.columns.now }
        requires kept { (upto : ℕ) × AreRising 1 upto kept.now }
        ensures { OnOk result
            (HasKept (flat_map (value_of (map (λ (p : Named). p.value) values.now)) kept.now)
            (flat_map (numbers_of (length values.now)) kept.now) self.old self.new) }
    {
        for &number in kept {
            self.push_value(alloc, values, number)?;
        }
        Ok(())
    }

    /// The rows of these constraints, whose numbers are those behind the first so many.
    pub(crate) fn push_all(
        &mut self,
        alloc: Global,
        before: u64,
        constraints: &[Constraint],
    ) -> Result<(), AllocError>
        requires rising { (vars : ℕ) × AreRising 0 vars self.old.columns.now }
        requires vars { self.old.system.vars ≡ length self.old.columns.now }
        requires tame { All (λ c. IsTrue (is_tame c)) constraints.now }
        requires room { before + length constraints.now < 2 ^ 64 }
        ensures { OnOk result
            (HasKept constraints.now
            (range_with_len (before + 1) (length constraints.now)) self.old self.new) }
    {
        for (index, constraint) in constraints.iter().enumerate() {
            self.push(alloc, before + index as u64 + 1, constraint)?;
        }
        Ok(())
    }
}
