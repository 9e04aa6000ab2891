// Places as sums: at the values of loops, or in a loop's last trip.

ghost use Rattle.std.specs.Prelude.{◌≡◌, ℤ, pos, ◌+ℤ◌, ◌*ℤ◌, IfOk, OnOk};
ghost use Rattle.std.specs.Int.{int_rem_euclid};
ghost use Rattle.nest_tree.specs.Form.{dot};
ghost use Rattle.nest_tree.specs.Tree.{param_values};
ghost use Rattle.nest_tree.specs.View.{tree_of};
ghost use Rattle.c_expressions.specs.Sums.{Adds, SumsUp, Values, total};
ghost use Rattle.c_owners.specs.Owners.{IsAlike, SumsUpAlike, loops_in, spot_at, term_in};

use crate::layout::Layout;
use c_expressions::{Sum, Term};
use nest_tree::Affine;
use std::alloc::AllocError;

/// A form of loops and named constants, perhaps in the last trip of a loop.
#[derive(Clone, Copy)]
pub struct Spot<'a> {
    pub constant: i64,
    pub loops: &'a [(u32, i64)],
    pub params: &'a [(u32, i64)],
    pub last: Option<u32>,
}

impl<'a> Spot<'a> {
    /// A form.
    pub fn of_form(form: &'a Affine, last: Option<u32>) -> Self
        ensures constant { result.constant ≡ form.now.constant }
        ensures loops { result.loops.now ≡ form.now.loops }
        ensures params { result.params.now ≡ form.now.params }
        ensures last { result.last ≡ last }
    {
        Spot {
            constant: form.constant(),
            loops: form.loops(),
            params: form.params(),
            last,
        }
    }
}

impl Layout<'_> {
    /// The sum of a spot.
    pub fn sum_of(&self, spot: &Spot) -> Result<Sum, AllocError>
        ensures { IfOk result (λ sum. SumsUp sum (spot_at (tree_of self.now.program.now)
            spot.now.constant spot.now.loops.now spot.now.params.now spot.now.last)) }
    {
        let mut sum = Sum::new(self.alloc);
        self.add_spot(spot, 1, &mut sum)?;
        Ok(sum)
    }

    /// Adds a multiple of a spot to a sum.
    pub fn add_spot(&self, spot: &Spot, times: i64, sum: &mut Sum) -> Result<(), AllocError>
        ensures { OnOk result (Adds sum.old sum.new (λ v. times *ℤ spot_at (tree_of
            self.now.program.now) spot.now.constant spot.now.loops.now spot.now.params.now
            spot.now.last v)) }
    {
        sum.add(spot.constant, times);
        self.scope(&[]).add_params(spot.params, times, sum);
        add_terms(spot.loops, spot.last, times, sum)
    }

    /// A sum that is alike to a spot but for multiples of the workers: of remainders, where that
    /// stays plain.
    pub fn sum_alike(&self, spot: &Spot) -> Result<Sum, AllocError>
        ensures { IfOk result (λ sum. SumsUpAlike self.now.workers sum (spot_at (tree_of
            self.now.program.now) spot.now.constant spot.now.loops.now spot.now.params.now
            spot.now.last)) }
    {
        let sum = self.residues(spot)?;
        let reduced = self.reduced(&sum)?;
        if sum.is_plain() && reduced.is_plain() {
            return Ok(reduced);
        }
        self.sum_of(spot)
    }

    // A spot by remainders.
    fn residues(&self, spot: &Spot) -> Result<Sum, AllocError>
        ensures { IfOk result (λ sum. IsAlike self.now.workers sum (spot_at (tree_of
            self.now.program.now) spot.now.constant spot.now.loops.now spot.now.params.now
            spot.now.last)) }
    {
        let mut sum = Sum::new(self.alloc);
        sum.add(self.residue(spot.constant), 1);
        self.add_residues(spot.params, &mut sum);
        self.add_term_residues(spot.loops, spot.last, &mut sum)?;
        Ok(sum)
    }

    // Adds named constants with their coefficients, each number by its remainder.
    fn add_residues(&self, params: &[(u32, i64)], sum: &mut Sum)
        ensures { (all : Values → ℤ) → IsAlike self.now.workers sum.old all → IsAlike
            self.now.workers sum.new (λ v. all v +ℤ dot params.now (param_values (tree_of
            self.now.program.now))) }
    {
        for &(number, coefficient) in params {
            let value = self.residue(self.scope(&[]).parameter(number));
            sum.add(self.residue(coefficient), value);
        }
    }

    // Adds loops with their coefficients, each number by its remainder.
    fn add_term_residues(
        &self,
        loops: &[(u32, i64)],
        last: Option<u32>,
        sum: &mut Sum,
    ) -> Result<(), AllocError>
        ensures { OnOk result ((all : Values → ℤ) → IsAlike self.now.workers sum.old all → IsAlike
            self.now.workers sum.new (λ v. all v +ℤ loops_in last v loops.now)) }
    {
        for &(number, coefficient) in loops {
            sum.add_term(term_in(last, number), self.residue(coefficient), 1)?;
        }
        Ok(())
    }

    // The same sum with each number by its remainder.
    fn reduced(&self, sum: &Sum) -> Result<Sum, AllocError>
        ensures { IfOk result (λ new. IsAlike self.now.workers new (λ v. total v sum.now)) }
    {
        let mut new = Sum::new(self.alloc);
        new.add(self.residue(sum.constant()), 1);
        for &(term, coefficient) in sum.terms() {
            new.add_term(term, self.residue(coefficient), 1)?;
        }
        Ok(new)
    }

    // The remainder by the number of processors, from 0 on.
    pub(crate) fn residue(&self, number: i64) -> i64
        ensures { result ≡ int_rem_euclid number (pos self.now.workers) }
    {
        number.rem_euclid(i64::from(self.workers))
    }
}

// Adds a multiple of loops, with their coefficients, to a sum.
fn add_terms(
    loops: &[(u32, i64)],
    last: Option<u32>,
    times: i64,
    sum: &mut Sum,
) -> Result<(), AllocError>
    ensures { OnOk result (Adds sum.old sum.new (λ v. times *ℤ loops_in last v loops.now)) }
{
    for &(number, coefficient) in loops {
        sum.add_term(term_in(last, number), coefficient, times)?;
    }
    Ok(())
}

// What stands for a loop's value, where that loop may be in its last trip.
fn term_in(last: Option<u32>, number: u32) -> Term
    ensures { result ≡ term_in last number }
{
    match last {
        Some(last) => {
            if number == last {
                Term::Last
            } else {
                Term::Loop(number)
            }
        }
        None => Term::Loop(number),
    }
}
