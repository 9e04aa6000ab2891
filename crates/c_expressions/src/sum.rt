// Sums of multiples of loops' values, of the processor's number and of a constant, as C has them.

ghost use Rattle.std.specs.Prelude.{◌≡◌, ◌↔◌, ◌<◌, ◌^◌, ◌+ℤ◌, ◌*ℤ◌, pos, IsTrue, OnOk, IfSome, Some, slice_get};
ghost use Rattle.std.specs.List.{All};
ghost use Rattle.nest_tree.specs.Values.{wrapped};
ghost use Rattle.c_expressions.specs.Names.{term_name};

use std::alloc::{AllocError, Global};

/// What a sum has multiples of.
#[derive(Clone, Copy, Debug, PartialEq, Eq)]
pub enum Term {
    /// The value of a loop, by its number.
    Loop(u32),
    /// The value of the loop at hand in its last trip.
    Last,
    /// The number of the processor.
    Processor,
}

/// A sum, whose numbers wrap to 64 bits.
#[derive(Drop)]
pub struct Sum {
    constant: i64,
    terms: Vec<(Term, i64)>,
    is_exact: bool,
}

impl Sum {
    ghost use Rattle.c_expressions.specs.Sums.{Adds, IsPlain, SumsUp, size_of};

    /// The sum of nothing.
    pub fn new(alloc: Global) -> Self
        ensures { SumsUp result (λ v. pos 0) }
    {
        Sum {
            constant: 0,
            terms: Vec::new(alloc),
            is_exact: true,
        }
    }

    /// Adds a product of two numbers.
    pub fn add(&mut self, a: i64, b: i64)
        ensures { Adds self.old self.new (λ v. a *ℤ b) }
    {
        let product = self.product(a, b);
        self.constant = self.both(self.constant, product);
    }

    /// Adds a product of three numbers.
    pub fn add_product(&mut self, a: i64, b: i64, c: i64)
        ensures { Adds self.old self.new (λ v. (a *ℤ b) *ℤ c) }
    {
        let product = self.product(a, b);
        self.add(product, c);
    }

    /// Adds a product of two numbers times a term.
    pub fn add_term(&mut self, term: Term, a: i64, b: i64) -> Result<(), AllocError>
        ensures { OnOk result (Adds self.old self.new (λ v. (a *ℤ b) *ℤ v (term_name term))) }
    {
        let coefficient = self.product(a, b);
        self.add_multiple(term, coefficient)
    }

    fn add_multiple(&mut self, term: Term, coefficient: i64) -> Result<(), AllocError>
        ensures { OnOk result (Adds self.old self.new (λ v. coefficient *ℤ v (term_name term))) }
    {
        match self.find(term) {
            Some((place, before)) => {
                let both = self.both(before, coefficient);
                self.terms[place] = (term, both);
                Ok(())
            }
            None => {
                self.terms.push((term, coefficient))?;
                Ok(())
            }
        }
    }

    // The place of a term that is there, and its coefficient.
    fn find(&self, term: Term) -> Option<(usize, i64)>
        ensures { IfSome result (λ f. slice_get self.now.terms.items f.0 ≡ Some (term, f.1)) }
    {
        for (place, &(known, coefficient)) in self.terms.iter().enumerate() {
            if known == term {
                return Some((place, coefficient));
            }
        }
        None
    }

    // A product that wraps to 64 bits; the sum is exact no longer where it leaves them.
    fn product(&mut self, a: i64, b: i64) -> i64
        ensures value { result ≡ wrapped (a *ℤ b) }
        ensures exact { IsTrue self.new.is_exact → IsTrue self.old.is_exact × (result ≡ a *ℤ b) }
        ensures constant { self.new.constant ≡ self.old.constant }
        ensures terms { self.new.terms ≡ self.old.terms }
    {
        match a.checked_mul(b) {
            Some(product) => product,
            None => {
                self.is_exact = false;
                a.wrapping_mul(b)
            }
        }
    }

    // A sum of two numbers, in the same way.
    fn both(&mut self, a: i64, b: i64) -> i64
        ensures value { result ≡ wrapped (a +ℤ b) }
        ensures exact { IsTrue self.new.is_exact → IsTrue self.old.is_exact × (result ≡ a +ℤ b) }
        ensures constant { self.new.constant ≡ self.old.constant }
        ensures terms { self.new.terms ≡ self.old.terms }
    {
        match a.checked_add(b) {
            Some(both) => both,
            None => {
                self.is_exact = false;
                a.wrapping_add(b)
            }
        }
    }

    /// The constant.
    pub fn constant(&self) -> i64
        ensures { result ≡ self.now.constant }
    {
        self.constant
    }

    /// The terms with their coefficients, of which some may be 0.
    pub fn terms(&self) -> &[(Term, i64)]
        ensures { result.now ≡ self.now.terms.items }
    {
        self.terms.as_slice()
    }

    /// Whether no coefficient differs from 0.
    pub fn is_constant(&self) -> bool
        ensures { IsTrue result → All (λ t. t.1 ≡ pos 0) self.now.terms.items }
    {
        self.terms.iter().all(|(_, coefficient)| *coefficient == 0)
    }

    /// Whether each partial sum is within 2^62, in whatever order, where each value is within 2^32.
    pub fn is_plain(&self) -> bool
        ensures { IsTrue result ↔ IsPlain self.now }
    {
        self.is_exact && self.size() < 0x4000_0000_0000_0000
    }

    // So far from 0 the sum comes, where each value is within 2^32: exactly, below 2^62.
    fn size(&self) -> u64
        ensures below { result < 2 ^ 62 → result ≡ size_of self.now }
        ensures exact { size_of self.now < 2 ^ 62 → result ≡ size_of self.now }
    {
        let mut size = self.constant.unsigned_abs();
        for &(_, coefficient) in self.terms.iter() {
            size = size.saturating_add(coefficient.unsigned_abs().saturating_mul(0x1_0000_0000));
        }
        size
    }
}
