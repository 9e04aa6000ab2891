// The value of an expression by its tree.

ghost use Rattle.std.specs.Prelude.{◌≡◌, ◌+◌, ◌≤◌, ◌<◌, IsTrue, drop, length, slice_index_or, pos};
ghost use Rattle.nest_tree.specs.Loads.{loads_among, loads_in};
ghost use Rattle.nest_tree.specs.View.{expression_of, expressions_from};
ghost use Rattle.nest_model.specs.Meaning.{greatest, has_value, have_values, least, value_of, values_of};

use nest_tree::Expr;
use nest_tree::arithmetic::{difference, negated, product, sum, truncated_quotient};

/// What the items of a PRINT are evaluated from: the values of loops and of named constants by
/// number, from 1, and those that loads gave, in text order.
#[derive(Clone, Copy)]
pub struct Given<'a> {
    pub loops: &'a [i64],
    pub params: &'a [i64],
    pub loaded: &'a [i64],
}

impl Given<'_> {
    // The value of an expression whose loads gave what stands from `at` on, which moves past them.
    #[cycle(value)]
    pub(crate) fn value(&self, e: &Expr, at: &mut usize) -> i64
        requires valued { IsTrue (has_value (length self.now.loops.now) (length self.now.params.now)
            (expression_of e.now)) }
        requires loads { length (loads_in (expression_of e.now)) ≤ length
            (drop at.old self.now.loaded.now) }
        ensures value { result
            ≡ value_of (expression_of e.now) self.now.loops.now self.now.params.now
            (drop at.old self.now.loaded.now) }
        ensures rest { drop at.new self.now.loaded.now
            ≡ drop (length (loads_in (expression_of e.now))) (drop at.old self.now.loaded.now) }
    {
        match e {
            Expr::Number(n) => *n,
            Expr::LoopValue(l) => self.loops[*l as usize - 1],
            Expr::Param(p) => self.params[*p as usize - 1],
            Expr::Load(_) => listed(self.loaded, at),
            Expr::Neg(a) => negated(self.operand(a, at)),
            Expr::Add(a, b) => {
                let x = self.operand(a, at);
                sum(x, self.operand(b, at))
            }
            Expr::Sub(a, b) => {
                let x = self.operand(a, at);
                difference(x, self.operand(b, at))
            }
            Expr::Mul(a, b) => {
                let x = self.operand(a, at);
                product(x, self.operand(b, at))
            }
            Expr::Div(a, divisor) => truncated_quotient(self.operand(a, at), *divisor),
            Expr::Min(arguments) => self.least(arguments, at),
            Expr::Max(arguments) => self.greatest(arguments, at),
        }
    }

    // The value of an operand, which costs no call where it has none of its own.
    #[cycle(value)]
    #[inline(always)]
    fn operand(&self, e: &Expr, at: &mut usize) -> i64
        requires valued { IsTrue (has_value (length self.now.loops.now) (length self.now.params.now)
            (expression_of e.now)) }
        requires loads { length (loads_in (expression_of e.now)) ≤ length
            (drop at.old self.now.loaded.now) }
        ensures value { result
            ≡ value_of (expression_of e.now) self.now.loops.now self.now.params.now
            (drop at.old self.now.loaded.now) }
        ensures rest { drop at.new self.now.loaded.now
            ≡ drop (length (loads_in (expression_of e.now))) (drop at.old self.now.loaded.now) }
    {
        match e {
            Expr::Number(n) => *n,
            Expr::LoopValue(l) => self.loops[*l as usize - 1],
            Expr::Param(p) => self.params[*p as usize - 1],
            Expr::Load(_) => listed(self.loaded, at),
            _ => self.value(e, at),
        }
    }

    // The least of the arguments' values.
    #[cycle(value)]
    fn least(&self, arguments: &[Expr], at: &mut usize) -> i64
        requires some { 0 < length arguments.now }
        requires valued { IsTrue (have_values (length self.now.loops.now)
            (length self.now.params.now) (expressions_from arguments.now)) }
        requires loads { length (loads_among (expressions_from arguments.now)) ≤ length
            (drop at.old self.now.loaded.now) }
        ensures value { result
            ≡ least
            (values_of (expressions_from arguments.now) self.now.loops.now self.now.params.now
            (drop at.old self.now.loaded.now)) }
        ensures rest { drop at.new self.now.loaded.now
            ≡ drop (length (loads_among (expressions_from arguments.now)))
            (drop at.old self.now.loaded.now) }
    {
        let mut best = self.value(&arguments[0], at);
        for e in &arguments[1..] {
            best = best.min(self.value(e, at));
        }
        best
    }

    // The greatest of the arguments' values.
    #[cycle(value)]
    fn greatest(&self, arguments: &[Expr], at: &mut usize) -> i64
        requires some { 0 < length arguments.now }
        requires valued { IsTrue (have_values (length self.now.loops.now)
            (length self.now.params.now) (expressions_from arguments.now)) }
        requires loads { length (loads_among (expressions_from arguments.now)) ≤ length
            (drop at.old self.now.loaded.now) }
        ensures value { result
            ≡ greatest
            (values_of (expressions_from arguments.now) self.now.loops.now self.now.params.now
            (drop at.old self.now.loaded.now)) }
        ensures rest { drop at.new self.now.loaded.now
            ≡ drop (length (loads_among (expressions_from arguments.now)))
            (drop at.old self.now.loaded.now) }
    {
        let mut best = self.value(&arguments[0], at);
        for e in &arguments[1..] {
            best = best.max(self.value(e, at));
        }
        best
    }
}

// The value with this number of a list.
fn listed(values: &[i64], at: &mut usize) -> i64
    requires { at.old < length values.now }
    ensures value { result ≡ slice_index_or (drop at.old values.now) 0 (pos 0) }
    ensures moved { at.new ≡ at.old + 1 }
{
    let value = values[*at];
    *at += 1;
    value
}
