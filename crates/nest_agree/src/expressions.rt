// Whether expressions are equal.

ghost use Rattle.std.specs.Prelude.{◌≡◌, MatchOption, None, Some};
ghost use Rattle.nest_tree.specs.View.{expression_of, expressions_from};
ghost use Rattle.nest_agree.specs.Same.{access_of, arguments_of, first_of, index_of, kind_of, number_of, same, same_at, same_list, second_of};

use crate::forms::same_access;
use nest_tree::{Access, Expr};

// Which kind of expression it is.
fn kind(e: &Expr) -> u8
    ensures { result ≡ kind_of (expression_of e.now) }
{
    match e {
        Expr::Number(_) => 0,
        Expr::LoopValue(_) => 1,
        Expr::Param(_) => 2,
        Expr::Neg(_) => 3,
        Expr::Add(_, _) => 4,
        Expr::Sub(_, _) => 5,
        Expr::Mul(_, _) => 6,
        Expr::Div(_, _) => 7,
        Expr::Min(_) => 8,
        Expr::Max(_) => 9,
        Expr::Load(_) => 10,
    }
}

// Its number, or its divisor; 0 where it has none.
fn number(e: &Expr) -> i64
    ensures { result ≡ number_of (expression_of e.now) }
{
    match e {
        Expr::Number(number) | Expr::Div(_, number) => *number,
        Expr::LoopValue(_)
        | Expr::Param(_)
        | Expr::Load(_)
        | Expr::Neg(_)
        | Expr::Add(_, _)
        | Expr::Sub(_, _)
        | Expr::Mul(_, _)
        | Expr::Min(_)
        | Expr::Max(_) => 0,
    }
}

// The number of its loop or of its named constant; 0 where it is neither.
fn index(e: &Expr) -> u32
    ensures { result ≡ index_of (expression_of e.now) }
{
    match e {
        Expr::LoopValue(index) | Expr::Param(index) => *index,
        Expr::Number(_)
        | Expr::Load(_)
        | Expr::Neg(_)
        | Expr::Add(_, _)
        | Expr::Sub(_, _)
        | Expr::Mul(_, _)
        | Expr::Div(_, _)
        | Expr::Min(_)
        | Expr::Max(_) => 0,
    }
}

// What it loads, where it is a load.
fn access(e: &Expr) -> Option<&Access>
    ensures { MatchOption result (access_of (expression_of e.now)
        ≡ None) (λ a. access_of (expression_of e.now) ≡ Some a.now) }
{
    match e {
        Expr::Load(access) => Some(access),
        Expr::Number(_)
        | Expr::LoopValue(_)
        | Expr::Param(_)
        | Expr::Neg(_)
        | Expr::Add(_, _)
        | Expr::Sub(_, _)
        | Expr::Mul(_, _)
        | Expr::Div(_, _)
        | Expr::Min(_)
        | Expr::Max(_) => None,
    }
}

// Its first operand; itself where it has none.
fn first(e: &Expr) -> &Expr
    ensures { expression_of result.now ≡ first_of (expression_of e.now) }
{
    match e {
        Expr::Neg(a) | Expr::Div(a, _) => a,
        Expr::Add(a, _) | Expr::Sub(a, _) | Expr::Mul(a, _) => a,
        Expr::Number(_)
        | Expr::LoopValue(_)
        | Expr::Param(_)
        | Expr::Load(_)
        | Expr::Min(_)
        | Expr::Max(_) => e,
    }
}

// Its second operand; itself where it has none.
fn second(e: &Expr) -> &Expr
    ensures { expression_of result.now ≡ second_of (expression_of e.now) }
{
    match e {
        Expr::Add(_, b) | Expr::Sub(_, b) | Expr::Mul(_, b) => b,
        Expr::Number(_)
        | Expr::LoopValue(_)
        | Expr::Param(_)
        | Expr::Load(_)
        | Expr::Neg(_)
        | Expr::Div(_, _)
        | Expr::Min(_)
        | Expr::Max(_) => e,
    }
}

// The arguments of MIN or MAX; none where it is neither.
fn arguments(e: &Expr) -> &[Expr]
    ensures { expressions_from result.now ≡ arguments_of (expression_of e.now) }
{
    match e {
        Expr::Min(arguments) => arguments.as_slice(),
        Expr::Max(arguments) => arguments.as_slice(),
        Expr::Number(_)
        | Expr::LoopValue(_)
        | Expr::Param(_)
        | Expr::Load(_)
        | Expr::Neg(_)
        | Expr::Add(_, _)
        | Expr::Sub(_, _)
        | Expr::Mul(_, _)
        | Expr::Div(_, _) => &[],
    }
}

// Whether an access is what an expression loads.
fn same_at(a: &Access, e: &Expr) -> bool
    ensures { result ≡ same_at a.now (access_of (expression_of e.now)) }
{
    match access(e) {
        Some(b) => same_access(a, b),
        None => false,
    }
}

// Whether two expressions are equal.
#[cycle(same)]
pub(crate) fn same(a: &Expr, b: &Expr) -> bool
    ensures { result ≡ same (expression_of a.now) (expression_of b.now) }
{
    match a {
        Expr::Number(n) => kind(b) == 0 && *n == number(b),
        Expr::LoopValue(l) => kind(b) == 1 && *l == index(b),
        Expr::Param(p) => kind(b) == 2 && *p == index(b),
        Expr::Neg(p) => kind(b) == 3 && same(p, first(b)),
        Expr::Add(p, q) => kind(b) == 4 && same(p, first(b)) && same(q, second(b)),
        Expr::Sub(p, q) => kind(b) == 5 && same(p, first(b)) && same(q, second(b)),
        Expr::Mul(p, q) => kind(b) == 6 && same(p, first(b)) && same(q, second(b)),
        Expr::Div(p, d) => kind(b) == 7 && same(p, first(b)) && *d == number(b),
        Expr::Min(xs) => kind(b) == 8 && same_all(xs, arguments(b)),
        Expr::Max(xs) => kind(b) == 9 && same_all(xs, arguments(b)),
        Expr::Load(access) => same_at(access, b),
    }
}

// The same of arguments, one by one.
#[cycle(same)]
fn same_all(a: &[Expr], b: &[Expr]) -> bool
    ensures { result ≡ same_list (λ e f. same (expression_of e) (expression_of f)) a.now b.now }
{
    for (place, e) in a.iter().enumerate() {
        if place >= b.len() || !same(e, &b[place]) {
            return false;
        }
    }
    b.len() <= a.len()
}
