// What an expression does with a scalar.

ghost use Rattle.std.specs.Prelude.{◌≡◌};
ghost use Rattle.std.specs.List.{list_any};
ghost use Rattle.nest_tree.specs.Loads.{loads_among};
ghost use Rattle.nest_tree.specs.View.{expression_of, expressions_from};
ghost use Rattle.own_scalars.specs.OwnScalars.{adds_once, adds_to, is_of, loads};

use nest_tree::{Access, Expr};

// Whether an access is of the scalar with this number, from 1.
pub(crate) fn is_of(access: &Access, scalar: u32) -> bool
    ensures { result ≡ is_of scalar access.now }
{
    access.variable == scalar && access.subscripts.as_slice().is_empty()
}

// Whether an expression loads the scalar.
#[cycle(loads)]
pub(crate) fn loads(e: &Expr, scalar: u32) -> bool
    ensures { result ≡ loads scalar (expression_of e.now) }
{
    match e {
        Expr::Number(_) | Expr::LoopValue(_) | Expr::Param(_) => false,
        Expr::Load(access) => is_of(access, scalar),
        Expr::Neg(a) | Expr::Div(a, _) => loads(a, scalar),
        Expr::Add(a, b) | Expr::Sub(a, b) | Expr::Mul(a, b) => {
            loads(a, scalar) || loads(b, scalar)
        }
        Expr::Min(arguments) => one_loads(arguments, scalar),
        Expr::Max(arguments) => one_loads(arguments, scalar),
    }
}

// Whether one of these arguments loads it.
#[cycle(loads)]
fn one_loads(arguments: &[Expr], scalar: u32) -> bool
    ensures { result ≡ list_any (is_of scalar) (loads_among (expressions_from arguments.now)) }
{
    for argument in arguments {
        if loads(argument, scalar) {
            return true;
        }
    }
    false
}

/// Whether an expression adds the scalar with this number, from 1, once: it is the scalar's load,
/// or a sum of which one side adds it once and the other doesn't load it, or a difference of which
/// the left side does and the right side doesn't load it. It takes no memory.
pub fn adds_once(e: &Expr, scalar: u32) -> bool
    ensures { result ≡ adds_once scalar (expression_of e.now) }
{
    match e {
        Expr::Load(access) => is_of(access, scalar),
        Expr::Add(a, b) => {
            (adds_once(a, scalar) && !loads(b, scalar))
                || (adds_once(b, scalar) && !loads(a, scalar))
        }
        Expr::Sub(a, b) => adds_once(a, scalar) && !loads(b, scalar),
        Expr::Number(_)
        | Expr::LoopValue(_)
        | Expr::Param(_)
        | Expr::Neg(_)
        | Expr::Mul(_, _)
        | Expr::Div(_, _)
        | Expr::Min(_)
        | Expr::Max(_) => false,
    }
}

// Whether an expression is a sum or a difference that adds the scalar once.
pub(crate) fn adds_to(e: &Expr, scalar: u32) -> bool
    ensures { result ≡ adds_to scalar (expression_of e.now) }
{
    matches!(e, Expr::Add(_, _) | Expr::Sub(_, _)) && adds_once(e, scalar)
}
