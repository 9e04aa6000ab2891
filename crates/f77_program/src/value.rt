// Values of constants: whole numbers of 64 bits that wrap (ANSI X3.9-1978, 6.1.5).

ghost use Rattle.std.specs.Prelude.{◌≡◌};
ghost use Rattle.nest_tree.specs.Values.{quotient};
ghost use Rattle.f77_scene.specs.Expressions.{sign_value, operator_value};
ghost use Rattle.f77_program.specs.Functions.{chosen_by};

use f77_forms::{Operator, Sign};
use nest_tree::arithmetic::{difference, product, sum, truncated_quotient};

/// The value behind a leading sign.
pub fn sign_value(sign: Sign, a: i64) -> i64
    ensures { result ≡ sign_value sign a }
{
    match sign {
        Sign::Plus => a,
        Sign::Minus => difference(0, a),
    }
}

/// The value of an operator's operands. A quotient by 0, which is a fault of its statement, counts as 0.
pub fn operator_value(operator: Operator, a: i64, b: i64) -> i64
    ensures { result ≡ operator_value operator a b }
{
    match operator {
        Operator::Add => sum(a, b),
        Operator::Subtract => difference(a, b),
        Operator::Multiply => product(a, b),
        Operator::Divide => quotient(a, b),
    }
}

/// MIN or MAX of two values.
pub fn chosen(minimum: bool, a: i64, b: i64) -> i64
    ensures { result ≡ chosen_by minimum a b }
{
    if minimum { a.min(b) } else { a.max(b) }
}

// A quotient, truncated toward zero; one by 0 counts as 0.
fn quotient(a: i64, divisor: i64) -> i64
    ensures { result ≡ quotient a divisor }
{
    if divisor == 0 {
        0
    } else {
        truncated_quotient(a, divisor)
    }
}
