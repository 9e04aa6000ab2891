// What expressions come to, by what their parts come to.

ghost use Rattle.std.specs.Prelude.{◌≡◌, ◌<◌, ◌≤◌, length, ◌++◌, ℕ, List, [], ◌∷◌, pos, IfOk, OnOk, map, reverse, ◌&&◌, ◌||◌, not};
ghost use Rattle.f77_forms.specs.View.{expression_of};
ghost use Rattle.f77_program.specs.Measures as spec;
ghost use Rattle.f77_program.specs.Measures.{measure_of};
ghost use Rattle.f77_forms.specs.Form as forms;
ghost use Rattle.f77_forms.specs.Form.{ExpressionForm};
ghost use Rattle.f77_scene.specs.Expressions.{parts_of};
ghost use Rattle.f77_program.specs.Operands.{operands_of, forms_of};
ghost use Rattle.f77_scene.specs.Scene.{Scene, is_function, is_open};
ghost use Rattle.std.specs.List.{list_all, list_any};
ghost use Rattle.f77_program.specs.declared.measure.Measure.{Measure};
ghost use Rattle.f77_program.specs.Linear as linear;

use crate::known::Known;
use crate::linear;
use crate::linear::{Linear, constant, loop_variable, negated, product, sum};
use crate::measure::Measure;
use crate::reach::{Reach, reach_of};
use crate::stack::{popped, push, taken};
use crate::value::{chosen, operator_value, sign_value};
use f77_forms::{Expression, Number, Operator, Sign};
use std::alloc::{AllocError, Global};

/// A number.
fn of_number(alloc: Global, number: &Number) -> Measure
    ensures { (known : Scene) → result ≡ measure_of known (forms.number number.now) }
{
    let value = number.value() as i64;
    Measure {
        constant: true,
        value,
        looped: false,
        linear: linear::number(alloc, value),
        divided: false,
        subscripts: Reach::Within,
    }
}

/// A name alone.
fn of_name(alloc: Global, known: &Known, name: &[u8]) -> Result<Measure, AllocError>
    ensures { IfOk result (λ m. m ≡ measure_of known.now (forms.name name.now)) }
{
    Ok(Measure {
        constant: known.is_constant(name),
        value: known.constant_value(name),
        looped: known.is_open(name),
        linear: name_linear(alloc, known, name)?,
        divided: false,
        subscripts: Reach::Within,
    })
}

fn name_linear(alloc: Global, known: &Known, name: &[u8]) -> Result<Linear, AllocError>
    ensures { IfOk result (λ l. l ≡ spec.name_linear known.now name.now) }
{
    if let Some(number) = known.loop_number(name) {
        return loop_variable(alloc, number);
    }
    match known.constant_number(name) {
        Some(number) => constant(alloc, number),
        None => Ok(Linear::NotAffine),
    }
}

/// A name with arguments, which come to these.
fn of_call(alloc: Global, known: &Known, name: &[u8], arguments: &[Measure]) -> Measure
    ensures { result ≡ spec.call_measure known.now name.now arguments.now }
{
    let constant = is_constant_call(known, name, arguments);
    let value = chosen_among(name == b"MIN".as_slice(), arguments);
    Measure {
        constant,
        value,
        looped: is_looped_call(known, name, arguments),
        linear: value_linear(alloc, constant, value),
        divided: is_any_divided(arguments),
        subscripts: call_reach(known.is_array(name), arguments),
    }
}

fn are_constant(arguments: &[Measure]) -> bool
    ensures { result ≡ list_all (λ (m : Measure). m.constant) arguments.now }
{
    arguments.iter().all(|argument| argument.constant)
}

fn is_any_looped(arguments: &[Measure]) -> bool
    ensures { result ≡ list_any (λ (m : Measure). m.looped) arguments.now }
{
    arguments.iter().any(|argument| argument.looped)
}

fn is_any_divided(arguments: &[Measure]) -> bool
    ensures { result ≡ list_any (λ (m : Measure). m.divided) arguments.now }
{
    arguments.iter().any(|argument| argument.divided)
}

/// What the subscripts in a name with arguments are, which are subscripts where it is an array.
fn call_reach(array: bool, arguments: &[Measure]) -> Reach
    ensures { result ≡ spec.call_reach array arguments.now }
{
    if array {
        linear_reaches(arguments).also(inner_reaches(arguments))
    } else {
        inner_reaches(arguments)
    }
}

pub fn linear_reaches(arguments: &[Measure]) -> Reach
    ensures { result ≡ spec.linear_reaches arguments.now }
{
    let mut reach = Reach::Within;
    for argument in arguments {
        reach = reach.also(reach_of(&argument.linear));
    }
    reach
}

pub fn inner_reaches(arguments: &[Measure]) -> Reach
    ensures { result ≡ spec.inner_reaches arguments.now }
{
    let mut reach = Reach::Within;
    for argument in arguments {
        reach = reach.also(argument.subscripts);
    }
    reach
}

/// Whether it is a quotient by what is no constant or is 0.
fn is_bad_division(operator: Operator, divisor: &Measure) -> bool
    ensures { result ≡ spec.is_bad_division operator divisor.now }
{
    operator == Operator::Divide && !(divisor.constant && divisor.value != 0)
}

/// Whether it is MIN or MAX of constants.
fn is_constant_call(known: &Known, name: &[u8], arguments: &[Measure]) -> bool
    ensures { result ≡ (is_function known.now name.now && list_all (λ (m : Measure). m.constant)
        arguments.now) }
{
    known.is_function(name) && are_constant(arguments)
}

/// Whether the variable of a loop is its name or stands in its arguments.
fn is_looped_call(known: &Known, name: &[u8], arguments: &[Measure]) -> bool
    ensures { result ≡ ((not (is_function known.now name.now) && is_open known.now name.now) ||
        list_any (λ (m : Measure). m.looped) arguments.now) }
{
    (!known.is_function(name) && known.is_open(name)) || is_any_looped(arguments)
}

/// The least or the greatest of the arguments' values, 0 where there is none.
fn chosen_among(minimum: bool, arguments: &[Measure]) -> i64
    ensures { result ≡ spec.chosen_among minimum arguments.now }
{
    let Some((first, others)) = arguments.split_first() else {
        return 0;
    };
    let mut value = first.value;
    for argument in others {
        value = chosen(minimum, value, argument.value);
    }
    value
}

/// The value of a constant as a form; anything else is not affine here.
fn value_linear(alloc: Global, constant: bool, value: i64) -> Linear
    ensures { result ≡ spec.value_linear constant value }
{
    if constant {
        linear::number(alloc, value)
    } else {
        Linear::NotAffine
    }
}

/// A term behind a leading sign.
fn of_signed(alloc: Global, sign: Sign, term: Measure) -> Result<Measure, AllocError>
    ensures { IfOk result (λ m. m ≡ spec.signed_measure sign term) }
{
    match sign {
        Sign::Plus => Ok(term),
        Sign::Minus => Ok(Measure {
            constant: term.constant,
            value: sign_value(sign, term.value),
            looped: term.looped,
            linear: negated(alloc, term.linear)?,
            divided: term.divided,
            subscripts: term.subscripts,
        }),
    }
}

/// An operator between two operands.
fn of_binary(
    alloc: Global,
    operator: Operator,
    left: Measure,
    right: Measure,
) -> Result<Measure, AllocError>
    ensures { IfOk result (λ m. m ≡ spec.binary_measure operator left right) }
{
    let constant = left.constant && right.constant;
    let value = operator_value(operator, left.value, right.value);
    let looped = left.looped || right.looped;
    let divided = is_bad_division(operator, &right) || left.divided || right.divided;
    let subscripts = left.subscripts.also(right.subscripts);
    let linear = match operator {
        Operator::Add => sum(alloc, left.linear, right.linear)?,
        Operator::Subtract => difference(alloc, left.linear, right.linear)?,
        Operator::Multiply => multiplied(alloc, &left, &right)?,
        Operator::Divide => value_linear(alloc, constant, value),
    };
    Ok(Measure {
        constant,
        value,
        looped,
        linear,
        divided,
        subscripts,
    })
}

fn difference(alloc: Global, left: Linear, right: Linear) -> Result<Linear, AllocError>
    ensures { IfOk result (λ l. l ≡ linear.added left (linear.negated right)) }
{
    let right = negated(alloc, right)?;
    sum(alloc, left, right)
}

/// The product of two factors, of which one has no loop variable.
fn multiplied(alloc: Global, left: &Measure, right: &Measure) -> Result<Linear, AllocError>
    ensures { IfOk result (λ l. l ≡ spec.multiplied left.now right.now) }
{
    if left.looped && right.looped {
        return Ok(Linear::NotAffine);
    }
    match (&left.linear, &right.linear) {
        (Linear::NotAffine, _) | (_, Linear::NotAffine) => Ok(Linear::NotAffine),
        (Linear::Past(number), _) | (_, Linear::Past(number)) => Ok(Linear::Past(*number)),
        (Linear::Within(form), Linear::Within(other)) => {
            if left.looped {
                product(alloc, right.value, form)
            } else {
                product(alloc, left.value, other)
            }
        }
    }
}

/// What a part comes to, in place of what its operands come to, which lie on the stack, the first
/// of them on top.
pub fn apply(
    alloc: Global,
    known: &Known,
    part: &Expression,
    stack: &mut Vec<Measure>,
) -> Result<(), AllocError>
    requires { (front : List Measure) × (stack.old.items ≡ front
        ++ reverse (map (measure_of known.now) (operands_of (expression_of part.now)))) }
    ensures { OnOk result ((front : List Measure) → stack.old.items ≡ front
        ++ reverse (map (measure_of known.now) (operands_of (expression_of part.now)))
        → stack.new.items ≡ front ++ measure_of known.now (expression_of part.now) ∷ []) }
{
    match part {
        Expression::Number(number) => push(stack, of_number(alloc, number)),
        Expression::Name(name) => push(stack, of_name(alloc, known, name.as_slice())?),
        Expression::Call(name, arguments) => {
            let operands = taken(stack, arguments.len())?;
            push(
                stack,
                of_call(alloc, known, name.as_slice(), operands.as_slice()),
            )
        }
        Expression::Parenthesized(_) => Ok(()),
        Expression::Signed(sign, _) => {
            let term = popped(stack);
            push(stack, of_signed(alloc, *sign, term)?)
        }
        Expression::Binary(operator, _, _) => {
            let left = popped(stack);
            let right = popped(stack);
            push(stack, of_binary(alloc, *operator, left, right)?)
        }
    }
}

/// What an expression with these parts comes to. The parts are gone over from the last to the
/// first, so that the operands of each have been gone over in front of it.
pub fn measure(alloc: Global, known: &Known, parts: &[&Expression]) -> Result<Measure, AllocError>
    requires { (e : ExpressionForm) × (forms_of parts.now ≡ parts_of e) }
    ensures { IfOk result (λ m. (e : ExpressionForm) → forms_of parts.now ≡ parts_of e → m
        ≡ measure_of known.now e) }
{
    let mut stack = Vec::new(alloc);
    for place in (0..parts.len()).rev() {
        apply(alloc, known, parts[place], &mut stack)?;
    }
    Ok(popped(&mut stack))
}
