// An expression and all that stands in it.

ghost use Rattle.std.specs.Prelude.{◌≡◌, ◌++◌, map, reverse, IfOk, OnOk};
ghost use Rattle.f77_forms.specs.View.{expression_of};
ghost use Rattle.f77_scene.specs.Expressions as scene;
ghost use Rattle.f77_program.specs.Operands.{operands_of, forms_of};

use f77_forms::Expression;
use std::alloc::{AllocError, Global};

/// The expression and its parts, in the order of the text: an operator or a name in front of its
/// operands. Nothing recurses: what is still to come waits in a list of its own.
pub fn parts_of<'a>(alloc: Global, e: &'a Expression) -> Result<Vec<&'a Expression>, AllocError>
    ensures { IfOk result (λ parts. forms_of parts.items ≡ scene.parts_of (expression_of e.now)) }
{
    let mut parts = Vec::new(alloc);
    let mut waiting = Vec::new(alloc);
    waiting.push(e)?;
    while let Some(part) = waiting.pop() {
        parts.push(part)?;
        push_operands(&mut waiting, part)?;
    }
    Ok(parts)
}

/// The operands of a part, the last one first.
fn push_operands<'a>(
    waiting: &mut Vec<&'a Expression>,
    part: &'a Expression,
) -> Result<(), AllocError>
    ensures { OnOk result (forms_of waiting.new.items ≡ forms_of waiting.old.items
        ++ reverse (operands_of (expression_of part.now))) }
{
    match part {
        Expression::Number(_) | Expression::Name(_) => {}
        Expression::Call(_, arguments) => push_last_first(waiting, arguments.as_slice())?,
        Expression::Parenthesized(e) | Expression::Signed(_, e) => waiting.push(e)?,
        Expression::Binary(_, left, right) => {
            waiting.push(right)?;
            waiting.push(left)?;
        }
    }
    Ok(())
}

/// Arguments, the last one first.
fn push_last_first<'a>(
    waiting: &mut Vec<&'a Expression>,
    arguments: &'a [Expression],
) -> Result<(), AllocError>
    ensures { OnOk result (forms_of waiting.new.items ≡ forms_of waiting.old.items
        ++ reverse (map expression_of arguments.now)) }
{
    for place in (0..arguments.len()).rev() {
        waiting.push(&arguments[place])?;
    }
    Ok(())
}
