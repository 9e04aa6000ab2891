// Heads of loops.

ghost use Rattle.std.specs.Prelude.{◌≡◌, ◌++◌, OnOk, string_bytes};
ghost use Rattle.nest_tree.specs.View.{head_of, tree_of};
ghost use Rattle.c_statements.specs.Layout.{begun, change, compared, ended, loop_text, stepped};
ghost use Rattle.c_statements.specs.Texts.{Written};

use crate::lines::put_indent;
use c_expressions::{Scope, put_loop, put_natural, put_text};
use nest_tree::Nest;
use std::alloc::AllocError;

/// Appends the head of a loop, all of whose trips are made.
pub fn put_loop_head(
    scope: &Scope,
    out: &mut String,
    nest: &Nest,
    depth: u32,
) -> Result<(), AllocError>
    ensures { OnOk result (Written (loop_text (tree_of scope.now.program.now) (head_of nest.now))
        (string_bytes out.old) (string_bytes out.new)) }
{
    put_indent(out, depth)?;
    put_begun(out, nest.number)?;
    scope.put_form(out, &nest.m1)?;
    put_ended(out, nest.number, nest.step)?;
    scope.put_form(out, &nest.m2)?;
    put_stepped(out, nest.number, nest.step)
}

/// Appends the beginning of a loop's head, in front of its first value.
pub fn put_begun(out: &mut String, number: u32) -> Result<(), AllocError>
    ensures { OnOk result (string_bytes out.new ≡ string_bytes out.old ++ begun number) }
{
    put_text(out, "for (number ")?;
    put_loop(out, number)?;
    put_text(out, " = ")
}

/// Appends the comparison of a loop's value with the last one, in front of that.
pub fn put_ended(out: &mut String, number: u32, step: i64) -> Result<(), AllocError>
    ensures { OnOk result (string_bytes out.new ≡ string_bytes out.old ++ ended number step) }
{
    put_text(out, "; ")?;
    put_loop(out, number)?;
    put_compared(out, step)
}

/// Appends how a loop's first value, or any, is compared with the last one.
pub fn put_compared(out: &mut String, step: i64) -> Result<(), AllocError>
    ensures { OnOk result (string_bytes out.new ≡ string_bytes out.old ++ compared step) }
{
    if step < 0 {
        put_text(out, " >= ")
    } else {
        put_text(out, " <= ")
    }
}

/// Appends the step of a loop, and the end of its head.
pub fn put_stepped(out: &mut String, number: u32, step: i64) -> Result<(), AllocError>
    ensures { OnOk result (string_bytes out.new ≡ string_bytes out.old ++ stepped number step) }
{
    put_text(out, "; ")?;
    put_loop(out, number)?;
    put_change(out, step)?;
    put_text(out, ") {\n")
}

fn put_change(out: &mut String, step: i64) -> Result<(), AllocError>
    ensures { OnOk result (string_bytes out.new ≡ string_bytes out.old ++ change step) }
{
    if step == 1 {
        put_text(out, "++")
    } else if step == -1 {
        put_text(out, "--")
    } else if step < 0 {
        put_text(out, " -= ")?;
        put_natural(out, step.unsigned_abs())
    } else {
        put_text(out, " += ")?;
        put_natural(out, step.unsigned_abs())
    }
}
