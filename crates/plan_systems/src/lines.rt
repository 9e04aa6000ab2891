// The lines of a plan's obligations.

ghost use Rattle.std.specs.Prelude.{◌≡◌, ◌++◌, ◌∷◌, [], IfOk, OnOk};
ghost use Rattle.std.specs.Fmt.{decimal, signed_decimal};
ghost use Rattle.std.specs.List.{flat_map};
ghost use Rattle.comm_system.specs.Obligations.{obligations_of};
ghost use Rattle.nest_tree.specs.View.{tree_of};
ghost use Rattle.sync_plan.specs.Fit.{IsFit};
ghost use Rattle.plan_systems.specs.SystemsText.{coefs_text, counts_text, head_text, name_text, range_text, row_text, sizes_text, system_text, systems_text};

use comm_system::Obligation;
use comm_system::obligations::obligations;
use farkas_cert::{Row, System};
use itoa::Buffer;
use nest_tree::Program;
use std::alloc::{AllocError, Global};
use sync_plan::Plan;

/// The text of the obligations of a plan that fits the program, in order. The error is that memory
/// ran out.
pub fn write_systems(alloc: Global, program: &Program, plan: &Plan) -> Result<Vec<u8>, AllocError>
    requires fits { IsFit (tree_of program.now) plan.now }
    ensures { IfOk result (λ text. text.items
        ≡ systems_text (obligations_of (tree_of program.now) plan.now)) }
{
    let found = obligations(alloc, program, plan)?;
    text_of(alloc, &found)
}

// The text of obligations, in order.
fn text_of(alloc: Global, found: &[Obligation]) -> Result<Vec<u8>, AllocError>
    ensures { IfOk result (λ text. text.items ≡ systems_text found.now) }
{
    let mut text = Vec::new(alloc);
    push_systems(&mut text, found)?;
    Ok(text)
}

// The lines of obligations, behind a text.
fn push_systems(text: &mut Vec<u8>, found: &[Obligation]) -> Result<(), AllocError>
    ensures { OnOk result (text.new.items ≡ text.old.items ++ systems_text found.now) }
{
    for obligation in found {
        push_system(text, obligation)?;
    }
    Ok(())
}

// The lines of an obligation.
fn push_system(text: &mut Vec<u8>, obligation: &Obligation) -> Result<(), AllocError>
    ensures { OnOk result (text.new.items ≡ text.old.items ++ system_text obligation.now) }
{
    push_head(text, obligation)?;
    push_rows(text, obligation.system.rows())?;
    Ok(())
}

// The head line of an obligation.
fn push_head(text: &mut Vec<u8>, o: &Obligation) -> Result<(), AllocError>
    ensures { OnOk result (text.new.items ≡ text.old.items ++ head_text o.now) }
{
    push_name(text, o)?;
    push_sizes(text, o)?;
    Ok(())
}

// How far the owners are apart, how many unknowns there are, and how many rows.
fn push_sizes(text: &mut Vec<u8>, o: &Obligation) -> Result<(), AllocError>
    ensures { OnOk result (text.new.items ≡ text.old.items ++ sizes_text o.now) }
{
    push_range(text, o.range)?;
    push_counts(text, &o.system)?;
    Ok(())
}

// How far the owners are apart: the difference below, and the one above.
fn push_range(text: &mut Vec<u8>, range: (i32, i32)) -> Result<(), AllocError>
    ensures { OnOk result (text.new.items ≡ text.old.items ++ range_text range) }
{
    push_signed(text, b":", i128::from(range.0))?;
    push_signed(text, b":", i128::from(range.1))
}

// How many unknowns a system has, and how many rows, and the end of the line.
fn push_counts(text: &mut Vec<u8>, system: &System) -> Result<(), AllocError>
    ensures { OnOk result (text.new.items ≡ text.old.items ++ counts_text system.now) }
{
    push_part(text, b" ", u64::from(system.vars()))?;
    push_part(text, b" ", system.rows().len() as u64)?;
    text.push(b'\n')?;
    Ok(())
}

// What an obligation speaks of.
fn push_name(text: &mut Vec<u8>, o: &Obligation) -> Result<(), AllocError>
    ensures { OnOk result (text.new.items ≡ text.old.items ++ name_text o.now) }
{
    push_part(text, b"system O", o.number)?;
    push_part(text, b":", u64::from(o.lines.0))?;
    push_part(text, b"-", u64::from(o.lines.1))?;
    push_part(text, b":V", u64::from(o.variable))?;
    push_part(text, b":L", u64::from(o.level))?;
    push_part(text, b":P", u64::from(o.piece))
}

// Letters and a number.
fn push_part(text: &mut Vec<u8>, letters: &[u8], number: u64) -> Result<(), AllocError>
    ensures { OnOk result (text.new.items ≡ text.old.items ++ (letters.now ++ decimal number)) }
{
    let mut buffer = Buffer::new();
    text.extend_from_slice(letters)?;
    text.extend_from_slice(buffer.format(number).as_bytes())
}

// Letters and a number with its sign.
fn push_signed(text: &mut Vec<u8>, letters: &[u8], number: i128) -> Result<(), AllocError>
    ensures { OnOk result (text.new.items ≡ text.old.items
        ++ (letters.now ++ signed_decimal number)) }
{
    let mut buffer = Buffer::new();
    text.extend_from_slice(letters)?;
    text.extend_from_slice(buffer.format(number).as_bytes())
}

// The lines of rows.
fn push_rows(text: &mut Vec<u8>, rows: &[Row]) -> Result<(), AllocError>
    ensures { OnOk result (text.new.items ≡ text.old.items ++ flat_map row_text rows.now) }
{
    for row in rows {
        push_row(text, row)?;
    }
    Ok(())
}

// A row's line.
fn push_row(text: &mut Vec<u8>, row: &Row) -> Result<(), AllocError>
    ensures { OnOk result (text.new.items ≡ text.old.items ++ row_text row.now) }
{
    push_coefs(text, row.coefs.as_slice())?;
    push_signed(text, b"<= ", row.bound)?;
    text.push(b'\n')?;
    Ok(())
}

// Coefficients, each with a blank behind it.
fn push_coefs(text: &mut Vec<u8>, coefs: &[i128]) -> Result<(), AllocError>
    ensures { OnOk result (text.new.items ≡ text.old.items ++ coefs_text coefs.now) }
{
    for &coef in coefs {
        push_signed(text, b"", coef)?;
        text.push(b' ')?;
    }
    Ok(())
}
