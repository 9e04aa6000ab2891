// What is known behind a statement.

ghost use Rattle.std.specs.Prelude.{◌≡◌, ◌++◌, ◌<◌, ◌^◌, map, filter, IfOk, OnOk};
ghost use Rattle.f77_forms.specs.View as view;
ghost use Rattle.f77_scene.specs.Behind as behind;
ghost use Rattle.f77_scene.specs.Limits as limits;
ghost use Rattle.f77_scene.specs.Statements as statements;
ghost use Rattle.f77_program.specs.Passed as spec;
ghost use Rattle.f77_program.specs.Pieces.{names_view};

use crate::declared::declarator_names;
use crate::known::Known;
use crate::limits::bounds_of;
use crate::pieces::{names_in, pieces_in};
use f77_forms::{Bound, Declarator, Statement};
use std::alloc::{AllocError, Global};

/// An array that is declared.
#[derive(Drop)]
pub struct Declared<'a> {
    pub name: &'a [u8],
    pub bounds: Vec<(i64, i64)>,
}

/// The statement with this label has no fault, and the names of a PARAMETER statement are known;
/// behind it all that it says is.
pub fn pass_statement(
    alloc: Global,
    known: &mut Known,
    label: u32,
    statement: &Statement,
) -> Result<(), AllocError>
    requires { known.old.loops < 2 ^ 31 }
    ensures { OnOk result (known.new ≡ spec.passed known.old label
        (view.statement_of statement.now)) }
{
    enter(alloc, known, label, statement)?;
    let names = statement_names(alloc, known, statement)?;
    known.note(alloc, label, &names)?;
    Ok(())
}

fn enter(
    alloc: Global,
    known: &mut Known,
    label: u32,
    statement: &Statement,
) -> Result<(), AllocError>
    requires { known.old.loops < 2 ^ 31 }
    ensures { OnOk result (known.new ≡ spec.entered known.old label
        (view.statement_of statement.now)) }
{
    match statement {
        Statement::Program(_) => Ok(()),
        Statement::Parameter(_) => Ok(()),
        Statement::Integer(declarators) => {
            let names = declarator_names(alloc, false, declarators.as_slice())?;
            let arrays = arrays_of(alloc, known, declarators.as_slice())?;
            known.declare_integers(alloc, &names)?;
            declare(alloc, known, arrays)?;
            Ok(())
        }
        Statement::Dimension(declarators) => {
            let arrays = arrays_of(alloc, known, declarators.as_slice())?;
            declare(alloc, known, arrays)?;
            Ok(())
        }
        Statement::Do(statement) => {
            known.open(alloc, &statement.variable, statement.label.value())?;
            Ok(())
        }
        Statement::Assign(_) => execute(alloc, known, label, statement),
        Statement::If(..) => execute(alloc, known, label, statement),
        Statement::Print(_) => execute(alloc, known, label, statement),
        Statement::Continue => execute(alloc, known, label, statement),
        Statement::Stop => execute(alloc, known, label, statement),
        Statement::End => execute(alloc, known, label, statement),
    }
}

fn execute(
    alloc: Global,
    known: &mut Known,
    label: u32,
    statement: &Statement,
) -> Result<(), AllocError>
    ensures { OnOk result (known.new ≡ behind.behind_work known.old label
        (view.statement_of statement.now)) }
{
    let names = statement_names(alloc, known, statement)?;
    let scalars = scalars_among(alloc, known, &names)?;
    known.execute(alloc, label, &scalars)?;
    Ok(())
}

/// The names of variables and constants in a statement, in the order of the text.
fn statement_names<'a>(
    alloc: Global,
    known: &Known,
    statement: &'a Statement,
) -> Result<Vec<&'a [u8]>, AllocError>
    ensures { IfOk result (λ names. names_view names.items
        ≡ statements.names_of known.now (view.statement_of statement.now)) }
{
    let pieces = pieces_in(alloc, statement)?;
    let names = names_in(alloc, known, &pieces)?;
    Ok(names)
}

/// Of names those that are no array, no named constant and no variable of an open loop.
fn scalars_among<'a>(
    alloc: Global,
    known: &Known,
    names: &[&'a [u8]],
) -> Result<Vec<&'a [u8]>, AllocError>
    ensures { IfOk result (λ scalars. names_view scalars.items
        ≡ spec.scalars_among known.now (names_view names.now)) }
{
    let mut scalars = Vec::new(alloc);
    for name in names {
        if !(known.is_array(name) || known.is_constant(name) || known.is_open(name)) {
            scalars.push(*name)?;
        }
    }
    Ok(scalars)
}

/// The arrays that declarators declare.
fn arrays_of<'a>(
    alloc: Global,
    known: &Known,
    declarators: &'a [Declarator],
) -> Result<Vec<Declared<'a>>, AllocError>
    ensures { IfOk result (λ arrays. map spec.array_of arrays.items
        ≡ behind.arrays_of known.now (map view.declarator_of declarators.now)) }
{
    let mut arrays = Vec::new(alloc);
    for declarator in declarators {
        if !declarator.bounds.is_empty() {
            let bounds = bounds_among(alloc, known, declarator.bounds.as_slice())?;
            arrays.push(Declared {
                name: declarator.name.as_slice(),
                bounds,
            })?;
        }
    }
    Ok(arrays)
}

fn bounds_among(
    alloc: Global,
    known: &Known,
    bounds: &[Bound],
) -> Result<Vec<(i64, i64)>, AllocError>
    ensures { IfOk result (λ values. values.items ≡ map (limits.bounds_of known.now)
        (map view.bound_of bounds.now)) }
{
    let mut values = Vec::new(alloc);
    for bound in bounds {
        values.push(bounds_of(alloc, known, bound)?)?;
    }
    Ok(values)
}

fn declare(alloc: Global, known: &mut Known, arrays: Vec<Declared>) -> Result<(), AllocError>
    ensures { OnOk result (known.new ≡ record known.old {
      arrays = known.old.arrays
          ++ map spec.array_of arrays.entry.items;
    }) }
{
    for array in arrays {
        known.declare_array(alloc, array.name, array.bounds)?;
    }
    Ok(())
}
