// Names that are declared again.

ghost use Rattle.std.specs.Prelude.{◌≡◌, false, map, IfOk};
ghost use Rattle.f77_forms.specs.View as view;
ghost use Rattle.f77_scene.specs.Scene as scene;
ghost use Rattle.f77_scene.specs.Statements as statements;
ghost use Rattle.f77_scene.specs.Tests as tests;
ghost use Rattle.f77_program.specs.Bases as spec;
ghost use Rattle.f77_program.specs.Pieces.{names_view};

use crate::known::Known;
use crate::names::Names;
use f77_forms::{Declarator, Definition, Statement};
use std::alloc::{AllocError, Global};

/// Whether a name comes twice in INTEGER statements, or has two declarators, two values, or a
/// declarator and a value.
pub fn declares_again(
    alloc: Global,
    known: &Known,
    statement: &Statement,
) -> Result<bool, AllocError>
    ensures { IfOk result (λ again. again ≡ tests.declares_again known.now
        (view.statement_of statement.now)) }
{
    match statement {
        Statement::Integer(declarators) => {
            let names = declarator_names(alloc, false, declarators.as_slice())?;
            if comes_again(alloc, known, true, &names)? {
                return Ok(true);
            }
            declares_arrays_again(alloc, known, declarators.as_slice())
        }
        Statement::Dimension(declarators) => {
            declares_arrays_again(alloc, known, declarators.as_slice())
        }
        Statement::Parameter(definitions) => {
            let names = definition_names(alloc, definitions.as_slice())?;
            comes_again(alloc, known, false, &names)
        }
        _ => Ok(false),
    }
}

fn declares_arrays_again(
    alloc: Global,
    known: &Known,
    declarators: &[Declarator],
) -> Result<bool, AllocError>
    ensures { IfOk result (λ again. again ≡ scene.comes_again (spec.base_of known.now false)
        (statements.declarator_names (statements.bounded (map view.declarator_of
        declarators.now)))) }
{
    let names = declarator_names(alloc, true, declarators)?;
    let again = comes_again(alloc, known, false, &names)?;
    Ok(again)
}

/// Whether a name stands among the declared ones, those of INTEGER statements or those with a
/// declarator or a value, or twice among these.
fn comes_again(
    alloc: Global,
    known: &Known,
    integer: bool,
    names: &[&[u8]],
) -> Result<bool, AllocError>
    ensures { IfOk result (λ again. again ≡ scene.comes_again (spec.base_of known.now integer)
        (names_view names.now)) }
{
    let mut front = Names::new(alloc);
    for name in names {
        if is_declared(known, integer, name) || front.contains(name) {
            return Ok(true);
        }
        front.push(alloc, name)?;
    }
    Ok(false)
}

fn is_declared(known: &Known, integer: bool, name: &[u8]) -> bool
    ensures { result ≡ scene.is_among (spec.base_of known.now integer) name.now }
{
    if integer {
        known.is_integer(name)
    } else {
        known.is_array(name) || known.is_constant(name)
    }
}

/// The names of declarators, or of those that declare an array.
pub fn declarator_names<'a>(
    alloc: Global,
    bounded: bool,
    declarators: &'a [Declarator],
) -> Result<Vec<&'a [u8]>, AllocError>
    ensures { IfOk result (λ names. names_view names.items
        ≡ spec.names_declared bounded (map view.declarator_of declarators.now)) }
{
    let mut names = Vec::new(alloc);
    for declarator in declarators {
        if !bounded || !declarator.bounds.is_empty() {
            names.push(declarator.name.as_slice())?;
        }
    }
    Ok(names)
}

fn definition_names<'a>(
    alloc: Global,
    definitions: &'a [Definition],
) -> Result<Vec<&'a [u8]>, AllocError>
    ensures { IfOk result (λ names. names_view names.items
        ≡ map (λ d. d.name) (map view.definition_of definitions.now)) }
{
    let mut names = Vec::new(alloc);
    for definition in definitions {
        names.push(definition.name.as_slice())?;
    }
    Ok(names)
}
