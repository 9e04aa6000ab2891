// The variables of a program.

ghost use Rattle.std.specs.Prelude.{◌≡◌, ◌<◌, length, map, reverse, IfOk};
ghost use Rattle.nest_tree.specs.View.{declaration_of};
ghost use Rattle.f77_scene.specs.Reading as reading;
ghost use Rattle.f77_scene.specs.Scene.{bounds_named};
ghost use Rattle.f77_source.specs.Arrays as spec;
ghost use Rattle.f77_source.specs.Limits.{KeepsLimits};

use crate::placing::placing_of;
use f77_program::{Known, Names};
use nest_tree::{Spread, Variable};
use std::alloc::{AllocError, Global};

/// The names of the variables, by what is known behind the last statement: arrays, and scalars
/// that are stored or read, as their names first appear. 2^32 - 1 of them count as want of memory.
pub fn variables_of(alloc: Global, known: &Known) -> Result<Names, AllocError>
    ensures names { IfOk result (λ names. names ≡ reading.variables_of known.now) }
    ensures few { IfOk result (λ names. length names < 4294967295) }
{
    let mut names = Names::new(alloc);
    for name in known.names() {
        if known.is_array(name) || known.is_scalar(name) {
            names.push(alloc, name)?;
        }
    }
    if names.as_slice().len() >= u32::MAX as usize {
        return Err(AllocError);
    }
    Ok(names)
}

/// The variables with these names; the texts of directives come the last one first.
pub fn declarations(
    alloc: Global,
    known: &Known,
    directives: &Names,
    names: &Names,
) -> Result<Vec<Variable>, AllocError>
    requires { KeepsLimits known.now }
    ensures { IfOk result (λ variables. map declaration_of variables.items
        ≡ map (reading.declaration (reverse directives.now) known.now) names.now) }
{
    let mut variables = Vec::new(alloc);
    for name in names.as_slice() {
        variables.push(declaration(alloc, known, directives, name)?)?;
    }
    Ok(variables)
}

fn declaration(
    alloc: Global,
    known: &Known,
    directives: &Names,
    name: &[u8],
) -> Result<Variable, AllocError>
    requires { KeepsLimits known.now }
    ensures { IfOk result (λ variable. declaration_of variable
        ≡ reading.declaration (reverse directives.now) known.now name.now) }
{
    if known.is_array(name) {
        return array(alloc, known, directives, name);
    }
    Ok(Variable {
        name: Vec::from_slice(alloc, name)?,
        bounds: Vec::new(alloc),
        axis: 0,
        spread: Spread::Block,
    })
}

/// The array of this name.
fn array(
    alloc: Global,
    known: &Known,
    directives: &Names,
    name: &[u8],
) -> Result<Variable, AllocError>
    requires { KeepsLimits known.now }
    ensures { IfOk result (λ variable. declaration_of variable
        ≡ spec.array (reverse directives.now) known.now name.now) }
{
    let (axis, spread) = placing_of(alloc, directives, name, dimensions(known, name))?;
    Ok(Variable {
        name: Vec::from_slice(alloc, name)?,
        bounds: Vec::from_slice(alloc, known.bounds(name))?,
        axis,
        spread,
    })
}

/// How many dimensions the array of this name has, none where there is no such array.
fn dimensions(known: &Known, name: &[u8]) -> u32
    requires { KeepsLimits known.now }
    ensures { result ≡ length (bounds_named known.now.arrays name.now) }
{
    known.bounds(name).len() as u32
}
