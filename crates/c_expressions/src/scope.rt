// What names stand for where an expression is written.

ghost use Rattle.std.specs.Prelude.{◌≡◌, ◌<◌, ◌++◌, map, OnOk, string_bytes};
ghost use Rattle.nest_tree.specs.Form.{numbered};
ghost use Rattle.nest_tree.specs.Layout.{bounds_of};
ghost use Rattle.nest_tree.specs.Tree.{param_values};
ghost use Rattle.nest_tree.specs.View.{tree_of};
ghost use Rattle.c_expressions.specs.Names.{cleaned, variable_name};
ghost use Rattle.c_expressions.specs.Told.{scalar_cell};

use crate::text::{put_natural, put_text};
use nest_tree::Program;
use std::alloc::{AllocError, Global};

/// What names stand for where an expression is written: a program, and the scalars of which a
/// processor has cells of its own there, by their numbers from 1.
#[derive(Clone, Copy)]
pub struct Scope<'a> {
    pub alloc: Global,
    pub program: &'a Program,
    pub privates: &'a [u32],
}

impl Scope<'_> {
    /// The value of a named constant, by its number from 1, or 0.
    pub fn parameter(&self, number: u32) -> i64
        ensures { result ≡ numbered (param_values (tree_of self.now.program.now)) number }
    {
        match self.program.params.get((number as usize).saturating_sub(1)) {
            Some(parameter) => parameter.value,
            None => 0,
        }
    }

    /// The bounds of a variable, by its number from 1.
    pub fn bounds(&self, variable: u32) -> &[(i64, i64)]
        ensures { result.now ≡ bounds_of (tree_of self.now.program.now) variable }
    {
        match self
            .program
            .variables
            .get((variable as usize).saturating_sub(1))
        {
            Some(array) => &array.bounds,
            None => &[],
        }
    }

    /// Appends a word and the name of a variable, by its number from 1.
    pub fn put_name(&self, out: &mut String, word: &str, variable: u32) -> Result<(), AllocError>
        ensures { OnOk result (string_bytes out.new ≡ string_bytes out.old
            ++ (word.now ++ variable_name (tree_of self.now.program.now) variable)) }
    {
        put_text(out, word)?;
        match self
            .program
            .variables
            .get((variable as usize).saturating_sub(1))
        {
            Some(named) => put_cleaned(out, &named.name),
            None => put_natural(out, u64::from(variable)),
        }
    }

    // Appends a scalar's cell: its own, where a processor has one.
    pub(crate) fn put_scalar(&self, out: &mut String, variable: u32) -> Result<(), AllocError>
        ensures { OnOk result (string_bytes out.new ≡ string_bytes out.old
            ++ scalar_cell (tree_of self.now.program.now) self.now.privates.now variable) }
    {
        if self.privates.contains(&variable) {
            self.put_name(out, "o_", variable)
        } else {
            self.put_name(out, "v_", variable)
        }
    }
}

// Appends a FORTRAN name: a byte that none has stands as an underscore.
fn put_cleaned(out: &mut String, name: &[u8]) -> Result<(), AllocError>
    ensures { OnOk result (string_bytes out.new ≡ string_bytes out.old ++ map cleaned name.now) }
{
    for &byte in name {
        out.push(char::from(cleaned(byte)))?;
    }
    Ok(())
}

fn cleaned(byte: u8) -> u8
    ensures value { result ≡ cleaned byte }
    ensures ascii { result < 128 }
{
    match byte {
        b'0'..=b'9' | b'A'..=b'Z' | b'a'..=b'z' => byte,
        _ => b'_',
    }
}
