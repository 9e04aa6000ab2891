// The codes of all that a program assigns, made once.

ghost use Rattle.std.specs.Prelude.{◌≡◌, ℕ, ◌-◌, ◌≤◌, IfOk, List, OnOk, Some, length, slice_get};
ghost use Rattle.std.specs.List.{All};
ghost use Rattle.nest_tree.specs.View.{statement_of, statements_from, tree_of};
ghost use Rattle.nest_model.specs.Visits.{every};
ghost use Rattle.nest_walk.specs.Grown.{GrewBy};
ghost use Rattle.nest_walk.specs.Texts.{placed_in, placed_of};
ghost use Rattle.flat_code.specs.Codes.{registers_of};
ghost use Rattle.flat_code.specs.CodeTables.{HasCode, IsCodeTable, codes_of, most_registers};

use crate::code::{Code, registers_needed};
use crate::compile::code_of;
use nest_tree::{Item, Program};
use std::alloc::{AllocError, Global};

/// The codes of the values that a program assigns, by the number of the piece of work. A PRINT has
/// one without steps.
#[derive(Drop)]
pub struct CodeTable {
    codes: Vec<Code>,
    most: u32,
}

impl CodeTable {
    /// The table of a program.
    pub fn new(alloc: Global, program: &Program) -> Result<Self, AllocError>
        ensures { IfOk result (λ table. IsCodeTable (tree_of program.now) table) }
    {
        let mut codes = Vec::new(alloc);
        push_codes(alloc, &program.items, &mut codes)?;
        let most = most_needed(&codes)?;
        Ok(CodeTable { codes, most })
    }

    /// The code of the piece of work with this number, from 1, as a stop of a walk has it.
    pub fn work(&self, number: u32) -> &Code
        requires low { 1 ≤ number }
        requires high { number ≤ length (codes_of self.now) }
        ensures { slice_get (codes_of self.now) (number - 1) ≡ Some result.now }
    {
        &self.codes[number as usize - 1]
    }

    /// How many registers are enough for each of them.
    pub fn registers(&self) -> u32
        ensures { result ≡ most_registers self.now }
    {
        self.most
    }
}

// The most registers that one of these codes fills.
fn most_needed(codes: &[Code]) -> Result<u32, AllocError>
    ensures { IfOk result (λ most. All (λ code. registers_of code ≤ most) codes.now) }
{
    let mut most = 0;
    for code in codes {
        most = at_least(most, registers_needed(code)?);
    }
    Ok(most)
}

// A number, but no less than another.
fn at_least(n: u32, least: u32) -> u32
    ensures same { n ≤ result }
    ensures least { least ≤ result }
{
    if n < least { least } else { n }
}

// The codes of the pieces of work in these statements, behind those in the list.
#[cycle(codes)]
fn push_codes(alloc: Global, items: &[Item], codes: &mut Vec<Code>) -> Result<(), AllocError>
    ensures { OnOk result ((around : List ℕ)
        → GrewBy HasCode
        (placed_of every around (statements_from items.now)) codes.old.items codes.new.items) }
{
    for item in items {
        push_item_codes(alloc, item, codes)?;
    }
    Ok(())
}

#[cycle(codes)]
fn push_item_codes(alloc: Global, item: &Item, codes: &mut Vec<Code>) -> Result<(), AllocError>
    ensures { OnOk result ((around : List ℕ)
        → GrewBy HasCode
        (placed_in every around (statement_of item.now)) codes.old.items codes.new.items) }
{
    match item {
        Item::Loop(nest) => push_codes(alloc, &nest.items, codes),
        Item::Assign(_, value, _, _) => {
            codes.push(code_of(alloc, value)?)?;
            Ok(())
        }
        Item::Print(..) => {
            codes.push(Code {
                steps: Vec::new(alloc),
                loads: 0,
                result: 0,
            })?;
            Ok(())
        }
        Item::Continue(_) => Ok(()),
    }
}
