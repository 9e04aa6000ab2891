// Pieces of work all of whose subscripts are certified.

ghost use Rattle.std.specs.Prelude.{◌≡◌, ℕ, ◌-◌, ◌≤◌, ◌<◌, ◌++◌, [], ◌∷◌, OnOk, IfOk, IsTrue, Some, slice_get, true};
ghost use Rattle.std.specs.List.{AllZip, list_all};
ghost use Rattle.nest_tree.specs.Form.{is_small};
ghost use Rattle.nest_tree.specs.Tree.{Head};
ghost use Rattle.nest_tree.specs.View.{tree_of};
ghost use Rattle.nest_tree.specs.WellFormed.{scope_of};
ghost use Rattle.nest_walk.specs.Places.{IsThere};
ghost use Rattle.nest_rows.specs.Nested.{Nested as NestedWork, nested_works as works_of};
ghost use Rattle.nest_rows.specs.Views.{IsView, heads_of};
ghost use Rattle.nest_rows.proofs.GoodNesting.{IsGoodNested};
ghost use Rattle.range_check.specs.Certified.{AreCertified, IsCertified};
ghost use Rattle.range_check.specs.Sites.{site_of};

use crate::accesses::accesses_in;
use crate::effort::Effort;
use crate::proof::dimension_proof;
use fm_elim::NoMemory;
use nest_rows::{Nested, nested_works};
use nest_tree::{Access, Item, Program};
use std::alloc::{AllocError, Global};

// Whether each dimension of an access is certified.
fn is_access_certified(
    alloc: Global,
    program: &Program,
    nested: &Nested,
    access: &Access,
    effort: &mut Effort,
) -> Result<bool, NoMemory>
    requires seen { (n : NestedWork) × IsView n nested.now }
    requires steps { IsTrue (list_all (λ (h : Head). is_small h.step)
        (heads_of nested.now.around.items)) }
    requires there { IsThere (tree_of program.now) access.now }
    ensures { (n : NestedWork) → IsView n nested.now
        → IfOk result (λ b. IsTrue b → IsCertified (tree_of program.now) (site_of n access.now)) }
{
    for index in 0..access.subscripts.as_slice().len() as u32 {
        if dimension_proof(alloc, program, nested, access, index + 1, effort)?.is_none() {
            return Ok(false);
        }
    }
    Ok(true)
}

// Whether each access of a piece of work is certified.
fn is_work_certified(
    alloc: Global,
    program: &Program,
    nested: &Nested,
    effort: &mut Effort,
) -> Result<bool, NoMemory>
    requires seen { (n : NestedWork) × IsView n nested.now
        × IsGoodNested (scope_of (tree_of program.now)) n }
    ensures { (n : NestedWork) → IsView n nested.now
        → IfOk result (λ b. IsTrue b → AreCertified (tree_of program.now) n) }
{
    let found = accesses_in(alloc, nested.item)?;
    for one in found.iter() {
        if !is_access_certified(alloc, program, nested, one.access, effort)? {
            return Ok(false);
        }
    }
    Ok(true)
}

// Of each piece of work of the text, in order, whether all its accesses are certified.
pub(crate) fn certified_works(alloc: Global, program: &Program) -> Result<Vec<bool>, NoMemory>
    ensures { IfOk result (λ certified. AllZip (λ n b. IsTrue b
        → AreCertified (tree_of program.now) n) (works_of (tree_of program.now)) certified.items) }
{
    let works = nested_works(alloc, program)?;
    let mut certified = Vec::new(alloc);
    let mut effort = Effort::little(alloc);
    for nested in works.iter() {
        let is_certified = is_work_certified(alloc, program, nested, &mut effort)?;
        push_flag(&mut certified, is_certified)?;
    }
    Ok(certified)
}

// One flag more.
fn push_flag(flags: &mut Vec<bool>, flag: bool) -> Result<(), AllocError>
    ensures { OnOk result (flags.new.items ≡ flags.old.items ++ flag ∷ []) }
{
    flags.push(flag)?;
    Ok(())
}

// Whether the piece of work with this number, from 1, is certified.
pub(crate) fn is_certified_at(certified: &[bool], number: u32) -> bool
    ensures { IsTrue result → slice_get certified.now (number - 1) ≡ Some true }
{
    let place = (number as usize).saturating_sub(1);
    place < certified.len() && certified[place]
}

// Whether all pieces of work with these numbers, from the first up to the last, which is left out,
// are certified.
pub(crate) fn are_certified(certified: &[bool], first: u32, behind: u32) -> bool
    ensures { IsTrue result → (number : ℕ) → first ≤ number → number < behind
        → slice_get certified.now (number - 1) ≡ Some true }
{
    for number in first..behind {
        if !is_certified_at(certified, number) {
            return false;
        }
    }
    true
}

// Marks the loops in these statements, whose first piece of work has this number, with certified
// work alone; the number behind them. A mark that is wrong costs time and nothing else.
pub(crate) fn mark(items: &[Item], first: u32, certified: &[bool], marks: &mut [bool]) -> u32 {
    let mut number = first;
    for item in items {
        match item {
            Item::Loop(nest) => {
                let behind = mark(&nest.items, number, certified, marks);
                let place = (nest.number as usize).saturating_sub(1);
                if place < marks.len() {
                    marks[place] = are_certified(certified, number, behind);
                }
                number = behind;
            }
            Item::Assign(..) | Item::Print(..) => number = number.saturating_add(1),
            Item::Continue(_) => {}
        }
    }
    number
}
