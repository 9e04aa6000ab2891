//! The cut of a program, by how its loops are dealt out.

ghost use Rattle.std.specs.Prelude.{◌≡◌, [], IfOk, replicate};
ghost use Rattle.nest_tree.specs.View.{tree_of};
ghost use Rattle.maker_marks.specs.Cut.{cut_alone, cut_of, cut_of_try};
ghost use Rattle.maker_marks.specs.Privates.{own_at};
ghost use Rattle.maker_marks.specs.Tries.{tried_at};

use crate::marks::push_marks;
use crate::nests::nest_among;
use crate::privates::{DealtBy, push_privates};
use crate::tries::Tried;
use nest_tree::{Listed, Program};
use owner_partition::{Cut, Privates};
use std::alloc::{AllocError, Global};

/// The cut in which loops are dealt out so, from the outside in. The error is that memory ran out.
pub fn cut_of(alloc: Global, program: &Program, dealt: DealtBy) -> Result<Cut, AllocError>
    ensures { IfOk result (λ cut. cut ≡ cut_of (tried_at dealt.entry.tries.now)
        (own_at dealt.entry.privates.now) (tree_of program.now)) }
{
    let mut marks = Vec::new(alloc);
    push_marks(&mut marks, dealt.tries, &program.items)?;
    let mut lists = Vec::new(alloc);
    push_privates(alloc, &mut lists, dealt, &program.items)?;
    Cut::new(alloc, marks, lists)
}

// Of so many loops no private scalars.
fn without_privates(alloc: Global, count: usize) -> Result<Vec<Privates>, AllocError>
    ensures { IfOk result (λ lists. lists.items ≡ replicate count []) }
{
    let mut lists = Vec::new(alloc);
    for _ in 0..count {
        lists.push(Listed::new(alloc))?;
    }
    Ok(lists)
}

/// The cut in which the loop with this number, from 1, is dealt out by this try, with these private
/// scalars, and no other loop is. The error is that memory ran out.
pub fn cut_alone(
    alloc: Global,
    program: &Program,
    number: u32,
    tried: Tried,
    own: Privates,
) -> Result<Cut, AllocError>
    ensures { IfOk result (λ cut. cut ≡ cut_alone (tree_of program.now) number tried own) }
{
    let before = (number as usize).saturating_sub(1);
    let mut tries = vec![in alloc; None; before]?;
    tries.push(Some(tried))?;
    let mut privates = without_privates(alloc, before)?;
    privates.push(own)?;
    let dealt = DealtBy {
        tries: tries.as_slice(),
        privates: privates.as_slice(),
    };
    cut_of(alloc, program, dealt)
}

/// The same with the private scalars of the try. The error is that memory ran out.
pub fn cut_of_try(
    alloc: Global,
    program: &Program,
    number: u32,
    tried: Tried,
) -> Result<Cut, AllocError>
    ensures { IfOk result (λ cut. cut ≡ cut_of_try (tree_of program.now) number tried) }
{
    let own = match nest_among(&program.items, number) {
        Some(nest) => tried.privates(alloc, nest)?,
        None => Listed::new(alloc),
    };
    cut_alone(alloc, program, number, tried, own)
}
