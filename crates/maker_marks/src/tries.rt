//! How a loop may be dealt out.

ghost use Rattle.std.specs.Prelude.{◌≡◌, IfOk};
ghost use Rattle.nest_tree.specs.View.{tree_of};
ghost use Rattle.maker_marks.specs.Tries.{all_tries, body_among, has_no_privates, is_admitted, nest_body, tried_at, tried_mark, tried_privates, tries_at as tries_for, tries_of};

use crate::nests::{have_print, nest_among};
use nest_tree::{Listed, Nest, Program};
use own_scalars::{has_few_sums, private_scalars};
use owner_partition::{Mark, Privates};
use std::alloc::{AllocError, Global};
use sync_plan::Version;

/// A way to deal out a loop. They are tried in this order.
#[derive(Clone, Copy, Debug, PartialEq, Eq)]
pub enum Tried {
    /// As a Doall loop.
    Doall,
    /// As a Doall loop with private scalars: all that may be so, or the first 16 of them.
    Private,
    /// As a Sum loop, with the same private scalars if there are any.
    Sum,
}

impl Tried {
    /// The mark of a loop that is dealt out so.
    pub(crate) fn mark(self) -> Mark
        ensures { result ≡ tried_mark self }
    {
        match self {
            Tried::Doall | Tried::Private => Mark::Doall,
            Tried::Sum => Mark::Sum,
        }
    }

    /// The private scalars of a loop that is dealt out so. The error is that memory ran out.
    pub fn privates(self, alloc: Global, nest: &Nest) -> Result<Privates, AllocError>
        ensures { IfOk result (λ privates. privates ≡ tried_privates self (nest_body nest.now)) }
    {
        match self {
            Tried::Doall => Ok(Listed::new(alloc)),
            Tried::Private | Tried::Sum => {
                let found = private_scalars(nest);
                Ok(Listed::from_vec(Vec::from_slice(alloc, found.as_slice())?))
            }
        }
    }

    // Whether it is tried of a loop.
    fn is_admitted(self, nest: &Nest) -> bool
        ensures { result ≡ is_admitted self (nest_body nest.now) }
    {
        match self {
            Tried::Doall => true,
            Tried::Private => Version::Five.has_privates() && !has_no_privates(nest),
            Tried::Sum => {
                Version::Four.has_sums()
                    && has_few_sums(nest)
                    && (has_no_privates(nest) || Version::Five.has_privates())
            }
        }
    }
}

// Whether no scalar may be private in a loop.
fn has_no_privates(nest: &Nest) -> bool
    ensures { result ≡ has_no_privates (nest_body nest.now) }
{
    private_scalars(nest).is_empty()
}

/// What is tried of a loop, in order.
pub fn tries_of(alloc: Global, nest: &Nest) -> Result<Vec<Tried>, AllocError>
    ensures { IfOk result (λ tries. tries.items ≡ tries_of (nest_body nest.now)) }
{
    [Tried::Doall, Tried::Private, Tried::Sum]
        .iter()
        .copied()
        .filter(|tried| tried.is_admitted(nest))
        .collect(alloc)
}

// The same; of a loop with a PRINT nothing but Doall.
fn all_tries(alloc: Global, nest: &Nest) -> Result<Vec<Tried>, AllocError>
    ensures { IfOk result (λ tries. tries.items ≡ all_tries (nest_body nest.now)) }
{
    if have_print(&nest.items) {
        let mut tries = Vec::new(alloc);
        tries.push(Tried::Doall)?;
        return Ok(tries);
    }
    tries_of(alloc, nest)
}

/// What is tried of the loop with this number, from 1, in order: of one with a PRINT nothing but
/// Doall, and nothing where there is no such loop. The error is that memory ran out.
pub fn tries_at(alloc: Global, program: &Program, number: u32) -> Result<Vec<Tried>, AllocError>
    ensures { IfOk result (λ tries. tries.items
        ≡ tries_for (body_among number (tree_of program.now).items)) }
{
    match nest_among(&program.items, number) {
        Some(nest) => all_tries(alloc, nest),
        None => Ok(Vec::new(alloc)),
    }
}

/// The try by which the loop with this number, from 1, is dealt out; none where it isn't.
pub(crate) fn tried_at(tries: &[Option<Tried>], number: u32) -> Option<Tried>
    ensures { result ≡ tried_at tries.now number }
{
    let place = (number as usize).saturating_sub(1);
    if place < tries.len() {
        tries[place]
    } else {
        None
    }
}
