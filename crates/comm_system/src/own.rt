// The own scalars of a phase, and which accesses others see.

ghost use Rattle.std.specs.Prelude.{◌≡◌, IfOk, map};
ghost use Rattle.nest_tree.specs.View.{statement_of};
ghost use Rattle.comm_system.specs.KeptViews.{kept_seen};
ghost use Rattle.comm_system.specs.PhaseViews.{phase_seen};
ghost use Rattle.conflict_rules.specs.References.{references_of};
ghost use Rattle.conflict_rules.specs.Seen.{reference_seen};
ghost use Rattle.comm_system.specs.Shown.{is_own_in, is_private_in, is_summed, last_in, privates_in, shared_of, shown_of};

use crate::phase::Phase;
use conflict_rules::reference::Reference;
use nest_tree::Item;
use own_scalars::is_sum;
use owner_partition::Cut;
use std::alloc::{AllocError, Global};

/// The private scalars of a phase, numbers of variables, from 1.
pub fn privates_in<'c>(cut: &'c Cut, item: &Item) -> &'c [u32]
    ensures { result.now ≡ privates_in cut.now (statement_of item.now) }
{
    match item {
        Item::Loop(nest) => cut.privates_of(nest.number),
        Item::Assign(..) | Item::Print(..) | Item::Continue(_) => &[],
    }
}

/// Whether a variable, from 1, is a sum scalar of a phase.
pub fn is_summed(cut: &Cut, item: &Item, variable: u32) -> bool
    ensures { result ≡ is_summed cut.now (statement_of item.now) variable }
{
    match item {
        Item::Loop(nest) => cut.mark(nest.number).is_sum() && is_sum(&nest.items, variable),
        Item::Assign(..) | Item::Print(..) | Item::Continue(_) => false,
    }
}

// An access of a phase, kept from among its others.
#[derive(Clone, Copy)]
pub(crate) struct Kept<'b, 'a> {
    pub(crate) reference: &'b Reference<'a>,
}

// Whether an access is that of a private scalar of a phase.
fn is_private_in(cut: &Cut, phase: &Phase, reference: &Reference) -> bool
    ensures { result ≡ is_private_in cut.now (phase_seen phase.now) (reference_seen reference.now) }
{
    privates_in(cut, phase.text.item).contains(&reference.target.variable())
}

// Of an access of a private scalar of a phase, which others see as made in the last trip of the
// phase's loop alone, how many loops stand outside that loop; none of another access.
pub(crate) fn last_in(cut: &Cut, phase: &Phase, reference: &Reference) -> Option<usize>
    ensures { result ≡ last_in cut.now (phase_seen phase.now) (reference_seen reference.now) }
{
    if is_private_in(cut, phase, reference) {
        Some(phase.text.outer.as_slice().len())
    } else {
        None
    }
}

// Whether an access is that of an own scalar of a phase.
fn is_own_in(cut: &Cut, phase: &Phase, reference: &Reference) -> bool
    ensures { result ≡ is_own_in cut.now (phase_seen phase.now) (reference_seen reference.now) }
{
    is_private_in(cut, phase, reference)
        || is_summed(cut, phase.text.item, reference.target.variable())
}

// The accesses of a phase that others see, in text order: of a private scalar the first alone.
pub(crate) fn shown<'b, 'a>(
    alloc: Global,
    cut: &Cut,
    phase: &'b Phase<'a>,
) -> Result<Vec<Kept<'b, 'a>>, AllocError>
    ensures { IfOk result (λ found. map kept_seen found.items
        ≡ shown_of cut.now (phase_seen phase.entry.now)) }
{
    let privates = privates_in(cut, phase.text.item);
    let mut taken = Vec::new(alloc);
    let references = phase.references.as_slice();
    let mut found = Vec::with_capacity(alloc, references.len())?;
    for reference in references {
        let variable = reference.target.variable();
        if privates.contains(&variable) {
            if taken.contains(&variable) {
                continue;
            }
            taken.push(variable)?;
        }
        found.push(Kept { reference })?;
    }
    Ok(found)
}

// Those of other scalars than its own.
pub(crate) fn shared<'b, 'a>(
    alloc: Global,
    cut: &Cut,
    phase: &'b Phase<'a>,
) -> Result<Vec<Kept<'b, 'a>>, AllocError>
    ensures { IfOk result (λ found. map kept_seen found.items
        ≡ shared_of cut.now (phase_seen phase.entry.now)) }
{
    let references = phase.references.as_slice();
    let mut found = Vec::with_capacity(alloc, references.len())?;
    for reference in references {
        if !is_own_in(cut, phase, reference) {
            found.push(Kept { reference })?;
        }
    }
    Ok(found)
}

// All accesses of a phase.
pub(crate) fn all<'b, 'a>(
    alloc: Global,
    phase: &'b Phase<'a>,
) -> Result<Vec<Kept<'b, 'a>>, AllocError>
    ensures { IfOk result (λ found. map kept_seen found.items
        ≡ references_of (phase_seen phase.entry.now)) }
{
    let references = phase.references.as_slice();
    let mut found = Vec::with_capacity(alloc, references.len())?;
    for reference in references {
        found.push(Kept { reference })?;
    }
    Ok(found)
}
