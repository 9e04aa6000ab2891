// The owners that a phase may wait for.

ghost use Rattle.std.specs.Prelude.{◌≡◌, IfOk, OnOk, map};
ghost use Rattle.std.specs.List.{list_any};
ghost use Rattle.nest_tree.specs.Tree.{param_values};
ghost use Rattle.nest_tree.specs.View.{tree_of};
ghost use Rattle.owner_partition.specs.StaticPhases.{loops_round};
ghost use Rattle.conflict_rules.specs.References.{references_of};
ghost use Rattle.conflict_rules.specs.Seen.{target_seen};
ghost use Rattle.comm_system.specs.PhaseViews.{phase_seen};
ghost use Rattle.maker_candidates.specs.Candidates.{accessed_owner, accessed_owners, can_produce, each_once, names_only_these, once_more, phase_owners, producers_at};
ghost use Rattle.maker_candidates.specs.Same.{says_same};
ghost use Rattle.maker_candidates.specs.Sites.{IsNumbered};

use crate::same::says_same;
use crate::site::Site;
use comm_system::phase::Phase;
use conflict_rules::reference::Target;
use maker_anchors::element_owner;
use maker_anchors::places::item_at;
use nest_rows::is_prefix;
use owner_partition::{Anchor, StaticPhase};
use std::alloc::{AllocError, Global};

// Whether one of these names the same processor as an anchor.
fn is_among(site: Site, anchor: &Anchor, anchors: &[Anchor]) -> bool
    ensures { result
        ≡ list_any
        (says_same (param_values (tree_of site.entry.program.now)) site.entry.plan.now.workers
        anchor.now) anchors.now }
{
    for one in anchors {
        if says_same(site.program, site.plan.workers, anchor, one) {
            return true;
        }
    }
    false
}

// An anchor behind the others, where none of them names the same processor.
fn push_once(site: Site, found: &mut Vec<Anchor>, anchor: Anchor) -> Result<(), AllocError>
    ensures { OnOk result (found.new.items
        ≡ once_more (param_values (tree_of site.entry.program.now)) site.entry.plan.now.workers
        found.old.items anchor) }
{
    if !is_among(site, &anchor, found.as_slice()) {
        found.push(anchor)?;
    }
    Ok(())
}

// Whether an anchor names only Outer loops round a phase.
fn names_only_round(phase: &StaticPhase, anchor: &Anchor) -> bool
    ensures { result ≡ names_only_these (loops_round phase.now) anchor.now }
{
    let pairs = anchor.form.loops();
    pairs.iter().all(|pair| phase.is_round(pair.0))
}

// Whether one processor owns all of a phase with this anchor that was executed last, in front of
// another one.
fn can_produce(one: &Phase, anchor: &Anchor, phase: &Phase) -> bool
    ensures { result ≡ can_produce (phase_seen one.now) anchor.now (phase_seen phase.now) }
{
    let outer = phase.text.outer.as_slice();
    is_prefix(one.text.outer.as_slice(), outer) && names_only_round(&one.text, anchor)
}

// The anchors of such phases behind the others.
fn push_owners(
    alloc: Global,
    site: Site,
    phases: &[Phase],
    found: &mut Vec<Anchor>,
) -> Result<(), AllocError>
    ensures { OnOk result (found.new.items
        ≡ each_once (param_values (tree_of site.entry.program.now)) site.entry.plan.now.workers
        found.old.items (phase_owners (phase_seen site.entry.phase.now)
        (map phase_seen phases.now) site.entry.plan.now.anchors)) }
{
    for (place, one) in phases.iter().enumerate() {
        let Some(anchor) = item_at(site.plan.anchors.as_slice(), place) else {
            return Ok(());
        };
        if can_produce(one, anchor, site.phase) {
            push_once(site, found, anchor.copy(alloc)?)?;
        }
    }
    Ok(())
}

// The owner of what an access touches, where no loop inside the phase says which.
fn accessed_owner(alloc: Global, site: Site, target: Target) -> Result<Option<Anchor>, AllocError>
    requires { IsNumbered site }
    ensures { IfOk result (λ o. o
        ≡ accessed_owner
        (tree_of site.entry.program.now) site.entry.plan.now.cut.marks site.entry.plan.now.workers
        site.entry.number (phase_seen site.entry.phase.now) (target_seen target.entry)) }
{
    match target {
        Target::Element(access) => {
            let phase = &site.phase.text;
            element_owner(alloc, site.program, site.plan, site.number, phase, access)
        }
        Target::Whole(_) => Ok(None),
    }
}

// Those of what a phase accesses behind the others.
fn push_accessed(alloc: Global, site: Site, found: &mut Vec<Anchor>) -> Result<(), AllocError>
    requires { IsNumbered site }
    ensures { OnOk result (found.new.items
        ≡ each_once (param_values (tree_of site.entry.program.now)) site.entry.plan.now.workers
        found.old.items
        (accessed_owners
        (tree_of site.entry.program.now) site.entry.plan.now.cut.marks site.entry.plan.now.workers
        site.entry.number (phase_seen site.entry.phase.now)
        (references_of (phase_seen site.entry.phase.now)))) }
{
    for reference in site.phase.references.as_slice() {
        if let Some(anchor) = accessed_owner(alloc, site, reference.target)? {
            push_once(site, found, anchor)?;
        }
    }
    Ok(())
}

/// The owners that a phase may wait for, each once: of phases, then of what it accesses. One that is
/// the same processor as an earlier one is left out.
pub(crate) fn producers_at(
    alloc: Global,
    site: Site,
    phases: &[Phase],
) -> Result<Vec<Anchor>, AllocError>
    requires { IsNumbered site }
    ensures { IfOk result (λ found. found.items
        ≡ producers_at
        (tree_of site.entry.program.now) site.entry.plan.now.cut.marks site.entry.plan.now.workers
        site.entry.plan.now.anchors (map phase_seen phases.now) site.entry.number
        (phase_seen site.entry.phase.now)) }
{
    let mut found = Vec::new(alloc);
    push_owners(alloc, site, phases, &mut found)?;
    push_accessed(alloc, site, &mut found)?;
    Ok(found)
}
