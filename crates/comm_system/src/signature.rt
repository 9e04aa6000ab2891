// What a slot sees of a plan's kinds.

ghost use Rattle.std.specs.Prelude.{◌≡◌, ◌+◌, ◌<◌, ◌≤◌, ◌^◌, List, IfOk, IsTrue, OnOk, length, map, slice_get};
ghost use Rattle.std.specs.List.{list_all};
ghost use Rattle.std.specs.Option.{option_copied};
ghost use Rattle.sync_plan.specs.declared.plan.Kind.{Kind as Kinds};
ghost use Rattle.conflict_rules.specs.Boundaries.{Boundary as BoundarySeen};
ghost use Rattle.comm_system.specs.Signatures.{counted as counted_in, has_places_in, or_nothing, signature_of};
ghost use Rattle.comm_system.specs.Obligations.{slot_signature as signature_under};
ghost use Rattle.comm_system.specs.PhaseViews.{phase_seen};
ghost use Rattle.comm_system.specs.SlotViews.{slot_seen};
ghost use Rattle.comm_system.specs.SideViews.{boundary_seen};
ghost use Rattle.comm_system.specs.SignatureViews.{Adds, HasSeen, signature_seen};

use crate::boundary::{Boundary, certain_boundaries};
use crate::phase::Phase;
use crate::slot::Slot;
use crate::waits::Waits;
use conflict_rules::producer::{Producer, Side};
use std::alloc::{AllocError, Global};
use sync_plan::{Kind, Version};

/// What the certain boundaries of a slot make of the kinds in front of them.
#[derive(Drop)]
pub enum Signature<'p> {
    /// A barrier stands between the instances.
    Blocked,
    /// Nobody but neighbours and producers is waited for.
    Waits(Waits<'p>),
}

// What was seen of some boundaries.
#[derive(Drop)]
pub(crate) struct Seen<'p> {
    barrier: bool,
    left: u32,
    right: u32,
    producers: Vec<Producer<'p>>,
}

impl<'p> Seen<'p> {
    // One boundary more.
    fn count(&mut self, kind: Option<&'p Kind>, side: Side) -> Result<(), AllocError>
        requires places { IsTrue (has_places_in (or_nothing (option_copied kind))) }
        requires left { self.old.left < 2 ^ 31 }
        requires right { self.old.right < 2 ^ 31 }
        ensures adds { OnOk result
            (Adds (or_nothing (option_copied kind.entry)) side self.old self.new) }
        ensures left { OnOk result (self.new.left ≤ self.old.left + 1) }
        ensures right { OnOk result (self.new.right ≤ self.old.right + 1) }
    {
        match kind {
            None | Some(Kind::Nothing) => {}
            Some(Kind::Producer(anchor)) => self.producers.push(Producer { anchor, side })?,
            Some(Kind::Left) => self.left += 1,
            Some(Kind::Right) => self.right += 1,
            Some(Kind::Both) => {
                self.left += 1;
                self.right += 1;
            }
            Some(Kind::Barrier | Kind::Join) => self.barrier = true,
        }
        Ok(())
    }

    // What is left of it in this version.
    fn signature(self, alloc: Global, version: Version) -> Result<Signature<'p>, AllocError>
        requires left { self.left < 2 ^ 30 }
        requires right { self.right < 2 ^ 30 }
        ensures { (kinds : List Kinds) (us : List BoundarySeen) → HasSeen kinds us self.entry
            → IfOk result (λ g. signature_seen g ≡ signature_of version kinds us) }
    {
        let Seen {
            barrier,
            left,
            right,
            producers,
        } = self;
        if barrier {
            return Ok(Signature::Blocked);
        }
        let begin = producers.len().saturating_sub(3);
        Ok(Signature::Waits(Waits {
            left: counted(version, left),
            right: counted(version, right),
            producers: Vec::from_slice(alloc, &producers[begin..])?,
        }))
    }
}

// The kind at this place, from 0.
fn kind_in_front(kinds: &[Kind], place: usize) -> Option<&Kind>
    ensures { option_copied result ≡ slice_get kinds.now place }
{
    if place < kinds.len() {
        Some(&kinds[place])
    } else {
        None
    }
}

/// Whether the producers among these kinds have blocks of 1 to 2147483647 places, as those of a plan
/// of a fitting shape.
pub fn have_places(kinds: &[Kind]) -> bool
    ensures { result ≡ list_all has_places_in kinds.now }
{
    kinds.iter().all(has_places_in)
}

fn has_places_in(kind: &Kind) -> bool
    ensures { result ≡ has_places_in kind.now }
{
    match kind.anchor() {
        Some(anchor) => anchor.dist.has_places(),
        None => true,
    }
}

// In version One neighbours don't add up.
fn counted(version: Version, count: u32) -> u32
    ensures count { result ≡ counted_in version count }
    ensures few { result ≤ count }
{
    match version {
        Version::One => count.min(1),
        Version::Two | Version::Three | Version::Four | Version::Five => count,
    }
}

/// The signature that boundaries make of these kinds.
pub fn signature_at<'p>(
    alloc: Global,
    version: Version,
    kinds: &'p [Kind],
    boundaries: &[Boundary],
) -> Result<Signature<'p>, AllocError>
    requires places { IsTrue (list_all has_places_in kinds.now) }
    requires few { length boundaries.now < 2 ^ 30 }
    ensures { IfOk result (λ g. signature_seen g
        ≡ signature_of version kinds.now (map boundary_seen boundaries.now)) }
{
    let mut seen = Seen {
        barrier: false,
        left: 0,
        right: 0,
        producers: Vec::new(alloc),
    };
    for boundary in boundaries {
        let place = (boundary.phase as usize).saturating_sub(1);
        seen.count(kind_in_front(kinds, place), boundary.side)?;
    }
    seen.signature(alloc, version)
}

/// The signature of a slot under these kinds.
pub fn slot_signature<'p>(
    alloc: Global,
    version: Version,
    kinds: &'p [Kind],
    phases: &[Phase],
    slot: &Slot,
) -> Result<Signature<'p>, AllocError>
    requires places { IsTrue (list_all has_places_in kinds.now) }
    requires few { length phases.now < 2 ^ 20 }
    ensures { IfOk result (λ g. signature_seen g
        ≡ signature_under version kinds.now (map phase_seen phases.now) (slot_seen slot.now)) }
{
    let boundaries = certain_boundaries(alloc, phases, slot)?;
    signature_at(alloc, version, kinds, boundaries.as_slice())
}
