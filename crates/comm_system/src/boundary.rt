// The certain boundaries of a slot.

ghost use Rattle.std.specs.Prelude.{◌≡◌, ◌+◌, ◌*◌, ◌++◌, ◌<◌, ◌≤◌, ◌^◌, IfOk, OnOk, length, map};
ghost use Rattle.comm_system.specs.Certain.{certain_of, certain_on};
ghost use Rattle.comm_system.specs.PhaseViews.{phase_seen};
ghost use Rattle.comm_system.specs.SideViews.{boundary_seen};
ghost use Rattle.conflict_rules.specs.SideViews.{side_seen};
ghost use Rattle.conflict_rules.specs.SlotViews.{level_seen};
ghost use Rattle.comm_system.specs.SlotViews.{slot_seen};

use crate::phase::Phase;
use crate::slot::Slot;
use conflict_rules::level::Level;
use conflict_rules::producer::Side;
use std::alloc::{AllocError, Global};

/// The boundary in front of the static phase with this number, from 1, where the Outer loops have
/// their values of this instance.
#[derive(Clone, Copy)]
pub struct Boundary {
    pub phase: u32,
    pub side: Side,
}

/// The boundaries that stand certainly between two instances of a slot: those behind the first,
/// then those in front of the second, each in text order.
pub fn certain_boundaries(
    alloc: Global,
    phases: &[Phase],
    slot: &Slot,
) -> Result<Vec<Boundary>, AllocError>
    requires { length phases.now < 2 ^ 20 }
    ensures boundaries { IfOk result (λ found. map boundary_seen found.items
        ≡ certain_of (slot_seen slot.now) (map phase_seen phases.now)) }
    ensures few { IfOk result (λ found. length found.items ≤ 2 * length phases.now) }
{
    let mut found = Vec::new(alloc);
    let level = slot.in_text();
    push_certain(phases, level, Side::First, &mut found)?;
    push_certain(phases, level, Side::Second, &mut found)?;
    Ok(found)
}

// Those on one side, behind the others.
fn push_certain(
    phases: &[Phase],
    level: Level,
    side: Side,
    found: &mut Vec<Boundary>,
) -> Result<(), AllocError>
    requires { length phases.now < 2 ^ 20 }
    ensures found { OnOk result (map boundary_seen found.new.items
        ≡ map boundary_seen found.old.items ++ certain_on (side_seen side) (level_seen level.entry)
        (map phase_seen phases.now)) }
    ensures few { OnOk result (length found.new.items ≤ length found.old.items
        + length phases.now) }
{
    for (index, phase) in phases.iter().enumerate() {
        let number = index as u32 + 1;
        if level.is_certain(side, number, phase.text.outer.as_slice()) {
            found.push(Boundary {
                phase: number,
                side,
            })?;
        }
    }
    Ok(())
}
