// The slots of a plan.

ghost use Rattle.std.specs.Prelude.{◌≡◌, ◌++◌, ◌-◌, ◌<◌, ◌^◌, IfOk, OnOk, length, map};
ghost use Rattle.std.specs.List.{range_with_len};
ghost use Rattle.comm_system.specs.Obligations.{slots_before, slots_between, slots_of};
ghost use Rattle.comm_system.specs.PhaseViews.{phase_seen};
ghost use Rattle.comm_system.specs.SlotViews.{at_level, slot_seen};

use crate::phase::Phase;
use crate::slot::Slot;
use std::alloc::{AllocError, Global};

/// The slots of these static phases, in order: the second phase, the first, the level.
pub fn slots<'b, 'a>(
    alloc: Global,
    phases: &'b [Phase<'a>],
) -> Result<Vec<Slot<'b, 'a>>, AllocError>
    requires { length phases.now < 2 ^ 20 }
    ensures { IfOk result (λ found. map slot_seen found.items
        ≡ slots_of (map phase_seen phases.now)) }
{
    let mut found = Vec::new(alloc);
    for (index, second) in phases.iter().enumerate() {
        push_before(phases, index as u32 + 1, second, &mut found)?;
    }
    Ok(found)
}

// The slots of all phases with a second one, behind the others.
fn push_before<'b, 'a>(
    phases: &'b [Phase<'a>],
    t: u32,
    second: &'b Phase<'a>,
    found: &mut Vec<Slot<'b, 'a>>,
) -> Result<(), AllocError>
    requires { length phases.now < 2 ^ 20 }
    ensures { OnOk result (map slot_seen found.new.items ≡ map slot_seen found.old.items
        ++ slots_before 1 (map phase_seen phases.now) t (phase_seen second.now)) }
{
    for (index, first) in phases.iter().enumerate() {
        let s = index as u32 + 1;
        push_between(
            Slot {
                s,
                first,
                t,
                second,
                level: 0,
            },
            found,
        )?;
    }
    Ok(())
}

// The slots of the two phases of this one, behind the others.
fn push_between<'b, 'a>(slot: Slot<'b, 'a>, found: &mut Vec<Slot<'b, 'a>>) -> Result<(), AllocError>
    requires { slot.level ≡ 0 }
    ensures { OnOk result (map slot_seen found.new.items ≡ map slot_seen found.old.items
        ++ slots_between slot.entry.s (phase_seen slot.entry.first.now) slot.entry.t
        (phase_seen slot.entry.second.now)) }
{
    push_carried(slot, slot.common(), found)?;
    if slot.s < slot.t {
        found.push(slot)?;
    }
    Ok(())
}

// The slots of the two phases of this one at the levels of so many common loops, behind the others.
fn push_carried<'b, 'a>(
    slot: Slot<'b, 'a>,
    loops: u32,
    found: &mut Vec<Slot<'b, 'a>>,
) -> Result<(), AllocError>
    requires { loops < 2 ^ 29 }
    ensures { OnOk result (map slot_seen found.new.items ≡ map slot_seen found.old.items
        ++ map (at_level (slot_seen slot.entry)) (range_with_len 1 loops)) }
{
    for index in 0..loops {
        found.push(Slot {
            level: index + 1,
            ..slot
        })?;
    }
    Ok(())
}
