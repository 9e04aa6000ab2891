// Slots with accesses that conflict.

ghost use Rattle.std.specs.Prelude.{◌≡◌, map};
ghost use Rattle.std.specs.List.{list_any};
ghost use Rattle.comm_system.specs.Pairs.{conflict};
ghost use Rattle.comm_system.specs.Seen.{reference_seen};
ghost use Rattle.comm_system.specs.SlotViews.{slot_seen};
ghost use Rattle.plan_maker.specs.Meeting.{meets as slot_meets};

use comm_system::conflict::are_conflicting;
use comm_system::reference::Reference;
use comm_system::slot::Slot;

// Whether an access conflicts with one of these.
fn has_partner(a: &Reference, others: &[Reference]) -> bool
    ensures { result ≡ list_any (conflict (reference_seen a.now)) (map reference_seen others.now) }
{
    for b in others {
        if are_conflicting(a, b) {
            return true;
        }
    }
    false
}

// Whether an access among these conflicts with one among those.
fn have_partners(firsts: &[Reference], seconds: &[Reference]) -> bool
    ensures { result ≡ list_any (λ a. list_any (conflict a) (map reference_seen seconds.now))
        (map reference_seen firsts.now) }
{
    for a in firsts {
        if has_partner(a, seconds) {
            return true;
        }
    }
    false
}

/// Whether a slot has accesses that conflict. Nothing is asked of the others, whatever the kinds.
pub(crate) fn meets(slot: &Slot) -> bool
    ensures { result ≡ slot_meets (slot_seen slot.now) }
{
    let (first, second) = (slot.first, slot.second);
    have_partners(first.references.as_slice(), second.references.as_slice())
}
