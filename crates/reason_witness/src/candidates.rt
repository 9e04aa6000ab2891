// What may stand in front of a phase in place of a stronger wait.

ghost use Rattle.std.specs.Prelude.{◌≡◌, IfOk};
ghost use Rattle.reason_witness.specs.Reasons.{weaker_than};

use std::alloc::{AllocError, Global};
use sync_plan::Kind;

/// Of these candidates those that are weaker than a kind, in order. An error says that memory ran
/// out.
pub(crate) fn weaker_kinds(
    alloc: Global,
    kind: &Kind,
    candidates: &[Kind],
) -> Result<Vec<Kind>, AllocError>
    ensures { IfOk result (λ found. found.items ≡ weaker_than kind.now candidates.now) }
{
    let mut found = Vec::new(alloc);
    for candidate in candidates {
        if candidate.strength() < kind.strength() {
            found.push(candidate.copy(alloc)?)?;
        }
    }
    Ok(found)
}
