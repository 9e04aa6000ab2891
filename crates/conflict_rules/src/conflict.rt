// Which two accesses conflict.

ghost use Rattle.std.specs.Prelude.{◌≡◌};
ghost use Rattle.conflict_rules.specs.Conflicts.{conflict as conflict_under};
ghost use Rattle.conflict_rules.specs.Seen.{reference_seen};

use crate::reference::Reference;

/// Whether two accesses name one variable, and one of them stores.
pub fn are_conflicting(a: &Reference, b: &Reference) -> bool
    ensures { result ≡ conflict_under (reference_seen a.now) (reference_seen b.now) }
{
    a.target.variable() == b.target.variable() && (a.stores || b.stores)
}
