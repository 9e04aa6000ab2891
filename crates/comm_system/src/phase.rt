// A static phase with its accesses.

ghost use Rattle.std.specs.Prelude.{◌≡◌, map};
ghost use Rattle.conflict_rules.specs.References.{references_of};
ghost use Rattle.conflict_rules.specs.Seen.{reference_seen};
ghost use Rattle.conflict_rules.specs.StaticViews.{static_phase_seen};

use conflict_rules::reference::Reference;
use owner_partition::StaticPhase;

/// A static phase with its accesses, in text order.
#[derive(Drop)]
pub struct Phase<'a> {
    /// The phase itself, as it stands in the text.
    pub text: StaticPhase<'a>,
    pub references: Vec<Reference<'a>>,
    ghost references_are: { map reference_seen references.items
        ≡ references_of (static_phase_seen text) },
}
