// What the certain boundaries of two phases show of a plan's kinds.

ghost use Rattle.std.specs.Prelude.{◌≡◌, ◌-◌, ◌+◌, slice_get};
ghost use Rattle.std.specs.Option.{option_copied};
ghost use Rattle.comm_system.specs.Signatures.{or_nothing};
ghost use Rattle.comm_system.specs.SlotViews.{level_seen};
ghost use Rattle.nest_rows.specs.Views.{heads_of};
ghost use Rattle.obligation_numbers.specs.Counts.{sides_at, sides_where};
ghost use Rattle.obligation_numbers.specs.Tests.{passes};

use crate::phases::PhaseWeight;
use comm_system::level::Level;
use comm_system::producer::Side;
use nest_rows::Around;
use owner_partition::StaticPhase;
use sync_plan::Kind;

// On how many sides the boundary in front of this phase is certain.
fn sides(level: &Level, phase: u32, outer: &[Around]) -> u64
    ensures { result ≡ sides_at (level_seen level.now) phase (heads_of outer.now) }
{
    let behind_first = level.is_certain(Side::First, phase, outer);
    let before_second = level.is_certain(Side::Second, phase, outer);
    behind_first as u64 + before_second as u64
}

// What is asked of a kind.
#[derive(Clone, Copy)]
pub(crate) enum Test {
    IsBarrier,
    IsProducer,
}

impl Test {
    fn passes(self, kind: Option<&Kind>) -> bool
        ensures { result ≡ passes self (or_nothing (option_copied kind.entry)) }
    {
        match self {
            Test::IsBarrier => matches!(kind, Some(Kind::Barrier | Kind::Join)),
            Test::IsProducer => matches!(kind, Some(Kind::Producer(_))),
        }
    }
}

// The certain boundaries with kinds that pass a test, each once for each side.
#[derive(Clone, Copy)]
pub(crate) struct Certain<'x, 'a> {
    pub(crate) level: Level<'x, 'a>,
    pub(crate) kinds: &'x [Kind],
    pub(crate) test: Test,
}

impl PhaseWeight for Certain<'_, '_> {
    ghost weight = { λ c. sides_where (passes c.test) c.kinds.now (level_seen c.level) };

    fn weigh(&self, number: u32, phase: &StaticPhase) -> u64 {
        if self.test.passes(kind_before(self.kinds, number)) {
            sides(&self.level, number, phase.outer.as_slice())
        } else {
            0
        }
    }
}

// The kind in front of the phase with this number.
fn kind_before(kinds: &[Kind], number: u32) -> Option<&Kind>
    ensures { option_copied result ≡ slice_get kinds.now (number - 1) }
{
    kinds.get((number as usize).saturating_sub(1))
}
