// Whom a processor waits for in front of a phase, and who posts there.

ghost use Rattle.std.specs.Prelude.{◌≡◌, ◌==◌, ℕ, ◌<◌, ◌≤◌, if◌then◌else◌};
ghost use Rattle.std.specs.Int.{bit_at};
ghost use Rattle.sync_plan.specs.ProcessorSets.{members};
ghost use Rattle.sync_plan.specs.Waits.{awaited_at, is_awaited_at};

use crate::plan::Kind;

impl Kind {
    ghost use Rattle.std.specs.Prelude.{Some};
    ghost use Rattle.sync_plan.specs.Boundaries.{is_barrier, is_join};

    /// Whether it is a barrier. A join isn't one.
    pub fn is_barrier(&self) -> bool
        ensures { result ≡ is_barrier (Some self.now) }
    {
        match self {
            Kind::Nothing | Kind::Producer(_) => false,
            Kind::Left | Kind::Right | Kind::Both | Kind::Join => false,
            Kind::Barrier => true,
        }
    }

    /// Whether it is a join.
    pub fn is_join(&self) -> bool
        ensures { result ≡ is_join (Some self.now) }
    {
        match self {
            Kind::Nothing | Kind::Producer(_) => false,
            Kind::Left | Kind::Right | Kind::Both | Kind::Barrier => false,
            Kind::Join => true,
        }
    }
}

/// The word of the processors for which `p` waits at a kind, where the kind's anchor names
/// `owner`: bit q is processor q. There are 1 to 64 workers.
pub fn awaited(kind: &Kind, owner: u32, p: u32, workers: u32) -> u64
    requires worker { p < workers }
    requires few { workers ≤ 64 }
    ensures { members result ≡ awaited_at kind.now owner workers p }
{
    let own = 1u64 << p;
    let others = match kind {
        Kind::Nothing => 0,
        Kind::Producer(_) => bit(owner),
        Kind::Left => own >> 1,
        Kind::Right => own << 1,
        Kind::Both => own >> 1 | own << 1,
        Kind::Barrier | Kind::Join => u64::MAX,
    };
    let all = u64::MAX >> (64 - workers);
    others & all & !own
}

// The word of one processor, none where the number passes a word.
fn bit(processor: u32) -> u64
    ensures { (q : ℕ) → q < 64 → bit_at result q ≡ (if processor == q then 1 else 0) }
{
    if processor < 64 { 1 << processor } else { 0 }
}

/// Whether `q` posts at a kind, where the kind's anchor names `owner`: some processor waits for it
/// there.
pub fn is_awaited(kind: &Kind, owner: u32, q: u32, workers: u32) -> bool
    requires worker { q < workers }
    ensures { result ≡ is_awaited_at kind.now owner workers q }
{
    match kind {
        Kind::Nothing => false,
        Kind::Producer(_) => owner == q && 1 < workers,
        Kind::Left => q + 1 < workers,
        Kind::Right => 0 < q,
        Kind::Both | Kind::Barrier | Kind::Join => 1 < workers,
    }
}
