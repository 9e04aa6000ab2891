// The plan with a barrier in front of each phase.

ghost use Rattle.std.specs.Prelude.{◌≡◌, IfOk, length, nat_lt, replicate};
ghost use Rattle.std.specs.List.{list_any};
ghost use Rattle.sync_plan.specs.Barriers.{barrier_plan, least_version as least_for};
ghost use Rattle.sync_plan.specs.declared.plan.Kind.TheVariants.{Barrier};

use crate::plan::{Conditions, Kind, Plan, Version};
use farkas_cert::Certificate;
use nest_tree::Listed;
use owner_partition::{Anchor, Cut, Privates};
use std::alloc::{AllocError, Global};

/// The plan of this cut, these anchors, workers and certificates, with as many kinds as anchors,
/// each a barrier, in the least version from two on that holds it. The error is that memory ran out;
/// what the call took is dropped then.
pub fn all_barrier(
    alloc: Global,
    cut: Cut,
    anchors: Vec<Anchor>,
    workers: u32,
    certificates: Vec<Certificate>,
) -> Result<Plan, AllocError>
    ensures { IfOk result (λ plan. plan
        ≡ barrier_plan cut anchors.items workers certificates.items) }
{
    let kinds = barriers(alloc, anchors.len())?;
    Ok(Plan {
        version: least_version(&cut),
        conditions: Conditions::Values,
        workers,
        cut,
        anchors: Listed::from_vec(anchors),
        kinds: Listed::from_vec(kinds),
        certificates: Listed::from_vec(certificates),
    })
}

// The least version from two on that holds a cut.
fn least_version(cut: &Cut) -> Version
    ensures { result ≡ least_for cut.now }
{
    if has_private(cut.privates()) {
        Version::Five
    } else if cut.has_sum() {
        Version::Four
    } else {
        Version::Two
    }
}

// Whether a loop has a private scalar.
fn has_private(privates: &[Privates]) -> bool
    ensures { result ≡ list_any (λ vs. nat_lt 0 (length vs)) privates.now }
{
    privates.iter().any(|scalars| scalars.as_slice().len() > 0)
}

// So many barriers.
fn barriers(alloc: Global, count: usize) -> Result<Vec<Kind>, AllocError>
    ensures { IfOk result (λ kinds. kinds.items ≡ replicate count Barrier) }
{
    let mut kinds = Vec::with_capacity(alloc, count)?;
    'fill: while kinds.len() < count {
        kinds.push(Kind::Barrier)?;
    }
    Ok(kinds)
}
