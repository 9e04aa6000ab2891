// The candidates that are taken in front of the phases.

ghost use Rattle.std.specs.Prelude.{◌≡◌, IfOk, slice_get};
ghost use Rattle.plan_maker.specs.Candidates.{candidate as candidate_of, kinds_taken, last_places, or_barrier};

use maker_anchors::places::item_at;
use nest_tree::Listed;
use std::alloc::{AllocError, Global};
use sync_plan::Kind;

/// Of each phase the place of its last candidate, which is a barrier.
pub(crate) fn last_places(
    alloc: Global,
    candidates: &[Listed<Kind>],
) -> Result<Vec<usize>, AllocError>
    ensures { IfOk result (λ places. places.items ≡ last_places candidates.now) }
{
    let mut places = Vec::new(alloc);
    for kinds in candidates {
        places.push(kinds.as_slice().len().saturating_sub(1))?;
    }
    Ok(places)
}

// The candidate at this place; a barrier where there is none.
fn kind_at(alloc: Global, candidates: &[Kind], place: usize) -> Result<Kind, AllocError>
    ensures { IfOk result (λ kind. kind ≡ or_barrier (slice_get candidates.now place)) }
{
    match item_at(candidates, place) {
        Some(kind) => kind.copy(alloc),
        None => Ok(Kind::Barrier),
    }
}

/// The candidate of a phase at a place; a barrier where there is none.
pub(crate) fn candidate(
    alloc: Global,
    candidates: &[Listed<Kind>],
    phase: usize,
    place: usize,
) -> Result<Kind, AllocError>
    ensures { IfOk result (λ kind. kind
        ≡ candidate_of candidates.now (record { phase = phase; place = place })) }
{
    match item_at(candidates, phase) {
        Some(kinds) => kind_at(alloc, kinds.as_slice(), place),
        None => Ok(Kind::Barrier),
    }
}

/// The kinds that are taken, each by its place among the candidates.
pub(crate) fn kinds_taken(
    alloc: Global,
    candidates: &[Listed<Kind>],
    taken: &[usize],
) -> Result<Vec<Kind>, AllocError>
    ensures { IfOk result (λ kinds. kinds.items ≡ kinds_taken candidates.now taken.now) }
{
    let mut kinds = Vec::new(alloc);
    for (phase, all) in candidates.iter().enumerate() {
        if phase >= taken.len() {
            return Ok(kinds);
        }
        kinds.push(kind_at(alloc, all.as_slice(), taken[phase])?)?;
    }
    Ok(kinds)
}
