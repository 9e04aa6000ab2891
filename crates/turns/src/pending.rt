// The own scalars that are to be closed, by their places.

ghost use Rattle.std.specs.Prelude.{◌≡◌, ◌≤◌, ◌<◌, true, false, IfSome, MatchOption, [], ◌∷◌, slice_set};
ghost use Rattle.turns.specs.Turns.{mark_first, mark_place, places_pending};

use own_cells::OWN_PLACES;

// The first place that is marked.
pub(crate) fn first_pending(pending: &[bool; OWN_PLACES]) -> Option<usize>
    ensures first { MatchOption result (places_pending pending.now ≡ [])
        (λ k. places_pending pending.now ≡ k ∷ places_pending (slice_set pending.now k false)) }
    ensures small { IfSome result (λ k. k < 32) }
{
    for place in 0..OWN_PLACES {
        if pending[place] {
            return Some(place);
        }
    }
    None
}

// This place is marked too, if there is one.
pub(crate) fn mark_place(pending: &mut [bool; OWN_PLACES], place: Option<usize>)
    requires { IfSome place (λ k. k < 32) }
    ensures { pending.new ≡ mark_place pending.old place }
{
    if let Some(place) = place {
        pending[place] = true;
    }
}

// The first so many places are marked too, where this says so.
pub(crate) fn mark_first(pending: &mut [bool; OWN_PLACES], count: usize, is_so: bool)
    requires { count ≤ 32 }
    ensures { pending.new ≡ mark_first pending.old count is_so }
{
    if is_so {
        for place in 0..count {
            pending[place] = true;
        }
    }
}
