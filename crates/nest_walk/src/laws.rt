// Laws over the definitions of walks.

ghost use Rattle.std.specs.Prelude.{ℕ, Bool, IsTrue, ◌≡◌};
ghost use Rattle.std.specs.List.{flat_map, list_all};
ghost use Rattle.nest_tree.specs.Limits.{IsWithinLimits};
ghost use Rattle.nest_tree.specs.Tree.{Tree, param_values};
ghost use Rattle.nest_tree.specs.WellFormed.{IsWellFormed};
ghost use Rattle.nest_model.specs.Instances.{instances};
ghost use Rattle.nest_model.specs.Visits.{Visit, every, instances_at, visits};
ghost use Rattle.nest_walk.specs.TripNumbers.{fits_at};

/// The instances of a program are the stops of the walk that enters every loop, each where its
/// comparison holds.
pub fn instances_are_stops()
    ensures { (tree : Tree) → flat_map (instances_at (param_values tree)) (visits tree every)
        ≡ instances tree }
{}

/// In a well-formed program within its limits, at each stop of a walk that is a loop, whichever
/// loops the walk enters, m2 - m1 + m3 has 64 bits, and the loop makes fewer than 2^32 trips.
pub fn trip_counts_fit()
    ensures { (tree : Tree) → (enters : ℕ → Bool) → IsWellFormed tree → IsWithinLimits tree
        → IsTrue (list_all (λ (v : Visit). fits_at (param_values tree) v.what v.loops)
        (visits tree enters)) }
{}
