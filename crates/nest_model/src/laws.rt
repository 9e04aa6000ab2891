// Laws over the definitions of what a program means.

ghost use Rattle.std.specs.Prelude.{ℕ, Bool, ◌≤◌, IsTrue, length};
ghost use Rattle.std.specs.List.{list_all};
ghost use Rattle.nest_tree.specs.Form.{is_small};
ghost use Rattle.nest_tree.specs.Layout.{cell_count};
ghost use Rattle.nest_tree.specs.Limits.{IsWithinLimits, most_cells, most_work, work_estimate};
ghost use Rattle.nest_tree.specs.Tree.{Tree, param_values};
ghost use Rattle.nest_tree.specs.WellFormed.{IsWellFormed};
ghost use Rattle.nest_model.specs.Computed.{computed_at};
ghost use Rattle.nest_model.specs.Instances.{instances};
ghost use Rattle.nest_model.specs.StopEnds.{is_in_its_ends, stop_ends};
ghost use Rattle.nest_model.specs.Visits.{visits};

/// A well-formed program has at most as many instances as it has work, and a walk of it,
/// whichever loops it enters, at most as many stops.
pub fn no_more_stops_than_work()
    ensures stops { (tree : Tree) → (enters : ℕ → Bool) → IsWellFormed tree
        → length (visits tree enters) ≤ work_estimate tree }
    ensures instances { (tree : Tree) → IsWellFormed tree
        → length (instances tree) ≤ work_estimate tree }
{}

/// A program within its limits has at most 2^40 of work and at most 1,048,576 cells.
pub fn limits_bound_work_and_cells()
    ensures work { (tree : Tree) → IsWithinLimits tree → work_estimate tree ≤ most_work }
    ensures cells { (tree : Tree) → IsWithinLimits tree → cell_count tree ≤ most_cells }
{}

/// At each stop of a walk of a well-formed program, whichever loops it enters, the value of each
/// loop round the stop lies in the interval that the bounds give the loop inside those round it.
pub fn values_lie_in_intervals()
    ensures { (tree : Tree) → (enters : ℕ → Bool) → IsWellFormed tree
        → IsTrue (list_all (is_in_its_ends (stop_ends tree enters)) (visits tree enters)) }
{}

/// In a well-formed program within its limits, wherever a walk stops, whichever loops it enters,
/// the values of the statement's forms are within plus or minus 2147483647, and so is every value
/// that a loop's DO variable takes there.
pub fn computed_numbers_are_small()
    ensures { (tree : Tree) → (enters : ℕ → Bool) → IsWellFormed tree → IsWithinLimits tree
        → IsTrue (list_all (λ v. list_all is_small (computed_at (param_values tree) v))
        (visits tree enters)) }
{}
