// Laws: there is nothing to run.

ghost use Rattle.std.specs.List.{AllByRecursion};
ghost use Rattle.nest_tree.specs.Tree.{Tree, param_values};
ghost use Rattle.nest_tree.specs.WellFormed.{IsWellFormed};
ghost use Rattle.nest_model.specs.Instances.{instances};
ghost use Rattle.nest_rows.specs.Nested.{IsNestedInstance, nested_works};

/// Each instance of a well-formed program is of the piece of work with its number, and each loop
/// round it is at one of its trips.
#[tactic(auto, using(crate::proofs::Nesting::instance_nested))]
pub fn instances_are_at_trips()
    ensures { (tree : Tree) → IsWellFormed tree
        → AllByRecursion (IsNestedInstance (param_values tree) (nested_works tree))
        (instances tree) }
{}
