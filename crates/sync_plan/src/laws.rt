// Laws of plans that fit: there is nothing to call.

ghost use Rattle.std.specs.Prelude.{◌≡◌, ◌<◌, All, false};
ghost use Rattle.nest_tree.specs.Tree.{Printing, Tree, print};
ghost use Rattle.nest_tree.specs.WellFormed.{IsWellFormed};
ghost use Rattle.owner_partition.specs.Phases.{Execution, executions};
ghost use Rattle.sync_plan.specs.Fit.{IsFit};
ghost use Rattle.sync_plan.specs.Ordered.{IsOrdered, owner_under};
ghost use Rattle.sync_plan.specs.Shape.{is_doall};
ghost use Rattle.sync_plan.specs.declared.plan.Kind.TheVariants.{Barrier};
ghost use Rattle.sync_plan.specs.declared.plan.Plan.{Plan};

/// Under a plan that fits a well-formed program each instance's owner is one of its processors,
/// and processor 0 owns each PRINT.
pub fn owners_are_processors()
    ensures below { (tree : Tree) → (plan : Plan) → IsWellFormed tree → IsFit tree plan
        → All (λ (x : Execution). owner_under tree plan x < plan.workers)
        (executions tree plan.cut.marks) }
    ensures printers { (tree : Tree) → (plan : Plan) → IsWellFormed tree → IsFit tree plan
        → All (λ (x : Execution). (p : Printing) → x.instance.what ≡ print p
        → owner_under tree plan x ≡ 0) (executions tree plan.cut.marks) }
{}

/// A plan that fits a well-formed program, with a barrier in front of each phase and without a
/// Doall loop, is ordered.
pub fn barriers_order_phases()
    ensures { (tree : Tree) → (plan : Plan) → IsWellFormed tree → IsFit tree plan
        → All (λ k. k ≡ Barrier) plan.kinds → All (λ m. is_doall m ≡ false) plan.cut.marks
        → IsOrdered tree plan }
{}
