// What holds of made plans and their texts.

ghost use Rattle.std.specs.Prelude.{ℕ};
ghost use Rattle.nest_tree.specs.Tree.{Tree};
ghost use Rattle.nest_tree.specs.WellFormed.{IsWellFormed};
ghost use Rattle.sync_plan.specs.declared.plan.Plan.{Plan};
ghost use Rattle.plan_maker.specs.Made.{IsBarrierPlan, IsMade};
ghost use Rattle.plan_maker.specs.declared.reasons.Reasons.{Reasons};
ghost use Rattle.plan_text.specs.PlanText.{HasText};

/// A made plan has a text, and so has the one with a barrier in front of each phase.
pub fn made_text()
    ensures made { (tree : Tree) (workers : ℕ) (plan : Plan) (reasons : Reasons) → IsWellFormed tree
        → IsMade tree workers plan reasons → HasText plan }
    ensures barriers { (tree : Tree) (workers : ℕ) (plan : Plan) → IsWellFormed tree
        → IsBarrierPlan tree workers plan → HasText plan }
{}
