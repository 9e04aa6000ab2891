// What turns have to do with acts: there is nothing to call.

ghost use Rattle.std.specs.Prelude.{ℕ, map, ◌≡◌, ◌<◌};
ghost use Rattle.std.specs.List.{flat_map};
ghost use Rattle.nest_tree.specs.Limits.{IsWithinLimits};
ghost use Rattle.nest_tree.specs.Tree.{Tree};
ghost use Rattle.nest_tree.specs.WellFormed.{IsWellFormed};
ghost use Rattle.nest_model.specs.Ranges.{IsInRange};
ghost use Rattle.owner_partition.specs.Phases.{phases};
ghost use Rattle.sync_plan.specs.Fit.{IsFit};
ghost use Rattle.sync_plan.specs.declared.plan.Plan.{Plan};
ghost use Rattle.spmd_model.specs.Deeds.{deed_of};
ghost use Rattle.spmd_model.specs.Machines.{machine_by};
ghost use Rattle.spmd_model.specs.Acts.{acts_of};
ghost use Rattle.spmd_model.specs.declared.style.Style.{Style};
ghost use Rattle.turns.specs.CounterTurns.{counter_turns};
ghost use Rattle.turns.specs.Turns.{first_standing, turns_by, turn_deeds};

/// In either style, the turns of a processor under a plan that fits a program within its limits and
/// in range do, one behind the other, exactly what its acts do along the plan's timeline in that
/// style.
pub fn turns_are_acts()
    ensures { (style : Style) → (tree : Tree) → (plan : Plan) → (p : ℕ) → IsWellFormed tree
        → IsWithinLimits tree → IsFit tree plan → IsInRange tree → p < plan.workers
        → flat_map (turn_deeds tree plan p) (turns_by style tree plan p first_standing
        (counter_turns tree plan p 1 (phases tree plan.cut.marks)))
        ≡ map (deed_of (machine_by style tree plan)) (acts_of (machine_by style tree plan) p) }
{}
