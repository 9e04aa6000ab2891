// What the words show is the state of one schedule's run: there is nothing to call.

ghost use Rattle.std.specs.Prelude.{ℕ, List, ◌≡◌, ◌<◌, ◌+◌, length};
ghost use Rattle.nest_tree.specs.Tree.{Tree};
ghost use Rattle.sync_plan.specs.declared.plan.Plan.{Plan};
ghost use Rattle.spmd_model.specs.Lawful.{Moves};
ghost use Rattle.spmd_model.specs.Runs.{IsEnded, run_of};
ghost use Rattle.spmd_model.specs.Machines.{machine_by};
ghost use Rattle.spmd_model.specs.declared.style.Style.{Style};
ghost use Rattle.spmd_model.specs.PlanProtocols.{protocol_by};
ghost use Rattle.shared_words.specs.Runs.{AreStepsOf, AreWordsOf, IsRunnable};
ghost use Rattle.shared_words.specs.Shown.{AreOne};
ghost use Rattle.shared_words.specs.declared.roles.Role.{Role};
ghost use Rattle.shared_words.specs.Schedules.{HasSchedule, gone_on};

/// Whatever words the rule of a table allows between two atomic steps, some schedule of the machine
/// leads to the state that they show. A step of a processor goes on with that schedule, by that
/// processor alone. And where all processors are at their ends, the schedule has ended.
pub fn words_show_a_run()
    ensures shown { (style : Style) (tree : Tree) (plan : Plan) → IsRunnable tree plan
        → (words : List ℕ) (roles : List Role)
        → (one : AreOne (protocol_by style tree plan) words roles)
        → HasSchedule style tree plan words one.at }
    ensures extended { (style : Style) (tree : Tree) (plan : Plan) (words after : List ℕ)
        → (at to : ℕ → ℕ) (p n : ℕ) → AreStepsOf style tree plan words after at p n
        → Moves at to p n → (run : HasSchedule style tree plan words at)
        → (k : ℕ) × (at p + k ≡ n) × AreWordsOf style tree plan after to
        (run_of (machine_by style tree plan) (gone_on run.schedule p k)) }
    ensures ended { (style : Style) (tree : Tree) (plan : Plan) (words : List ℕ) (at : ℕ → ℕ)
        → (run : HasSchedule style tree plan words at) → ((p : ℕ) → p < plan.workers
        → at p ≡ length ((protocol_by style tree plan).acts p))
        → IsEnded (machine_by style tree plan) (run_of (machine_by style tree plan) run.schedule) }
{}
