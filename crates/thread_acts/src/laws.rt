// Laws of what thread code does: there is nothing to call.

ghost use Rattle.std.specs.Prelude.{ℕ, ◌*◌, ◌/◌, ◌%◌, ◌==◌, ℤ, pos, negsuc, ◌+ℤ◌, ◌-ℤ◌, ◌*ℤ◌, List, [], ◌++◌, map, take, if◌then◌else◌, ◌≡◌, ◌<◌, ◌⊎◌};
ghost use Rattle.std.specs.Int.{int_max, int_min};
ghost use Rattle.std.specs.List.{All};
ghost use Rattle.std.specs.Option.{option_map};
ghost use Rattle.nest_tree.specs.Layout.{cell_count};
ghost use Rattle.nest_tree.specs.Tree.{Tree};
ghost use Rattle.nest_tree.specs.WellFormed.{IsWellFormed};
ghost use Rattle.nest_model.specs.Instances.{trips};
ghost use Rattle.nest_model.specs.Memory.{last_memory, output_of};
ghost use Rattle.nest_model.specs.Ranges.{IsInRange};
ghost use Rattle.plan_checker.specs.Accepted.{IsAccepted};
ghost use Rattle.sync_plan.specs.Fit.{IsFit};
ghost use Rattle.sync_plan.specs.Stored.{AreStoredFirst};
ghost use Rattle.sync_plan.specs.declared.plan.Plan.{Plan};
ghost use Rattle.spmd_model.specs.Deeds.{deed_of};
ghost use Rattle.spmd_model.specs.Fair.{IsFair, first_of};
ghost use Rattle.spmd_model.specs.States.{next_act};
ghost use Rattle.spmd_model.specs.Runs.{run_of};
ghost use Rattle.spmd_model.specs.Machines.{machine_by};
ghost use Rattle.spmd_model.specs.Acts.{acts_of};
ghost use Rattle.spmd_model.specs.declared.style.Style.TheVariants.{Arrive};
ghost use Rattle.thread_code.specs.Closed.{AreTurnings, IsTurningOf, floored, raised, turn_from};
ghost use Rattle.thread_code.specs.Code.{Table, codes_of};
ghost use Rattle.thread_acts.specs.ThreadDeeds.{code_deeds, last_trip};
ghost use Rattle.thread_acts.specs.ThreadRuns.{AreDone, CanGoOn, next_deed, threads_of, threads_run};

use accepted_runs::accepted_plans_run_in_styles;

/// What the code of a program does on a processor, under a plan that fits it and has each private
/// scalar stored first in each trip of its loop, is, deed by deed, what the processor's acts do
/// along the plan's timeline: the posts and awaits of each boundary, each instance that it owns with
/// own cells for the own scalars, and the closings behind them.
pub fn threads_do_their_acts()
    ensures { (table : Table) (tree : Tree) (plan : Plan) (p : ℕ)
        → AreTurnings plan.workers table → IsWellFormed tree → IsFit tree plan
        → AreStoredFirst tree plan → p < plan.workers
        → code_deeds tree plan p (codes_of table tree plan)
        ≡ map (deed_of (machine_by Arrive tree plan)) (acts_of (machine_by Arrive tree plan) p) }
{}

/// Threads that go through their deeds by the code of a program under such a plan, in whatever order
/// they come to a step, are in the state of the machine behind the same order, and the next deed of
/// each is what the machine's next act does. So under an accepted plan of a well-formed program whose subscripts
/// are in range, the output is at all times a front of the sequential one, and where all are done
/// the cells that all share and the output are the sequential program's; until then some
/// processor's next deed is possible; and in a fair order all are done behind some number of steps.
pub fn threads_run_as_the_machine()
    ensures run { (table : Table) (tree : Tree) (plan : Plan) (schedule : List ℕ)
        → AreTurnings plan.workers table → IsWellFormed tree → IsFit tree plan
        → AreStoredFirst tree plan → All (λ p. p < plan.workers) schedule
        → threads_run tree plan (codes_of table tree plan) schedule
        ≡ run_of (machine_by Arrive tree plan) schedule }
    ensures next { (table : Table) (tree : Tree) (plan : Plan) (schedule : List ℕ) (p : ℕ)
        → AreTurnings plan.workers table → IsWellFormed tree → IsFit tree plan
        → AreStoredFirst tree plan → All (λ q. q < plan.workers) schedule → p < plan.workers
        → next_deed (threads_of tree plan (codes_of table tree plan)) (threads_run tree plan
        (codes_of table tree plan) schedule) p ≡ option_map (deed_of (machine_by Arrive tree plan))
        (next_act (machine_by Arrive tree plan) (run_of (machine_by Arrive tree plan) schedule)
        p) }
    ensures front { (table : Table) (tree : Tree) (plan : Plan) (schedule : List ℕ)
        → AreTurnings plan.workers table → IsWellFormed tree → IsInRange tree
        → IsAccepted tree plan → All (λ p. p < plan.workers) schedule → (rest : List ℕ)
        × ((threads_run tree plan (codes_of table tree plan) schedule).output ++ rest
        ≡ output_of tree) }
    ensures memory { (table : Table) (tree : Tree) (plan : Plan) (schedule : List ℕ)
        → AreTurnings plan.workers table → IsWellFormed tree → IsInRange tree
        → IsAccepted tree plan → All (λ p. p < plan.workers) schedule
        → AreDone tree plan (codes_of table tree plan) (threads_run tree plan (codes_of table tree
        plan) schedule) → take (cell_count tree) (threads_run tree plan (codes_of table tree plan)
        schedule).memory ≡ last_memory tree }
    ensures output { (table : Table) (tree : Tree) (plan : Plan) (schedule : List ℕ)
        → AreTurnings plan.workers table → IsWellFormed tree → IsInRange tree
        → IsAccepted tree plan → All (λ p. p < plan.workers) schedule
        → AreDone tree plan (codes_of table tree plan) (threads_run tree plan (codes_of table tree
        plan) schedule) → (threads_run tree plan (codes_of table tree plan) schedule).output
        ≡ output_of tree }
    ensures unstuck { (table : Table) (tree : Tree) (plan : Plan) (schedule : List ℕ)
        → AreTurnings plan.workers table → IsWellFormed tree → IsAccepted tree plan
        → All (λ p. p < plan.workers) schedule → AreDone tree plan (codes_of table tree plan)
        (threads_run tree plan (codes_of table tree plan) schedule) ⊎ CanGoOn tree plan (codes_of
        table tree plan) (threads_run tree plan (codes_of table tree plan) schedule) }
    ensures ends { (table : Table) (tree : Tree) (plan : Plan) (order : ℕ → ℕ)
        → AreTurnings plan.workers table → IsWellFormed tree → IsAccepted tree plan
        → IsFair plan.workers order → (n : ℕ) × AreDone tree plan (codes_of table tree plan)
        (threads_run tree plan (codes_of table tree plan) (first_of order n)) }
{
    accepted_plans_run_in_styles();
}

/// Where a step, a coefficient, a divisor, a factor or a stride is 1, own trips may be written
/// shorter: a quotient by 1 is what is divided; the first trip of a block is the greater of two, or
/// downwards the lesser; nothing is asked of what the divisor 1 divides, nothing is multiplied by
/// the factor 1, and with the stride 1 each trip is made; and the last trip of a step of 1, either
/// way, is the loop's end.
pub fn shorter_texts_are_the_same()
    ensures rounded { (a : ℤ) → (raised a (pos 1) ≡ a) × (floored a (pos 1) ≡ a) }
    ensures upwards { (m1 low : ℤ) → m1 +ℤ (int_max (pos 0) (raised (low -ℤ m1) (pos 1)) *ℤ pos 1)
        ≡ int_max m1 low }
    ensures downwards { (m1 high : ℤ) → m1 +ℤ (int_max (pos 0) (raised (m1 -ℤ high)
        (pos 1)) *ℤ negsuc 0) ≡ int_min m1 high }
    ensures divisor { (factor stride : ℕ) (m1 m2 s : ℤ) (y : ℕ)
        → turn_from (record { divisor = 1; factor = factor; stride = stride }) m1 m2 s y
        ≡ trips (m1 +ℤ (pos (y * factor % stride) *ℤ s)) m2 (pos stride *ℤ s) }
    ensures stride { (divisor factor : ℕ) (m1 m2 s : ℤ) (y : ℕ)
        → turn_from (record { divisor = divisor; factor = factor; stride = 1 }) m1 m2 s y
        ≡ (if y % divisor == 0 then trips m1 m2 s else []) }
    ensures factor { (workers rest divisor stride y : ℕ)
        → IsTurningOf workers rest (record { divisor = divisor; factor = 1; stride = stride })
        → y < workers → y / divisor * 1 % stride ≡ y / divisor }
    ensures last { (m1 m2 : ℤ) → (last_trip m1 m2 (pos 1) ≡ m2)
        × (last_trip m1 m2 (negsuc 0) ≡ m2) }
{}
