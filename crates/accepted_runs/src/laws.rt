// Every interleaving of an accepted plan.

ghost use Rattle.std.specs.Prelude.{ℕ, false, List, Some, All, Contains, length, slice_get, take, ◌≡◌, ◌<◌, ◌≤◌, ◌⊎◌, ◌++◌};
ghost use Rattle.nest_tree.specs.Layout.{cell_count};
ghost use Rattle.nest_tree.specs.Tree.{Tree};
ghost use Rattle.nest_tree.specs.WellFormed.{IsWellFormed};
ghost use Rattle.nest_model.specs.Accesses.{loads_of};
ghost use Rattle.nest_model.specs.Instances.{instances};
ghost use Rattle.nest_model.specs.Memory.{cell_value, last_memory, memory_before, output_of};
ghost use Rattle.nest_model.specs.Ranges.{IsInRange};
ghost use Rattle.owner_partition.specs.Phases.{Execution};
ghost use Rattle.sync_plan.specs.Own.{own_cell, own_of};
ghost use Rattle.sync_plan.specs.declared.plan.Plan.{Plan};
ghost use Rattle.plan_checker.specs.Accepted.{IsAccepted};
ghost use Rattle.spmd_model.specs.Fair.{IsBlock, IsFair, acts_to_go, blocks_in, first_of};
ghost use Rattle.spmd_model.specs.Reached.{CanGo};
ghost use Rattle.spmd_model.specs.States.{first_state, next_act};
ghost use Rattle.spmd_model.specs.Runs.{IsEnded, run_of};
ghost use Rattle.spmd_model.specs.Machines.{instances_in_front, job_under, machine_by, timeline_by};
ghost use Rattle.spmd_model.specs.Timelines.{Job, job};
ghost use Rattle.spmd_model.specs.Acts.{load};
ghost use Rattle.spmd_model.specs.declared.style.Style.{Style};

/// Under an accepted plan of a well-formed program whose subscripts are in range, in whatever order
/// the processors go, with own cells for the own scalars of phases, closings behind these, and
/// barriers by counters or by signals: a load that comes next, but that of a sum scalar, finds in
/// its cell what the sequential program's memory has there in front of its instance; the output is
/// at all times a front of the sequential one; and where all acts are done, the cells that all
/// share, and the output, are the sequential program's. At all times all acts are done, or the next
/// act of some processor is possible, and where each processor's turn comes again and again, all
/// acts are done behind some number of steps: both whatever the subscripts.
pub fn accepted_plans_run_in_styles()
    ensures loads { (style : Style) → (tree : Tree) → (plan : Plan) → (schedule : List ℕ)
        → (p place : ℕ) → (j : Job) → IsWellFormed tree → IsInRange tree → IsAccepted tree plan
        → All (λ q. q < plan.workers) schedule
        → slice_get (timeline_by style tree plan) place ≡ Some (job j) → j.counts ≡ 1
        → j.owner ≡ p → (x : Execution) × (j ≡ job_under tree plan x) × (slice_get (instances tree)
        (instances_in_front style tree plan place) ≡ Some x.instance) × ((c : ℕ)
        → Contains (loads_of tree x.instance) c → (own_of tree plan x.place).is_sum c ≡ false
        → next_act (machine_by style tree plan) (run_of (machine_by style tree plan) schedule) p
        ≡ Some (load place (own_cell (own_of tree plan x.place) p c)) → cell_value
        (run_of (machine_by style tree plan) schedule).memory (own_cell (own_of tree plan x.place)
        p c) ≡ cell_value (memory_before tree (instances_in_front style tree plan place)) c) }
    ensures front { (style : Style) → (tree : Tree) → (plan : Plan) → (schedule : List ℕ)
        → IsWellFormed tree → IsInRange tree → IsAccepted tree plan
        → All (λ q. q < plan.workers) schedule → (rest : List ℕ)
        × ((run_of (machine_by style tree plan) schedule).output ++ rest ≡ output_of tree) }
    ensures memory { (style : Style) → (tree : Tree) → (plan : Plan) → (schedule : List ℕ)
        → IsWellFormed tree → IsInRange tree → IsAccepted tree plan
        → All (λ q. q < plan.workers) schedule
        → IsEnded (machine_by style tree plan) (run_of (machine_by style tree plan) schedule)
        → take (cell_count tree) (run_of (machine_by style tree plan) schedule).memory
        ≡ last_memory tree }
    ensures output { (style : Style) → (tree : Tree) → (plan : Plan) → (schedule : List ℕ)
        → IsWellFormed tree → IsInRange tree → IsAccepted tree plan
        → All (λ q. q < plan.workers) schedule
        → IsEnded (machine_by style tree plan) (run_of (machine_by style tree plan) schedule)
        → (run_of (machine_by style tree plan) schedule).output ≡ output_of tree }
    ensures unstuck { (style : Style) → (tree : Tree) → (plan : Plan) → (schedule : List ℕ)
        → IsWellFormed tree → IsAccepted tree plan → All (λ q. q < plan.workers) schedule
        → IsEnded (machine_by style tree plan) (run_of (machine_by style tree plan) schedule)
        ⊎ CanGo (machine_by style tree plan) (run_of (machine_by style tree plan) schedule) }
    ensures ends { (style : Style) → (tree : Tree) → (plan : Plan) → (order : ℕ → ℕ)
        → IsWellFormed tree → IsAccepted tree plan → IsFair plan.workers order → (n : ℕ)
        × IsEnded (machine_by style tree plan) (run_of (machine_by style tree plan)
        (first_of order n)) }
    ensures soon { (style : Style) → (tree : Tree) → (plan : Plan) → (blocks : List (List ℕ))
        → IsWellFormed tree → IsAccepted tree plan → All (IsBlock plan.workers) blocks
        → acts_to_go (machine_by style tree plan) (first_state (machine_by style tree plan))
        ≤ length blocks → IsEnded (machine_by style tree plan)
        (run_of (machine_by style tree plan) (blocks_in blocks)) }
{}
