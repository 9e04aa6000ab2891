// What holds of every run: there is nothing to call.

ghost use Rattle.std.specs.Prelude.{ℕ, ℤ, pos, Bool, true, false, Option, None, Contains, fold, ◌∷◌, length, replicate, slice_get, take, map, List, Some, All, ◌≡◌, ◌≢◌, ◌<◌, ◌≤◌, ◌+◌, ◌⊎◌, ◌++◌};
ghost use Rattle.nest_tree.specs.Layout.{cell_count};
ghost use Rattle.nest_tree.specs.Tree.{Tree};
ghost use Rattle.nest_tree.specs.WellFormed.{IsWellFormed};
ghost use Rattle.nest_model.specs.Instances.{instances};
ghost use Rattle.nest_model.specs.Memory as Memory;
ghost use Rattle.nest_model.specs.Memory.{cell_value, memory_before, output_of};
ghost use Rattle.sync_plan.specs.Fit.{IsFit};
ghost use Rattle.sync_plan.specs.Ordered.{IsOrdered};
ghost use Rattle.sync_plan.specs.Stored.{AreStoredFirst};
ghost use Rattle.sync_plan.specs.declared.plan.Plan.{Plan};
ghost use Rattle.owner_partition.specs.Phases.{Execution, phases};
ghost use Rattle.spmd_model.specs.Deeds.{can_do, deed_of, deeds_from, did};
ghost use Rattle.spmd_model.specs.Fair.{IsBlock, IsFair, acts_to_go, blocks_in, first_of};
ghost use Rattle.spmd_model.specs.Free.{IsFree};
ghost use Rattle.spmd_model.specs.Lawful.{IsLawful, Moves, acts_in_front};
ghost use Rattle.spmd_model.specs.Ordered.{Hop, IsChain, IsOrderedMachine, IsSound};
ghost use Rattle.std.specs.List.{AllByRecursion};
ghost use Rattle.spmd_model.specs.OwnPhases.{AreApart, Come, IsGoodLoad, IsSumJob, Own, adds_total, behind_job, clears, keeps_private, own_cell, own_job, put, without};
ghost use Rattle.spmd_model.specs.Trips.{IsTrip, last_behind};
ghost use Rattle.spmd_model.specs.Quiet.{quiet_next, turns_of};
ghost use Rattle.spmd_model.specs.Reached.{CanGo, IsPossibleAt, memory_by, state_at};
ghost use Rattle.spmd_model.specs.Rounds.{AreEnough, AreRounds, rounds_of};
ghost use Rattle.nest_model.specs.Accesses.{loads_of};
ghost use Rattle.sync_plan.specs.Own.{own_of};
ghost use Rattle.spmd_model.specs.Machines.{instances_in_front, is_by_signals, job_under, machine_by, part_place, parts_by, timeline_by};
ghost use Rattle.spmd_model.specs.MachineDeeds.{HasNoOwn, deeds_by};
ghost use Rattle.spmd_model.specs.declared.style.Style.{Style};
ghost use Rattle.spmd_model.specs.declared.style.Style.TheVariants.{Arrive};
ghost use Rattle.nest_model.specs.Ranges.{IsInRange};
ghost use Rattle.nest_model.specs.Visits.{Visit};
ghost use Rattle.spmd_model.specs.Sequential.{memory_at_end, memory_at, stored_at, value_at, whole_output};
ghost use Rattle.spmd_model.specs.States.{State, acted, first_state, is_possible, next_act};
ghost use Rattle.spmd_model.specs.Runs.{IsEnded, run_of, stepped};
ghost use Rattle.spmd_model.specs.Timelines.{Job, Machine, job};
ghost use Rattle.spmd_model.specs.Acts.{Act, act_at, acts_of, add, load, store};

/// A state of a run, in whatever order its processors went, is never stuck before its end: it is
/// ended, or the next act of some processor is possible.
pub fn no_state_is_stuck()
    ensures { (m : Machine) (schedule : List ℕ) → IsSound m → All (λ p. p < m.workers) schedule
        → IsEnded m (run_of m schedule) ⊎ CanGo m (run_of m schedule) }
{}

/// On a sound timeline, wherever its processors stand, all have ended, or some processor has an act
/// left and doesn't stand in vain: that act is no await, or all that it awaits there is posted.
pub fn rounds_go_on()
    ensures { (m : Machine) (at : ℕ → ℕ) → IsSound m → ((p : ℕ) → p < m.workers
        → length (acts_of m p) ≤ at p) ⊎ IsFree m at }
{}

/// Every fair run ends. A run whose schedule is blocks, each of which names every processor, has
/// ended behind as many blocks as there are acts. And in an endless order in which each processor
/// comes again and again, the run has ended behind some number of steps.
pub fn fair_runs_end()
    ensures blocks { (m : Machine) (blocks : List (List ℕ)) → IsSound m
        → All (IsBlock m.workers) blocks → acts_to_go m (first_state m) ≤ length blocks
        → IsEnded m (run_of m (blocks_in blocks)) }
    ensures fair { (m : Machine) (order : ℕ → ℕ) → IsSound m → IsFair m.workers order → (n : ℕ)
        × IsEnded m (run_of m (first_of order n)) }
{}

/// On an ordered timeline, in whatever order the processors go, every load that stands next finds
/// in its cell what the sequential program's memory has there in front of its job.
pub fn every_load_is_sequential()
    ensures { (m : Machine) (schedule : List ℕ) (p place cell : ℕ) → IsSound m → IsOrderedMachine m
        → All (λ p. p < m.workers) schedule → p < m.workers
        → next_act m (run_of m schedule) p ≡ Some (load place cell)
        → cell_value (run_of m schedule).memory cell ≡ cell_value (memory_at m place) cell }
{}

/// On an ordered timeline the output of a run is at all times a front of the sequential one, and a
/// run that has ended has the sequential program's memory and its whole output.
pub fn runs_are_sequential()
    ensures front { (m : Machine) (schedule : List ℕ) → IsSound m → IsOrderedMachine m
        → All (λ p. p < m.workers) schedule → (rest : List ℕ)
        × ((run_of m schedule).output ++ rest ≡ whole_output m) }
    ensures memory { (m : Machine) (schedule : List ℕ) → IsSound m → IsOrderedMachine m
        → All (λ p. p < m.workers) schedule → IsEnded m (run_of m schedule)
        → (run_of m schedule).memory ≡ memory_at_end m }
    ensures output { (m : Machine) (schedule : List ℕ) → 0 < m.workers → IsSound m
        → IsOrderedMachine m
        → All (λ p. p < m.workers) schedule → IsEnded m (run_of m schedule)
        → (run_of m schedule).output ≡ whole_output m }
{}

/// Where each processor has cells of its own for some scalars of a phase, memory with them follows
/// memory with shared cells alone, job by job: loads of shared cells and of privates that the same
/// processor stored last give the same; a private is kept, and a sum's own cell takes what the
/// assignment adds. Behind the phase, the owner of a private stores its cell to the shared one, and
/// each processor that assigned a sum adds its total to the shared cell and sets it to 0.
pub fn own_cells_follow()
    ensures loads { (o : Own) (m f : ℕ → ℤ) (last : ℕ → Option ℕ) (assigned : ℕ → ℕ
        → Bool) (p : ℕ) (cells : List ℕ) → AreApart o → Come o m f last assigned
        → AllByRecursion (IsGoodLoad o last p) cells
        → map f (map (own_cell o p) cells) ≡ map m cells }
    ensures shared { (o : Own) (m f : ℕ → ℤ) (last : ℕ → Option ℕ) (assigned : ℕ → ℕ
        → Bool) (j : Job) (c : ℕ) → AreApart o → Come o m f last assigned
        → AllByRecursion (IsGoodLoad o last j.owner) j.loads → j.adds ≡ false → j.store ≡ Some c
        → c < o.shared → o.slot c ≡ None → Come o (behind_job m j) (behind_job f (own_job o j))
        last assigned }
    ensures private { (o : Own) (m f : ℕ → ℤ) (last : ℕ → Option ℕ) (assigned : ℕ → ℕ
        → Bool) (j : Job) (c k : ℕ) → AreApart o → Come o m f last assigned
        → AllByRecursion (IsGoodLoad o last j.owner) j.loads → j.adds ≡ false → j.store ≡ Some c
        → c < o.shared → o.slot c ≡ Some k → o.is_sum c ≡ false
        → Come o (behind_job m j) (behind_job f (own_job o j)) (put last c (Some j.owner))
        assigned }
    ensures sum { (o : Own) (m f : ℕ → ℤ) (last : ℕ → Option ℕ) (assigned : ℕ → ℕ
        → Bool) (j : Job) (c k : ℕ) → AreApart o → Come o m f last assigned
        → (s : IsSumJob o j c k) → j.adds ≡ false → j.owner < o.workers
        → AllByRecursion (IsGoodLoad o last j.owner) (s.front ++ s.rest)
        → Come o (behind_job m j) (behind_job f (own_job o j)) last (put assigned c (put (assigned
        c) j.owner true)) }
    ensures kept { (o : Own) (m f : ℕ → ℤ) (last : ℕ → Option ℕ) (assigned : ℕ → ℕ
        → Bool) (c k p : ℕ) (j : Job) → AreApart o → Come o m f last assigned → o.slot c ≡ Some k
        → o.is_sum c ≡ false → last c ≡ Some p → keeps_private o c k p j
        → Come (without o c) m (behind_job f j) last assigned }
    ensures total { (o : Own) (m f : ℕ → ℤ) (last : ℕ → Option ℕ) (assigned : ℕ → ℕ
        → Bool) (c k p : ℕ) (i j : Job) → AreApart o → Come o m f last assigned → o.slot c ≡ Some k
        → o.is_sum c ≡ true → p < o.workers → assigned c p ≡ true → adds_total o c k p i
        → clears o k p j → Come o m (behind_job (behind_job f i) j) last (put assigned c (put
        (assigned c) p false)) }
    ensures none_left { (o : Own) (m f : ℕ → ℤ) (last : ℕ → Option ℕ) (assigned : ℕ → ℕ
        → Bool) (c k : ℕ) → AreApart o → Come o m f last assigned → o.slot c ≡ Some k
        → o.is_sum c ≡ true → ((p : ℕ) → p < o.workers → assigned c p ≡ false)
        → Come (without o c) m f last assigned }
{}

/// In a trip of a loop whose first job with a private stores it, all of one processor, each load of
/// the private is of what that processor stored last, and so it is behind the trip.
pub fn trips_keep_privates()
    ensures load { (o : Own) (c k p : ℕ) (last : ℕ
        → Option ℕ) (js before after : List Job) (j : Job) → o.slot c ≡ Some k → o.is_sum c ≡ false
        → IsTrip o c p js → js ≡ before ++ j ∷ after → Contains j.loads c
        → fold (last_behind o) last before c ≡ Some p }
    ensures behind { (o : Own) (c k p : ℕ) (last : ℕ → Option ℕ) (js : List Job)
        → o.slot c ≡ Some k → o.is_sum c ≡ false → IsTrip o c p js
        → fold (last_behind o) last js c ≡ Some p }
{}

/// A barrier by signals is as many rounds as reach every processor: a chain of waits leads through
/// them from every processor to every other. So whoever is behind the last round knows that every
/// other processor has posted in the first one.
pub fn rounds_lead_to_all()
    ensures chain { (m : Machine) (place first rounds q p t u : ℕ) → AreRounds m place first rounds
        → AreEnough m.workers rounds → 0 < first → q < m.workers → p < m.workers → t < place
        → place + rounds ≤ u → (hops : List Hop) × IsChain m q t hops p u }
    ensures posted { (m : Machine) (cells : List ℤ) (at : ℕ → ℕ) (place first rounds q p : ℕ)
        → IsSound m → IsLawful m cells at → AreRounds m place first rounds
        → AreEnough m.workers rounds → 0 < first → q < m.workers → p < m.workers → q ≢ p
        → acts_in_front m p (place + rounds) ≤ at p → acts_in_front m q place < at q }
{}

/// A run by turns, each an act and then the acts on the processor's own cells that stand next, is a
/// run act by act; and in front of each turn no such act stands next.
pub fn turns_are_runs()
    ensures runs { (m : Machine) (shared : ℕ) (schedule : List ℕ)
        → All (λ p. p < m.workers) schedule → (acts : List ℕ) × All (λ p. p < m.workers) acts
        × (turns_of m shared schedule ≡ run_of m acts) }
    ensures settled { (m : Machine) (shared : ℕ) (schedule : List ℕ) (p : ℕ)
        → All (λ q. q < m.workers) schedule → p < m.workers
        → quiet_next m shared (turns_of m shared schedule) p ≡ 0 }
{}

/// Lawful memory, with how many acts each processor has done, is a state of the machine; and each
/// act that is possible there is one step of it, to memory that is lawful again.
pub fn acts_are_steps()
    ensures first { (m : Machine) → first_state m
        ≡ state_at m (replicate m.cells (pos 0)) (λ p. 0) }
    ensures step { (m : Machine) (memory : List ℤ) (at after : ℕ → ℕ) (p : ℕ) (a : Act) → IsSound m
        → IsOrderedMachine m → p < m.workers → IsLawful m memory at → act_at m p (at p) ≡ Some a
        → IsPossibleAt (acts_of m) at a → Moves at after p (at p + 1)
        → stepped m (state_at m memory at) p ≡ state_at m (memory_by memory (stored_at m p (at p))
        a) after }
    ensures lawful { (m : Machine) (memory : List ℤ) (at after : ℕ → ℕ) (p : ℕ) (a : Act)
        → IsSound m → IsOrderedMachine m → p < m.workers → IsLawful m memory at
        → act_at m p (at p) ≡ Some a → IsPossibleAt (acts_of m) at a → Moves at after p (at p + 1)
        → IsLawful m (memory_by memory (stored_at m p (at p)) a) after }
{}

/// What a store stores and an addition adds where each load gave the sequential value is the
/// sequential value of its job.
pub fn stored_values()
    ensures stored { (m : Machine) (p n place cell : ℕ) → act_at m p n ≡ Some (store place cell)
        → stored_at m p n ≡ value_at m place }
    ensures added { (m : Machine) (p n place cell : ℕ) → act_at m p n ≡ Some (add place cell)
        → stored_at m p n ≡ value_at m place }
{}

/// Where processors have cells of their own for the own scalars of phases, and pass barriers in
/// either style: a plan that fits a well-formed program has a sound timeline, an ordered plan of a
/// program in range an ordered one; and a processor's acts do, phase by phase, what stands in front
/// of the phase, then each instance that it owns, then its closings. Where no loop has own scalars,
/// and barriers are passed by counters, these are the deeds of the boundary and of the program's
/// own instances alone. Nobody is behind the last round of a barrier by signals unless all others
/// are behind their first signal in it. Of a program in range, where the plan has each private
/// scalar stored first in each trip of its loop, the cells that all share have its last memory
/// behind all, and the output is its own; a job that counts as an instance is the one whose number
/// is that of the instances in front, and each of its loads, but of a sum scalar of its phase,
/// gives what the program's memory has there in front of it.
pub fn timelines_in_styles()
    ensures sound { (style : Style) → (tree : Tree) → (plan : Plan) → IsWellFormed tree
        → IsFit tree plan → IsSound (machine_by style tree plan) }
    ensures ordered { (style : Style) → (tree : Tree) → (plan : Plan) → IsWellFormed tree
        → IsFit tree plan → IsInRange tree → IsOrdered tree plan
        → IsOrderedMachine (machine_by style tree plan) }
    ensures deeds { (style : Style) → (tree : Tree) → (plan : Plan) → (p : ℕ)
        → IsWellFormed tree → IsFit tree plan → p < plan.workers
        → map (deed_of (machine_by style tree plan)) (acts_of (machine_by style tree plan) p)
        ≡ deeds_by style tree plan p 1 0 (phases tree plan.cut.marks) }
    ensures plain { (tree : Tree) → (plan : Plan) → (p e passed : ℕ) → (vs : List Visit)
        → ((place : ℕ) → HasNoOwn tree plan place)
        → deeds_by Arrive tree plan p e passed vs ≡ deeds_from tree plan p e vs }
    ensures signals { (style : Style) → (tree : Tree) → (plan : Plan) → (k : ℕ) → (v : Visit)
        → (cells : List ℤ) → (at : ℕ → ℕ) → (q p : ℕ) → IsWellFormed tree → IsFit tree plan
        → slice_get (phases tree plan.cut.marks) k ≡ Some v → is_by_signals style plan v ≡ true
        → IsLawful (machine_by style tree plan) cells at → q < plan.workers → p < plan.workers
        → q ≢ p → acts_in_front (machine_by style tree plan) p (part_place (parts_by style tree
        plan) k + rounds_of plan.workers) ≤ at p → acts_in_front (machine_by style tree plan) q
        (part_place (parts_by style tree plan) k) < at q }
    ensures last { (style : Style) → (tree : Tree) → (plan : Plan) → IsWellFormed tree
        → IsFit tree plan → IsInRange tree → AreStoredFirst tree plan → take (cell_count tree)
        (memory_at_end (machine_by style tree plan)) ≡ Memory.last_memory tree }
    ensures output { (style : Style) → (tree : Tree) → (plan : Plan) → IsWellFormed tree
        → IsFit tree plan → IsInRange tree → AreStoredFirst tree plan
        → whole_output (machine_by style tree plan) ≡ output_of tree }
    ensures instance { (style : Style) → (tree : Tree) → (plan : Plan) → (place : ℕ) → (j : Job)
        → IsWellFormed tree → IsFit tree plan → IsInRange tree → AreStoredFirst tree plan
        → slice_get (timeline_by style tree plan) place ≡ Some (job j) → j.counts ≡ 1
        → (x : Execution) × (j ≡ job_under tree plan x) × (slice_get (instances tree)
        (instances_in_front style tree plan place) ≡ Some x.instance) × ((c : ℕ)
        → Contains (loads_of tree x.instance) c → (own_of tree plan x.place).is_sum c ≡ false
        → cell_value (memory_at (machine_by style tree plan) place) (own_cell (own_of tree plan
        x.place) j.owner c) ≡ cell_value (memory_before tree (instances_in_front style tree plan
        place)) c) }
{}

/// What an act does to a state, and whether it is possible, follows from what it does alone, without
/// its place on the timeline.
pub fn acts_by_their_deeds()
    ensures acted { (m : Machine) → (s : State) → (p : ℕ) → (a : Act)
        → acted m s p a ≡ did s p (deed_of m a) }
    ensures possible { (m : Machine) → (s : State) → (a : Act)
        → is_possible s a ≡ can_do s (deed_of m a) }
{}
