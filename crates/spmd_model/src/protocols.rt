// The laws of the protocol of an ordered plan in a style: there is nothing to call.

ghost use Rattle.std.specs.Prelude.{ℕ, ℤ, pos, true, List, Some, Contains, length, replicate, slice_get, ◌≡◌, ◌≤◌, ◌<◌, ◌+◌, ◌++◌};
ghost use Rattle.nest_tree.specs.Layout.{cell_count};
ghost use Rattle.nest_tree.specs.Limits.{IsWithinLimits};
ghost use Rattle.nest_tree.specs.Tree.{Tree};
ghost use Rattle.nest_tree.specs.WellFormed.{IsWellFormed};
ghost use Rattle.nest_model.specs.Accesses.{loads_of};
ghost use Rattle.nest_model.specs.Instances.{Instance, instances};
ghost use Rattle.nest_model.specs.Memory.{cell_value, memory_before};
ghost use Rattle.nest_model.specs.Ranges.{IsInRange};
ghost use Rattle.owner_partition.specs.Phases.{phases};
ghost use Rattle.sync_plan.specs.Boundaries.{gathers};
ghost use Rattle.sync_plan.specs.Fit.{IsFit};
ghost use Rattle.sync_plan.specs.Ordered.{IsOrdered};
ghost use Rattle.sync_plan.specs.Stored.{AreStoredFirst};
ghost use Rattle.sync_plan.specs.declared.plan.Plan.{Plan};
ghost use Rattle.spmd_model.specs.Deeds.{Deed, adding, deed_of, printing, storing};
ghost use Rattle.spmd_model.specs.Lawful.{Moves};
ghost use Rattle.spmd_model.specs.Reached.{IsPossibleAt, memory_by};
ghost use Rattle.spmd_model.specs.States.{State, first_state};
ghost use Rattle.spmd_model.specs.Runs.{stepped};
ghost use Rattle.spmd_model.specs.Machines.{instances_in_front, machine_by};
ghost use Rattle.spmd_model.specs.MachineDeeds.{deeds_by};
ghost use Rattle.spmd_model.specs.Timelines.{counter};
ghost use Rattle.spmd_model.specs.Acts.{Act, await, load, post};
ghost use Rattle.spmd_model.specs.declared.style.Style.{Style};
ghost use Rattle.spmd_model.specs.Laws.{Laws};
ghost use Rattle.spmd_model.specs.Protocols.{act_at, arrivals_at, held_at, is_passed};
ghost use Rattle.spmd_model.specs.PlanProtocols.{AreOfStateBy, protocol_by};
ghost use Rattle.spmd_model.specs.Viewed.{barriers_in_front};

/// For every well-formed program within its limits and in range, and every plan that fits it and is
/// ordered, the laws hold of the protocol of the program under the plan in either style.
pub fn laws_in_styles()
    ensures { (style : Style) → (tree : Tree) → (plan : Plan) → IsWellFormed tree
        → IsWithinLimits tree → IsInRange tree → IsFit tree plan → IsOrdered tree plan
        → Laws (protocol_by style tree plan) }
{}

/// Under a plan that fits, what a store stores in the sequential program, or an addition adds, is
/// its deed's value of the registers in front of it; a PRINT prints its deed's line of them; and
/// each act does its deed.
pub fn values_in_styles()
    ensures stored { (style : Style) → (tree : Tree) → (plan : Plan) → (p n cell : ℕ)
        → (value : List ℤ → ℤ) → IsWellFormed tree → IsFit tree plan → p < plan.workers
        → slice_get (deeds_by style tree plan p 1 0 (phases tree plan.cut.marks)) n
        ≡ Some (storing cell value) → (protocol_by style tree plan).stored_at p n
        ≡ value ((protocol_by style tree plan).registers_at p n) }
    ensures added { (style : Style) → (tree : Tree) → (plan : Plan) → (p n cell : ℕ)
        → (value : List ℤ → ℤ) → IsWellFormed tree → IsFit tree plan → p < plan.workers
        → slice_get (deeds_by style tree plan p 1 0 (phases tree plan.cut.marks)) n
        ≡ Some (adding cell value) → (protocol_by style tree plan).stored_at p n
        ≡ value ((protocol_by style tree plan).registers_at p n) }
    ensures printed { (style : Style) → (tree : Tree) → (plan : Plan) → (p n : ℕ)
        → (line : List ℤ → List ℕ) → IsWellFormed tree → IsFit tree plan → p < plan.workers
        → slice_get (deeds_by style tree plan p 1 0 (phases tree plan.cut.marks)) n
        ≡ Some (printing line) → (protocol_by style tree plan).printed_at p (n + 1)
        ≡ (protocol_by style tree plan).printed_at p n ++ line ((protocol_by style tree
        plan).registers_at p n) }
    ensures acts { (style : Style) → (tree : Tree) → (plan : Plan) → (p n : ℕ) → (d : Deed)
        → IsWellFormed tree → IsFit tree plan → p < plan.workers
        → slice_get (deeds_by style tree plan p 1 0 (phases tree plan.cut.marks)) n ≡ Some d
        → (a : Act) × (act_at (protocol_by style tree plan) p n ≡ Some a)
        × (deed_of (machine_by style tree plan) a ≡ d) }
{}

/// Under a plan that has each private scalar stored first in each trip of its loop, a load of a cell
/// that all share is of an instance of the program, numbered by how many stand in front of it, and
/// gives, in the sequential program, what memory in front of that instance has.
pub fn loads_in_styles()
    ensures { (style : Style) → (tree : Tree) → (plan : Plan) → (p n place cell : ℕ)
        → IsWellFormed tree → IsFit tree plan → IsInRange tree → AreStoredFirst tree plan
        → cell < cell_count tree
        → act_at (protocol_by style tree plan) p n ≡ Some (load place cell)
        → (i : Instance)
        × (slice_get (instances tree) (instances_in_front style tree plan place) ≡ Some i)
        × Contains (loads_of tree i) cell × ((protocol_by style tree plan).loaded_at p n
        ≡ cell_value (memory_before tree (instances_in_front style tree plan place)) cell) }
{}

/// A load of a cell of a processor's own gives what the processor stored there last, 0 where it
/// stored nothing.
pub fn own_cells_in_styles()
    ensures { (style : Style) → (tree : Tree) → (plan : Plan) → (p n place cell : ℕ)
        → IsWellFormed tree → IsFit tree plan → IsInRange tree → cell_count tree ≤ cell
        → act_at (protocol_by style tree plan) p n ≡ Some (load place cell)
        → (protocol_by style tree plan).loaded_at p n
        ≡ held_at (protocol_by style tree plan) p cell n }
{}

/// Cells that all share are lawful exactly where they are those of a state of the machine in the
/// style at these places; the machine's first state is one; and each act that is possible is one
/// step of the machine. An act that nobody else sees leaves them.
pub fn shared_cells_in_styles()
    ensures lawful { (style : Style) → (tree : Tree) → (plan : Plan) → (cells : List ℤ)
        → (at : ℕ → ℕ) → (s : State) → AreOfStateBy style tree plan cells at s
        → (protocol_by style tree plan).lawful cells at }
    ensures state { (style : Style) → (tree : Tree) → (plan : Plan) → (cells : List ℤ)
        → (at : ℕ → ℕ) → (protocol_by style tree plan).lawful cells at
        → (s : State) × AreOfStateBy style tree plan cells at s }
    ensures first { (style : Style) → (tree : Tree) → (plan : Plan) → IsWellFormed tree
        → IsFit tree plan → AreOfStateBy style tree plan (replicate (cell_count tree) (pos
        0)) (λ p. 0) (first_state (machine_by style tree plan)) }
    ensures step { (style : Style) → (tree : Tree) → (plan : Plan) → (cells : List ℤ)
        → (at after : ℕ → ℕ) → (p : ℕ) → (a : Act) → (s : State) → IsWellFormed tree
        → IsFit tree plan → IsInRange tree → IsOrdered tree plan → p < plan.workers
        → AreOfStateBy style tree plan cells at s
        → act_at (protocol_by style tree plan) p (at p) ≡ Some a
        → IsPossibleAt (protocol_by style tree plan).acts at a → Moves at after p (at p + 1)
        → AreOfStateBy style tree plan (memory_by cells ((protocol_by style tree plan).stored_at
        p (at p)) a) after (stepped (machine_by style tree plan) s p) }
    ensures passed { (cells : List ℤ) → (v : ℤ) → (a : Act) → is_passed (length cells) a ≡ true
        → memory_by cells v a ≡ cells }
{}

/// In front of an arrival at a barrier its processor has arrived at all barriers in front of that
/// one, and in front of an await there at that one too; in the style by signals nobody arrives.
pub fn arrivals_in_styles()
    ensures posts { (style : Style) → (tree : Tree) → (plan : Plan) → (p n number : ℕ)
        → p < plan.workers → act_at (protocol_by style tree plan) p n ≡ Some (post counter number)
        → gathers tree plan number ≡ true → arrivals_at (protocol_by style tree plan) p n
        ≡ barriers_in_front tree plan number }
    ensures awaits { (style : Style) → (tree : Tree) → (plan : Plan) → (p n on wanted : ℕ)
        → p < plan.workers
        → act_at (protocol_by style tree plan) p n ≡ Some (await counter on wanted)
        → gathers tree plan wanted ≡ true → arrivals_at (protocol_by style tree plan) p n
        ≡ barriers_in_front tree plan wanted + 1 }
{}
