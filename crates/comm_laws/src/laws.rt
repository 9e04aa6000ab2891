// Laws: there is nothing to run.

ghost use Rattle.std.specs.Prelude.{◌≡◌, ◌+◌, ◌-◌, ◌≤◌, ℕ, List, [], ◌∷◌, None, length, map, take};
ghost use Rattle.std.specs.List.{AllByRecursion, Contains, flat_map};
ghost use Rattle.farkas_cert.specs.Inequalities.{HasNoWholeSolution, IsWholeSolution};
ghost use Rattle.nest_tree.specs.Tree.{Tree};
ghost use Rattle.nest_tree.specs.WellFormed.{IsWellFormed};
ghost use Rattle.nest_model.specs.Ranges.{IsInRange};
ghost use Rattle.owner_partition.specs.declared.anchor.Anchor.{Anchor};
ghost use Rattle.sync_plan.specs.declared.plan.Kind.{Kind};
ghost use Rattle.sync_plan.specs.declared.plan.Plan.{Plan};
ghost use Rattle.sync_plan.specs.Fit.{IsFit};
ghost use Rattle.sync_plan.specs.Ordered.{IsOrdered};
ghost use Rattle.conflict_rules.specs.Boundaries.{Side, certain_boundaries, of_first, of_second};
ghost use Rattle.comm_system.specs.Levels.{common, order_at, two_trips};
ghost use Rattle.comm_system.specs.Meetings.{AreHolders, Holder, LiesAmong, LiesBeside, Meet, Point, holders_values, values_of};
ghost use Rattle.conflict_rules.specs.Slots.{Slot};
ghost use Rattle.comm_system.specs.Obligations.{anchor_at, lasts_at, obligations_of, owners_of, piece_task, slot_signature, slot_tasks, trips_task};
ghost use Rattle.comm_system.specs.OwnerRows.{Piece, distance};
ghost use Rattle.comm_system.specs.Pairs.{Pair, pairs_of, pairs_within};
ghost use Rattle.conflict_rules.specs.References.{StaticPhase, phases_of};
ghost use Rattle.comm_system.specs.Signatures.{kind_at};
ghost use Rattle.comm_system.specs.Subjects.{groups_of, obligations_in};
ghost use Rattle.comm_system.specs.declared.obligation.Obligation.{Obligation};

/// Kinds that agree in front of the certain boundaries of a slot give it the same systems: a
/// kind's change in front of a phase changes those slots alone that have it among them.
#[tactic(auto, using(crate::proofs::SameKinds::same_tasks))]
pub fn slots_see_certain_boundaries()
    ensures { (tree : Tree) (plan : Plan) (kinds others : List Kind) (phases : List StaticPhase)
        (slot : Slot)
        → AllByRecursion (λ u. kind_at kinds u ≡ kind_at others u)
        (certain_boundaries phases slot.first.outer slot.second.outer slot.s slot.t slot.level)
        → slot_tasks tree plan slot (slot_signature plan.version kinds phases slot)
        ≡ slot_tasks tree plan slot (slot_signature plan.version others phases slot) }
{}

/// Where the accesses of a pair meet in two trips of a phase, the values there solve the system of
/// these trips.
pub fn meeting_trips_solve()
    ensures { (tree : Tree) (plan : Plan) (s : StaticPhase) (pair : Pair) (x y : Point)
        → IsWellFormed tree → IsFit tree plan → Contains (phases_of tree plan.cut.marks) s
        → Contains (pairs_within plan.cut s) pair
        → Meet tree (two_trips (length s.outer)) (None, None) pair x y
        → IsWholeSolution (trips_task tree plan s pair).system (values_of tree pair x y []) }
{}

/// Where the accesses of a pair meet in two phases, as at the level of the slot, and the first
/// owner lies on the sides of a piece, outside the neighbours that are waited for and beside each
/// producer, the values there solve the system of that piece.
pub fn meeting_owners_solve()
    ensures { (tree : Tree) (plan : Plan) (slot : Slot) (pair : Pair) (x y : Point) (left right : ℕ)
        (producers : List (Anchor × Side)) (q p : Holder) (os : List Holder) (piece : Piece) (n : ℕ)
        → IsWellFormed tree → IsFit tree plan → Contains (phases_of tree plan.cut.marks) slot.first
        → Contains (phases_of tree plan.cut.marks) slot.second
        → Contains (pairs_of plan.cut slot.first slot.second) pair
        → Meet tree (order_at (common slot.first.outer slot.second.outer) slot.level)
        (lasts_at plan.cut slot pair) pair x y
        → AreHolders tree plan.workers pair x y ((anchor_at plan slot.s, of_first)
        ∷ (anchor_at plan slot.t, of_second) ∷ producers) (q ∷ p ∷ os)
        → LiesBeside piece.range (distance piece.range left right) q.owner p.owner
        → LiesAmong q.owner (map (λ (o : Holder). o.owner) os) piece.producers
        → IsWholeSolution (piece_task tree plan slot left right producers pair n piece).system
        (values_of tree pair x y (holders_values (owners_of tree plan slot producers pair) (q ∷ p
        ∷ os))) }
{}

/// The obligations of the groups up to a number, one behind another, are the first of the plan. They
/// are all where the number behind them isn't past it, and in any case no more.
pub fn groups_make_obligations()
    ensures first { (tree : Tree) (plan : Plan) (most : ℕ)
        → flat_map (obligations_in tree plan) (groups_of tree plan most).groups
        ≡ take ((groups_of tree plan most).next - 1) (obligations_of tree plan) }
    ensures all { (tree : Tree) (plan : Plan) (most : ℕ) → (groups_of tree plan most).next ≤ most
        → length (obligations_of tree plan) + 1 ≡ (groups_of tree plan most).next }
    ensures some { (tree : Tree) (plan : Plan) (most : ℕ)
        → (groups_of tree plan most).next ≤ length (obligations_of tree plan) + 1 }
{}

/// Where each system of a plan that fits a well-formed program, whose subscripts are in range, has
/// no whole solution, the plan is ordered.
pub fn obligations_order()
    ensures { (tree : Tree) (plan : Plan) → IsWellFormed tree → IsInRange tree → IsFit tree plan
        → ((o : Obligation) → Contains (obligations_of tree plan) o → HasNoWholeSolution o.system)
        → IsOrdered tree plan }
{}
