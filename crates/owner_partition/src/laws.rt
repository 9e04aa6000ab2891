// Laws over the definitions of phases.

ghost use Rattle.std.specs.Prelude.{◌≡◌, ◌==◌, ◌-◌, ℕ, Bool, IsTrue, List, ◌∷◌, Some, map, slice_get};
ghost use Rattle.std.specs.List.{filter};
ghost use Rattle.nest_tree.specs.Form.{Form};
ghost use Rattle.nest_tree.specs.Tree.{Head, Statements, Tree, do_loop, param_values};
ghost use Rattle.nest_tree.specs.WellFormed.{IsWellFormed, names_only};
ghost use Rattle.nest_model.specs.Instances.{instances};
ghost use Rattle.nest_model.specs.Visits.{Visit};
ghost use Rattle.nest_walk.specs.Texts.{Placed, placed};
ghost use Rattle.owner_partition.specs.declared.cut.Mark.{Mark};
ghost use Rattle.owner_partition.specs.OwnInstances.{names_no_inner};
ghost use Rattle.owner_partition.specs.Phases.{Execution, executions, visit_instances};
ghost use Rattle.owner_partition.specs.Owners.{own_instances, owner_of};
ghost use Rattle.owner_partition.specs.declared.anchor.Anchor.{Anchor};

/// Whatever the marks are, the instances of the phases, one phase behind another, are those of the
/// program in sequential order.
pub fn executions_are_the_instances()
    ensures { (tree : Tree) → (marks : List Mark)
        → map (λ (x : Execution). x.instance) (executions tree marks) ≡ instances tree }
{}

/// In a well-formed program, an anchor's form that names only loops round a static phase, or also
/// the phase's own loop, names no loop inside that.
pub fn forms_name_no_inner()
    ensures round { (tree : Tree) (enters : ℕ → Bool) (k : ℕ) (s : Placed) (constants : ℕ)
        (f : Form) → IsWellFormed tree → slice_get (placed tree enters) k ≡ Some s
        → IsTrue (names_only constants s.around f) → IsTrue (names_no_inner s.what f) }
    ensures own { (tree : Tree) (enters : ℕ → Bool) (k : ℕ) (head : Head) (body : Statements)
        (around : List ℕ) (constants : ℕ) (f : Form) → IsWellFormed tree
        → slice_get (placed tree enters) k
        ≡ Some (record { what = do_loop head body; around = around })
        → IsTrue (names_only constants (head.number ∷ around) f)
        → IsTrue (names_no_inner (do_loop head body) f) }
{}

/// What is executed in a phase and owned by a processor are its own instances of the phase, by the
/// anchor of the static phase.
pub fn owned_executions()
    ensures { (tree : Tree) (anchors : List Anchor) (workers p e : ℕ) (v : Visit) (a : Anchor)
        → slice_get anchors (v.place - 1) ≡ Some a
        → filter (λ (x : Execution). owner_of tree anchors workers x == p)
        (map (λ i. record { phase = e; place = v.place; instance = i })
        (visit_instances (param_values tree) v))
        ≡ map (λ i. record { phase = e; place = v.place; instance = i })
        (own_instances (param_values tree) a workers p v) }
{}
