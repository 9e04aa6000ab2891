// What holds of accepted plans: there is nothing to run.

ghost use Rattle.std.specs.Prelude.{◌≡◌, ◌⊎◌, ℕ, List, None, Some};
ghost use Rattle.farkas_cert.specs.declared.certificate.Certificate.{Certificate};
ghost use Rattle.farkas_cert.specs.declared.certificate.CertRefusal.TheVariants.{Wide};
ghost use Rattle.nest_agree.specs.Agree.{Agree};
ghost use Rattle.nest_tree.specs.Tree.{Tree, param_values};
ghost use Rattle.nest_tree.specs.WellFormed.{IsWellFormed};
ghost use Rattle.nest_model.specs.Ranges.{IsInRange};
ghost use Rattle.owner_partition.specs.declared.anchor.Anchor.{Anchor};
ghost use Rattle.owner_partition.specs.Cuts.{Cutting};
ghost use Rattle.sync_plan.specs.declared.plan.Plan.{Plan};
ghost use Rattle.sync_plan.specs.declared.plan.Version.TheVariants.{One, Two};
ghost use Rattle.sync_plan.specs.Barriers.{barrier_plan};
ghost use Rattle.sync_plan.specs.Fit.{IsFit};
ghost use Rattle.sync_plan.specs.Ordered.{IsOrdered};
ghost use Rattle.sync_plan.specs.Shape.{wrong_field};
ghost use Rattle.comm_system.specs.Obligations.{obligations_of};
ghost use Rattle.comm_system.specs.PairRows.{conditions_have};
ghost use Rattle.plan_checker.specs.Accepted.{AreCertified, IsAccepted};
ghost use Rattle.plan_checker.specs.Barriers.{doall_obligations};
ghost use Rattle.plan_checker.specs.Failures.{first_failure};
ghost use Rattle.plan_checker.specs.Proved.{IsProved, first_unfit, first_unproved};
ghost use Rattle.plan_checker.specs.declared.refusal.PlanRefusal.TheVariants.{Bad};

/// A plan is accepted exactly where it has no failure.
#[tactic(auto, using(crate::proofs::Certified::accepted_where_none, crate::proofs::Certified::none_where_accepted))]
pub fn accepted_plans_have_no_failure()
    ensures accepted { (tree : Tree) (plan : Plan) → first_failure tree plan ≡ None
        → IsAccepted tree plan }
    ensures none { (tree : Tree) (plan : Plan) → IsAccepted tree plan
        → first_failure tree plan ≡ None }
{}

/// An accepted plan of a well-formed program whose subscripts are in range is ordered: of any two
/// instances that conflict and have different owners, a chain of waits leads from the owner of the
/// earlier one to that of the later one.
pub fn accepted_plans_are_ordered()
    ensures { (tree : Tree) (plan : Plan) → IsWellFormed tree → IsInRange tree
        → IsAccepted tree plan → IsOrdered tree plan }
{}

/// A plan with a barrier in front of each phase is accepted where it fits, each obligation of its
/// Doall loops has a good certificate, and no certificate is left over.
pub fn barrier_plans_are_accepted()
    ensures { (tree : Tree) (cut : Cutting) (anchors : List Anchor) (workers : ℕ)
        (certificates : List Certificate)
        → let plan = barrier_plan cut anchors workers certificates in IsFit tree plan
        → AreCertified (doall_obligations tree plan) certificates → IsAccepted tree plan }
{}

/// Where a plan is accepted in version one, the same plan in version two, with the same
/// certificates, is accepted, or refused for a certificate in which a number grows too large.
pub fn accepted_plans_may_chain()
    ensures { (tree : Tree) (plan : Plan) → IsAccepted tree (record plan { version = One })
        → let two = record plan { version = Two } in IsAccepted tree two
        ⊎ ((number : ℕ) × (step : ℕ) × (entry : ℕ)
        × (first_failure tree two ≡ Some (Bad number (Wide step entry)))) }
{}

/// A plan is proved on a program exactly where nothing of its shape and of its obligations speaks
/// against it.
#[tactic(auto, using(crate::proofs::Certified::proved_where_none, crate::proofs::Certified::none_where_proved))]
pub fn proved_plans_have_no_failure()
    ensures proved { (tree : Tree) (plan : Plan) → first_unproved tree plan ≡ None
        → IsProved tree plan }
    ensures none { (tree : Tree) (plan : Plan) → IsProved tree plan
        → first_unproved tree plan ≡ None }
{}

/// A plan that is proved on a program is accepted for each program that it fits.
pub fn proved_plans_are_accepted()
    ensures { (f g : Tree) (plan : Plan) → IsProved f plan → first_unfit f plan g ≡ None
        → IsAccepted g plan }
{}

/// Of programs that agree a plan has the same first wrong field and, where the conditions on their
/// named constants are the same rows, the same obligations.
pub fn agreeing_programs_have_the_same_obligations()
    ensures shape { (f g : Tree) (plan : Plan) → Agree f g
        → wrong_field f plan ≡ wrong_field g plan }
    ensures obligations { (f g : Tree) (plan : Plan) → Agree f g
        → conditions_have (param_values f) plan.conditions
        ≡ conditions_have (param_values g) plan.conditions
        → obligations_of f plan ≡ obligations_of g plan }
{}
