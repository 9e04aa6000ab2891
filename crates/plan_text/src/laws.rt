// What holds of plans and their texts themselves.

ghost use Rattle.std.specs.Prelude.{ℕ, List, [], ◌≡◌, ◌++◌, ◌⊎◌, Result, Ok, Err, IfOk, IfErr};
ghost use Rattle.plan_text.specs.PlanText.{HasText, plan_text};
ghost use Rattle.plan_text.specs.Refused.{IsFirstAlien, RefusesText};
ghost use Rattle.plan_text.specs.declared.syntax.PlanSyntax.{PlanSyntax};
ghost use Rattle.plan_text.specs.declared.syntax.PlanSyntax.TheVariants.{NoMemory};
ghost use Rattle.sync_plan.specs.declared.plan.Plan.{Plan};

/// Two plans never have one text.
pub fn one_text()
    ensures { (x y : Plan) → HasText x → HasText y → plan_text x ≡ plan_text y → x ≡ y }
{}

/// A plan's text begins with no other plan's.
pub fn no_front()
    ensures { (x y : Plan) (behind : List ℕ) → HasText x → HasText y
        → plan_text x ≡ plan_text y ++ behind → (x ≡ y) × (behind ≡ []) }
{}

/// There is one first alien line at most, and a plan's text has none.
pub fn one_refusal()
    ensures one { (bytes : List ℕ) (m n : ℕ) → IsFirstAlien bytes m → IsFirstAlien bytes n → m ≡ n }
    ensures none { (x : Plan) (n : ℕ) → HasText x → IsFirstAlien (plan_text x) n → ⊥ }
{}

/// What [`read_plan`](crate::read_plan) ensures leaves two answers for a plan's text: the plan, or no
/// memory.
pub fn read_back()
    ensures { (x : Plan) (r : Result Plan PlanSyntax) → HasText x → IfOk r HasText
        → IfOk r (λ y. plan_text x ≡ plan_text y) → IfErr r (RefusesText (plan_text x)) → (r ≡ Ok x)
        ⊎ (r ≡ Err NoMemory) }
{}
