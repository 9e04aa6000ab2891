// Laws of what is due.

ghost use Rattle.std.specs.Prelude.{◌≡◌, ◌≢◌, ℕ, ℤ, List, false, true};
ghost use Rattle.command_words.specs.Wanted.{Wanted};
ghost use Rattle.f77_scene.specs.Scene.{Name};
ghost use Rattle.spmd_answer.specs.Due.{Due, IsDueOf, makes_plan};
ghost use Rattle.spmd_answer.specs.Statuses.{is_due};
ghost use Rattle.plan_input.specs.declared.status.Status.TheVariants.{Done};

/// What is due for a request has status 0, 1, 2 or 6.
pub fn four_statuses_are_due()
    ensures { (wanted : Wanted) (settings : List (Name × ℤ)) (bytes : List ℕ) (due : Due)
        → IsDueOf wanted settings bytes due → is_due due.status ≡ true }
{}

/// One status is due for a request, and one text with it where that isn't 0 or no plan is made for
/// the request: a program may have more than one plan that may be made for it.
pub fn one_due()
    ensures status { (wanted : Wanted) (settings : List (Name × ℤ)) (bytes : List ℕ) (a b : Due)
        → IsDueOf wanted settings bytes a → IsDueOf wanted settings bytes b → a.status ≡ b.status }
    ensures refusal { (wanted : Wanted) (settings : List (Name × ℤ)) (bytes : List ℕ) (a b : Due)
        → IsDueOf wanted settings bytes a → IsDueOf wanted settings bytes b → a.status ≢ Done
        → a ≡ b }
    ensures text { (wanted : Wanted) (settings : List (Name × ℤ)) (bytes : List ℕ) (a b : Due)
        → makes_plan wanted ≡ false → IsDueOf wanted settings bytes a
        → IsDueOf wanted settings bytes b → a ≡ b }
{}

/// It is never so that nothing is due for a request for which no plan is made.
pub fn never_none()
    ensures { (wanted : Wanted) (settings : List (Name × ℤ)) (bytes : List ℕ)
        → makes_plan wanted ≡ false → ((due : Due) → IsDueOf wanted settings bytes due → ⊥) → ⊥ }
{}
