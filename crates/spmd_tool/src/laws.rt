// What holds of due texts themselves.

ghost use Rattle.std.specs.Prelude.{◌≡◌, ◌≢◌, ℕ, List, false, true};
ghost use Rattle.clap.specs.Words.{Text};
ghost use Rattle.command_words.specs.Wanted.{Takes, Wanted, asks_to_show};
ghost use Rattle.spmd_answer.specs.Due.{Due, behind_of};
ghost use Rattle.spmd_answer.specs.declared.source.Behind.TheVariants.{Comments};
ghost use Rattle.plan_input.specs.declared.status.Status.TheVariants.{Done};
ghost use Rattle.spmd_tool.specs.Due.{IsDue, MakeNoPlan};

/// For words and bytes one status is due; and one text with it where that isn't 0, or where no plan
/// is made, but for help and the version, whose text is left open. Where no plan is made it is never
/// so that none is due, and for words that take no plan from behind END either there is one.
pub fn one_due_text()
    ensures some { (words : List Text) (bytes : List ℕ)
        → ((w : Wanted) → Takes words w → behind_of w ≡ Comments) → MakeNoPlan words → (due : Due)
        × IsDue words bytes due }
    ensures never_none { (words : List Text) (bytes : List ℕ) → MakeNoPlan words
        → ((due : Due) → IsDue words bytes due → ⊥) → ⊥ }
    ensures status { (words : List Text) (bytes : List ℕ) (a b : Due) → IsDue words bytes a
        → IsDue words bytes b → a.status ≡ b.status }
    ensures refusal { (words : List Text) (bytes : List ℕ) (a b : Due) → IsDue words bytes a
        → IsDue words bytes b → a.status ≢ Done → a ≡ b }
    ensures only { (words : List Text) (bytes : List ℕ) (a b : Due) → asks_to_show words ≡ false
        → MakeNoPlan words → IsDue words bytes a → IsDue words bytes b → a ≡ b }
    ensures shown { (words : List Text) (bytes : List ℕ) (a : Due) → asks_to_show words ≡ true
        → IsDue words bytes a → a.status ≡ Done }
{}
