// Laws of the rule by which words are taken.

ghost use Rattle.std.specs.Prelude.{◌≡◌, ◌∷◌, List, [], codes};
ghost use Rattle.clap.specs.Words.{Text, fault_of};
ghost use Rattle.clap.specs.declared.error.kind.ErrorKind.TheVariants as kinds;
ghost use Rattle.command_words.specs.Rule.{tool_app};
ghost use Rattle.command_words.specs.Plain.{EveryPlainBenchIsTaken, EveryPlainPlanIsTaken, EveryPlainRunIsTaken, EveryPlainSequentialIsTaken, EveryPlainSweepIsTaken, EveryPlainVerifyIsTaken};
ghost use Rattle.command_words.specs.Wanted.{IsCounted, Takes, Wanted};

/// Each plain list of words is taken, as what it says.
pub fn plain_words_are_taken()
    ensures plan { EveryPlainPlanIsTaken }
    ensures run { EveryPlainRunIsTaken }
    ensures sequential { EveryPlainSequentialIsTaken }
    ensures verify { EveryPlainVerifyIsTaken }
    ensures sweep { EveryPlainSweepIsTaken }
    ensures bench { EveryPlainBenchIsTaken }
{}

/// A sweep that words ask for has 1 to 1,000 values; a plan, a run and a bench have 1 to 64 workers, and a bench 1 to 500,000
/// points and at most 1,000,000 sweeps.
pub fn taken_words_are_counted()
    ensures { (words : List Text) (wanted : Wanted) → Takes words wanted → IsCounted wanted }
{}

/// Words that ask for help or for the version have that fault alone.
pub fn help_is_shown()
    ensures help { fault_of tool_app (codes "--help" ∷ []) ≡ kinds.DisplayHelp ∷ [] }
    ensures help_of_run { fault_of tool_app (codes "run" ∷ codes "-h" ∷ []) ≡ kinds.DisplayHelp
        ∷ [] }
    ensures help_of_plan { fault_of tool_app (codes "plan" ∷ codes "-h" ∷ []) ≡ kinds.DisplayHelp
        ∷ [] }
    ensures help_of_bench { fault_of tool_app (codes "bench" ∷ codes "-h" ∷ []) ≡ kinds.DisplayHelp
        ∷ [] }
    ensures version { fault_of tool_app (codes "--version" ∷ []) ≡ kinds.DisplayVersion ∷ [] }
{}
