// What holds of the program that `bench` runs.

ghost use Rattle.std.specs.Prelude.{ℕ, [], None, ◌≡◌, ◌≤◌};
ghost use Rattle.spmd_answer.specs.Bench.{bench_source};
ghost use Rattle.spmd_answer.specs.Due.{due_of_refusal};
ghost use Rattle.spmd_answer.specs.declared.source.Behind.TheVariants.{Comments};

/// No refusal is due with the source that `bench` makes of 1 to 500,000 points and at most 1,000,000
/// sweeps: no fault of a line or a statement, nothing behind END, no limit that is passed, and no
/// subscript out of range.
pub fn bench_is_never_refused()
    ensures { (points sweeps : ℕ) → 1 ≤ points → points ≤ 500000 → sweeps ≤ 1000000
        → due_of_refusal Comments (bench_source points sweeps) [] ≡ None }
{}
