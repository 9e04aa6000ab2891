// The rounds of a barrier by signals.

ghost use Rattle.std.specs.Prelude.{◌≡◌, ◌≤◌, ◌<◌};
ghost use Rattle.spmd_model.specs.Rounds.{awaited_in_round, rounds_of};

/// How many rounds a barrier of so many processors has, 0 to 6: the least number that reaches all.
pub fn rounds_of(workers: u32) -> u32
    ensures rounds { result ≡ rounds_of workers }
    ensures few { result ≤ 6 }
{
    for rounds in 0..6 {
        if workers <= 1 << rounds {
            return rounds;
        }
    }
    6
}

/// Whom processor `p` of so many awaits in a round, from 0.
pub fn awaited_in_round(workers: u32, round: u32, p: u32) -> u32
    requires few { workers ≤ 64 }
    requires round { round < rounds_of workers }
    requires worker { p < workers }
    ensures awaited { result ≡ awaited_in_round workers round p }
    ensures worker { result < workers }
{
    (p + workers - (1 << round)) % workers
}
