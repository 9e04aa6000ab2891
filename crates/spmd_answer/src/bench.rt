// The program that `bench` runs, and what it writes.

ghost use Rattle.std.specs.Prelude.{◌≡◌, ◌≤◌, ◌++◌, ℕ, List, IfOk, OnOk, map, string_bytes};
ghost use Rattle.nest_tree.specs.View.{tree_of};
ghost use Rattle.nest_model.specs.Ranges.{IsInRange};
ghost use Rattle.command_words.specs.Wanted as wanted;
ghost use Rattle.spmd_answer.specs.Bench as texts;
ghost use Rattle.spmd_answer.specs.Receipts.{IsReceiptOf};

use crate::host::Host;
use crate::receipt::Receipt;
use crate::run::{joined, output_by};
use command_words::{Bench, Engine};
use nest_tree::Program;
use plan_maker::make;
use spmd_model::Style;
use spmd_ports::Gate;
use std::alloc::{AllocError, Global};
use std::fmt::Write;
use std::thread::Threads;
use sync_plan::{Kind, Plan};

/// The source of the program that `bench` runs. The error is that memory ran out.
pub fn bench_source(alloc: Global, bench: Bench) -> Result<Vec<u8>, AllocError>
    ensures { IfOk result (λ t. t.items ≡ texts.bench_source bench.points bench.sweeps) }
{
    let Bench { points, sweeps, .. } = bench;
    let mut text = String::from_str(alloc, "      PROGRAM BENCH\n      INTEGER N, M\n")?;
    writeln!(text, "      PARAMETER (N={points}, M={sweeps})")?;
    text.push_str("      INTEGER A(0:N+1), B(0:N+1)\n")?;
    text.push_str("      DO 10 I = 0, N+1\n   10 A(I) = 7*I - I*I\n")?;
    text.push_str("      DO 40 IT = 1, M\n      DO 20 I = 1, N\n")?;
    text.push_str("   20 B(I) = (A(I-1)+A(I+1))/2\n      DO 30 I = 1, N\n")?;
    text.push_str("   30 A(I) = B(I)\n   40 CONTINUE\n      PRINT *, A(1), A(N)\n      END\n")?;
    Ok(text.into_bytes())
}

/// What `bench` writes of a program's run by the plan that is made, by spmd, and its receipt.
/// Workers pass the gate. The error is that memory ran out.
pub fn bench_run<R: Threads + Sync, G: Gate + Sync>(
    host: &Host<'_, R, G>,
    program: &Program,
    bench: Bench,
) -> Result<(Vec<u8>, Receipt), AllocError>
    requires ranges { IsInRange (tree_of program.now) }
    requires some { 1 ≤ bench.workers }
    requires few { bench.workers ≤ 64 }
    ensures { (bytes : List ℕ)
        → IfOk result (λ r. IsReceiptOf (wanted.bench bench.workers bench.points bench.sweeps)
        (tree_of program.now) bytes r.0.items r.1) }
{
    let (plan, _) = make(host.alloc, program, bench.workers)?;
    let head = bench_head(host.alloc, bench, &plan)?;
    let (output, receipt) = output_by(host, program, &plan, Engine::Spmd(Style::Arrive))?;
    Ok((joined(head, &output)?, receipt))
}

/// The sizes, and how many waits of each kind a plan has. The error is that memory ran out.
pub fn bench_head(alloc: Global, bench: Bench, plan: &Plan) -> Result<Vec<u8>, AllocError>
    ensures { IfOk result (λ t. t.items
        ≡ texts.bench_head bench.workers bench.points bench.sweeps plan.now) }
{
    let Bench {
        workers,
        points,
        sweeps,
    } = bench;
    let mut text = format!(in alloc; "BENCH N {points} M {sweeps} WORKERS {workers}\n")?;
    put_counts(&mut text, "", &Kind::words(), plan.kinds.as_slice())?;
    text.push('\n')?;
    Ok(text.into_bytes())
}

// Appends what waits are called, each word with how many are and with a blank in front, but the
// first with this there.
fn put_counts(
    text: &mut String,
    before: &str,
    words: &[&str],
    kinds: &[Kind],
) -> Result<(), AllocError>
    ensures { OnOk result (string_bytes text.new ≡ string_bytes text.old
        ++ texts.counts_behind before.now (map (λ w. w.now) words.now) kinds.now) }
{
    match words {
        [] => Ok(()),
        [word, behind @ ..] => {
            write!(text, "{before}{word} {}", waits_called(kinds, word))?;
            put_counts(text, " ", behind, kinds)
        }
    }
}

// How many waits are called so.
fn waits_called(kinds: &[Kind], word: &str) -> usize
    ensures { result ≡ texts.waits_called word.now kinds.now }
{
    kinds.iter().filter(|kind| kind.word() == word).count()
}
