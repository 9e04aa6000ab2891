// What is told of a plan.

ghost use Rattle.std.specs.Prelude.{◌≡◌, ◌≤◌, IfErr, IfOk, length, map};
ghost use Rattle.command_words.specs.declared.request.PlanChoice.TheVariants.{Made};
ghost use Rattle.f77_source.specs.Sources.{setting_of};
ghost use Rattle.nest_tree.specs.View.{tree_of};
ghost use Rattle.plan_words.specs.Wanted.{IsCountedFor};
ghost use Rattle.plan_words.specs.declared.request.Subject.TheVariants.{Behind, For};
ghost use Rattle.plan_tool.specs.Subjects.{IsAccount, IsUntold};

use asked_plan::{Asked, Planned, plan_behind, plan_program};
use command_words::PlanChoice;
use explain_plan::{Form, account_of, write_account};
use f77_lines::MOST_BYTES;
use f77_source::Setting;
use nest_tree::Program;
use plan_input::{InputError, read_inside};
use plan_words::Subject;
use reason_witness::account::{Account, given_account, made_account};
use std::alloc::Global;
use std::thread::Threads;

// A program, and what is told of its plan.
#[derive(Drop)]
struct Accounted {
    program: Program,
    account: Account,
}

/// What is told of the plan of the program of a source, with these settings. The error is the first
/// reason why nothing is, or that memory ran out.
pub(crate) fn explained<R: Threads + Sync>(
    rt: &R,
    alloc: Global,
    subject: Subject,
    settings: &[Setting],
    form: Form,
    bytes: &[u8],
) -> Result<Vec<u8>, InputError>
    requires short { length bytes.now ≤ MOST_BYTES }
    requires counted { IsCountedFor subject }
    ensures { IfErr result (IsUntold subject bytes.now (map setting_of settings.now)) }
{
    let found = account_in(rt, alloc, subject, settings, bytes)?;
    Ok(write_account(alloc, bytes, &found.program, &found.account, form)?)
}

// What is told of the plan that something is told of.
fn account_in<R: Threads + Sync>(
    rt: &R,
    alloc: Global,
    subject: Subject,
    settings: &[Setting],
    bytes: &[u8],
) -> Result<Accounted, InputError>
    requires short { length bytes.now ≤ MOST_BYTES }
    requires counted { IsCountedFor subject }
    ensures account { IfOk result (λ a. IsAccount subject bytes.now (map setting_of settings.now)
        (tree_of a.program) a.account) }
    ensures refused { IfErr result (IsUntold subject bytes.now (map setting_of settings.now)) }
{
    match subject {
        Subject::Behind => account_behind(rt, alloc, settings, bytes),
        Subject::For(workers, choice) => {
            let asked = Asked {
                workers,
                choice,
                settings,
            };
            account_for(rt, alloc, &asked, bytes)
        }
    }
}

// What is told of the plan behind a source.
fn account_behind<R: Threads + Sync>(
    rt: &R,
    alloc: Global,
    settings: &[Setting],
    bytes: &[u8],
) -> Result<Accounted, InputError>
    requires { length bytes.now ≤ MOST_BYTES }
    ensures account { IfOk result (λ a. IsAccount Behind bytes.now (map setting_of settings.now)
        (tree_of a.program) a.account) }
    ensures refused { IfErr result (IsUntold Behind bytes.now (map setting_of settings.now)) }
{
    let Planned { program, plan } = plan_behind(alloc, settings, bytes)?;
    let account = account_of(rt, alloc, &program, plan)?;
    Ok(Accounted { program, account })
}

// What is told of the plan that is asked for: of one that is made with the reasons of its maker.
fn account_for<R: Threads + Sync>(
    rt: &R,
    alloc: Global,
    asked: &Asked,
    bytes: &[u8],
) -> Result<Accounted, InputError>
    requires short { length bytes.now ≤ MOST_BYTES }
    requires some { 1 ≤ asked.now.workers }
    requires few { asked.now.workers ≤ 64 }
    ensures account { IfOk result (λ a. IsAccount (For asked.now.workers asked.now.choice) bytes.now
        (map setting_of asked.now.settings.now) (tree_of a.program) a.account) }
    ensures refused { IfErr result (IsUntold (For asked.now.workers asked.now.choice) bytes.now
        (map setting_of asked.now.settings.now)) }
{
    match asked.choice {
        PlanChoice::Made => account_of_made(alloc, asked, bytes),
        PlanChoice::Barrier | PlanChoice::Given => {
            let Planned { program, plan } = plan_program(rt, alloc, asked, bytes)?;
            let account = given_account(alloc, &program, plan)?;
            Ok(Accounted { program, account })
        }
    }
}

// What is told of the plan that is made.
fn account_of_made(alloc: Global, asked: &Asked, bytes: &[u8]) -> Result<Accounted, InputError>
    requires short { length bytes.now ≤ MOST_BYTES }
    requires some { 1 ≤ asked.now.workers }
    requires few { asked.now.workers ≤ 64 }
    ensures account { IfOk result (λ a. IsAccount (For asked.now.workers Made) bytes.now
        (map setting_of asked.now.settings.now) (tree_of a.program) a.account) }
    ensures refused { IfErr result (IsUntold (For asked.now.workers Made) bytes.now
        (map setting_of asked.now.settings.now)) }
{
    let (program, _rest) = read_inside(alloc, bytes, asked.settings, true)?;
    let account = made_account(alloc, &program, asked.workers)?;
    Ok(Accounted { program, account })
}
