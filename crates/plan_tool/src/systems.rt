// The obligations of a plan.

ghost use Rattle.std.specs.Prelude.{◌≤◌, IfErr, IfOk, length, map};
ghost use Rattle.f77_source.specs.Sources.{setting_of};
ghost use Rattle.nest_tree.specs.View.{tree_of};
ghost use Rattle.plan_words.specs.Wanted.{IsCountedFor};
ghost use Rattle.sync_plan.specs.Fit.{IsFit};
ghost use Rattle.plan_tool.specs.Subjects.{AreSystems, IsPlanOf, IsErrorFor};

use asked_plan::{Asked, Planned, plan_behind, plan_program};
use f77_lines::MOST_BYTES;
use f77_source::Setting;
use plan_input::InputError;
use plan_systems::write_systems;
use plan_words::Subject;
use std::alloc::Global;
use std::thread::Threads;

/// The obligations of the plan of the program of a source, with these settings, as systems of
/// inequalities. The error is the first reason why there are none, or that memory ran out.
pub(crate) fn systems_in<R: Threads + Sync>(
    rt: &R,
    alloc: Global,
    subject: Subject,
    settings: &[Setting],
    bytes: &[u8],
) -> Result<Vec<u8>, InputError>
    requires short { length bytes.now ≤ MOST_BYTES }
    requires counted { IsCountedFor subject }
    ensures systems { IfOk result (λ text. AreSystems subject bytes.now
        (map setting_of settings.now) text.items) }
    ensures refused { IfErr result (IsErrorFor subject bytes.now (map setting_of settings.now)) }
{
    let found = planned(rt, alloc, subject, settings, bytes)?;
    match write_systems(alloc, &found.program, &found.plan) {
        Ok(text) => Ok(text),
        Err(_) => Err(InputError::NoMemory),
    }
}

// The program of a source, and its plan.
fn planned<R: Threads + Sync>(
    rt: &R,
    alloc: Global,
    subject: Subject,
    settings: &[Setting],
    bytes: &[u8],
) -> Result<Planned, InputError>
    requires short { length bytes.now ≤ MOST_BYTES }
    requires counted { IsCountedFor subject }
    ensures plan { IfOk result (λ p. IsPlanOf subject bytes.now (map setting_of settings.now)
        (tree_of p.program) p.plan) }
    ensures fits { IfOk result (λ p. IsFit (tree_of p.program) p.plan) }
    ensures refused { IfErr result (IsErrorFor subject bytes.now (map setting_of settings.now)) }
{
    match subject {
        Subject::Behind => plan_behind(alloc, settings, bytes),
        Subject::For(workers, choice) => {
            let asked = Asked {
                workers,
                choice,
                settings,
            };
            plan_program(rt, alloc, &asked, bytes)
        }
    }
}
