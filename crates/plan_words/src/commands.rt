// The commands that are offered, with what their help says.

ghost use Rattle.std.specs.Prelude.{◌≡◌, IfOk, codes, false};
ghost use Rattle.clap.specs.Words.{app_of, rule_of};
ghost use Rattle.clap.specs.declared.builder.command.Command.TheViews.{out-Command};
ghost use Rattle.command_words.specs.Rule.{option_rule};
ghost use Rattle.plan_words.specs.Rule.{emit_app, explain_app, json_rule, plan_app, systems_app};

use clap::{Arg, ArgAction, Command};
use command_words::commands::{option, settings, top, workers};
use std::alloc::{AllocError, Global};

// How many processors, where the plan is not the one behind the source.
fn perhaps_workers<'a>(alloc: Global) -> Arg<'a>
    ensures rule { rule_of result ≡ option_rule (codes "workers") }
    ensures local { result.global ≡ false }
{
    option(
        alloc,
        "workers",
        "P",
        "How many processors: 1 to 64; where left out, the plan is the one behind the source's END line",
    )
}

// Which plan for so many processors.
fn plan<'a>(alloc: Global) -> Arg<'a>
    ensures rule { rule_of result ≡ option_rule (codes "plan") }
    ensures local { result.global ≡ false }
{
    option(
        alloc,
        "plan",
        "PLAN",
        "made, where left out too: the plan that `plan` writes; barrier: the same with a barrier in front of each phase; given: the plan behind the source's END line",
    )
}

// As JSON.
fn json<'a>(alloc: Global) -> Arg<'a>
    ensures rule { rule_of result ≡ json_rule }
    ensures local { result.global ≡ false }
{
    Arg::new(alloc, "json")
        .long("json")
        .action(ArgAction::SetTrue)
        .help("As JSON")
}

fn explain<'a>(alloc: Global) -> Result<Command<'a>, AllocError>
    ensures app { IfOk result (λ c. app_of c ≡ explain_app) }
    ensures local { IfOk result (λ c. (out-Command c).has_globals ≡ false) }
{
    let command = Command::new(alloc, "explain")
        .arg(perhaps_workers(alloc))?
        .arg(plan(alloc))?
        .arg(json(alloc))?
        .arg(settings(alloc))?;
    Ok(command.about(
        "Tells in words why a plan waits and why loops are not dealt out, each by two iterations that meet",
    ))
}

fn systems<'a>(alloc: Global) -> Result<Command<'a>, AllocError>
    ensures app { IfOk result (λ c. app_of c ≡ systems_app) }
    ensures local { IfOk result (λ c. (out-Command c).has_globals ≡ false) }
{
    let command = Command::new(alloc, "systems")
        .arg(perhaps_workers(alloc))?
        .arg(plan(alloc))?
        .arg(settings(alloc))?;
    Ok(command.about("Writes a plan's obligations as systems of linear inequalities"))
}

fn emit<'a>(alloc: Global) -> Result<Command<'a>, AllocError>
    ensures app { IfOk result (λ c. app_of c ≡ emit_app) }
    ensures local { IfOk result (λ c. (out-Command c).has_globals ≡ false) }
{
    let command = Command::new(alloc, "emit")
        .arg(workers(alloc))?
        .arg(plan(alloc))?
        .arg(settings(alloc))?;
    Ok(command.about(
        "Writes the program under a plan as one C11 file, which `cc -O2 -pthread` compiles",
    ))
}

/// The program's command: `explain`, `systems` and `emit`.
pub fn tool<'a>(alloc: Global) -> Result<Command<'a>, AllocError>
    ensures { IfOk result (λ c. app_of c ≡ plan_app) }
{
    let about =
        "Tells of a plan for a FORTRAN 77 program on several processors; reads the source from standard input";
    top(alloc)?
        .about(about)
        .subcommand(explain(alloc)?)?
        .subcommand(systems(alloc)?)?
        .subcommand(emit(alloc)?)
}
