// The commands that are offered, with what their help says, and the arguments of which they are made.

ghost use Rattle.std.specs.Prelude.{◌≡◌, [], IfOk, codes, false};
ghost use Rattle.clap.specs.Words.{app_of, rule_of};
ghost use Rattle.clap.specs.declared.builder.command.Command.TheViews.{out-Command};
ghost use Rattle.command_words.specs.Rule.{option_rule, top_shape, required_rule, settings_rule, sizes_rule, seq_app, plan_app, verify_app, run_app, bench_app, tool_app};

use clap::{Arg, Command};
use std::alloc::{AllocError, Global};

/// Settings behind the options, NAME=VALUE.
pub fn settings<'a>(alloc: Global) -> Arg<'a>
    ensures rule { rule_of result ≡ settings_rule }
    ensures local { result.global ≡ false }
{
    Arg::new(alloc, "settings")
        .num_args(1usize..)
        .value_name("NAME=VALUE")
        .help("Values for named constants (PARAMETER): whole numbers of 64 bits")
}

/// An option with one value.
pub fn option<'a>(alloc: Global, name: &'a str, value: &'a str, help: &'a str) -> Arg<'a>
    ensures rule { rule_of result ≡ option_rule name.entry.now }
    ensures local { result.global ≡ false }
{
    Arg::new(alloc, name)
        .long(name)
        .value_name(value)
        .help(help)
}

fn seq<'a>(alloc: Global) -> Result<Command<'a>, AllocError>
    ensures app { IfOk result (λ c. app_of c ≡ seq_app) }
    ensures local { IfOk result (λ c. (out-Command c).has_globals ≡ false) }
{
    let command = Command::new(alloc, "seq").arg(settings(alloc))?;
    Ok(command.about("Runs the program on one processor, and writes what it prints"))
}

fn verify<'a>(alloc: Global) -> Result<Command<'a>, AllocError>
    ensures app { IfOk result (λ c. app_of c ≡ verify_app) }
    ensures local { IfOk result (λ c. (out-Command c).has_globals ≡ false) }
{
    let sweep = option(
        alloc,
        "sweep",
        "NAME=LOW:HIGH",
        "Proves the plan once, where NAME is LOW, and says of each value of NAME from LOW to HIGH, at most 1000 of them, whether the plan is accepted",
    );
    let command = Command::new(alloc, "verify")
        .arg(sweep)?
        .arg(settings(alloc))?;
    Ok(command.about(
        "Says whether the plan behind the source's END line is accepted for the program",
    ))
}

/// The option `--workers P`, which must stand.
pub fn workers<'a>(alloc: Global) -> Arg<'a>
    ensures rule { rule_of result ≡ required_rule (codes "workers") }
    ensures local { result.global ≡ false }
{
    option(alloc, "workers", "P", "How many processors: 1 to 64").required(true)
}

fn plan<'a>(alloc: Global) -> Result<Command<'a>, AllocError>
    ensures app { IfOk result (λ c. app_of c ≡ plan_app) }
    ensures local { IfOk result (λ c. (out-Command c).has_globals ≡ false) }
{
    let command = Command::new(alloc, "plan")
        .arg(workers(alloc))?
        .arg(settings(alloc))?;
    Ok(command.about(
        "Makes a plan and writes it, then why each loop that it does not split and each cheaper kind of wait was not taken",
    ))
}

fn run<'a>(alloc: Global) -> Result<Command<'a>, AllocError>
    ensures app { IfOk result (λ c. app_of c ≡ run_app) }
    ensures local { IfOk result (λ c. (out-Command c).has_globals ≡ false) }
{
    let plan = option(
        alloc,
        "plan",
        "PLAN",
        "made, where left out too: the plan that `plan` writes; barrier: the same with a barrier in front of each phase; given: the plan behind the source's END line",
    );
    let by = option(
        alloc,
        "by",
        "ENGINE",
        "spmd, where left out too: a worker on a thread for each processor, over words that all share; join: workers on threads that are forked and joined for each phase; core: a model of the processors",
    );
    let barrier = option(
        alloc,
        "barrier",
        "BARRIER",
        "arrive, where left out too: a barrier waits for the counters of all others; dissemination: for signals, in rounds; says nothing of join",
    );
    let command = Command::new(alloc, "run")
        .arg(workers(alloc))?
        .arg(plan)?
        .arg(by)?
        .arg(barrier)?
        .arg(settings(alloc))?;
    Ok(command.about("Writes a plan, runs the program by it, and writes what it prints"))
}

fn sizes<'a>(alloc: Global) -> Arg<'a>
    ensures rule { rule_of result ≡ sizes_rule }
    ensures local { result.global ≡ false }
{
    Arg::new(alloc, "sizes")
        .num_args(1usize..)
        .value_name("N M")
        .help("N points, 1 to 500000, and M sweeps over them, 0 to 1000000")
}

fn bench<'a>(alloc: Global) -> Result<Command<'a>, AllocError>
    ensures app { IfOk result (λ c. app_of c ≡ bench_app) }
    ensures local { IfOk result (λ c. (out-Command c).has_globals ≡ false) }
{
    let command = Command::new(alloc, "bench")
        .arg(workers(alloc))?
        .arg(sizes(alloc))?;
    Ok(command.about(
        "Runs a program of its own by the plan that is made for it, and writes how many waits of each kind the plan has and what the program prints; reads nothing",
    ))
}

/// The command without its subcommands. The error is that memory ran out.
pub fn top<'a>(alloc: Global) -> Result<Command<'a>, AllocError>
    ensures { IfOk result (λ c. app_of c ≡ record { top = top_shape; subs = [] }) }
{
    let named = Command::new(alloc, "seagrynt").bin_name("seagrynt")?;
    Ok(
        named
            .no_binary_name(true)
            .subcommand_required(true)
            .disable_help_subcommand(true)
            .version("0.1.0")
            .about(
                "Plans and runs FORTRAN 77 DO nests on several processors; reads the source from standard input",
            ),
    )
}

/// The tool's command: `seq`, `plan`, `run`, `verify` and `bench`.
pub fn tool<'a>(alloc: Global) -> Result<Command<'a>, AllocError>
    ensures { IfOk result (λ c. app_of c ≡ tool_app) }
{
    top(alloc)?
        .subcommand(seq(alloc)?)?
        .subcommand(plan(alloc)?)?
        .subcommand(run(alloc)?)?
        .subcommand(verify(alloc)?)?
        .subcommand(bench(alloc)?)
}
