// What the words ask for.

ghost use Rattle.std.specs.Prelude.{◌≡◌};
ghost use Rattle.command_words.specs.declared.request.Refused.TheVariants.{NoMemory};

use crate::sweep::Sweep;
use clap::Error;
use spmd_model::Style;
use std::alloc::AllocError;

/// The plan by which a program is run.
#[derive(Clone, Copy, Debug, PartialEq, Eq)]
pub enum PlanChoice {
    /// The plan that is made: each barrier kept has its reason.
    Made,
    /// A barrier in front of each phase.
    Barrier,
    /// The plan whose text stands behind the END line of the source.
    Given,
}

/// What runs a program by a plan.
#[derive(Clone, Copy, Debug, PartialEq, Eq)]
pub enum Engine {
    /// A model of the processors, one act of one of them at a time, which pass barriers in this
    /// style.
    Core(Style),
    /// Workers on threads, which are forked and joined for each phase.
    Join,
    /// A worker on a thread for each processor, over words that all share, which pass barriers in
    /// this style.
    Spmd(Style),
}

/// How a program is run.
#[derive(Clone, Copy, Debug, PartialEq, Eq)]
pub struct Run {
    /// For how many processors: 1 to 64.
    pub workers: u32,
    /// By which plan.
    pub choice: PlanChoice,
    /// What runs it.
    pub engine: Engine,
}

/// The sizes of the program that `bench` runs.
#[derive(Clone, Copy, Debug, PartialEq, Eq)]
pub struct Bench {
    /// How many processors: 1 to 64.
    pub workers: u32,
    /// How many points: 1 to 500,000.
    pub points: u32,
    /// How many sweeps over them: 0 to 1,000,000.
    pub sweeps: u32,
}

/// A command with its settings of named constants, as they are written.
#[derive(Debug, Drop)]
pub enum Request<'a> {
    /// `seq`: run the program on one processor and write its output.
    Sequential(Vec<&'a str>),
    /// `verify`: say whether the plan behind the END line of the source is accepted.
    Verify(Vec<&'a str>),
    /// `verify --sweep`: prove that plan once, and say of each value of a named constant whether it is
    /// accepted.
    Sweep(Sweep, Vec<&'a str>),
    /// `plan`: write the plan that is made for this many processors, 1 to 64, and the reasons for what it keeps.
    Plan(u32, Vec<&'a str>),
    /// `run`: write the plan for these processors, then run the program by it and write its output.
    Run(Run, Vec<&'a str>),
    /// `bench`: make a plan for a program of these sizes, count its waits of each kind, and run the
    /// program by it.
    Bench(Bench),
}

/// Why words are no command.
#[derive(Debug, Drop)]
pub enum Refused {
    /// They ask for help or for the version: its text, for standard output.
    Shown(Error),
    /// They are none that is offered.
    Faulty,
    /// They are offered, but that the sweep is none.
    WrongSweep,
    /// Memory ran out.
    NoMemory,
}

impl From<AllocError> for Refused {
    ghost from_gives = { λ _ refused. refused ≡ NoMemory };

    fn from(_error: AllocError) -> Refused {
        Refused::NoMemory
    }
}
