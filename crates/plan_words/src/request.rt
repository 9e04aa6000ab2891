// What the words ask for.

use command_words::PlanChoice;

/// The plan that something is told of.
#[derive(Clone, Copy, Debug)]
pub enum Subject {
    /// The one whose text stands behind the source's END line.
    Behind,
    /// For so many processors, 1 to 64, this one.
    For(u32, PlanChoice),
}

/// What is to be told of a plan, with settings of named constants as they are written.
#[derive(Debug, Drop)]
pub enum PlanRequest<'a> {
    /// `explain`: why it waits and which loops it doesn't deal out, and whether as JSON.
    Explain(Subject, bool, Vec<&'a str>),
    /// `systems`: its obligations, as systems of inequalities.
    Systems(Subject, Vec<&'a str>),
    /// `emit`: the program under this plan, for so many processors, 1 to 64, as a C file.
    Emit(u32, PlanChoice, Vec<&'a str>),
}
