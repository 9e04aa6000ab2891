// For whom a text is written.

ghost use Rattle.std.specs.Prelude.{◌≡◌, ◌≤◌};

use c_expressions::Scope;
use nest_tree::Program;
use std::alloc::Global;

/// A program, and how many processors it is written for.
#[derive(Clone, Copy)]
pub struct Layout<'a> {
    pub alloc: Global,
    pub program: &'a Program,
    pub workers: u32,
    pub ghost some: { 1 ≤ workers },
}

impl<'a> Layout<'a> {
    /// A program, written for so many processors, or for one where there is none.
    pub fn new(alloc: Global, program: &'a Program, workers: u32) -> Self
        ensures program { result.program.now ≡ program.now }
        ensures workers { 1 ≤ workers → result.workers ≡ workers }
    {
        let workers = if workers == 0 { 1 } else { workers };
        Layout {
            alloc,
            program,
            workers,
        }
    }
}

impl Layout<'_> {
    /// What names stand for where a processor has cells of its own of these scalars.
    pub fn scope<'b>(&'b self, privates: &'b [u32]) -> Scope<'b>
        ensures program { result.program.now ≡ self.now.program.now }
        ensures privates { result.privates.now ≡ privates.now }
    {
        Scope {
            alloc: self.alloc,
            program: self.program,
            privates,
        }
    }
}
