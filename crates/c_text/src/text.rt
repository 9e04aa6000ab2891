// The text that is written, and what stands in it most often.

use crate::source::SourceLines;
use c_expressions::{Scope, Sum, put_sum};
use c_owners::{Layout, Spot};
use nest_tree::{Affine, Program};
use std::alloc::{AllocError, Global};
use sync_plan::Plan;
use thread_code::Place;

/// A text in C, with what it is made of.
#[derive(Drop)]
pub(crate) struct Text<'a> {
    pub(crate) alloc: Global,
    pub(crate) program: &'a Program,
    pub(crate) plan: &'a Plan,
    pub(crate) source: SourceLines<'a>,
    /// How many phases were written.
    pub(crate) phases: u32,
    pub(crate) out: String,
}

impl Text<'_> {
    /// The beginning of a line that stands so deep.
    pub(crate) fn begin(&mut self, depth: u32) -> Result<(), AllocError> {
        for _ in 0..depth {
            self.out.push_str("  ")?;
        }
        Ok(())
    }

    /// A whole line.
    pub(crate) fn line(&mut self, depth: u32, words: &str) -> Result<(), AllocError> {
        self.begin(depth)?;
        self.out.push_str(words)?;
        self.out.push('\n')
    }

    /// Words, within a line.
    pub(crate) fn words(&mut self, words: &str) -> Result<(), AllocError> {
        self.out.push_str(words)
    }

    /// Bytes, each as the character with its code.
    pub(crate) fn bytes(&mut self, bytes: &[u8]) -> Result<(), AllocError> {
        for &byte in bytes {
            self.out.push(char::from(byte))?;
        }
        Ok(())
    }

    /// The name of a variable, by its number from 1, behind letters that say which cell is meant.
    pub(crate) fn name(&mut self, letters: &str, variable: u32) -> Result<(), AllocError> {
        let scope = scope_of(self.alloc, self.program, &[]);
        scope.put_name(&mut self.out, letters, variable)
    }

    /// How many elements an array has, by its number from 1; past 2^64 it counts as 2^64 - 1.
    pub(crate) fn element_count(&self, variable: u32) -> u64 {
        let mut count = 1u64;
        if let Some(array) = self
            .program
            .variables
            .get((variable as usize).saturating_sub(1))
        {
            for &(low, high) in &array.bounds {
                count = count.saturating_mul(high.abs_diff(low).saturating_add(1));
            }
        }
        count
    }

    /// A form.
    pub(crate) fn form(&mut self, form: &Affine) -> Result<(), AllocError> {
        let scope = scope_of(self.alloc, self.program, &[]);
        scope.put_form(&mut self.out, form)
    }

    /// A sum.
    pub(crate) fn sum(&mut self, sum: &Sum) -> Result<(), AllocError> {
        put_sum(&mut self.out, sum)
    }
}

/// For whom a text is written.
pub(crate) fn layout_of<'a>(alloc: Global, program: &'a Program, plan: &Plan) -> Layout<'a> {
    Layout::new(alloc, program, plan.workers)
}

/// The spot of a place.
pub(crate) fn spot_of<'a>(place: &'a Place) -> Spot<'a> {
    Spot {
        constant: place.constant,
        loops: place.loops.as_slice(),
        params: place.params.as_slice(),
        last: None,
    }
}

// What names stand for where a processor has cells of its own of these scalars.
fn scope_of<'a>(alloc: Global, program: &'a Program, privates: &'a [u32]) -> Scope<'a> {
    Scope {
        alloc,
        program,
        privates,
    }
}
