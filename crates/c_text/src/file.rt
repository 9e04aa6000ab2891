// The whole file.

ghost use Rattle.std.specs.Prelude.{IfOk};
ghost use Rattle.c_text.specs.Files.{EndsWithPlan};

use crate::runtime::{MAIN, RUNTIME};
use crate::source::SourceLines;
use crate::text::Text;
use nest_tree::Program;
use std::alloc::{AllocError, Global};
use std::fmt::Write;
use sync_plan::Plan;
use thread_code::ThreadCode;

/// What a file is made of: the source's bytes and the settings of its named constants, as they are
/// written, its program, a plan for it with its text, and what each processor does under the plan.
#[derive(Clone, Copy)]
pub struct Emitted<'a, 'p> {
    pub source: &'a [u8],
    pub settings: &'a [&'a str],
    pub program: &'a Program,
    pub plan: &'a Plan,
    pub plan_text: &'a [u8],
    pub code: &'a ThreadCode<'p>,
}

/// The C file of a program under a plan, which ends with the plan's text in a comment. The error is
/// that memory ran out.
pub fn write_c(alloc: Global, it: Emitted) -> Result<Vec<u8>, AllocError>
    ensures { IfOk result (λ file. EndsWithPlan it.entry.plan_text.now file.items) }
{
    let mut text = Text {
        alloc,
        program: it.program,
        plan: it.plan,
        source: SourceLines::new(alloc, it.source)?,
        phases: 0,
        out: String::new(alloc),
    };
    text.head(it.settings)?;
    text.words(RUNTIME)?;
    text.cells()?;
    text.worker(it.code)?;
    text.words(MAIN)?;
    text.words("\n/* The plan with its certificates.\n")?;
    with_plan(text.out.into_bytes(), it.plan_text)
}

// A file with the text of a plan behind it, and the end of the comment that it stands in.
fn with_plan(mut file: Vec<u8>, plan_text: &[u8]) -> Result<Vec<u8>, AllocError>
    ensures { IfOk result (λ whole. EndsWithPlan plan_text.now whole.items) }
{
    file.extend_from_slice(plan_text)?;
    file.extend_from_slice(b"*/\n")?;
    Ok(file)
}

impl Text<'_> {
    // The comment at the head, and the number of processors.
    fn head(&mut self, settings: &[&str]) -> Result<(), AllocError> {
        let workers = self.plan.workers;
        let ending = if workers == 1 { "" } else { "s" };
        write!(
            self.out,
            "/* Emitted by seagrynt for {workers} processor{ending}"
        )?;
        self.settings(", ", settings)?;
        self.words(".\n   Compile: cc -O2 -pthread FILE.c\n")?;
        self.words(
            "   Verify:  (cat SOURCE.f; sed -n '/^SPMD PLAN/,/^END PLAN/p' FILE.c) | seagrynt verify",
        )?;
        self.settings(" ", settings)?;
        self.words(" */\n")?;
        write!(
            self.out,
            "enum {{ P = {workers} }}; /* processors, one thread each */\n"
        )
    }

    // Settings, each behind a word.
    fn settings(&mut self, word: &str, settings: &[&str]) -> Result<(), AllocError> {
        for setting in settings {
            self.words(word)?;
            self.words(setting)?;
        }
        Ok(())
    }

    // The cells that all share.
    fn cells(&mut self) -> Result<(), AllocError> {
        self.words("\n/* ---- the cells ---- */\n")?;
        let program = self.program;
        let mut number = 0u32;
        for variable in &program.variables {
            number = number.saturating_add(1);
            self.words("SHARED word ")?;
            self.name("v_", number)?;
            if variable.bounds.is_empty() {
                self.words(";\n")?;
                continue;
            }
            let count = self.element_count(number);
            write!(self.out, "[{count}]; // ")?;
            self.bytes(&variable.name)?;
            self.bounds(&variable.bounds)?;
        }
        Ok(())
    }

    // The bounds of an array, at the end of a line.
    fn bounds(&mut self, bounds: &[(i64, i64)]) -> Result<(), AllocError> {
        let mut word = "(";
        for &(low, high) in bounds {
            write!(self.out, "{word}{low}:{high}")?;
            word = ",";
        }
        self.words(")\n")
    }

    // What processor p does.
    fn worker(&mut self, code: &ThreadCode) -> Result<(), AllocError> {
        self.words("\n/* ---- what processor p does ---- */\n")?;
        self.line(0, "static void *worker(void *it) {")?;
        self.line(
            1,
            "const long p = (long)(intptr_t)it; // which processor this is",
        )?;
        self.line(
            1,
            "word e = 0, rounds = 0;            // the phase that it is at; barriers that it has passed",
        )?;
        self.line(1, "(void)p; (void)e; (void)rounds; PUNCTUAL();")?;
        self.codes(&code.codes, 1)?;
        self.line(1, "return 0;")?;
        self.line(0, "}")
    }
}
