// Outer loops, the boundaries between phases, and comments on them.

use crate::source::{is_quoted, shown};
use crate::text::{Text, layout_of};
use c_owners::Phase;
use c_statements::{Body, put_loop_head};
use nest_tree::{Affine, Item, Nest};
use owner_partition::{Anchor, Dist, Mark};
use std::alloc::AllocError;
use std::fmt::Write;
use std::mem::replace;
use sync_plan::Kind;
use thread_code::{Code, Part};

impl Text<'_> {
    /// What each processor does, so deep.
    #[cycle(codes)]
    pub(crate) fn codes(&mut self, codes: &[Code], depth: u32) -> Result<(), AllocError> {
        for code in codes {
            self.code(code, depth)?;
        }
        Ok(())
    }

    #[cycle(codes)]
    fn code(&mut self, code: &Code, depth: u32) -> Result<(), AllocError> {
        let layout = layout_of(self.alloc, self.program, self.plan);
        match code {
            Code::Each(nest, inside) => {
                self.words("\n")?;
                self.quote(nest.line, nest.line, depth)?;
                put_loop_head(&layout.scope(&[]), &mut self.out, nest, depth)?;
                self.codes(inside, depth.saturating_add(1))?;
                self.line(depth, "}")
            }
            Code::Phase(kind, part) => self.phase(kind, part, depth),
            Code::Nothing => Ok(()),
        }
    }

    // A phase behind its waits.
    fn phase(&mut self, kind: &Option<Kind>, part: &Part, depth: u32) -> Result<(), AllocError> {
        let layout = layout_of(self.alloc, self.program, self.plan);
        let alloc = self.alloc;
        let mut page = replace(&mut self.out, String::new(alloc));
        self.phase_head(kind, part, depth)?;
        let remarks = replace(&mut self.out, String::new(alloc));
        self.part(part, depth)?;
        let phase = Phase {
            remarks: &remarks,
            kind,
            share: &self.out,
        };
        layout.put_phase(&mut page, &phase, depth)?;
        self.out = page;
        Ok(())
    }

    // A processor's part of a phase.
    fn part(&mut self, part: &Part, depth: u32) -> Result<(), AllocError> {
        let layout = layout_of(self.alloc, self.program, self.plan);
        match part {
            Part::Trips(trips) => self.own_trips(trips, depth),
            Part::Work(anchor, item) => {
                self.owned(anchor, depth)?;
                let body = Body {
                    scope: layout.scope(&[]),
                    sums: &[],
                };
                body.put_statement(&mut self.out, item, depth.saturating_add(1))?;
                self.line(depth, "}")
            }
            Part::Nothing => Ok(()),
        }
    }

    /// The question whether an anchor names the processor.
    pub(crate) fn owned(&mut self, anchor: &Anchor, depth: u32) -> Result<(), AllocError> {
        let layout = layout_of(self.alloc, self.program, self.plan);
        self.begin(depth)?;
        self.words("if (p == ")?;
        layout.put_owner(&mut self.out, anchor, None)?;
        self.words(") {\n")
    }

    // The comment in front of a phase: its line of the plan, and its lines of the source.
    fn phase_head(
        &mut self,
        kind: &Option<Kind>,
        part: &Part,
        depth: u32,
    ) -> Result<(), AllocError> {
        self.phases = self.phases.saturating_add(1);
        let number = self.phases;
        self.words("\n")?;
        self.begin(depth)?;
        write!(self.out, "// phase {number}: ")?;
        self.mark(part)?;
        self.kind(kind)?;
        let plan = self.plan;
        if let Some(anchor) = plan.anchor(number) {
            self.words(" AT")?;
            self.anchor(anchor)?;
        }
        self.words("\n")?;
        match part {
            Part::Trips(own) => self.quote(own.nest.line, last_line(own.nest), depth),
            Part::Work(_, item) => self.quote(line_of(item), line_of(item), depth),
            Part::Nothing => Ok(()),
        }
    }

    // What a phase is.
    fn mark(&mut self, part: &Part) -> Result<(), AllocError> {
        match part {
            Part::Trips(own) => self.words(match self.plan.cut.mark(own.nest.number) {
                Mark::Outer => "OUTER,",
                Mark::Doall => "DOALL,",
                Mark::Sum => "SUM,",
                Mark::Single => "SINGLE,",
                Mark::Inner => "INNER,",
            }),
            Part::Work(..) | Part::Nothing => self.words("one statement,"),
        }
    }

    // What stands in front of a phase, as in a plan.
    fn kind(&mut self, kind: &Option<Kind>) -> Result<(), AllocError> {
        let Some(kind) = kind else {
            return self.words(" NOTHING");
        };
        write!(self.out, " {}", kind.word())?;
        match kind.anchor() {
            Some(anchor) => self.anchor(anchor),
            None => Ok(()),
        }
    }

    // An anchor, as in a plan.
    fn anchor(&mut self, anchor: &Anchor) -> Result<(), AllocError> {
        self.plan_form(&anchor.form)?;
        match anchor.dist {
            Dist::Block(length) => write!(self.out, " BLOCK {length}"),
            Dist::Cyclic => self.words(" CYCLIC"),
        }
    }

    fn plan_form(&mut self, form: &Affine) -> Result<(), AllocError> {
        write!(self.out, " {}", form.constant())?;
        for &(number, coefficient) in form.loops() {
            write!(self.out, " {coefficient}*L{number}")?;
        }
        for &(number, coefficient) in form.params() {
            write!(self.out, " {coefficient}*P{number}")?;
        }
        Ok(())
    }

    // Lines of the source as comments, so deep.
    fn quote(&mut self, first: u32, last: u32, depth: u32) -> Result<(), AllocError> {
        for number in first..=last {
            let line = self.source.line(number);
            if is_quoted(line) {
                self.begin(depth)?;
                write!(self.out, "// {number:>4} ")?;
                self.quote_line(line)?;
                self.words("\n")?;
            }
        }
        Ok(())
    }

    fn quote_line(&mut self, line: &[u8]) -> Result<(), AllocError> {
        let mut before = (b' ', b' ');
        for &byte in line {
            self.out.push(shown(byte, before))?;
            before = (before.1, byte);
        }
        Ok(())
    }
}

// The greatest line of a loop's statements.
#[cycle(lines)]
fn last_line(nest: &Nest) -> u32 {
    let mut last = nest.line;
    for item in &nest.items {
        last = last.max(last_line_of(item));
    }
    last
}

#[cycle(lines)]
fn last_line_of(item: &Item) -> u32 {
    match item {
        Item::Loop(nest) => last_line(nest),
        _ => line_of(item),
    }
}

// The line of a statement.
fn line_of(item: &Item) -> u32 {
    match item {
        Item::Loop(nest) => nest.line,
        Item::Assign(_, _, _, line) | Item::Print(_, line) | Item::Continue(line) => *line,
    }
}
