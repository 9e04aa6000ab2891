// Phases, behind their waits.

ghost use Rattle.std.specs.Prelude.{OnOk, string_bytes};
ghost use Rattle.nest_tree.specs.View.{tree_of};
ghost use Rattle.c_statements.specs.Texts.{Written};
ghost use Rattle.c_owners.specs.Phases.{boundary_text, phase_text, producer_text};

use crate::layout::Layout;
use c_statements::{put_code, put_indent, put_line};
use owner_partition::Anchor;
use std::alloc::AllocError;
use sync_plan::Kind;

/// A phase: remarks on it, what stands in front of it, and the text of a processor's share.
#[derive(Clone, Copy)]
pub struct Phase<'a> {
    pub remarks: &'a str,
    pub kind: &'a Option<Kind>,
    pub share: &'a str,
}

impl Layout<'_> {
    /// Appends a phase, so deep: it is counted, then come its waits, and then its share.
    pub fn put_phase(&self, out: &mut String, phase: &Phase, depth: u32) -> Result<(), AllocError>
        ensures { OnOk result (Written (phase_text (tree_of self.now.program.now) self.now.workers
            phase.now.remarks.now phase.now.kind.now phase.now.share.now) (string_bytes out.old)
            (string_bytes out.new)) }
    {
        put_code(out, phase.remarks)?;
        put_line(out, depth, "e++;")?;
        self.put_boundary(out, phase.kind, depth)?;
        put_code(out, phase.share)
    }

    // Appends the waits in front of a phase.
    fn put_boundary(
        &self,
        out: &mut String,
        kind: &Option<Kind>,
        depth: u32,
    ) -> Result<(), AllocError>
        ensures { OnOk result (Written (boundary_text (tree_of self.now.program.now)
            self.now.workers kind.now) (string_bytes out.old) (string_bytes out.new)) }
    {
        match kind {
            None | Some(Kind::Nothing) => Ok(()),
            Some(Kind::Left) => put_line(out, depth, "left(p, e);"),
            Some(Kind::Right) => put_line(out, depth, "right(p, e);"),
            Some(Kind::Both) => put_line(out, depth, "both(p, e);"),
            Some(Kind::Barrier | Kind::Join) => put_line(out, depth, "barrier(&rounds);"),
            Some(Kind::Producer(anchor)) => self.put_producer(out, anchor, depth),
        }
    }

    fn put_producer(&self, out: &mut String, anchor: &Anchor, depth: u32) -> Result<(), AllocError>
        ensures { OnOk result (Written (producer_text (tree_of self.now.program.now)
            self.now.workers anchor.now) (string_bytes out.old) (string_bytes out.new)) }
    {
        put_indent(out, depth)?;
        put_code(out, "producer(p, e, ")?;
        self.put_owner(out, anchor, None)?;
        put_code(out, ");\n")
    }
}
