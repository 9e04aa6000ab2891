// The program of a source.

ghost use Rattle.std.specs.Prelude.{◌≤◌, length};

use anyhow::{Result, bail};
use f77_lines::{MOST_BYTES, statements};
use f77_source::read_program;
use nest_tree::Program;
use std::alloc::Global;

/// The program of a source, within its limits.
pub(crate) fn program_of(alloc: Global, source: &[u8]) -> Result<Program>
    requires { length source.now ≤ MOST_BYTES }
{
    let (lines, _rest) = statements(alloc, source)?;
    let draft = read_program(alloc, &lines, &[])?;
    match draft.limited() {
        Ok(program) => Ok(program),
        Err(limit) => bail!("{limit}"),
    }
}
