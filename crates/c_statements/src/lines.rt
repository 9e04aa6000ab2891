// Lines of code. Where memory runs out, here and below, a part may be appended.

ghost use Rattle.std.specs.Prelude.{OnOk, string_bytes};
ghost use Rattle.c_statements.specs.Texts.{Written, code, indent, line};

use c_expressions::put_text;
use std::alloc::AllocError;

/// Appends these bytes.
pub fn put_code(out: &mut String, words: &str) -> Result<(), AllocError>
    ensures { OnOk result (Written (code words.now) (string_bytes out.old) (string_bytes out.new)) }
{
    put_text(out, words)
}

/// Appends the beginning of a line that stands so deep.
pub fn put_indent(out: &mut String, depth: u32) -> Result<(), AllocError>
    ensures { OnOk result (Written indent (string_bytes out.old) (string_bytes out.new)) }
{
    for _ in 0..depth {
        put_text(out, "  ")?;
    }
    Ok(())
}

/// Appends a whole line.
pub fn put_line(out: &mut String, depth: u32, words: &str) -> Result<(), AllocError>
    ensures { OnOk result (Written (line words.now) (string_bytes out.old) (string_bytes out.new)) }
{
    put_indent(out, depth)?;
    put_text(out, words)?;
    put_text(out, "\n")
}
