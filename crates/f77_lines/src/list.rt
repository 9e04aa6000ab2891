// The statements and directives of a source.

ghost use Rattle.std.specs.Prelude.{◌≡◌, ◌≤◌, ◌<◌, ◌+◌, ◌++◌, Some, Ok, Err, length, drop, map, codes, IfOk, IfErr};
ghost use Rattle.f77_lines.specs.Columns.{lines_of, body_of};
ghost use Rattle.f77_lines.specs.Texts.{text_of, squeezed};
ghost use Rattle.f77_lines.specs.Statements as spec;
ghost use Rattle.f77_lines.specs.Listing.{Lists, Refuses, first_line_fault, entry_of, entries_of};

use crate::faults::length_to_end;
use crate::line::Line;
use crate::refusal::{LineRefusal, MOST_BYTES};
use crate::row::{Kind, columns_of, field_of, first_line, kind_of};
use crate::texts::{directive_text, label_at, reads_end, statement_text};
use std::alloc::{AllocError, Global};

/// The statements and directives of a source, END among them, by their first lines; and where the
/// rest begins, behind the line end of END. Otherwise the first fault by line.
pub fn statements(alloc: Global, bytes: &[u8]) -> Result<(Vec<Line>, usize), LineRefusal>
    requires { length bytes.now ≤ MOST_BYTES }
    // The list is that of the bytes.
    ensures lists { IfOk result (λ r. Lists bytes.now (map entry_of r.0.items) r.1) }
    ensures within { IfOk result (λ r. r.1 ≤ length bytes.now) }
    // Bytes with a fault are refused with the first, and others for want of memory alone.
    ensures refused { IfErr result (Refuses bytes.now) }
    ensures first_fault { (fault : LineRefusal) → first_line_fault bytes.now ≡ Some fault → result
        ≡ Err fault }
{
    let rest = length_to_end(bytes)?;
    let lines = entries(alloc, bytes)?;
    Ok((lines, rest))
}

/// The statements and directives of lines up to END.
fn entries(alloc: Global, bytes: &[u8]) -> Result<Vec<Line>, AllocError>
    requires { length bytes.now ≤ MOST_BYTES }
    ensures { IfOk result (λ lines. map entry_of lines.items ≡ entries_of bytes.now) }
{
    let mut entries = Vec::new(alloc);
    let mut rest = bytes;
    let mut number = 1;
    while !rest.is_empty() {
        let (line, behind) = first_line(rest);
        let columns = columns_of(line);
        match kind_of(columns) {
            Kind::Initial if reads_end(columns) => {
                entries.push(ending(alloc, number, columns)?)?;
                return Ok(entries);
            }
            Kind::Initial => entries.push(statement(alloc, number, columns, behind)?)?,
            Kind::Directive => entries.push(directive(alloc, number, columns)?)?,
            Kind::Comment | Kind::Continuation => {}
        }
        number += 1;
        rest = behind;
    }
    Ok(entries)
}

/// The END statement.
fn ending(alloc: Global, number: u32, columns: &[u8]) -> Result<Line, AllocError>
    ensures { IfOk result (λ line. entry_of line
        ≡ spec.statement number (spec.label_of columns.now) (codes "END")) }
{
    Ok(Line::Statement {
        line: number,
        label: label_of(columns),
        text: Vec::from_slice(alloc, b"END")?,
    })
}

/// The statement that an initial line begins.
fn statement(alloc: Global, number: u32, columns: &[u8], behind: &[u8]) -> Result<Line, AllocError>
    ensures { IfOk result (λ line. entry_of line ≡ spec.statement number (spec.label_of columns.now)
        (text_of (body_of columns.now ++ spec.continued (lines_of behind.now)))) }
{
    Ok(Line::Statement {
        line: number,
        label: label_of(columns),
        text: statement_text(alloc, columns, behind)?,
    })
}

/// The label of an initial line, 0 for none.
fn label_of(columns: &[u8]) -> u32
    ensures { result ≡ spec.label_of columns.now }
{
    label_at(field_of(columns)).unwrap_or(0)
}

/// The directive of a line.
fn directive(alloc: Global, number: u32, columns: &[u8]) -> Result<Line, AllocError>
    ensures { IfOk result (λ line. entry_of line ≡ spec.directive number
        (squeezed (drop 6 columns.now))) }
{
    Ok(Line::Directive {
        line: number,
        text: directive_text(alloc, columns)?,
    })
}
