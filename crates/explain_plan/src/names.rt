// The loops of a source, as a person knows them.

use f77_forms::{Statement, TextFault, read_statement};
use f77_lines::Line;
use std::alloc::{AllocError, Global};

/// The variable of a loop, and the line of its DO, from 1.
#[derive(Drop)]
pub(crate) struct LoopName {
    pub(crate) variable: Vec<u8>,
    pub(crate) line: u32,
}

/// The loops of a source: the one with number n, from 1, stands at n - 1. An error says that memory
/// ran out.
pub(crate) fn loop_names(alloc: Global, lines: &[Line]) -> Result<Vec<LoopName>, AllocError> {
    let mut names = Vec::new(alloc);
    for it in lines {
        if let Line::Statement { line, text, .. } = it {
            push_name(alloc, text.as_slice(), *line, &mut names)?;
        }
    }
    Ok(names)
}

// The loop of a statement in this line, if it is a DO.
fn push_name(
    alloc: Global,
    text: &[u8],
    line: u32,
    names: &mut Vec<LoopName>,
) -> Result<(), AllocError> {
    let statement = match read_statement(alloc, text) {
        Ok(statement) => statement,
        Err(TextFault::NoMemory) => return Err(AllocError),
        Err(_) => return Ok(()),
    };
    if let Statement::Do(it) = &statement {
        let variable = Vec::from_slice(alloc, it.variable.as_slice())?;
        names.push(LoopName { variable, line })?;
    }
    Ok(())
}
