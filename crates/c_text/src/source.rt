// The lines of the source, quoted in comments.

use std::alloc::{AllocError, Global};

// The columns of a line that are read.
const COLUMNS: usize = 72;

/// The lines of a source, by their numbers.
#[derive(Drop)]
pub(crate) struct SourceLines<'a> {
    bytes: &'a [u8],
    starts: Vec<usize>,
}

impl<'a> SourceLines<'a> {
    /// The lines of these bytes. The error is that memory ran out.
    pub(crate) fn new(alloc: Global, bytes: &'a [u8]) -> Result<Self, AllocError> {
        let mut starts = Vec::new(alloc);
        starts.push(0)?;
        for (place, byte) in bytes.iter().enumerate() {
            if *byte == b'\n' {
                starts.push(place + 1)?;
            }
        }
        Ok(SourceLines { bytes, starts })
    }

    /// What is read of the line with this number, from 1, without blanks at its end.
    pub(crate) fn line(&self, number: u32) -> &'a [u8] {
        let place = (number as usize).saturating_sub(1);
        let Some(&start) = self.starts.get(place) else {
            return &[];
        };
        let Some((_, behind)) = self.bytes.split_at_checked(start) else {
            return &[];
        };
        let row = behind
            .split_at_checked(COLUMNS)
            .map_or(behind, |(row, _)| row);
        let end = row.iter().position(|byte| *byte == b'\n' || *byte == b'\r');
        let read = match end {
            Some(end) => row.get(..end).unwrap_or(row),
            None => row,
        };
        read.trim_ascii_end()
    }
}

/// Whether a line is quoted: it isn't blank, and no comment.
pub(crate) fn is_quoted(line: &[u8]) -> bool {
    match line.first() {
        None | Some(b'C' | b'c' | b'*') => false,
        Some(_) => true,
    }
}

/// A byte of a line as it stands in a comment, where the two bytes in front of it are these. A
/// backslash would join the comment with the next line, and so would two question marks with a slash.
pub(crate) fn shown(byte: u8, before: (u8, u8)) -> char {
    match byte {
        b'/' | b'\\' => { if before == (b'?', b'?') { ' ' } else { '/' } }
        b' '..=b'~' => char::from(byte),
        _ => '.',
    }
}
