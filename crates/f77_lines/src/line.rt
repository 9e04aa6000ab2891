// What a source lists.

/// A statement or a directive of a source.
#[derive(Debug, Drop)]
pub enum Line {
    /// A statement, END among them.
    Statement {
        /// Its initial line, from 1.
        line: u32,
        /// Its label, 1 to 99999, or 0 where it has none.
        label: u32,
        /// Columns 7 to 72 of its lines, without blanks and in capitals but for character constants.
        text: Vec<u8>,
    },
    /// A comment line that begins with `C$DIST`.
    Directive {
        /// Its line, from 1.
        line: u32,
        /// What stands from column 7 to 72, without blanks and in capitals.
        text: Vec<u8>,
    },
}
