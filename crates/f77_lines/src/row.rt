// Lines, their columns and their kinds.

ghost use Rattle.std.specs.Prelude.{◌≡◌, ◌+◌, ◌≤◌, ◌<◌, ◌++◌, length, take, drop, map};
ghost use Rattle.std.specs.List.{list_all};
ghost use Rattle.f77_lines.specs.Columns as spec;
ghost use Rattle.f77_lines.specs.Columns.{is_comment};
ghost use Rattle.f77_lines.specs.Walk.{first_of, after_first};

/// What a line of a source is.
#[derive(Clone, Copy, Debug, PartialEq, Eq)]
pub enum Kind {
    Comment,
    /// A comment that begins with `C$DIST`.
    Directive,
    Initial,
    Continuation,
}

impl Kind {
    /// Whether it is a comment, as a directive is too.
    pub fn is_comment(self) -> bool
        ensures { result ≡ is_comment self }
    {
        matches!(self, Kind::Comment | Kind::Directive)
    }
}

/// The first line with its line feed, and the bytes behind it.
#[tactic(auto, unfolding(crate::specs::Walk::first_of, crate::specs::Walk::after_first))]
pub fn first_line(bytes: &[u8]) -> (&[u8], &[u8])
    ensures front { result.0.now ≡ first_of bytes.now }
    ensures back { result.1.now ≡ after_first bytes.now }
    ensures whole { length result.0.now + length result.1.now ≡ length bytes.now }
    ensures some { 0 < length bytes.now → 0 < length result.0.now }
{
    for (place, byte) in bytes.iter().enumerate() {
        if *byte == b'\n' {
            return bytes.split_at(place + 1);
        }
    }
    bytes.split_at(bytes.len())
}

/// How many columns of a line count.
const COLUMNS: usize = 72;

/// Columns 1 to 72 of a line, or fewer where it is shorter.
#[tactic(auto, using(std::proofs::lemmas::List::take_min))]
pub fn columns_of(line: &[u8]) -> &[u8]
    ensures { result.now ≡ spec.columns_of line.now }
{
    let text = without_end(line);
    &text[..COLUMNS.min(text.len())]
}

/// A line without its line feed and one carriage return directly before that.
fn without_end(line: &[u8]) -> &[u8]
    ensures { result.now ≡ spec.without_end line.now }
{
    match line {
        [text @ .., b'\r', b'\n'] => text,
        [text @ .., b'\n'] => text,
        _ => line,
    }
}

/// Columns 7 to 72, or fewer where the line is shorter.
pub fn body_of(columns: &[u8]) -> &[u8]
    ensures { result.now ≡ drop 6 columns.now }
{
    columns.get(6..).unwrap_or(&[])
}

/// Columns 1 to 5, or fewer where the line is shorter.
pub fn field_of(columns: &[u8]) -> &[u8]
    ensures { result.now ≡ take 5 columns.now }
{
    &columns[..columns.len().min(5)]
}

/// What a line is by its columns.
#[tactic(auto, unfolding(crate::specs::Columns::kind_of))]
pub fn kind_of(columns: &[u8]) -> Kind
    ensures { result ≡ spec.kind_of columns.now }
{
    if is_directive(columns) {
        Kind::Directive
    } else if is_marked(columns) || is_blank(columns) {
        Kind::Comment
    } else if begins_statement(columns) {
        Kind::Initial
    } else {
        Kind::Continuation
    }
}

fn is_directive(columns: &[u8]) -> bool
    ensures { result ≡ spec.is_directive columns.now }
{
    columns[..columns.len().min(6)].eq_ignore_ascii_case(b"C$DIST")
}

fn is_marked(columns: &[u8]) -> bool
    ensures { result ≡ spec.is_marked columns.now }
{
    matches!(columns.first(), Some(b'C' | b'c' | b'*'))
}

/// Whether all these are blanks.
pub fn is_blank(columns: &[u8]) -> bool
    ensures { result ≡ list_all spec.is_blank columns.now }
{
    columns.iter().all(|byte| *byte == b' ')
}

fn begins_statement(columns: &[u8]) -> bool
    ensures { result ≡ spec.begins_statement columns.now }
{
    matches!(columns.get(5), None | Some(b' ' | b'0'))
}
