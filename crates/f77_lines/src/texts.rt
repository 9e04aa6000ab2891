// The texts of statements and directives, and labels.

ghost use Rattle.std.specs.Prelude.{◌≡◌, ◌≤◌, ◌-◌, [], ◌++◌, false, length, drop, replicate, codes, IfOk, OnOk};
ghost use Rattle.std.specs.Str.{bytes_eq};
ghost use Rattle.f77_lines.specs.Columns as rows;
ghost use Rattle.f77_lines.specs.Statements.{continued, is_end};
ghost use Rattle.f77_lines.specs.Texts as spec;
ghost use Rattle.f77_lines.specs.Walk.{quoted_behind};

use crate::row::{Kind, body_of, columns_of, first_line, kind_of};
use std::alloc::{AllocError, Global};

/// How many columns stand from column 7 to 72.
const BODY_COLUMNS: usize = 66;

/// The text of a statement as far as its columns were read.
#[derive(Drop)]
struct Text {
    characters: Vec<u8>,
    /// Whether the next character stands inside a character constant.
    quoted: bool,
}

impl Text {
    fn new(alloc: Global) -> Self
        ensures characters { result.characters.items ≡ [] }
        ensures quoted { result.quoted ≡ false }
    {
        Text {
            characters: Vec::new(alloc),
            quoted: false,
        }
    }

    /// Appends what a character counts as.
    fn push(&mut self, c: u8) -> Result<(), AllocError>
        ensures characters { OnOk result (self.new.characters.items ≡ self.old.characters.items
            ++ spec.counted self.old.quoted c) }
        ensures quoted { OnOk result (self.new.quoted ≡ spec.quoted_after self.old.quoted c) }
    {
        if self.quoted {
            self.characters.push(c)?;
        } else if c != b' ' {
            self.characters.push(c.to_ascii_uppercase())?;
        }
        if c == b'\'' {
            self.quoted = !self.quoted;
        }
        Ok(())
    }

    fn push_all(&mut self, characters: &[u8]) -> Result<(), AllocError>
        ensures characters { OnOk result (self.new.characters.items ≡ self.old.characters.items
            ++ spec.text_from self.old.quoted characters.now) }
        ensures quoted { OnOk result (self.new.quoted ≡ quoted_behind self.old.quoted
            characters.now) }
    {
        for c in characters {
            self.push(*c)?;
        }
        Ok(())
    }

    /// Appends so many blanks that fill a line: inside a constant they count.
    #[tactic(auto, using(crate::proofs::Characters::filling))]
    fn fill(&mut self, count: usize) -> Result<(), AllocError>
        requires { count ≤ BODY_COLUMNS }
        ensures characters { OnOk result (self.new.characters.items ≡ self.old.characters.items
            ++ spec.text_from self.old.quoted (replicate count 32)) }
        ensures quoted { OnOk result (self.new.quoted ≡ self.old.quoted) }
    {
        if self.quoted {
            let length = self.characters.len();
            self.characters.resize(length + count, b' ')?;
        }
        Ok(())
    }

    /// Appends columns 7 to 72 of a line.
    #[tactic(auto, using(crate::proofs::Characters::filling))]
    fn push_line(&mut self, columns: &[u8]) -> Result<(), AllocError>
        ensures characters { OnOk result (self.new.characters.items ≡ self.old.characters.items
            ++ spec.text_from self.old.quoted (rows.body_of columns.now)) }
        ensures quoted { OnOk result (self.new.quoted ≡ quoted_behind self.old.quoted
            (rows.body_of columns.now)) }
    {
        let body = body_of(columns);
        self.push_all(body)?;
        self.fill(BODY_COLUMNS.saturating_sub(body.len()))?;
        Ok(())
    }
}

/// The text of the statement whose initial line has these columns, where these bytes stand behind
/// that line.
#[tactic(auto, using(crate::proofs::Cuts::continuing, crate::proofs::Characters::filling))]
pub fn statement_text(alloc: Global, columns: &[u8], behind: &[u8]) -> Result<Vec<u8>, AllocError>
    ensures { IfOk result (λ text. text.items ≡ spec.text_of (rows.body_of columns.now
        ++ continued (rows.lines_of behind.now))) }
{
    let mut text = Text::new(alloc);
    text.push_line(columns)?;
    let mut rest = behind;
    while !rest.is_empty() {
        let (line, after) = first_line(rest);
        let continuing = columns_of(line);
        match kind_of(continuing) {
            Kind::Initial => return Ok(text.characters),
            Kind::Continuation => text.push_line(continuing)?,
            Kind::Comment | Kind::Directive => {}
        }
        rest = after;
    }
    Ok(text.characters)
}

/// The text of a directive: columns 7 to 72 without blanks, in capitals.
pub fn directive_text(alloc: Global, columns: &[u8]) -> Result<Vec<u8>, AllocError>
    ensures { IfOk result (λ text. text.items ≡ spec.squeezed (drop 6 columns.now)) }
{
    body_of(columns)
        .iter()
        .filter(|c| **c != b' ')
        .map(|c| c.to_ascii_uppercase())
        .collect(alloc)
}

/// The label in columns 1 to 5 of an initial line: 0 where they are blank.
#[tactic(auto, unfolding(crate::specs::Texts::label_at))]
pub fn label_at(field: &[u8]) -> Option<u32>
    requires { length field.now ≤ 5 }
    ensures { result ≡ spec.label_at field.now }
{
    let mut label = 0;
    let mut is_blank = true;
    for c in field {
        if *c != b' ' {
            if !c.is_ascii_digit() {
                return None;
            }
            label = 10 * label + u32::from(*c - b'0');
            is_blank = false;
        }
    }
    (is_blank || label > 0).then_some(label)
}

/// Whether a line of this kind is END.
#[tactic(auto, unfolding(crate::specs::Statements::is_end))]
pub fn is_end(kind: Kind, columns: &[u8]) -> bool
    requires { kind ≡ rows.kind_of columns.now }
    ensures { result ≡ is_end columns.now }
{
    kind == Kind::Initial && reads_end(columns)
}

/// Whether columns 7 to 72 hold E, N and D in this order and nothing else.
pub fn reads_end(columns: &[u8]) -> bool
    ensures { result ≡ bytes_eq (spec.squeezed (drop 6 columns.now)) (codes "END") }
{
    let mut left: &[u8] = b"END";
    for c in body_of(columns) {
        if *c != b' ' {
            match left.split_first() {
                Some((first, others)) if c.to_ascii_uppercase() == *first => left = others,
                _ => return false,
            }
        }
    }
    left.is_empty()
}
