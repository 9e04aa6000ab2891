// The first fault of lines.

ghost use Rattle.std.specs.Prelude.{◌≡◌, ◌≤◌, ◌<◌, ◌+◌, None, Some, Ok, Err, length, MatchResult, IfOk};
ghost use Rattle.std.specs.List.{list_all};
ghost use Rattle.f77_lines.specs.Columns.{lines_of};
ghost use Rattle.f77_lines.specs.Faults as spec;
ghost use Rattle.f77_lines.specs.Listing.{size_to_end, first_line_fault};

use crate::refusal::{LineRefusal, MOST_BYTES};
use crate::row::{Kind, columns_of, field_of, first_line, is_blank, kind_of};
use crate::texts::{is_end, label_at};

/// How many continuation lines a statement may have.
const MOST_CONTINUATIONS: u32 = 19;

/// Whether all these are characters from a blank to a tilde.
fn are_printable(columns: &[u8]) -> bool
    ensures { result ≡ list_all spec.is_printable columns.now }
{
    columns.iter().all(|c| b' ' <= *c && *c <= b'~')
}

/// The fault of the line with this number, where the statement in front of it may have so many
/// more continuation lines.
fn fault_of(kind: Kind, room: u32, line: u32, columns: &[u8]) -> Option<LineRefusal>
    ensures { result ≡ spec.fault_with kind room line columns.now }
{
    match kind {
        Kind::Comment | Kind::Directive => None,
        _ if !are_printable(columns) => Some(LineRefusal::BadCharacter(line)),
        Kind::Initial if label_at(field_of(columns)).is_none() => Some(LineRefusal::BadLabel(line)),
        Kind::Continuation if room == 0 || !is_blank(field_of(columns)) => {
            Some(LineRefusal::BadContinuation(line))
        }
        _ => None,
    }
}

/// How many continuation lines may come behind a line.
fn room_after(kind: Kind, room: u32) -> u32
    ensures { result ≡ spec.room_after kind room }
{
    match kind {
        Kind::Comment | Kind::Directive => room,
        Kind::Initial => MOST_CONTINUATIONS,
        Kind::Continuation => room.saturating_sub(1),
    }
}

/// How many bytes the lines up to END take, or the first fault.
#[tactic(auto, using(crate::proofs::Cuts::measuring))]
pub fn length_to_end(bytes: &[u8]) -> Result<usize, LineRefusal>
    requires { length bytes.now ≤ MOST_BYTES }
    ensures size { IfOk result (λ n. n ≡ size_to_end (lines_of bytes.now)) }
    ensures within { IfOk result (λ n. n ≤ length bytes.now) }
    ensures fault { MatchResult result (λ _. first_line_fault bytes.now
        ≡ None) (λ fault. first_line_fault bytes.now ≡ Some fault) }
{
    let mut rest = bytes;
    let mut number = 1;
    let mut room = 0;
    while !rest.is_empty() {
        let (line, behind) = first_line(rest);
        let columns = columns_of(line);
        let kind = kind_of(columns);
        if let Some(fault) = fault_of(kind, room, number, columns) {
            return Err(fault);
        }
        if is_end(kind, columns) {
            return Ok(bytes.len() - behind.len());
        }
        room = room_after(kind, room);
        number += 1;
        rest = behind;
    }
    Err(LineRefusal::NoEnd(number))
}
