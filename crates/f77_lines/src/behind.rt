// The first line behind END.

ghost use Rattle.std.specs.Prelude.{◌≡◌, ◌≤◌, ◌<◌, ◌+◌, ◌^◌, length};
ghost use Rattle.f77_lines.specs.Columns.{lines_of};
ghost use Rattle.f77_lines.specs.Listing as listing;

use crate::refusal::MOST_BYTES;
use crate::row::{columns_of, first_line, kind_of};

/// The first line behind this place that is no comment, counted from 1 in all the bytes; where
/// [`statements`](crate::statements) put the place behind END, such a line is refused as
/// [`LineRefusal::AfterEnd`] unless a plan begins there.
pub fn first_behind(bytes: &[u8], rest: usize) -> Option<u32>
    requires within { rest ≤ length bytes.now }
    requires short { length bytes.now ≤ MOST_BYTES }
    ensures { result ≡ listing.first_behind bytes.now rest }
{
    let (front, behind) = bytes.split_at(rest);
    first_kept(count_of_lines(front) + 1, behind)
}

/// How many lines these bytes are.
#[tactic(auto, using(crate::proofs::Cuts::counting))]
fn count_of_lines(bytes: &[u8]) -> u32
    requires { length bytes.now ≤ MOST_BYTES }
    ensures count { result ≡ length (lines_of bytes.now) }
    ensures within { result ≤ length bytes.now }
{
    let mut count = 0;
    let mut rest = bytes;
    while !rest.is_empty() {
        let (_, behind) = first_line(rest);
        count += 1;
        rest = behind;
    }
    count
}

/// The first line that is no comment, where the first line has this number.
#[tactic(auto, using(crate::proofs::Cuts::keeping))]
fn first_kept(first: u32, bytes: &[u8]) -> Option<u32>
    requires { first + length bytes.now < 2 ^ 32 }
    ensures { result ≡ listing.first_kept first (lines_of bytes.now) }
{
    let mut rest = bytes;
    let mut number = first;
    while !rest.is_empty() {
        let (line, behind) = first_line(rest);
        if !kind_of(columns_of(line)).is_comment() {
            return Some(number);
        }
        number += 1;
        rest = behind;
    }
    None
}
