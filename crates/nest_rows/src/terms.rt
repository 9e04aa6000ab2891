// The terms of a form inside loops.

ghost use Rattle.std.specs.Prelude.{◌≡◌, ◌+◌, ◌*◌, ◌<◌, ◌^◌, ◌++◌, IsTrue, OnOk, length, map};
ghost use Rattle.std.specs.List.{list_all};
ghost use Rattle.nest_tree.specs.Form.{is_small};
ghost use Rattle.nest_rows.specs.Places.{place_of as place_among, terms_of};
ghost use Rattle.nest_rows.specs.Signs.{with_sign};
ghost use Rattle.nest_rows.specs.Views.{heads_of};

use crate::constraint::Sign;
use nest_tree::{Affine, Nest, Pairs};
use std::alloc::AllocError;

/// A loop round a place.
#[derive(Clone, Copy)]
pub struct Around<'a> {
    pub nest: &'a Nest,
}

// The unknown for the value of the loop with this number, where that of the outermost loop has the
// number `first`; 0 where the loop isn't among these.
fn place_of(first: u32, around: &[Around], number: u32) -> u32
    requires { first + 2 * length around.now < 2 ^ 32 }
    ensures { result ≡ place_among first (heads_of around.now) number }
{
    let mut place = first;
    for one in around {
        if one.nest.number == number {
            return place;
        }
        place += 2;
    }
    0
}

// The terms of loops, with this sign, behind those in the list.
fn push_loops(
    terms: &mut Pairs,
    sign: Sign,
    first: u32,
    around: &[Around],
    pairs: &[(u32, i64)],
) -> Result<(), AllocError>
    requires room { first + 2 * length around.now < 2 ^ 32 }
    requires small { IsTrue (list_all (λ p. is_small p.1) pairs.now) }
    requires before { IsTrue (list_all (λ p. is_small p.1) terms.old) }
    ensures small { OnOk result (IsTrue (list_all (λ p. is_small p.1) terms.new)) }
    ensures terms { OnOk result (terms.new ≡ terms.old
        ++ with_sign sign
        (map (λ p. (place_among first (heads_of around.now) p.0, p.1)) pairs.now)) }
{
    for (number, coefficient) in pairs {
        terms.push(place_of(first, around, *number), sign.of(*coefficient))?;
    }
    Ok(())
}

// The terms of named constants, with this sign, behind those in the list.
fn push_constants(terms: &mut Pairs, sign: Sign, pairs: &[(u32, i64)]) -> Result<(), AllocError>
    requires small { IsTrue (list_all (λ p. is_small p.1) pairs.now) }
    requires before { IsTrue (list_all (λ p. is_small p.1) terms.old) }
    ensures small { OnOk result (IsTrue (list_all (λ p. is_small p.1) terms.new)) }
    ensures terms { OnOk result (terms.new ≡ terms.old ++ with_sign sign pairs.now) }
{
    for (number, coefficient) in pairs {
        terms.push(*number, sign.of(*coefficient))?;
    }
    Ok(())
}

/// The terms of a form inside these loops, with this sign, behind those in the list. The unknown
/// for the value of the outermost loop has the number `first`.
pub fn push_form(
    terms: &mut Pairs,
    sign: Sign,
    first: u32,
    around: &[Around],
    form: &Affine,
) -> Result<(), AllocError>
    requires room { first + 2 * length around.now < 2 ^ 32 }
    requires before { IsTrue (list_all (λ p. is_small p.1) terms.old) }
    ensures small { OnOk result (IsTrue (list_all (λ p. is_small p.1) terms.new)) }
    ensures terms { OnOk result (terms.new ≡ terms.old
        ++ with_sign sign (terms_of first (heads_of around.now) form.now)) }
{
    push_loops(terms, sign, first, around, form.loops())?;
    push_constants(terms, sign, form.params())
}
