// Sums and multiples of affine forms, and the limit of their numbers.

ghost use Rattle.std.specs.Prelude.{◌≡◌, ◌<◌, ◌+ℤ◌, ◌*ℤ◌, IfOk, IsTrue, OnOk, MatchOption, length, [], ◌∷◌, ◌++◌};
ghost use Rattle.nest_tree.specs.Form.{rises_above, is_small};
ghost use Rattle.f77_scene.specs.Affine.{pairs_plus, pairs_times, kept};
ghost use Rattle.f77_program.specs.Sums.{IsNextPair};

use nest_tree::Pairs;
use std::alloc::{AllocError, Global};

/// The sum of two lists of coefficients, without those that come to 0.
pub fn pairs_sum(
    alloc: Global,
    left: &[(u32, i64)],
    right: &[(u32, i64)],
) -> Result<Pairs, AllocError>
    requires left { IsTrue (rises_above 0 left.now) }
    requires right { IsTrue (rises_above 0 right.now) }
    ensures { IfOk result (λ pairs. pairs ≡ pairs_plus left.now right.now) }
{
    let mut pairs = Pairs::new(alloc);
    let mut left = left;
    let mut right = right;
    while let Some((pair, lefts, rights)) = next_pair(left, right) {
        push_kept(&mut pairs, pair)?;
        left = lefts;
        right = rights;
    }
    Ok(pairs)
}

/// The least number of two lists with the sum of its coefficients, and what is left of both lists.
fn next_pair<'a>(
    left: &'a [(u32, i64)],
    right: &'a [(u32, i64)],
) -> Option<((u32, i64), &'a [(u32, i64)], &'a [(u32, i64)])>
    requires left { IsTrue (rises_above 0 left.now) }
    requires right { IsTrue (rises_above 0 right.now) }
    ensures { MatchOption result ((left.now ≡ []) × (right.now ≡ [])) (λ next. IsNextPair left.now
        right.now next.0 next.1.now next.2.now) }
{
    let Some((first, lefts)) = left.split_first() else {
        return match right.split_first() {
            Some((second, rights)) => Some((*second, left, rights)),
            None => None,
        };
    };
    let Some((second, rights)) = right.split_first() else {
        return Some((*first, lefts, right));
    };
    if first.0 < second.0 {
        Some((*first, lefts, right))
    } else if second.0 < first.0 {
        Some((*second, left, rights))
    } else {
        Some(((first.0, small_sum(first.1, second.1)), lefts, rights))
    }
}

/// The sum of two numbers within the limit.
pub fn small_sum(a: i64, b: i64) -> i64
    requires a { IsTrue (is_small a) }
    requires b { IsTrue (is_small b) }
    ensures { result ≡ a +ℤ b }
{
    a + b
}

/// The product of two numbers within the limit.
pub fn small_product(a: i64, b: i64) -> i64
    requires a { IsTrue (is_small a) }
    requires b { IsTrue (is_small b) }
    ensures { result ≡ a *ℤ b }
{
    a * b
}

/// A multiple of coefficients.
pub fn pairs_multiple(alloc: Global, factor: i64, pairs: &[(u32, i64)]) -> Result<Pairs, AllocError>
    requires factor { IsTrue (is_small factor) }
    requires pairs { IsTrue (rises_above 0 pairs.now) }
    ensures { IfOk result (λ multiple. multiple ≡ pairs_times factor pairs.now) }
{
    let mut multiple = Pairs::new(alloc);
    for &(number, coefficient) in pairs {
        push_kept(&mut multiple, (number, small_product(factor, coefficient)))?;
    }
    Ok(multiple)
}

/// One more pair at the end, unless its coefficient is 0.
fn push_kept(pairs: &mut Pairs, pair: (u32, i64)) -> Result<(), AllocError>
    ensures { OnOk result (pairs.new ≡ pairs.old ++ kept pair.0 pair.1 []) }
{
    if pair.1 != 0 {
        pairs.push(pair.0, pair.1)?;
    }
    Ok(())
}
