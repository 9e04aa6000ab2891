// The loops that two places have in common, from the outermost.

ghost use Rattle.std.specs.Prelude.{◌≡◌, ◌≤◌, length};
ghost use Rattle.nest_rows.specs.InCommon.{common as in_common, is_prefix as are_first_of};
ghost use Rattle.nest_rows.specs.Views.{heads_of};

use crate::terms::Around;

/// Whether these loops are the first of those.
pub fn is_prefix(these: &[Around], those: &[Around]) -> bool
    ensures { result ≡ are_first_of (heads_of these.now) (heads_of those.now) }
{
    match these {
        [] => true,
        [a, these @ ..] => match those {
            [] => false,
            [b, those @ ..] => a.nest.number == b.nest.number && is_prefix(these, those),
        },
    }
}

/// How many loops these and those have in common.
pub fn common(these: &[Around], those: &[Around]) -> usize
    ensures common { result ≡ in_common (heads_of these.now) (heads_of those.now) }
    ensures these { result ≤ length these.now }
{
    match these {
        [] => 0,
        [a, these @ ..] => match those {
            [] => 0,
            [b, those @ ..] => {
                if a.nest.number == b.nest.number {
                    1 + common(these, those)
                } else {
                    0
                }
            }
        },
    }
}
