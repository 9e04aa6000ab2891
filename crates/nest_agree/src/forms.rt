// Whether forms, accesses and comparisons are equal.

ghost use Rattle.std.specs.Prelude.{◌≡◌};
ghost use Rattle.nest_agree.specs.Same.{compare_number, same_access, same_form, same_guard, same_list, same_pair};

use nest_tree::{Access, Affine, Compare, Guard};

fn same_pairs(a: &[(u32, i64)], b: &[(u32, i64)]) -> bool
    ensures { result ≡ same_list same_pair a.now b.now }
{
    a == b
}

pub(crate) fn same_form(a: &Affine, b: &Affine) -> bool
    ensures { result ≡ same_form a.now b.now }
{
    a.constant() == b.constant()
        && same_pairs(a.loops(), b.loops())
        && same_pairs(a.params(), b.params())
}

fn same_forms(a: &[Affine], b: &[Affine]) -> bool
    ensures { result ≡ same_list same_form a.now b.now }
{
    for (place, form) in a.iter().enumerate() {
        if place >= b.len() || !same_form(form, &b[place]) {
            return false;
        }
    }
    b.len() <= a.len()
}

pub(crate) fn same_access(a: &Access, b: &Access) -> bool
    ensures { result ≡ same_access a.now b.now }
{
    a.variable == b.variable && same_forms(a.subscripts.as_slice(), b.subscripts.as_slice())
}

fn compare_number(op: Compare) -> u8
    ensures { result ≡ compare_number op }
{
    match op {
        Compare::Lt => 0,
        Compare::Le => 1,
        Compare::Eq => 2,
        Compare::Ge => 3,
        Compare::Gt => 4,
    }
}

pub(crate) fn same_guard(a: &Option<Guard>, b: &Option<Guard>) -> bool
    ensures { result ≡ same_guard a.now b.now }
{
    match a {
        Some(a) => match b {
            Some(b) => {
                same_form(&a.left, &b.left)
                    && compare_number(a.op) == compare_number(b.op)
                    && same_form(&a.right, &b.right)
            }
            None => false,
        },
        None => b.is_none(),
    }
}
