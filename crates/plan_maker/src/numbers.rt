// The numbers of plans.

ghost use Rattle.std.specs.Prelude.{◌&&◌, IsTrue, length, ℕ, ℤ};
ghost use Rattle.std.specs.List.{list_all};
ghost use Rattle.sync_plan.specs.Numbers.{is_32, is_64, is_128, is_certificate_shown, is_dist_shown, is_step_shown};
ghost use Rattle.plan_maker.specs.Numbers.{IsHeld, are_privates_held, is_anchor_held, is_kind_held, is_pair_held};

use farkas_cert::{Certificate, Step};
use owner_partition::{Anchor, Dist, Privates};
use sync_plan::{Kind, Plan};

// Reads pairs of a form: the numbers of what it names are within the bounds of their type.
fn read_pairs(pairs: &[(u32, i64)])
    ensures { IsTrue (list_all is_pair_held pairs.now) }
{
    for pair in pairs {
        let (_number, _coefficient) = *pair;
    }
}

// Reads how places are dealt.
fn read_dist(dist: Dist)
    ensures { IsTrue (is_dist_shown dist) }
{
    match dist {
        Dist::Block(_length) => {}
        Dist::Cyclic => {}
    }
}

// Reads an anchor.
fn read_anchor(anchor: &Anchor)
    ensures { IsTrue (is_anchor_held anchor.now) }
{
    read_pairs(anchor.form.loops());
    read_pairs(anchor.form.params());
    read_dist(anchor.dist);
}

// Reads anchors.
fn read_anchors(anchors: &[Anchor])
    ensures { IsTrue (list_all is_anchor_held anchors.now) }
{
    for anchor in anchors {
        read_anchor(anchor);
    }
}

// Reads a kind.
fn read_kind(kind: &Kind)
    ensures { IsTrue (is_kind_held kind.now) }
{
    if let Some(anchor) = kind.anchor() {
        read_anchor(anchor);
    }
}

// Reads kinds.
fn read_kinds(kinds: &[Kind])
    ensures { IsTrue (list_all is_kind_held kinds.now) }
{
    for kind in kinds {
        read_kind(kind);
    }
}

// Reads private scalars.
fn read_scalars(scalars: &[u32])
    ensures { IsTrue (list_all is_32 scalars.now) }
{
    for scalar in scalars {
        let _scalar = *scalar;
    }
}

// Reads the private scalars of loops.
fn read_privates(lists: &[Privates])
    ensures { IsTrue (list_all are_privates_held lists.now) }
{
    for list in lists {
        read_scalars(list.as_slice());
    }
}

// Reads the terms of a step: their numbers are within the bounds of their types.
fn read_terms(terms: &[(u64, i128)])
    ensures { IsTrue (list_all (λ (t : ℕ × ℤ). is_64 t.0 && is_128 t.1) terms.now) }
{
    for term in terms {
        let (_row, _multiplier) = *term;
    }
}

// Reads the steps of a certificate.
fn read_steps(steps: &[Step])
    ensures { IsTrue (list_all is_step_shown steps.now) }
{
    for step in steps {
        let _divisor = step.divisor;
        read_terms(step.terms.as_slice());
    }
}

// Reads certificates.
fn read_certificates(certificates: &[Certificate])
    ensures count { IsTrue (is_64 (length certificates.now)) }
    ensures shown { IsTrue (list_all is_certificate_shown certificates.now) }
{
    let _count = certificates.len();
    for certificate in certificates {
        read_steps(certificate.steps.as_slice());
    }
}

/// Reads a plan: that each number is within the bounds of its type is known of what is read.
pub(crate) fn read_plan(plan: &Plan)
    ensures { IsHeld plan.now }
{
    read_anchors(plan.anchors.as_slice());
    read_kinds(plan.kinds.as_slice());
    read_privates(plan.cut.privates());
    read_certificates(plan.certificates.as_slice());
}
