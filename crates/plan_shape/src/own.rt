// The sum scalars and the private scalars of a plan's loops.

ghost use Rattle.std.specs.Prelude.{◌≡◌};
ghost use Rattle.std.specs.List.{list_all};
ghost use Rattle.nest_tree.specs.View.{statement_of, statements_from};
ghost use Rattle.own_scalars.specs.OwnScalars.{is_private};
ghost use Rattle.owner_partition.specs.Cuts.{privates_of};
ghost use Rattle.owner_partition.specs.Marks.{mark_of};
ghost use Rattle.sync_plan.specs.Shape.{are_good_privates, do_rise, has_good_privates, has_good_sums, have_good_privates, have_good_sums, is_good_sum};

use nest_tree::{Item, Nest};
use own_scalars::{MOST_OWN, has_few_sums, is_private};
use owner_partition::{Cut, Mark};
use sync_plan::Version;

/// Whether each Sum loop in these statements has 1 to 16 sum scalars, in a version that has such
/// loops.
#[cycle(sums)]
pub(crate) fn have_good_sums(version: Version, cut: &Cut, items: &[Item]) -> bool
    ensures { result ≡ have_good_sums version cut.now.marks (statements_from items.now) }
{
    for item in items {
        if !has_good_sums(version, cut, item) {
            return false;
        }
    }
    true
}

#[cycle(sums)]
fn has_good_sums(version: Version, cut: &Cut, item: &Item) -> bool
    ensures { result ≡ has_good_sums version cut.now.marks (statement_of item.now) }
{
    match item {
        Item::Loop(nest) => {
            is_good_sum(version, cut.mark(nest.number), nest)
                && have_good_sums(version, cut, &nest.items)
        }
        Item::Assign(..) | Item::Print(..) | Item::Continue(_) => true,
    }
}

fn is_good_sum(version: Version, mark: Mark, nest: &Nest) -> bool
    ensures { result ≡ is_good_sum version mark (statements_from nest.now.items.items) }
{
    !mark.is_sum() || (version.has_sums() && has_few_sums(nest))
}

/// Whether the private scalars of each loop in these statements may be there: none, or of a loop
/// whose trips are dealt, in a version that has them, at most 16, rising from 1, and each may be
/// private.
#[cycle(privates)]
pub(crate) fn have_good_privates(version: Version, cut: &Cut, items: &[Item]) -> bool
    ensures { result ≡ have_good_privates version cut.now (statements_from items.now) }
{
    for item in items {
        if !has_good_privates(version, cut, item) {
            return false;
        }
    }
    true
}

#[cycle(privates)]
fn has_good_privates(version: Version, cut: &Cut, item: &Item) -> bool
    ensures { result ≡ has_good_privates version cut.now (statement_of item.now) }
{
    match item {
        Item::Loop(nest) => {
            are_good_privates(version, cut, nest) && have_good_privates(version, cut, &nest.items)
        }
        Item::Assign(..) | Item::Print(..) | Item::Continue(_) => true,
    }
}

fn are_good_privates(version: Version, cut: &Cut, nest: &Nest) -> bool
    ensures { result ≡ are_good_privates version (mark_of cut.now.marks nest.now.number)
        (statements_from nest.now.items.items) (privates_of cut.now.privates nest.now.number) }
{
    let scalars = cut.privates_of(nest.number);
    scalars.is_empty()
        || (version.has_privates()
            && cut.is_doall(nest.number)
            && scalars.len() <= MOST_OWN
            && do_rise(scalars)
            && are_private(&nest.items, scalars))
}

// Whether these numbers rise from 1.
fn do_rise(numbers: &[u32]) -> bool
    ensures { result ≡ do_rise 0 numbers.now }
{
    let mut least = 0;
    for &number in numbers {
        if number <= least {
            return false;
        }
        least = number;
    }
    true
}

// Whether each of these scalars may be private in a loop with this body.
fn are_private(body: &[Item], scalars: &[u32]) -> bool
    ensures { result ≡ list_all (λ v. is_private v (statements_from body.now)) scalars.now }
{
    for &scalar in scalars {
        if !is_private(body, scalar) {
            return false;
        }
    }
    true
}
