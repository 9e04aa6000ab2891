// How many accesses conflict.

ghost use Rattle.std.specs.Prelude.{◌≡◌, ◌||◌, if◌then◌else◌};
ghost use Rattle.std.specs.Io.Iter.{u64_saturate};
ghost use Rattle.nest_tree.specs.View.{statement_of};
ghost use Rattle.comm_system.specs.Shown.{is_among, is_summed as stands_summed, privates_in as privates_in_phase};
ghost use Rattle.obligation_numbers.specs.Counts.{conflict_count, pair_count as pairs_between, within_count as pairs_within};
ghost use Rattle.obligation_numbers.specs.Sums.{access_sum, shown_sum};

use crate::accesses::{AccessWeight, shown_weight, statement_weight};
use comm_system::own::{is_summed, privates_in};
use nest_tree::Item;
use owner_partition::Cut;

// An access with which others may conflict.
#[derive(Clone, Copy)]
struct One {
    variable: u32,
    stores: bool,
}

impl AccessWeight for One {
    ghost weight = { λ one. conflict_count one.variable one.stores };

    fn weigh(&self, variable: u32, stores: bool) -> u64 {
        if self.variable == variable && (self.stores || stores) {
            1
        } else {
            0
        }
    }
}

// The accesses of a phase that others see, with some of which one may conflict.
#[derive(Clone, Copy)]
struct Others<'x> {
    cut: &'x Cut,
    item: &'x Item,
}

impl AccessWeight for Others<'_> {
    ghost weight = { λ others variable stores. shown_sum others.cut.now
        (conflict_count variable stores) (statement_of others.item.now) };

    fn weigh(&self, variable: u32, stores: bool) -> u64 {
        shown_weight(&One { variable, stores }, self.cut, self.item)
    }
}

// How many ordered pairs of accesses of two phases conflict; past 64 bits the greatest number.
pub(crate) fn pair_count(cut: &Cut, first: &Item, second: &Item) -> u64
    ensures { result
        ≡ u64_saturate (pairs_between cut.now (statement_of first.now) (statement_of second.now)) }
{
    shown_weight(&Others { cut, item: second }, cut, first)
}

// The accesses of a phase in another trip, with some of which one may conflict: not those of its
// own scalars.
#[derive(Clone, Copy)]
struct InTrips<'x> {
    cut: &'x Cut,
    item: &'x Item,
}

impl AccessWeight for InTrips<'_> {
    ghost weight = { λ x variable stores. if is_among
        (privates_in_phase x.cut.now (statement_of x.item.now)) variable
        || stands_summed x.cut.now (statement_of x.item.now) variable then 0
        else access_sum (conflict_count variable stores) (statement_of x.item.now) };

    fn weigh(&self, variable: u32, stores: bool) -> u64 {
        let own = privates_in(self.cut, self.item).contains(&variable)
            || is_summed(self.cut, self.item, variable);
        if own {
            0
        } else {
            statement_weight(&One { variable, stores }, self.item)
        }
    }
}

// How many ordered pairs of accesses conflict in two trips of a phase.
pub(crate) fn within_count(cut: &Cut, item: &Item) -> u64
    ensures { result ≡ u64_saturate (pairs_within cut.now (statement_of item.now)) }
{
    statement_weight(&InTrips { cut, item }, item)
}
