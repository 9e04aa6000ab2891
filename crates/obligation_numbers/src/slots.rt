// How many obligations two phases have, each phase with all others, and each by itself.

ghost use Rattle.std.specs.Prelude.{◌≡◌, ◌+◌, ◌-◌, ◌≤◌, sum_by};
ghost use Rattle.std.specs.Io.Iter.{u64_saturate};
ghost use Rattle.std.specs.List.{range_with_len};
ghost use Rattle.nest_tree.specs.View.{statement_of, statements_from, tree_of};
ghost use Rattle.own_scalars.specs.OwnScalars.{path_length};
ghost use Rattle.comm_system.specs.Obligations.{slot_signature};
ghost use Rattle.comm_system.specs.References.{phases_of};
ghost use Rattle.obligation_numbers.specs.Counts.{certain_count, count_before, count_between, pair_count as pairs_between, path_count, paths_count, piece_count, slot_count, trips_count};
ghost use Rattle.obligation_numbers.specs.SlotViews.{first_of, phases_at, second_of, slot_at};
ghost use Rattle.obligation_numbers.specs.Tests.{passes};

use crate::boundaries::{Certain, Test};
use crate::conflicts::{pair_count, within_count};
use crate::phases::{PhaseWeight, phases_weight};
use crate::scene::{Both, Scene, Second};
use nest_rows::common;
use nest_tree::Item;
use own_scalars::path_length;
use owner_partition::{Cut, StaticPhase};
use sync_plan::Plan;

impl Both<'_, '_> {
    // The boundaries that are certain at a level and whose kinds pass a test.
    fn certain(&self, level: usize, test: Test) -> u64
        ensures { result
            ≡ u64_saturate (certain_count (passes test) self.now.second.scene.plan.now.kinds
            (phases_at self.now) (slot_at self.now level)) }
    {
        let certain = Certain {
            level: self.at(level),
            kinds: self.second.scene.plan.kinds.as_slice(),
            test,
        };
        phases_weight(
            &certain,
            self.second.scene.program,
            &self.second.scene.plan.cut,
        )
    }

    // How many pieces each pair has at a level.
    fn piece_count(&self, level: usize) -> u64
        ensures { result
            ≡ piece_count
            (slot_signature self.now.second.scene.plan.now.version
            self.now.second.scene.plan.now.kinds (phases_at self.now) (slot_at self.now level)) }
    {
        if self.certain(level, Test::IsBarrier) > 0 {
            return 0;
        }
        match self.certain(level, Test::IsProducer) {
            0 => 2,
            1 => 4,
            2 => 8,
            _ => 16,
        }
    }

    // How many systems there are at a level of so many pairs.
    fn slot_count(&self, pairs: u64, level: usize) -> u64
        requires { pairs
            ≡ u64_saturate (pairs_between self.now.second.scene.plan.now.cut
            (first_of self.now).what (second_of self.now.second).what) }
        ensures { result
            ≡ u64_saturate (slot_count self.now.second.scene.plan.now (phases_at self.now)
            (slot_at self.now level)) }
    {
        if pairs == 0 {
            0
        } else {
            pairs.saturating_mul(self.piece_count(level))
        }
    }

    // Those at the last levels, so many, of these loops.
    fn carried_count(&self, pairs: u64, loops: usize, left: usize) -> u64
        requires pairs { pairs
            ≡ u64_saturate (pairs_between self.now.second.scene.plan.now.cut
            (first_of self.now).what (second_of self.now.second).what) }
        requires left { left ≤ loops }
        ensures { result
            ≡ u64_saturate
            (sum_by (λ level. slot_count self.now.second.scene.plan.now (phases_at self.now)
            (slot_at self.now level)) (range_with_len (loops - left + 1) left)) }
    {
        if left == 0 {
            return 0;
        }
        let later = self.carried_count(pairs, loops, left - 1);
        let here = self.slot_count(pairs, loops - left + 1);
        here.saturating_add(later)
    }

    // Those at all levels.
    fn count(&self) -> u64
        ensures { result
            ≡ u64_saturate (count_between self.now.second.scene.plan.now
            (phases_at self.now) self.now.second.t (second_of self.now.second) self.now.s
            (first_of self.now)) }
    {
        let cut = &self.second.scene.plan.cut;
        let pairs = pair_count(cut, self.first.item, self.second.phase.item);
        let first_loops = self.first.outer.as_slice();
        let loops = common(first_loops, self.second.phase.outer.as_slice());
        let carried = self.carried_count(pairs, loops, loops);
        if self.s < self.second.t {
            carried.saturating_add(self.slot_count(pairs, 0))
        } else {
            carried
        }
    }
}

impl PhaseWeight for Second<'_, '_> {
    ghost weight = { λ x s first. count_between x.scene.plan.now
        (phases_of (tree_of x.scene.program.now) x.scene.plan.now.cut.marks) x.t
        (second_of x) s first };

    fn weigh(&self, number: u32, phase: &StaticPhase) -> u64 {
        let both = Both {
            second: *self,
            s: number,
            first: phase,
        };
        both.count()
    }
}

impl PhaseWeight for Scene<'_> {
    ghost weight = { λ x t second. count_before x.plan.now
        (phases_of (tree_of x.program.now) x.plan.now.cut.marks) t second };

    fn weigh(&self, number: u32, phase: &StaticPhase) -> u64 {
        let second = Second {
            scene: *self,
            t: number,
            phase,
        };
        phases_weight(&second, self.program, &self.plan.cut)
    }
}

// Two trips of each phase whose trips are dealt.
#[derive(Clone, Copy)]
pub(crate) struct Trips<'x> {
    pub(crate) plan: &'x Plan,
}

impl PhaseWeight for Trips<'_> {
    ghost weight = { λ x. trips_count x.plan.now };

    fn weigh(&self, _number: u32, phase: &StaticPhase) -> u64 {
        if self.plan.cut.is_dealt(phase.item) {
            within_count(&self.plan.cut, phase.item)
        } else {
            0
        }
    }
}

// The loops on the paths of the private scalars of each phase.
#[derive(Clone, Copy)]
pub(crate) struct Paths<'x> {
    pub(crate) plan: &'x Plan,
}

impl PhaseWeight for Paths<'_> {
    ghost weight = { λ x. paths_count x.plan.now };

    fn weigh(&self, _number: u32, phase: &StaticPhase) -> u64 {
        path_count(&self.plan.cut, phase.item)
    }
}

// Those of a phase.
fn path_count(cut: &Cut, item: &Item) -> u64
    ensures { result ≡ u64_saturate (path_count cut.now (statement_of item.now)) }
{
    match item {
        Item::Loop(nest) => path_lengths(&nest.items, cut.privates_of(nest.number)),
        Item::Assign(..) | Item::Print(..) | Item::Continue(_) => 0,
    }
}

// The loops on the paths of these scalars in a loop with this body.
fn path_lengths(body: &[Item], scalars: &[u32]) -> u64
    ensures { result
        ≡ u64_saturate (sum_by (λ v. path_length v (statements_from body.now)) scalars.now) }
{
    let mut total = 0u64;
    for &scalar in scalars {
        total = total.saturating_add(path_length(body, scalar));
    }
    total
}
