// Two static phases at a level.

ghost use Rattle.std.specs.Prelude.{◌≡◌};
ghost use Rattle.conflict_rules.specs.Boundaries.{is_before_second as stands_before_second, is_behind_first as stands_behind_first};
ghost use Rattle.conflict_rules.specs.Slots.{is_certain as stands_certain};
ghost use Rattle.conflict_rules.specs.SideViews.{side_seen};
ghost use Rattle.conflict_rules.specs.SlotViews.{level_seen};
ghost use Rattle.owner_partition.specs.StaticPhases.{loops_of};
ghost use Rattle.nest_rows.specs.Views.{heads_of};

use crate::producer::Side;
use nest_rows::{Around, is_prefix};
use owner_partition::StaticPhase;

/// Two static phases by their numbers, from 1, and a level: the common loop, from 1, that is at an
/// earlier trip for the first; 0 where all common loops are equal.
#[derive(Clone, Copy)]
pub struct Level<'x, 'a> {
    pub s: u32,
    pub first: &'x StaticPhase<'a>,
    pub t: u32,
    pub second: &'x StaticPhase<'a>,
    pub level: usize,
}

impl Level<'_, '_> {
    /// Whether the boundary in front of the phase with this number, from 1, and these Outer loops
    /// is certain there: behind the first instance, or in front of the second.
    pub fn is_certain(&self, side: Side, phase: u32, outer: &[Around]) -> bool
        ensures { result ≡ stands_certain (side_seen side) (level_seen self.now) phase
            (heads_of outer.now) }
    {
        match side {
            Side::First => self.is_behind_first(phase, outer),
            Side::Second => self.is_before_second(phase, outer),
        }
    }

    // Whether it is certain behind the first instance.
    fn is_behind_first(&self, phase: u32, outer: &[Around]) -> bool
        ensures { result
            ≡ stands_behind_first
            (heads_of (loops_of self.now.first.now.outer)) self.now.s self.now.t self.now.level
            phase (heads_of outer.now) }
    {
        let inside = if self.level == 0 {
            phase <= self.t
        } else {
            self.level <= outer.len()
        };
        self.s < phase && inside && is_prefix(outer, self.first.outer.as_slice())
    }

    // Whether it is certain in front of the second.
    fn is_before_second(&self, phase: u32, outer: &[Around]) -> bool
        ensures { result ≡ stands_before_second (heads_of (loops_of self.now.first.now.outer))
            (heads_of (loops_of self.now.second.now.outer)) self.now.s self.now.t self.now.level
            phase (heads_of outer.now) }
    {
        let inside = if self.level == 0 {
            self.s < phase && !is_prefix(outer, self.first.outer.as_slice())
        } else {
            self.level <= outer.len()
        };
        phase <= self.t && inside && is_prefix(outer, self.second.outer.as_slice())
    }
}
