// Slots: two static phases and a level.

ghost use Rattle.std.specs.Prelude.{◌≡◌, ◌≤◌};
ghost use Rattle.comm_system.specs.Levels.{common as common_of};
ghost use Rattle.comm_system.specs.PhaseViews.{phase_seen};
ghost use Rattle.conflict_rules.specs.SlotViews.{level_seen};
ghost use Rattle.comm_system.specs.SlotViews.{slot_seen};

use crate::phase::Phase;
use conflict_rules::level::Level;
use nest_rows::common;

/// Two static phases by their numbers, from 1, and a level: the common loop, from 1, that is at an
/// earlier trip for the first; 0 where all common loops are equal.
#[derive(Clone, Copy)]
pub struct Slot<'b, 'a> {
    pub s: u32,
    pub first: &'b Phase<'a>,
    pub t: u32,
    pub second: &'b Phase<'a>,
    pub level: u32,
}

impl<'a> Slot<'_, 'a> {
    // How many loops the two phases have in common: at most six are round one.
    #[tactic(auto, using(crate::proofs::FewLoops::few_in_common))]
    pub(crate) fn common(&self) -> u32
        ensures count { result ≡ common_of (phase_seen self.now.first.now).outer
            (phase_seen self.now.second.now).outer }
        ensures few { result ≤ 6 }
    {
        let loops = common(
            self.first.text.outer.as_slice(),
            self.second.text.outer.as_slice(),
        );
        loops as u32
    }

    // The two phases in the text, at the level.
    pub(crate) fn in_text(&self) -> Level<'_, 'a>
        ensures { level_seen result ≡ slot_seen self.now }
    {
        Level {
            s: self.s,
            first: &self.first.text,
            t: self.t,
            second: &self.second.text,
            level: self.level as usize,
        }
    }
}
